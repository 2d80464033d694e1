//! The sets in the table of pairs, each read by one query.

ghost use Rattle.std.specs.Prelude.{◌≡◌, map};
ghost use Rattle.sqlite.specs.Held.{state};
ghost use Rattle.hub_store.specs.inner.Adds as spec;
ghost use Rattle.hub_store.specs.inner.Adds.{Adds, pair_shown};
ghost use Rattle.hub_store.specs.inner.PairKinds.{pairs_of};
ghost use Rattle.hub_store.specs.inner.Queries.{IsReadInside};

use crate::into_edit::put_shown;
use crate::pair_kind::PairKind;
use crate::query::ask;
use circle::directory::{Arrangement, Client, Connection, GroupMember, Membership};
use hub_state::StateRows;
use sqlite::{Alter, Error, Row, Transaction, params};
use std::alloc::Global;

/// All pairs of the set, in the order of their numbers.
fn ask_all<S: Alter>(tx: &mut Transaction<'_, S>, kind: PairKind) -> Result<Vec<Row>, Error>
    ensures same_reference { tx.new.conn.ghost_name ≡ tx.old.conn.ghost_name }
    ensures read { IsReadInside (state S.Store tx.old.conn.now)
        (state S.Store tx.new.conn.now) (λ s rows.
        rows.items ≡ map pair_shown (pairs_of kind s.directory)) result }
{
    let rows = ask(
        tx,
        "SELECT a, b, value FROM pair WHERE kind = ?1 ORDER BY a, b",
        params![kind.name()],
    )?;
    Ok(rows)
}

/// Adds the clients.
fn add_clients<S: Alter>(
    tx: &mut Transaction<'_, S>,
    alloc: Global,
    rows: StateRows,
) -> Result<StateRows, Error>
    ensures same_reference { tx.new.conn.ghost_name ≡ tx.old.conn.ghost_name }
    ensures read { IsReadInside (state S.Store tx.old.conn.now) (state S.Store tx.new.conn.now)
        (Adds spec.client_edits rows) result }
{
    let shown = ask_all(tx, PairKind::Client)?;
    put_shown::<Client>(alloc, &shown, rows)
}

/// Adds the memberships.
fn add_memberships<S: Alter>(
    tx: &mut Transaction<'_, S>,
    alloc: Global,
    rows: StateRows,
) -> Result<StateRows, Error>
    ensures same_reference { tx.new.conn.ghost_name ≡ tx.old.conn.ghost_name }
    ensures read { IsReadInside (state S.Store tx.old.conn.now) (state S.Store tx.new.conn.now)
        (Adds spec.membership_edits rows) result }
{
    let shown = ask_all(tx, PairKind::Membership)?;
    put_shown::<Membership>(alloc, &shown, rows)
}

/// Adds the connections.
fn add_connections<S: Alter>(
    tx: &mut Transaction<'_, S>,
    alloc: Global,
    rows: StateRows,
) -> Result<StateRows, Error>
    ensures same_reference { tx.new.conn.ghost_name ≡ tx.old.conn.ghost_name }
    ensures read { IsReadInside (state S.Store tx.old.conn.now) (state S.Store tx.new.conn.now)
        (Adds spec.connection_edits rows) result }
{
    let shown = ask_all(tx, PairKind::Connection)?;
    put_shown::<Connection>(alloc, &shown, rows)
}

/// Adds the members of groups.
fn add_group_members<S: Alter>(
    tx: &mut Transaction<'_, S>,
    alloc: Global,
    rows: StateRows,
) -> Result<StateRows, Error>
    ensures same_reference { tx.new.conn.ghost_name ≡ tx.old.conn.ghost_name }
    ensures read { IsReadInside (state S.Store tx.old.conn.now) (state S.Store tx.new.conn.now)
        (Adds spec.group_member_edits rows) result }
{
    let shown = ask_all(tx, PairKind::GroupMember)?;
    put_shown::<GroupMember>(alloc, &shown, rows)
}

/// Adds the arrangements.
fn add_arrangements<S: Alter>(
    tx: &mut Transaction<'_, S>,
    alloc: Global,
    rows: StateRows,
) -> Result<StateRows, Error>
    ensures same_reference { tx.new.conn.ghost_name ≡ tx.old.conn.ghost_name }
    ensures read { IsReadInside (state S.Store tx.old.conn.now) (state S.Store tx.new.conn.now)
        (Adds spec.arrangement_edits rows) result }
{
    let shown = ask_all(tx, PairKind::Arrangement)?;
    put_shown::<Arrangement>(alloc, &shown, rows)
}

/// Adds the five sets.
pub(crate) fn add_pairs<S: Alter>(
    tx: &mut Transaction<'_, S>,
    alloc: Global,
    rows: StateRows,
) -> Result<StateRows, Error>
    ensures same_reference { tx.new.conn.ghost_name ≡ tx.old.conn.ghost_name }
    ensures read { IsReadInside (state S.Store tx.old.conn.now) (state S.Store tx.new.conn.now)
        (Adds spec.pair_edits rows) result }
{
    let rows = add_clients(tx, alloc, rows)?;
    let rows = add_memberships(tx, alloc, rows)?;
    let rows = add_connections(tx, alloc, rows)?;
    let rows = add_group_members(tx, alloc, rows)?;
    add_arrangements(tx, alloc, rows)
}

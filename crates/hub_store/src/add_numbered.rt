//! The sets of the directory whose rows have numbers, each read by one query.

ghost use Rattle.std.specs.Prelude.{◌≡◌};
ghost use Rattle.sqlite.specs.Held.{state};
ghost use Rattle.hub_store.specs.inner.Adds as spec;
ghost use Rattle.hub_store.specs.inner.Adds.{Adds};
ghost use Rattle.hub_store.specs.inner.Queries.{IsReadInside};

use crate::into_edit::put_shown;
use crate::query::ask;
use circle::directory::{Account, Community, Group, Org};
use hub_state::StateRows;
use sqlite::{Alter, Error, Transaction};
use std::alloc::Global;

/// Adds the organisations.
fn add_orgs<S: Alter>(
    tx: &mut Transaction<'_, S>,
    alloc: Global,
    rows: StateRows,
) -> Result<StateRows, Error>
    ensures same_reference { tx.new.conn.ghost_name ≡ tx.old.conn.ghost_name }
    ensures read { IsReadInside (state S.Store tx.old.conn.now) (state S.Store tx.new.conn.now)
        (Adds spec.org_edits rows) result }
{
    let shown = ask(tx, "SELECT number, name FROM org ORDER BY number", &[])?;
    put_shown::<Org>(alloc, &shown, rows)
}

/// Adds the persons with their keys.
fn add_accounts<S: Alter>(
    tx: &mut Transaction<'_, S>,
    alloc: Global,
    rows: StateRows,
) -> Result<StateRows, Error>
    ensures same_reference { tx.new.conn.ghost_name ≡ tx.old.conn.ghost_name }
    ensures read { IsReadInside (state S.Store tx.old.conn.now) (state S.Store tx.new.conn.now)
        (Adds spec.account_edits rows) result }
{
    let shown = ask(
        tx,
        "SELECT number, org, name, role, active, nominated, key FROM person ORDER BY number",
        &[],
    )?;
    put_shown::<Account>(alloc, &shown, rows)
}

/// Adds the communities.
fn add_communities<S: Alter>(
    tx: &mut Transaction<'_, S>,
    alloc: Global,
    rows: StateRows,
) -> Result<StateRows, Error>
    ensures same_reference { tx.new.conn.ghost_name ≡ tx.old.conn.ghost_name }
    ensures read { IsReadInside (state S.Store tx.old.conn.now) (state S.Store tx.new.conn.now)
        (Adds spec.community_edits rows) result }
{
    let shown = ask(
        tx,
        "SELECT number, name FROM community ORDER BY number",
        &[],
    )?;
    put_shown::<Community>(alloc, &shown, rows)
}

/// Adds the groups.
fn add_groups<S: Alter>(
    tx: &mut Transaction<'_, S>,
    alloc: Global,
    rows: StateRows,
) -> Result<StateRows, Error>
    ensures same_reference { tx.new.conn.ghost_name ≡ tx.old.conn.ghost_name }
    ensures read { IsReadInside (state S.Store tx.old.conn.now) (state S.Store tx.new.conn.now)
        (Adds spec.group_edits rows) result }
{
    let shown = ask(
        tx,
        "SELECT number, owner, name, releasability, active FROM grp ORDER BY number",
        &[],
    )?;
    put_shown::<Group>(alloc, &shown, rows)
}

/// Adds the four sets.
pub(crate) fn add_numbered<S: Alter>(
    tx: &mut Transaction<'_, S>,
    alloc: Global,
    rows: StateRows,
) -> Result<StateRows, Error>
    ensures same_reference { tx.new.conn.ghost_name ≡ tx.old.conn.ghost_name }
    ensures read { IsReadInside (state S.Store tx.old.conn.now) (state S.Store tx.new.conn.now)
        (Adds spec.numbered_edits rows) result }
{
    let rows = add_orgs(tx, alloc, rows)?;
    let rows = add_accounts(tx, alloc, rows)?;
    let rows = add_communities(tx, alloc, rows)?;
    add_groups(tx, alloc, rows)
}

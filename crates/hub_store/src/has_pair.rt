//! Whether a set of pairs has two numbers, in a transaction.

ghost use Rattle.std.specs.Prelude.{◌≡◌, IfOk};
ghost use Rattle.sqlite.specs.Held.{state};
ghost use Rattle.circle.specs.Directory.{has_client, has_membership, has_connection, has_arrangement, has_extender};
ghost use Rattle.hub_store.specs.inner.Queries.{IsReadInside};
ghost use Rattle.hub_store.specs.inner.FirstShown.{ShowsFlagOrFalse};

use crate::ask_pairs::ask_between;
use crate::pair_kind::PairKind;
use crate::read_pairs::read_has_pair;
use sqlite::{Alter, Error, Row, Transaction};

pub(crate) fn read_has_client<S: Alter>(
    tx: &mut Transaction<'_, S>,
    org: u32,
    client: u32,
) -> Result<bool, Error>
    ensures same_reference { tx.new.conn.ghost_name ≡ tx.old.conn.ghost_name }
    ensures read { IsReadInside (state S.Store tx.old.conn.now)
        (state S.Store tx.new.conn.now) (λ s found. found ≡
        has_client org client s.directory) result }
{
    read_has_pair(tx, PairKind::Client, org, client)
}

pub(crate) fn read_has_membership<S: Alter>(
    tx: &mut Transaction<'_, S>,
    community: u32,
    org: u32,
) -> Result<bool, Error>
    ensures same_reference { tx.new.conn.ghost_name ≡ tx.old.conn.ghost_name }
    ensures read { IsReadInside (state S.Store tx.old.conn.now)
        (state S.Store tx.new.conn.now) (λ s found. found ≡
        has_membership community org s.directory) result }
{
    read_has_pair(tx, PairKind::Membership, community, org)
}

pub(crate) fn read_has_connection<S: Alter>(
    tx: &mut Transaction<'_, S>,
    low: u32,
    high: u32,
) -> Result<bool, Error>
    ensures same_reference { tx.new.conn.ghost_name ≡ tx.old.conn.ghost_name }
    ensures read { IsReadInside (state S.Store tx.old.conn.now)
        (state S.Store tx.new.conn.now) (λ s found. found ≡
        has_connection low high s.directory) result }
{
    read_has_pair(tx, PairKind::Connection, low, high)
}

pub(crate) fn read_has_arrangement<S: Alter>(
    tx: &mut Transaction<'_, S>,
    source: u32,
    org: u32,
) -> Result<bool, Error>
    ensures same_reference { tx.new.conn.ghost_name ≡ tx.old.conn.ghost_name }
    ensures read { IsReadInside (state S.Store tx.old.conn.now)
        (state S.Store tx.new.conn.now) (λ s found. found ≡
        has_arrangement source org s.directory) result }
{
    read_has_pair(tx, PairKind::Arrangement, source, org)
}

fn is_flagged(rows: &[Row]) -> Result<bool, Error>
    ensures { IfOk result (λ flagged. ShowsFlagOrFalse rows.now flagged) }
{
    match rows.first() {
        None => Ok(false),
        Some(row) => row.get(0),
    }
}

pub(crate) fn read_has_extender<S: Alter>(
    tx: &mut Transaction<'_, S>,
    group: u32,
    org: u32,
) -> Result<bool, Error>
    ensures same_reference { tx.new.conn.ghost_name ≡ tx.old.conn.ghost_name }
    ensures read { IsReadInside (state S.Store tx.old.conn.now)
        (state S.Store tx.new.conn.now) (λ s found. found ≡
        has_extender group org s.directory) result }
{
    let rows = ask_between(tx, PairKind::GroupMember, group, org)?;
    is_flagged(&rows)
}

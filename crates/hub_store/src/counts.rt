//! Counts of what is numbered: the highest number, as a sound state has no gap. Nothing is counted by a scan.

ghost use Rattle.std.specs.Prelude.{◌≡◌, length, IfOk};
ghost use Rattle.sqlite.specs.Held.{state};
ghost use Rattle.hub_store.specs.inner.Queries.{IsReadInside};
ghost use Rattle.hub_store.specs.inner.FirstShown.{ShowsNumberOrZero};

use crate::query::ask;
use sqlite::{Alter, Error, Row, Transaction};

/// The number in the first row, and 0 if there is no row.
pub(crate) fn number_in(rows: &[Row]) -> Result<u32, Error>
    ensures { IfOk result (λ number. ShowsNumberOrZero rows.now number) }
{
    match rows.first() {
        None => Ok(0),
        Some(row) => row.get(0),
    }
}

pub(crate) fn count_orgs<S: Alter>(tx: &mut Transaction<'_, S>) -> Result<u32, Error>
    ensures same_reference { tx.new.conn.ghost_name ≡ tx.old.conn.ghost_name }
    ensures read { IsReadInside (state S.Store tx.old.conn.now)
        (state S.Store tx.new.conn.now) (λ s count. count ≡ length s.directory.orgs) result }
{
    let rows = ask(
        tx,
        "SELECT number FROM org WHERE number > 0 ORDER BY number DESC LIMIT 1",
        &[],
    )?;
    number_in(&rows)
}

pub(crate) fn count_persons<S: Alter>(tx: &mut Transaction<'_, S>) -> Result<u32, Error>
    ensures same_reference { tx.new.conn.ghost_name ≡ tx.old.conn.ghost_name }
    ensures read { IsReadInside (state S.Store tx.old.conn.now)
        (state S.Store tx.new.conn.now) (λ s count. count ≡ length s.directory.accounts) result }
{
    let rows = ask(
        tx,
        "SELECT number FROM person WHERE number > 0 ORDER BY number DESC LIMIT 1",
        &[],
    )?;
    number_in(&rows)
}

pub(crate) fn count_communities<S: Alter>(tx: &mut Transaction<'_, S>) -> Result<u32, Error>
    ensures same_reference { tx.new.conn.ghost_name ≡ tx.old.conn.ghost_name }
    ensures read { IsReadInside (state S.Store tx.old.conn.now)
        (state S.Store tx.new.conn.now) (λ s count. count ≡ length s.directory.communities) result }
{
    let rows = ask(
        tx,
        "SELECT number FROM community WHERE number > 0 ORDER BY number DESC LIMIT 1",
        &[],
    )?;
    number_in(&rows)
}

pub(crate) fn count_groups<S: Alter>(tx: &mut Transaction<'_, S>) -> Result<u32, Error>
    ensures same_reference { tx.new.conn.ghost_name ≡ tx.old.conn.ghost_name }
    ensures read { IsReadInside (state S.Store tx.old.conn.now)
        (state S.Store tx.new.conn.now) (λ s count. count ≡ length s.directory.groups) result }
{
    let rows = ask(
        tx,
        "SELECT number FROM grp WHERE number > 0 ORDER BY number DESC LIMIT 1",
        &[],
    )?;
    number_in(&rows)
}

//! Incidents as they are listed.

ghost use Rattle.std.specs.Prelude.{◌≡◌, false};
ghost use Rattle.sqlite.specs.Held.{state};
ghost use Rattle.hub_state.specs.Reads.{entries_after};
ghost use Rattle.hub_store.specs.inner.Queries.{IsReadInside, IsReadOutside};

use crate::from_row::all;
use crate::query::ask;
use hub_state::Entry;
use sqlite::{Alter, Connection, Error, Transaction, params};
use std::alloc::Global;

fn read_entries<S: Alter>(
    tx: &mut Transaction<'_, S>,
    alloc: Global,
    number: u32,
    most: u32,
) -> Result<Vec<Entry>, Error>
    ensures same_reference { tx.new.conn.ghost_name ≡ tx.old.conn.ghost_name }
    ensures read { IsReadInside (state S.Store tx.old.conn.now)
        (state S.Store tx.new.conn.now) (λ s found.
        found.items ≡ entries_after number most s) result }
{
    let rows = ask(
        tx,
        "SELECT number, revision, source FROM incident WHERE number > ?1 ORDER BY number LIMIT ?2",
        params![number, most],
    )?;
    all(alloc, &rows)
}

/// The first `most` incidents above a number, in the order of their numbers.
pub(crate) fn list_entries<S: Alter>(
    conn: &mut Connection<S>,
    alloc: Global,
    number: u32,
    most: u32,
) -> Result<Vec<Entry>, Error>
    requires { conn.old.in_transaction ≡ false }
    ensures idle { conn.new.in_transaction ≡ false }
    ensures answers { IsReadOutside (state S.Store conn.old) (state S.Store conn.new) (λ s found.
        found.items ≡ entries_after number most s) result }
{
    let mut tx = conn.transaction();
    let found = read_entries(&mut tx, alloc, number, most);
    tx.rollback();
    found
}

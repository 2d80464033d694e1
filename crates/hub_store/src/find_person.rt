//! The person with a key.

ghost use Rattle.std.specs.Prelude.{◌≡◌, false};
ghost use Rattle.sqlite.specs.Held.{state};
ghost use Rattle.hub_state.specs.Reads.{person_by_key};
ghost use Rattle.hub_store.specs.inner.Queries.{IsReadInside, IsReadOutside};

use crate::from_row::first;
use crate::query::ask;
use circle::directory::Person;
use sqlite::{Alter, Connection, Error, Transaction, params};
use std::alloc::Global;

pub(crate) fn read_person<S: Alter>(
    tx: &mut Transaction<'_, S>,
    alloc: Global,
    key: &[u8; 32],
) -> Result<Option<Person>, Error>
    ensures same_reference { tx.new.conn.ghost_name ≡ tx.old.conn.ghost_name }
    ensures read { IsReadInside (state S.Store tx.old.conn.now)
        (state S.Store tx.new.conn.now) (λ s found. found ≡ person_by_key key.now s) result }
{
    let rows = ask(
        tx,
        "SELECT number, org, name, role, active, nominated FROM person WHERE key = ?1",
        params![key.as_slice()],
    )?;
    first(alloc, &rows)
}

/// The person with this key, active or suspended. None if there is none.
pub(crate) fn find_person<S: Alter>(
    conn: &mut Connection<S>,
    alloc: Global,
    key: &[u8; 32],
) -> Result<Option<Person>, Error>
    requires { conn.old.in_transaction ≡ false }
    ensures idle { conn.new.in_transaction ≡ false }
    ensures answers { IsReadOutside (state S.Store conn.old)
        (state S.Store conn.new) (λ s found. found ≡ person_by_key key.now s) result }
{
    let mut tx = conn.transaction();
    let found = read_person(&mut tx, alloc, key);
    tx.rollback();
    found
}

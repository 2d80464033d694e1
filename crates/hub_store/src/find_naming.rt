//! The naming of an incident: what it is known by, without its document.

ghost use Rattle.std.specs.Prelude.{◌≡◌, false};
ghost use Rattle.sqlite.specs.Held.{state};
ghost use Rattle.hub_state.specs.Reads.{naming_of};
ghost use Rattle.hub_store.specs.inner.Queries.{IsReadInside, IsReadOutside};

use crate::from_row::first;
use crate::query::ask;
use hub_state::Naming;
use sqlite::{Alter, Connection, Error, Transaction, params};
use std::alloc::Global;

/// The naming of an incident, in a transaction.
pub(crate) fn read_naming<S: Alter>(
    tx: &mut Transaction<'_, S>,
    alloc: Global,
    incident: u32,
) -> Result<Option<Naming>, Error>
    ensures same_reference { tx.new.conn.ghost_name ≡ tx.old.conn.ghost_name }
    ensures read { IsReadInside (state S.Store tx.old.conn.now)
        (state S.Store tx.new.conn.now) (λ s found. found ≡ naming_of incident s) result }
{
    let rows = ask(
        tx,
        "SELECT number, source, ident, revision, community FROM incident WHERE number = ?1",
        params![incident],
    )?;
    first(alloc, &rows)
}

/// The naming of an incident. None if it is missing.
pub(crate) fn find_naming<S: Alter>(
    conn: &mut Connection<S>,
    alloc: Global,
    incident: u32,
) -> Result<Option<Naming>, Error>
    requires { conn.old.in_transaction ≡ false }
    ensures idle { conn.new.in_transaction ≡ false }
    ensures answers { IsReadOutside (state S.Store conn.old)
        (state S.Store conn.new) (λ s found. found ≡ naming_of incident s) result }
{
    let mut tx = conn.transaction();
    let found = read_naming(&mut tx, alloc, incident);
    tx.rollback();
    found
}

//! The gates of an incident.

ghost use Rattle.std.specs.Prelude.{◌≡◌, false};
ghost use Rattle.sqlite.specs.Held.{state};
ghost use Rattle.hub_state.specs.Reads.{its_gates};
ghost use Rattle.hub_store.specs.inner.Queries.{IsReadInside, IsReadOutside};

use crate::from_row::all;
use crate::query::ask;
use policy::Gates;
use sqlite::{Alter, Connection, Error, Transaction, params};
use std::alloc::Global;

/// The gates of an incident, in a transaction.
pub(crate) fn read_gates<S: Alter>(
    tx: &mut Transaction<'_, S>,
    alloc: Global,
    incident: u32,
) -> Result<Gates, Error>
    ensures same_reference { tx.new.conn.ghost_name ≡ tx.old.conn.ghost_name }
    ensures read { IsReadInside (state S.Store tx.old.conn.now)
        (state S.Store tx.new.conn.now) (λ s found. found ≡ its_gates incident s.gates) result }
{
    let rows = ask(
        tx,
        "SELECT path, level, grp FROM gate WHERE incident = ?1 ORDER BY path",
        params![incident],
    )?;
    let gates = all(alloc, &rows)?;
    Ok(Gates::new(gates))
}

/// The gates of an incident.
pub(crate) fn find_gates<S: Alter>(
    conn: &mut Connection<S>,
    alloc: Global,
    incident: u32,
) -> Result<Gates, Error>
    requires { conn.old.in_transaction ≡ false }
    ensures idle { conn.new.in_transaction ≡ false }
    ensures answers { IsReadOutside (state S.Store conn.old)
        (state S.Store conn.new) (λ s found. found ≡ its_gates incident s.gates) result }
{
    let mut tx = conn.transaction();
    let found = read_gates(&mut tx, alloc, incident);
    tx.rollback();
    found
}

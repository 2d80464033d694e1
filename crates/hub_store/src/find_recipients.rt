//! The recipients of an incident.

ghost use Rattle.std.specs.Prelude.{◌≡◌, false};
ghost use Rattle.sqlite.specs.Held.{state};
ghost use Rattle.hub_state.specs.Reads.{its_recipients};
ghost use Rattle.hub_store.specs.inner.Queries.{IsReadInside, IsReadOutside};

use crate::from_row::all;
use crate::query::ask;
use hub_state::Recipients;
use sqlite::{Alter, Connection, Error, Transaction, params};
use std::alloc::Global;

/// The recipients of an incident, in a transaction.
pub(crate) fn read_recipients<S: Alter>(
    tx: &mut Transaction<'_, S>,
    alloc: Global,
    incident: u32,
) -> Result<Recipients, Error>
    ensures same_reference { tx.new.conn.ghost_name ≡ tx.old.conn.ghost_name }
    ensures read { IsReadInside (state S.Store tx.old.conn.now)
        (state S.Store tx.new.conn.now) (λ s found. found ≡
        its_recipients incident s.recipients) result }
{
    let rows = ask(
        tx,
        "SELECT kind, target FROM recipient WHERE incident = ?1 ORDER BY kind, target",
        params![incident],
    )?;
    let recipients = all(alloc, &rows)?;
    Ok(Recipients::new(recipients))
}

/// The recipients of an incident.
pub(crate) fn find_recipients<S: Alter>(
    conn: &mut Connection<S>,
    alloc: Global,
    incident: u32,
) -> Result<Recipients, Error>
    requires { conn.old.in_transaction ≡ false }
    ensures idle { conn.new.in_transaction ≡ false }
    ensures answers { IsReadOutside (state S.Store conn.old)
        (state S.Store conn.new) (λ s found. found ≡ its_recipients incident s.recipients) result }
{
    let mut tx = conn.transaction();
    let found = read_recipients(&mut tx, alloc, incident);
    tx.rollback();
    found
}

//! The permissions of an incident.

ghost use Rattle.std.specs.Prelude.{◌≡◌, false};
ghost use Rattle.sqlite.specs.Held.{state};
ghost use Rattle.hub_state.specs.Reads.{its_permissions};
ghost use Rattle.hub_store.specs.inner.Queries.{IsReadInside, IsReadOutside};

use crate::from_row::all;
use crate::query::ask;
use policy::Permissions;
use sqlite::{Alter, Connection, Error, Transaction, params};
use std::alloc::Global;

/// The permissions of an incident, in a transaction.
pub(crate) fn read_permissions<S: Alter>(
    tx: &mut Transaction<'_, S>,
    alloc: Global,
    incident: u32,
) -> Result<Permissions, Error>
    ensures same_reference { tx.new.conn.ghost_name ≡ tx.old.conn.ghost_name }
    ensures read { IsReadInside (state S.Store tx.old.conn.now)
        (state S.Store tx.new.conn.now) (λ s found. found ≡
        its_permissions incident s.permissions) result }
{
    let rows = ask(
        tx,
        "SELECT path, kind, target, until FROM permission WHERE incident = ?1 ORDER BY path, kind, target",
        params![incident],
    )?;
    let permissions = all(alloc, &rows)?;
    Ok(Permissions::new(permissions))
}

/// The permissions of an incident.
pub(crate) fn find_permissions<S: Alter>(
    conn: &mut Connection<S>,
    alloc: Global,
    incident: u32,
) -> Result<Permissions, Error>
    requires { conn.old.in_transaction ≡ false }
    ensures idle { conn.new.in_transaction ≡ false }
    ensures answers { IsReadOutside (state S.Store conn.old)
        (state S.Store conn.new) (λ s found. found ≡
        its_permissions incident s.permissions) result }
{
    let mut tx = conn.transaction();
    let found = read_permissions(&mut tx, alloc, incident);
    tx.rollback();
    found
}

//! Bringing tables of an older version to the newest.

ghost use Rattle.std.specs.Prelude.{◌≡◌, false, IfOk, IfErr, IsTrue};

use super::{OpenFault, SqlShelf, open_fault};
use crate::failures::fault_of;
use crate::migrate::{is_older, renew};
use crate::version::{NEWEST, version};
use sqlite::{Alter, Connection};
use std::alloc::Global;

impl<S: Alter> SqlShelf<S> {
    ghost use Rattle.sqlite.specs.Held.{state};
    ghost use Rattle.hub_store.specs.Opening.{IsBrought, IsNotBrought, IsMigrated, IsUnmigrated};
    ghost use Rattle.hub_store.specs.Opening as spec;

    /// Brings the tables of an older version to the newest.
    fn from_version(
        alloc: Global,
        mut conn: Connection<S>,
        found: u32,
    ) -> Result<SqlShelf<S>, (OpenFault, Connection<S>)>
        requires older { IsTrue (spec.is_older found) }
        requires waits { conn.in_transaction ≡ false }
        ensures brought { IfOk result (λ shelf.
            IsBrought found (state S.Store conn) (state S.Store shelf.conn) shelf.failures) }
        ensures refused { IfErr result (λ e.
            IsNotBrought found (state S.Store conn) (state S.Store e.1) e.0) }
        ensures idle { IfErr result (λ e. e.1.in_transaction ≡ false) }
    {
        match renew(&mut conn, alloc, found) {
            Ok(()) => Ok(SqlShelf::over(alloc, conn)),
            Err(error) => Err((open_fault(fault_of(error)), conn)),
        }
    }

    /// Takes a connection whose store has the hub's tables of the newest version or an older one, and brings them to
    /// the newest in one transaction, with the same content. Nothing changes if they are of the newest. If it fails,
    /// the connection comes back with its content and its version, whatever store it is.
    pub fn migrate(
        alloc: Global,
        mut conn: Connection<S>,
    ) -> Result<SqlShelf<S>, (OpenFault, Connection<S>)>
        requires { conn.in_transaction ≡ false }
        ensures opened { IfOk result (λ shelf.
            IsMigrated (state S.Store conn) (state S.Store shelf.conn) shelf.failures) }
        ensures refused { IfErr result (λ e.
            IsUnmigrated (state S.Store conn) (state S.Store e.1) e.0) }
        ensures idle { IfErr result (λ e. e.1.in_transaction ≡ false) }
    {
        match version(&mut conn) {
            Ok(Some(NEWEST)) => Ok(SqlShelf::over(alloc, conn)),
            Ok(Some(found)) if is_older(found) => SqlShelf::from_version(alloc, conn, found),
            Ok(Some(other)) => Err((OpenFault::WrongVersion(other), conn)),
            Ok(None) => Err((OpenFault::NotOurs, conn)),
            Err(fault) => Err((open_fault(fault), conn)),
        }
    }
}

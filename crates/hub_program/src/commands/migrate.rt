//! `migrate`: bringing a store's tables to the newest version.
ghost use Rattle.std.specs.Prelude.{◌≡◌, false};

use crate::store::{close, connect, open_fault};
use hub_service::{Fault, Status, print};
use hub_store::{NEWEST, SqlShelf};
use sqlite::{Alter, Connection};
use std::alloc::Global;
use std::io::Write;

/// Returns the shelf over a connection, with its tables brought to the newest version.
fn migrate_over<S: Alter + Drop>(alloc: Global, conn: Connection<S>) -> Result<SqlShelf<S>, Fault>
    requires { conn.in_transaction ≡ false }
{
    match SqlShelf::migrate(alloc, conn) {
        Ok(shelf) => Ok(shelf),
        Err((fault, _)) => Err(open_fault(fault)),
    }
}

/// Brings the store to the newest version. Fails with `Failed` also if that is in the log alone.
pub fn run<W: Write>(rt: &HostRuntime, store: &str, writer: &mut W) -> Result<Status, Fault> {
    close(migrate_over(rt.alloc(), connect(rt, store)?)?)?;
    let line = format!(in rt.alloc(); "version {NEWEST}\n")?;
    print(writer, line.as_str())
}

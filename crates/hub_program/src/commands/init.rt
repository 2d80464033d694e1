//! `init`: a store with one organisation and its administrator.
ghost use Rattle.std.specs.Prelude.{◌≡◌, false};

use crate::new_file::NewFile;
use crate::store::{FileShelf, close, connect};
use circle::name::Name;
use hub_core::ShelfFault;
use hub_service::{Fault, Reason, Status, digest_of, print, put_first_rows, shelf_fault};
use hub_store::SqlShelf;
use sqlite::{Alter, Connection};
use std::alloc::Global;
use std::io::Write;

/// Makes the tables and their first rows over a connection without tables.
fn make_over<S: Alter + Drop>(
    alloc: Global,
    conn: Connection<S>,
    name: Name,
    key: [u8; 32],
) -> Result<SqlShelf<S>, ShelfFault>
    requires { conn.in_transaction ≡ false }
{
    match SqlShelf::create(alloc, conn) {
        Ok(mut shelf) => {
            put_first_rows(alloc, &mut shelf, name, key)?;
            Ok(shelf)
        }
        Err((fault, _)) => Err(fault),
    }
}

/// Makes the tables and their first rows in the file, which must be there.
fn make_in(rt: &HostRuntime, store: &str, name: Name, key: [u8; 32]) -> Result<FileShelf, Fault> {
    match make_over(rt.alloc(), connect(rt, store)?, name, key) {
        Ok(shelf) => Ok(shelf),
        Err(fault) => Err(shelf_fault(fault)),
    }
}

/// Makes the store in a file without tables. Fails with `BadArgument` if the name or the digest is invalid, and with
/// `Failed` if there are tables already, or if the rows are in the log alone. Removes a file that it made if no table
/// gets into it.
pub fn run<W: Write>(
    rt: &HostRuntime,
    store: &str,
    name: &str,
    digest: &str,
    writer: &mut W,
) -> Result<Status, Fault> {
    let Some(name) = Name::of(rt.alloc(), name)? else {
        return Err(Fault::BadArgument);
    };
    let Some(key) = digest_of(digest) else {
        return Err(Fault::BadArgument);
    };
    let new = NewFile::make(rt, store)?;
    match make_in(rt, store, name, key) {
        Ok(shelf) => close(shelf)?,
        Err(fault) => {
            // who has it open may be making a store
            if fault != Fault::FileFailed(Reason::Locked) {
                new.remove(rt);
            }
            return Err(fault);
        }
    }
    print(writer, "created\n")
}

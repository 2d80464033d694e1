//! The store in a file.
ghost use Rattle.std.specs.Prelude.{◌≡◌, false, IfOk};
ghost use Rattle.hub_program.specs.Openings.{told_of_opening};

use crate::opening::{open_rows, tell_opening};
use hub_core::ShelfFault;
use hub_service::{Fault, Reason, shelf_fault};
use hub_store::{OpenFault, SqlShelf};
use kept_documents::{KeptDocuments, MOST_WEIGHT};
use kept_rows::KeptRows;
use sqlite::{Alter, Connection, Error, ErrorCode, File, FileStore};
use std::alloc::Global;
use std::fs;
use std::io::{ErrorKind, Write};
use std::os::unix::fs::MetadataExt;

/// The hub's tables in a file.
pub type FileShelf = SqlShelf<FileStore<File>>;

/// What a hub serves: the tables, with the documents read lately and all other rows in memory.
pub type ServedShelf = KeptRows<KeptDocuments<FileShelf, MOST_WEIGHT>>;

/// Returns the fault for a store that isn't opened.
pub fn open_fault(fault: OpenFault) -> Fault
    ensures { result ≡ told_of_opening fault }
{
    match fault {
        OpenFault::NotOurs => Fault::NotOurs,
        OpenFault::WrongVersion(_) => Fault::WrongVersion,
        OpenFault::Failed => Fault::Failed,
        OpenFault::NoMemory => Fault::NoMemory,
    }
}

/// Returns why the system doesn't open the file.
pub fn system_fault(kind: ErrorKind) -> Fault {
    match kind {
        ErrorKind::NotFound => Fault::FileFailed(Reason::NoSuchFile),
        ErrorKind::PermissionDenied => Fault::FileFailed(Reason::NoPermission),
        ErrorKind::StorageFull => Fault::FileFailed(Reason::DiskFull),
        ErrorKind::OutOfMemory => Fault::NoMemory,
        _ => Fault::Failed,
    }
}

/// Why there is no connection over a file that is there, or why it isn't closed.
fn connection_fault(error: Error) -> Fault {
    match error {
        Error::SqliteFailure(ErrorCode::OutOfMemory) => Fault::NoMemory,
        Error::SqliteFailure(ErrorCode::DiskFull) => Fault::FileFailed(Reason::DiskFull),
        Error::SqliteFailure(ErrorCode::DatabaseBusy) => Fault::FileFailed(Reason::Locked),
        _ => Fault::Failed,
    }
}

/// Returns a connection over the file, which must be there, and its log. The log is made with the file's mode if it is
/// missing.
pub fn connect(rt: &HostRuntime, path: &str) -> Result<Connection<FileStore<File>>, Fault>
    ensures { IfOk result (λ conn. conn.in_transaction ≡ false) }
{
    // `Connection::open` would make a missing file, and doesn't say which file it refuses for its names.
    match fs::metadata(rt, path) {
        Err(error) => Err(system_fault(error.kind())),
        Ok(found) if found.is_file() && found.nlink() > 1 => {
            Err(Fault::FileFailed(Reason::SecondName))
        }
        Ok(_) => Connection::open(rt, path).map_err(connection_fault),
    }
}

/// Returns the shelf over a connection whose tables are of the newest version.
fn open_over<S: Alter + Drop>(alloc: Global, conn: Connection<S>) -> Result<SqlShelf<S>, Fault>
    requires { conn.in_transaction ≡ false }
{
    match SqlShelf::open(alloc, conn) {
        Ok(shelf) => Ok(shelf),
        Err((fault, _)) => Err(open_fault(fault)),
    }
}

/// Returns the shelf over the file. Fails with `WrongVersion` or `NotOurs` if its tables aren't of the newest version.
pub fn open_store(rt: &HostRuntime, path: &str) -> Result<FileShelf, Fault> {
    open_over(rt.alloc(), connect(rt, path)?)
}

/// Returns the shelf that a hub serves, and prints how far the opening is. Fails as `open_store`, or as the shelf does
/// while it is read.
pub fn open_served<E: Write>(
    rt: &HostRuntime,
    path: &str,
    errors: &mut E,
) -> Result<ServedShelf, Fault> {
    tell_opening(errors);
    let documents = match KeptDocuments::new(rt.alloc(), open_store(rt, path)?) {
        Ok(documents) => documents,
        Err((_, shelf)) => return Err(closed_by(ShelfFault::NoMemory, shelf)),
    };
    match open_rows(rt.alloc(), documents, errors) {
        Ok(served) => Ok(served),
        Err((fault, documents)) => Err(closed_by(fault, documents.into_shelf())),
    }
}

/// Closes a store that was only read. Returns the fault for that of the shelf.
fn closed_by(fault: ShelfFault, shelf: FileShelf) -> Fault {
    // nothing was changed
    let _ = close(shelf);
    shelf_fault(fault)
}

/// Closes the store that a hub served, as `close` does.
pub fn close_served(shelf: ServedShelf) -> Result<(), Fault> {
    close(shelf.into_shelf().into_shelf())
}

/// Closes the store, which moves its log into its file. If that fails, what was committed is in the log alone, where the
/// next open finds it.
pub fn close(shelf: FileShelf) -> Result<(), Fault> {
    shelf.release().close().map_err(connection_fault)
}

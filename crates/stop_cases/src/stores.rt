//! Stores over the two files.

use crate::files::Stopping;
use hub_core::ShelfFault;
use hub_store::{OpenFault, SqlShelf};
use sqlite::{Alter, Connection, FileStore, Options};
use sqlite_disk::Files;
use std::alloc::{AllocError, Global};
use trying_shelves::{are_run, make_tables, open_tables};

pub type Stored = FileStore<Stopping>;

/// How a store is taken.
#[derive(Clone, Copy)]
pub enum Way {
    /// New tables are made.
    Make,
    /// The tables are opened.
    Open,
    /// The tables of this older version are migrated to the newest.
    Migrate(u32),
}

/// The shelf over which steps are played and content is read.
#[derive(Clone, Copy)]
pub enum Over {
    Tables,
    /// Tables whose rows are kept in memory.
    Rows,
}

impl Way {
    /// Returns the words that precede the replies of a store that had to be taken in this way.
    pub fn words(self, alloc: Global) -> Result<String, AllocError> {
        match self {
            Way::Make => String::from_str(alloc, "not ours, then made"),
            Way::Open => Ok(String::new(alloc)),
            Way::Migrate(version) => format!(in alloc; "version {version}, then migrated"),
        }
    }
}

/// Returns options for a small memory. The pages of a case fit, and written ones go to the log in several writes. The
/// log is copied into the database file at so few pages that this happens within a list.
fn options() -> Options {
    Options {
        cache_pages: 64,
        spill_pages: 4,
        checkpoint_frames: 4,
        seed: 1,
    }
}

/// Returns a connection over the files, or the files if they aren't opened.
fn connect(alloc: Global, files: Files<Stopping>) -> Result<Connection<Stored>, Files<Stopping>> {
    if !files.may_be_used() {
        return Err(files);
    }
    match Connection::open_files(alloc, files, options()) {
        Ok(conn) => Ok(conn),
        Err((_, left)) => Err(left.into_files()),
    }
}

/// Returns the files as they are, without a call of them.
fn cut_off(conn: Connection<Stored>) -> Files<Stopping> {
    conn.into_store().close()
}

/// Closes the files in order. Returns whether they were closed.
fn close(conn: Connection<Stored>) -> (bool, Files<Stopping>) {
    match conn.close_files() {
        Ok(files) => (true, files),
        Err((_, store)) => (false, store.close()),
    }
}

/// Returns the files of a shelf that is left, closed in order if `in_order`, else as they are, and whether they were
/// closed.
pub fn leave(shelf: SqlShelf<Stored>, in_order: bool) -> (bool, Files<Stopping>) {
    let conn = shelf.release();
    if in_order {
        close(conn)
    } else {
        (false, cut_off(conn))
    }
}

fn open_fault(fault: ShelfFault) -> OpenFault {
    match fault {
        ShelfFault::NoMemory => OpenFault::NoMemory,
        ShelfFault::Failed => OpenFault::Failed,
    }
}

fn taken<S: Alter + Drop>(
    alloc: Global,
    conn: Connection<S>,
    way: Way,
) -> Result<SqlShelf<S>, (OpenFault, Connection<S>)> {
    match way {
        Way::Make => match make_tables(alloc, conn) {
            Ok(shelf) => Ok(shelf),
            Err((fault, conn)) => Err((open_fault(fault), conn)),
        },
        Way::Open => open_tables(alloc, conn, false),
        Way::Migrate(_) => open_tables(alloc, conn, true),
    }
}

/// Returns the shelf over these files. Else returns the files as they are then and, if they were opened, why there is
/// no shelf.
pub fn shelf_in(
    alloc: Global,
    files: Files<Stopping>,
    way: Way,
) -> Result<SqlShelf<Stored>, (Option<OpenFault>, Files<Stopping>)> {
    let conn = match connect(alloc, files) {
        Ok(conn) => conn,
        Err(files) => return Err((None, files)),
    };
    match taken(alloc, conn, way) {
        Ok(shelf) => Ok(shelf),
        Err((fault, conn)) => Err((Some(fault), cut_off(conn))),
    }
}

/// Returns the files of a connection, closed, after these statements; none if one is refused.
fn stated_over(conn: Connection<Stored>, statements: &str) -> Option<Files<Stopping>> {
    let mut conn = conn;
    let are_run = are_run(&mut conn, statements);
    let (is_closed, files) = close(conn);
    if are_run && is_closed {
        Some(files)
    } else {
        None
    }
}

/// Returns the files, closed, after these statements; none if one is refused.
pub fn run_statements(
    alloc: Global,
    files: Files<Stopping>,
    statements: &str,
) -> Option<Files<Stopping>> {
    match connect(alloc, files) {
        Ok(conn) => stated_over(conn, statements),
        Err(_) => None,
    }
}

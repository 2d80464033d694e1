//! Stores in memory, in which tables are made or opened.

use crate::tables::Tables;
use hub_core::ShelfFault;
use hub_store::{OpenFault, SqlShelf};
use sqlite::{Alter, Connection, MemStore};
use std::alloc::{AllocError, Global};

/// A store in memory.
#[derive(Drop)]
pub struct Store {
    conn: Connection<MemStore>,
}

/// Makes new tables over any connection. Returns the connection with the fault if they aren't made.
pub fn make_tables<S: Alter + Drop>(
    alloc: Global,
    conn: Connection<S>,
) -> Result<SqlShelf<S>, (ShelfFault, Connection<S>)> {
    if conn.is_autocommit() {
        SqlShelf::create(alloc, conn)
    } else {
        Err((ShelfFault::Failed, conn))
    }
}

/// Opens the tables of any connection, or migrates them to the newest version. Returns the connection with the fault if
/// that fails.
pub fn open_tables<S: Alter + Drop>(
    alloc: Global,
    conn: Connection<S>,
    migrates: bool,
) -> Result<SqlShelf<S>, (OpenFault, Connection<S>)> {
    if !conn.is_autocommit() {
        return Err((OpenFault::Failed, conn));
    }
    if migrates {
        SqlShelf::migrate(alloc, conn)
    } else {
        SqlShelf::open(alloc, conn)
    }
}

/// Returns how many rows a statement of any connection changes, or none if it is refused.
fn change<S: Alter>(conn: &mut Connection<S>, statement: &str) -> Option<usize> {
    conn.execute(statement, &[]).ok()
}

/// Runs statements of any connection. Returns whether all were run.
pub fn are_run<S: Alter>(conn: &mut Connection<S>, statements: &str) -> bool {
    conn.execute_batch(statements).is_ok()
}

/// Returns the texts of the first column that a query of any connection has, or none if it is refused. A value that is
/// no text is the empty text.
fn column<S: Alter>(
    conn: &mut Connection<S>,
    alloc: Global,
    query: &str,
) -> Result<Option<Vec<String>>, AllocError> {
    let Ok(rows) = conn.query_all(query, &[]) else {
        return Ok(None);
    };
    let mut texts = Vec::new(alloc);
    for row in &rows {
        texts.push(row.get(0).unwrap_or(String::new(alloc)))?;
    }
    Ok(Some(texts))
}

impl Store {
    /// Makes an empty store.
    pub fn new(alloc: Global) -> Result<Store, AllocError> {
        Ok(Store::over(Connection::open_in_memory(alloc)?))
    }

    /// Returns the store of a connection.
    pub(crate) fn over(conn: Connection<MemStore>) -> Store {
        Store { conn }
    }

    /// Returns how many rows the statement changes, or none if it is refused.
    pub fn change(&mut self, statement: &str) -> Option<usize> {
        change(&mut self.conn, statement)
    }

    /// Runs statements, which have semicolons between them. Returns whether all were run.
    pub fn are_run(&mut self, statements: &str) -> bool {
        are_run(&mut self.conn, statements)
    }

    /// Returns the texts of the first column that the query has, or none if it is refused. A value that is no text is
    /// the empty text.
    pub fn column(
        &mut self,
        alloc: Global,
        query: &str,
    ) -> Result<Option<Vec<String>>, AllocError> {
        column(&mut self.conn, alloc, query)
    }

    /// Makes new tables in it. Returns the store with the fault if they aren't made.
    pub fn make(self, alloc: Global) -> Result<Tables, (ShelfFault, Store)> {
        match make_tables(alloc, self.conn) {
            Ok(shelf) => Ok(Tables::over(shelf)),
            Err((fault, conn)) => Err((fault, Store::over(conn))),
        }
    }

    /// Opens its tables, or migrates them to the newest version. Returns the store with the fault if that fails.
    pub fn open(self, alloc: Global, migrates: bool) -> Result<Tables, (OpenFault, Store)> {
        match open_tables(alloc, self.conn, migrates) {
            Ok(shelf) => Ok(Tables::over(shelf)),
            Err((fault, conn)) => Err((fault, Store::over(conn))),
        }
    }
}

//! Rows as values.

ghost use Rattle.std.specs.Prelude.{IfOk};
ghost use Rattle.sqlite_value.specs.Order.{Row as Columns};
ghost use Rattle.hub_store.specs.inner.Shown.{ShowsFirst, ShowsAll};

use sqlite::{Error, ErrorCode, Row};
use std::alloc::Global;

/// What a row of a query is read as. A row that the hub didn't write is an error.
pub(crate) trait FromRow: Sized {
    // the row shows the value
    ghost shows: { Columns → Self → Type 0 };

    fn from_row(alloc: Global, row: &Row) -> Result<Self, Error>
        ensures { IfOk result (λ x. shows row.now x) };
}

/// The error for a row that isn't one of the hub's.
pub(crate) const STRANGE: Error = Error::SqliteFailure(ErrorCode::NotADatabase);

/// The error for want of memory.
pub(crate) const NO_MEMORY: Error = Error::SqliteFailure(ErrorCode::OutOfMemory);

/// The first row as a value. None if there is no row.
pub(crate) fn first<T: FromRow>(alloc: Global, rows: &[Row]) -> Result<Option<T>, Error>
    ensures { IfOk result (λ found. ShowsFirst T.FromRow.shows rows.now found) }
{
    match rows.first() {
        None => Ok(None),
        Some(row) => Ok(Some(T::from_row(alloc, row)?)),
    }
}

/// All rows as values, in their order.
pub(crate) fn all<T: FromRow + Drop>(alloc: Global, rows: &[Row]) -> Result<Vec<T>, Error>
    ensures { IfOk result (λ found. ShowsAll T.FromRow.shows rows.now found.items) }
{
    let mut found = Vec::new(alloc);
    for row in rows {
        found.push(T::from_row(alloc, row)?)?;
    }
    Ok(found)
}

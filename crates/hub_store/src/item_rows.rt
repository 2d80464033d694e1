//! Rows of the table of lines as lines with their places, and all lines of an incident as its document.

ghost use Rattle.std.specs.Prelude.{◌≡◌, ◌↔◌, IfOk};
ghost use Rattle.hub_store.specs.Items.{kind_number, placed_from};
ghost use Rattle.hub_store.specs.inner.Shown.{ShowsAll, ShowsPlaced, ShowsLines};

use crate::from_row::{FromRow, NO_MEMORY, STRANGE};
use iodef_tree::{Document, Kind, Line, OutlineFault, Text};
use sqlite::{Error, ErrorCode, Row};
use std::alloc::Global;

fn kind_of(number: u32) -> Result<Kind, Error>
    ensures { IfOk result (λ kind. kind_number kind ≡ number) }
{
    match number {
        0 => Ok(Kind::Class),
        1 => Ok(Kind::Text),
        2 => Ok(Kind::Value),
        _ => Err(STRANGE),
    }
}

/// A line with its place in its document, from 1.
#[derive(Drop)]
pub(crate) struct PlacedLine {
    pub(crate) place: u64,
    pub(crate) line: Line,
}

impl FromRow for PlacedLine {
    ghost shows = { ShowsPlaced };

    fn from_row(_alloc: Global, row: &Row) -> Result<PlacedLine, Error> {
        Ok(PlacedLine {
            place: row.get(0)?,
            line: Line {
                depth: row.get(1)?,
                name: Text::new(row.get(2)?),
                in_array: row.get(3)?,
                kind: kind_of(row.get(4)?)?,
                text: Text::new(row.get(5)?),
            },
        })
    }
}

/// The line of a row, which must have this place. A row with another place is an error, as one before it is missing.
pub(crate) fn line_at(alloc: Global, place: u64, row: &Row) -> Result<Line, Error>
    ensures { IfOk result (λ line. ShowsPlaced row.now (record { place = place; line = line })) }
{
    let found = PlacedLine::from_row(alloc, row)?;
    if found.place != place {
        return Err(STRANGE);
    }
    Ok(found.line)
}

/// The error for lines that are no document: want of memory, or lines out of shape.
pub(crate) fn error_of(fault: OutlineFault) -> Error
    ensures { (result ≡ Error.SqliteFailure ErrorCode.OutOfMemory) ↔
        (fault ≡ OutlineFault.NoMemory) }
{
    match fault {
        OutlineFault::NoMemory => NO_MEMORY,
        OutlineFault::BadOutline => STRANGE,
    }
}

/// The lines of rows, which must have the places 1, 2, 3 and so on.
fn lines_in(alloc: Global, rows: &[Row]) -> Result<Vec<Line>, Error>
    ensures { IfOk result (λ lines. ShowsAll ShowsPlaced rows.now (placed_from 1 lines.items)) }
{
    let mut lines = Vec::new(alloc);
    for row in rows {
        let place = lines.len() as u64 + 1;
        lines.push(line_at(alloc, place, row)?)?;
    }
    Ok(lines)
}

/// The document of the lines that the rows show, whose places must have no gap. None if there is no row. Fails with
/// `STRANGE` if the lines are no document.
pub(crate) fn document_in(alloc: Global, rows: &[Row]) -> Result<Option<Document>, Error>
    ensures { IfOk result (λ found. ShowsLines rows.now found) }
{
    if rows.is_empty() {
        return Ok(None);
    }
    let lines = lines_in(alloc, rows)?;
    match Document::from_outline(alloc, &lines) {
        Ok(document) => Ok(Some(document)),
        Err(fault) => Err(error_of(fault)),
    }
}

//! How often each page asks the shelf below kept rows for a report.
//!
//! A sketch tells of most reports whether a page lists them. Without one the page asks for each report that the rows
//! don't rule out, and answers the same.

use crate::counted::{is_page, with_counts};
use crate::watched::{Watched, reports_of};
use crate::world::{begun_in_tables, requests_of};
use hub::Hub;
use hub_core::Shelf;
use hub_state::WholeRows;
use kept_rows::KeptRows;
use std::alloc::{AllocError, Global};
use std::cell::Cell;
use trying_shelves::{Asked, answer_over, keep_rows};

/// When the sketches are drawn.
#[derive(Clone, Copy)]
enum Drawn {
    /// With each edit: the rows are kept from the first request on.
    WithEdits,
    /// Of the stored documents: the rows are kept for one page.
    Anew,
    /// Not at all: the rows are kept for one page.
    Never,
}

impl Drawn {
    fn words(self) -> &'static str {
        match self {
            Drawn::WithEdits => "sketches drawn with each edit",
            Drawn::Anew => "sketches drawn anew",
            Drawn::Never => "no sketch drawn",
        }
    }
}

/// Returns the shelf with its rows kept, or none if that fails.
fn kept_over<Sh: WholeRows + Drop>(alloc: Global, shelf: Sh, drawn: Drawn) -> Option<KeptRows<Sh>> {
    match drawn {
        Drawn::WithEdits | Drawn::Anew => keep_rows(alloc, shelf).ok(),
        Drawn::Never => KeptRows::new(alloc, shelf).ok(),
    }
}

/// Answers a request without kept rows. Returns the shelf.
fn answered<Sh: Shelf + Drop>(alloc: Global, shelf: Sh, asked: &Asked) -> Sh {
    let mut hub = Hub::new(shelf);
    let (now, key, request) = asked;
    answer_over(&mut hub, alloc, *now, key, request);
    hub.into_shelf()
}

/// Answers a page over rows that are kept for it alone. Returns how often it asks for a report below them, and the
/// shelf, or none if that fails.
fn page_over<Sh: WholeRows + Drop>(
    alloc: Global,
    shelf: Sh,
    drawn: Drawn,
    reports: &Cell<u64>,
    asked: &Asked,
) -> Option<(u64, Sh)> {
    let mut hub = Hub::new(kept_over(alloc, shelf, drawn)?);
    let count = reports_of(alloc, &mut hub, reports, asked);
    Some((count, hub.into_shelf().into_shelf()))
}

/// Returns how often each page asks for a report below rows that are kept for it alone, 0 for each other request, or
/// none if that fails.
fn counts_for_pages<Sh: WholeRows + Drop>(
    alloc: Global,
    shelf: Sh,
    drawn: Drawn,
    reports: &Cell<u64>,
    asked: &[Asked],
    lines: &[&str],
) -> Option<Vec<u64>> {
    let mut all = Vec::new(alloc);
    let mut shelf = shelf;
    for (one, line) in asked.iter().zip(lines.iter()) {
        let (count, again) = if is_page(line) {
            page_over(alloc, shelf, drawn, reports, one)?
        } else {
            (0, answered(alloc, shelf, one))
        };
        shelf = again;
        all.push(count).ok()?;
    }
    Some(all)
}

/// Returns how often each request asks for a report below rows that are kept from the first one on, or none if that
/// fails.
fn counts_for_all<Sh: WholeRows + Drop>(
    alloc: Global,
    shelf: Sh,
    drawn: Drawn,
    reports: &Cell<u64>,
    asked: &[Asked],
) -> Option<Vec<u64>> {
    let mut hub = Hub::new(kept_over(alloc, shelf, drawn)?);
    let mut all = Vec::new(alloc);
    for one in asked {
        all.push(reports_of(alloc, &mut hub, reports, one)).ok()?;
    }
    Some(all)
}

/// Returns how often each page asks tables for a report below their kept rows, or none if that fails.
fn counts(
    alloc: Global,
    drawn: Drawn,
    asked: &[Asked],
    lines: &[&str],
) -> Result<Option<Vec<u64>>, AllocError> {
    let Some(tables) = begun_in_tables(alloc)? else {
        return Ok(None);
    };
    let reports = Cell::new(0);
    let shelf = Watched::over(tables.into_shelf(), &reports);
    Ok(match drawn {
        Drawn::WithEdits => counts_for_all(alloc, shelf, drawn, &reports, asked),
        Drawn::Anew | Drawn::Never => {
            counts_for_pages(alloc, shelf, drawn, &reports, asked, lines)
        }
    })
}

/// Returns a line of the counts for the pages behind the lines of the world.
fn described(
    alloc: Global,
    drawn: Drawn,
    asked: &[Asked],
    lines: &[&str],
    world: usize,
) -> Result<String, AllocError> {
    let words = drawn.words();
    let mut heading = format!(in alloc;
        "reports asked for below kept rows for each page, {words}:"
    )?;
    match counts(alloc, drawn, asked, lines)? {
        Some(all) => with_counts(alloc, heading, &all, lines, world),
        None => {
            heading.push_str(" failed")?;
            Ok(heading)
        }
    }
}

/// Returns a line of counts for each way to draw sketches.
pub fn counts_below(
    alloc: Global,
    lines: &[&str],
    world: usize,
) -> Result<Vec<String>, AllocError> {
    let asked = requests_of(alloc, lines, None)?;
    let mut told = Vec::new(alloc);
    for drawn in [Drawn::WithEdits, Drawn::Anew, Drawn::Never] {
        told.push(described(alloc, drawn, &asked, lines, world)?)?;
    }
    Ok(told)
}

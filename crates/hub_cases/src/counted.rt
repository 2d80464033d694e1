//! How many reports the shelf is asked about for each page, whether they meet a want.

use crate::watched::{Watched, reports_of};
use crate::world::requests_of;
use hub::Hub;
use hub_core::ListShelf;
use std::alloc::{AllocError, Global};
use std::cell::Cell;
use trying_hub::{Fields, first_shelf, key_of};
use trying_shelves::Asked;

/// Returns whether the line asks for a page.
pub fn is_page(line: &str) -> bool {
    let mut fields = Fields::new(line);
    fields.word();
    matches!(fields.word(), "List" | "Search" | "Addressed")
}

/// Returns how many reports each request asks the shelf about.
fn all_searches(alloc: Global, shelf: ListShelf, asked: &[Asked]) -> Result<Vec<u64>, AllocError> {
    let reports = Cell::new(0);
    let mut hub = Hub::new(Watched::over(shelf, &reports));
    let mut all = Vec::new(alloc);
    for one in asked {
        all.push(reports_of(alloc, &mut hub, &reports, one))?;
    }
    Ok(all)
}

/// Returns how many reports the shelf was asked about, for each page behind the lines of the world.
pub fn counts(alloc: Global, lines: &[&str], world: usize) -> Result<String, AllocError> {
    let asked = requests_of(alloc, lines, None)?;
    let all = match first_shelf(alloc, key_of(1))? {
        Some(shelf) => all_searches(alloc, shelf, &asked)?,
        None => Vec::new(alloc),
    };
    let heading = String::from_str(alloc, "reports searched for each page:")?;
    with_counts(alloc, heading, &all, lines, world)
}

/// Returns the heading, and behind it the counts of the pages behind the lines of the world.
pub fn with_counts(
    alloc: Global,
    heading: String,
    all: &[u64],
    lines: &[&str],
    world: usize,
) -> Result<String, AllocError> {
    let mut told = heading;
    for (place, (count, line)) in all.iter().zip(lines.iter()).enumerate() {
        if place >= world && is_page(line) {
            push_count(alloc, &mut told, *count)?;
        }
    }
    Ok(told)
}

fn push_count(alloc: Global, told: &mut String, count: u64) -> Result<(), AllocError> {
    let text = format!(in alloc; " {count}")?;
    told.push_str(text.as_str())
}

//! A case: its beginning, its steps, what is due, and what is printed for it.

use crate::block::Block;
use crate::due::{Due, due_of};
use crate::files::{Kept, NEVER};
use crate::lists::are_made;
use crate::steps::Steps;
use crate::stops::{Case, Stops};
use crate::stores::{Over, Way, run_statements};
use hub_core::Edit;
use std::alloc::{AllocError, Global};
use trying_shelves::{Asked, Lists};

/// The first rows and the requests with which each case begins.
#[derive(Clone, Copy)]
pub struct World<'a> {
    pub rows: &'a [Edit],
    pub asked: &'a [Asked],
}

/// Returns the bytes of an older store that statements make, or none if one is refused.
fn older(alloc: Global, statements: &str) -> Result<Option<Kept>, AllocError> {
    let files = Kept::nothing(alloc).files(alloc, NEVER)?;
    match run_statements(alloc, files, statements) {
        Some(files) => Ok(Some(Kept::of(alloc, &files)?)),
        None => Ok(None),
    }
}

impl World<'_> {
    /// Returns the bytes of the files with which the case of a block begins, or none if they aren't made.
    fn bytes_before(&self, alloc: Global, block: &Block) -> Result<Option<Kept>, AllocError> {
        let nothing = Kept::nothing(alloc);
        match block.way() {
            Way::Make => Ok(Some(nothing)),
            Way::Migrate(_) => older(alloc, block.statements.as_str()),
            Way::Open => {
                let steps = Steps {
                    way: Way::Make,
                    over: Over::Tables,
                    rows: self.rows,
                    asked: self.asked,
                };
                steps.bytes_behind(alloc, &nothing)
            }
        }
    }

    /// Returns the hub in memory with the content of the store that is taken, or none if one of the requests isn't
    /// made.
    fn hub(&self, alloc: Global, way: Way, asked: &[Asked]) -> Option<Lists> {
        if let Way::Make = way {
            return Lists::with(alloc, &[]).ok();
        }
        let mut hub = Lists::with(alloc, self.rows).ok()?;
        let is_made = are_made(alloc, &mut hub, self.asked);
        let is_made = is_made && (matches!(way, Way::Open) || are_made(alloc, &mut hub, asked));
        if is_made { Some(hub) } else { None }
    }

    /// Returns the steps of a block.
    fn steps<'a>(&'a self, way: Way, asked: &'a [Asked]) -> Steps<'a> {
        let (rows, asked): (&[Edit], &[Asked]) = match way {
            Way::Make => (self.rows, asked),
            Way::Open => (&[], asked),
            Way::Migrate(_) => (&[], &[]),
        };
        Steps {
            way,
            over: Over::Tables,
            rows,
            asked,
        }
    }

    /// Returns what is printed for the case of a block.
    pub fn describe(&self, alloc: Global, block: &Block) -> Result<String, AllocError> {
        let asked = block.requests()?;
        let way = block.way();
        let Some(kept) = self.bytes_before(alloc, block)? else {
            return String::from_str(alloc, "the store that the case begins with wasn't made");
        };
        match self.hub(alloc, way, &asked) {
            Some(hub) => stop_all(alloc, &kept, self.steps(way, &asked), hub),
            None => String::from_str(alloc, "a request that the case begins with wasn't made"),
        }
    }
}

/// Stops steps over files of these bytes, and again with the rows of the store kept in memory. Returns what is printed
/// for both. The hub gives the replies that are due.
fn stop_all(
    alloc: Global,
    kept: &Kept,
    steps: Steps<'_>,
    hub: Lists,
) -> Result<String, AllocError> {
    let due = due_of(alloc, &steps, hub)?;
    let in_tables = told_of(alloc, kept, steps, &due)?;
    let over = Over::Rows;
    let in_rows = told_of(alloc, kept, Steps { over, ..steps }, &due)?;
    format!(in alloc; "{in_tables}\nwith rows in memory {in_rows}")
}

/// Returns what is printed for steps over one shelf.
fn told_of(alloc: Global, kept: &Kept, steps: Steps<'_>, due: &Due) -> Result<String, AllocError> {
    Case { kept, steps, due }.describe(alloc)
}

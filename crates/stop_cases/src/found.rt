//! The content that is found after a stop.

use crate::content::content;
use crate::files::{Kept, NEVER, Stopping};
use crate::stores::{Over, Way, shelf_in};
use hub::Hub;
use hub_core::Shelf;
use hub_store::{OpenFault, SqlShelf};
use sqlite::Alter;
use sqlite_disk::Files;
use std::alloc::{AllocError, Global};
use trying_shelves::keep_rows;

/// The replies of the store in these files to all persons; else why there is no store, if the files were opened.
enum Look {
    Told(String),
    Refused(Option<OpenFault>),
}

/// Returns the replies of the store of a shelf to all persons.
fn told_by<Sh: Shelf + Drop>(alloc: Global, shelf: Sh) -> Result<String, AllocError> {
    content(alloc, &mut Hub::new(shelf))
}

/// Returns the same with the rows of the shelf kept in memory.
fn told_in_rows<S: Alter + Drop>(alloc: Global, shelf: SqlShelf<S>) -> Result<String, AllocError> {
    match keep_rows(alloc, shelf) {
        Ok(kept) => told_by(alloc, kept),
        Err(_) => String::from_str(alloc, "rows that aren't read"),
    }
}

/// Returns the same for a shelf over tables in any store.
fn told_over<S: Alter + Drop>(
    alloc: Global,
    shelf: SqlShelf<S>,
    over: Over,
) -> Result<String, AllocError> {
    match over {
        Over::Tables => told_by(alloc, shelf),
        Over::Rows => told_in_rows(alloc, shelf),
    }
}

fn look_into(
    alloc: Global,
    files: Files<Stopping>,
    way: Way,
    over: Over,
) -> Result<Look, AllocError> {
    match shelf_in(alloc, files, way) {
        Ok(shelf) => Ok(Look::Told(told_over(alloc, shelf, over)?)),
        Err((fault, _)) => Ok(Look::Refused(fault)),
    }
}

/// Returns the same for a store that is taken in another way, behind words that say so.
fn looked_again(alloc: Global, kept: &Kept, way: Way, over: Over) -> Result<String, AllocError> {
    let words = way.words(alloc)?;
    match look_into(alloc, kept.files(alloc, NEVER)?, way, over)? {
        Look::Told(told) => format!(in alloc; "{words}{told}"),
        Look::Refused(_) => format!(in alloc; "{words}: refused"),
    }
}

/// Returns the same if the store wasn't opened.
fn tell_refused(
    alloc: Global,
    kept: &Kept,
    fault: Option<OpenFault>,
    over: Over,
) -> Result<String, AllocError> {
    match fault {
        Some(OpenFault::NotOurs) => looked_again(alloc, kept, Way::Make, over),
        Some(OpenFault::WrongVersion(version)) => {
            looked_again(alloc, kept, Way::Migrate(version), over)
        }
        _ => String::from_str(alloc, "a store that isn't opened"),
    }
}

/// Returns the replies of the store in files of these bytes to all persons.
fn tell(alloc: Global, kept: &Kept, over: Over) -> Result<String, AllocError> {
    match look_into(alloc, kept.files(alloc, NEVER)?, Way::Open, over)? {
        Look::Told(told) => Ok(told),
        Look::Refused(fault) => tell_refused(alloc, kept, fault, over),
    }
}

/// The content that was found in files of some bytes.
#[derive(Drop)]
struct Found {
    kept: Kept,
    told: String,
}

/// All content that was found after the stops of a case, so that the same bytes aren't opened again.
#[derive(Drop)]
pub struct Finds {
    alloc: Global,
    over: Over,
    all: Vec<Found>,
}

impl Finds {
    pub fn new(alloc: Global, over: Over) -> Finds {
        Finds {
            alloc,
            over,
            all: Vec::new(alloc),
        }
    }

    /// Returns the content that was found in files of the same bytes.
    fn before(&self, kept: &Kept) -> Option<&str> {
        for found in self.all.iter().rev() {
            if found.kept.is_same(kept) {
                return Some(found.told.as_str());
            }
        }
        None
    }

    fn add(&mut self, kept: Kept, told: &str) -> Result<(), AllocError> {
        let told = String::from_str(self.alloc, told)?;
        self.all.push(Found { kept, told })?;
        Ok(())
    }

    /// Returns the replies of the store in files of these bytes to all persons.
    pub fn replies_from(&mut self, kept: Kept) -> Result<String, AllocError> {
        if let Some(told) = self.before(&kept) {
            return String::from_str(self.alloc, told);
        }
        let told = tell(self.alloc, &kept, self.over)?;
        self.add(kept, told.as_str())?;
        Ok(told)
    }
}

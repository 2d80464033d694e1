//! The hub over SQL tables in memory.

use crate::asked::Asked;
use crate::asks::{Asks, answer_over, failures_of, run_over};
use crate::store::Store;
use circle::directory::Person;
use hub::{Hub, Key};
use hub_core::{Edit, Reply, Request, Shelf, ShelfFault};
use hub_store::SqlShelf;
use sqlite::MemStore;
use std::alloc::{AllocError, Global};

/// A hub over SQL tables in memory.
#[derive(Drop)]
pub struct Tables {
    pub(crate) hub: Hub<SqlShelf<MemStore>>,
}

/// Puts rows into any shelf.
fn apply_to<Sh: Shelf>(shelf: &mut Sh, rows: &[Edit]) -> Result<(), ShelfFault> {
    shelf.apply(rows)
}

/// Returns the person of this key in any shelf.
fn person_in<Sh: Shelf>(shelf: &mut Sh, key: &[u8; 32]) -> Result<Option<Person>, ShelfFault> {
    shelf.person_by_key(key)
}

/// Returns the shelf with these rows added. Fails with the shelf's fault.
fn with_rows<Sh: Shelf + Drop>(mut shelf: Sh, rows: &[Edit]) -> Result<Sh, ShelfFault> {
    match apply_to(&mut shelf, rows) {
        Ok(()) => Ok(shelf),
        Err(fault) => Err(fault),
    }
}

impl Tables {
    /// Makes a hub over new tables with these rows. Fails with the shelf's fault.
    pub fn with(alloc: Global, rows: &[Edit]) -> Result<Tables, ShelfFault> {
        match Store::new(alloc)?.make(alloc) {
            Ok(tables) => tables.with_rows(rows),
            Err((fault, _)) => Err(fault),
        }
    }

    /// Makes a hub over tables that are made or opened.
    pub(crate) fn over(shelf: SqlShelf<MemStore>) -> Tables {
        Tables {
            hub: Hub::new(shelf),
        }
    }

    /// Returns the hub with these rows added. Fails with the shelf's fault.
    fn with_rows(self, rows: &[Edit]) -> Result<Tables, ShelfFault> {
        match with_rows(self.hub.into_shelf(), rows) {
            Ok(shelf) => Ok(Tables::over(shelf)),
            Err(fault) => Err(fault),
        }
    }

    /// Returns the shelf as it is.
    pub fn into_shelf(self) -> SqlShelf<MemStore> {
        self.hub.into_shelf()
    }

    /// Returns the store that has the tables.
    pub fn release(self) -> Store {
        Store::over(self.hub.into_shelf().release())
    }

    /// Releases the tables and opens them again. Returns the hub over them, or none if they failed since they were
    /// opened, can't be opened, or the memory doesn't suffice.
    pub fn opened_anew(self, alloc: Global) -> Option<Tables> {
        let shelf = self.hub.into_shelf();
        if shelf.failures() > 0 {
            return None;
        }
        match Store::over(shelf.release()).open(alloc, false) {
            Ok(tables) => Some(tables),
            Err(_) => None,
        }
    }

    /// Returns the hub with a limit on the steps that a statement takes; 0 is no limit.
    pub fn with_step_limit(self, steps: u64) -> Tables {
        let mut shelf = self.hub.into_shelf();
        shelf.limit_steps(steps);
        Tables::over(shelf)
    }

    /// Takes the hub apart. Returns the person of this key.
    pub fn person_by_key(self, key: &[u8; 32]) -> Result<Option<Person>, ShelfFault> {
        person_in(&mut self.hub.into_shelf(), key)
    }
}

impl Asks for Tables {
    fn answer(&mut self, alloc: Global, now: i64, key: &Key, request: &Request) -> Reply {
        answer_over(&mut self.hub, alloc, now, key, request)
    }

    fn run(&mut self, alloc: Global, asked: &[Asked]) -> Result<Vec<Reply>, AllocError> {
        run_over(&mut self.hub, alloc, asked)
    }

    fn failures(self) -> u64 {
        failures_of(self.hub)
    }
}

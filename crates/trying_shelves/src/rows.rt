//! The hub over SQL tables in memory, with their rows and a sketch of each document kept.

use crate::asked::Asked;
use crate::asks::{Asks, answer_over, failures_of, run_over};
use crate::tables::Tables;
use hub::{Hub, Key};
use hub_core::{Edit, Reply, Request, Shelf, ShelfFault};
use hub_state::WholeRows;
use hub_store::SqlShelf;
use kept_rows::KeptRows;
use sqlite::MemStore;
use std::alloc::{AllocError, Global};

/// A hub over tables in memory, with their rows and a sketch of each document kept.
#[derive(Drop)]
pub struct Rows {
    pub(crate) hub: Hub<KeptRows<SqlShelf<MemStore>>>,
}

/// Draws the sketch of each document.
fn draw_all<Sh: Shelf>(kept: &mut KeptRows<Sh>) -> Result<(), ShelfFault> {
    for entry in &kept.incidents_after(0, u32::MAX)? {
        kept.draw(entry.number)?;
    }
    Ok(())
}

/// Returns the shelf with its rows and a sketch of each document kept, or the shelf with the fault if that fails.
pub fn keep_rows<Sh: WholeRows + Drop>(
    alloc: Global,
    shelf: Sh,
) -> Result<KeptRows<Sh>, (ShelfFault, Sh)> {
    match KeptRows::new(alloc, shelf) {
        Err(failed) => Err(failed),
        Ok(mut kept) => match draw_all(&mut kept) {
            Err(fault) => Err((fault, kept.into_shelf())),
            Ok(()) => Ok(kept),
        },
    }
}

impl Rows {
    /// Makes a hub over new tables with these rows. Fails with the shelf's fault.
    pub fn with(alloc: Global, rows: &[Edit]) -> Result<Rows, ShelfFault> {
        match Tables::with(alloc, rows) {
            Ok(tables) => Rows::over(alloc, tables),
            Err(fault) => Err(fault),
        }
    }

    /// Makes a hub over these tables. Fails with the shelf's fault.
    fn over(alloc: Global, tables: Tables) -> Result<Rows, ShelfFault> {
        match keep_rows(alloc, tables.into_shelf()) {
            Ok(shelf) => Ok(Rows {
                hub: Hub::new(shelf),
            }),
            Err((fault, _)) => Err(fault),
        }
    }

    /// Releases the tables, opens them again, and keeps their rows. Returns the hub over them, or none as the tables do.
    pub fn opened_anew(self, alloc: Global) -> Option<Rows> {
        let tables = Tables::over(self.hub.into_shelf().into_shelf());
        match tables.opened_anew(alloc) {
            Some(tables) => Rows::over(alloc, tables).ok(),
            None => None,
        }
    }

    /// Returns the shelf as it is.
    pub fn into_shelf(self) -> KeptRows<SqlShelf<MemStore>> {
        self.hub.into_shelf()
    }
}

impl Asks for Rows {
    fn answer(&mut self, alloc: Global, now: i64, key: &Key, request: &Request) -> Reply {
        answer_over(&mut self.hub, alloc, now, key, request)
    }

    fn run(&mut self, alloc: Global, asked: &[Asked]) -> Result<Vec<Reply>, AllocError> {
        run_over(&mut self.hub, alloc, asked)
    }

    fn failures(self) -> u64 {
        failures_of(self.hub)
    }
}

//! The hub over a shelf in memory that keeps documents.

use crate::asked::Asked;
use crate::asks::{Asks, answer_over, failures_of, run_over};
use crate::lists::Lists;
use hub::{Hub, Key};
use hub_core::{Edit, ListShelf, Reply, Request, ShelfFault};
use kept_documents::KeptDocuments;
use std::alloc::{AllocError, Global};

/// A hub over a shelf in memory that keeps documents, which never weigh more than `MOST` together.
#[derive(Drop)]
pub struct Kept<const MOST: usize> {
    hub: Hub<KeptDocuments<ListShelf, MOST>>,
}

impl<const MOST: usize> Kept<MOST> {
    /// Makes a hub with these rows, which keeps no document yet. Fails with the shelf's fault.
    pub fn with(alloc: Global, rows: &[Edit]) -> Result<Kept<MOST>, ShelfFault> {
        match KeptDocuments::new(alloc, Lists::with(alloc, rows)?.into_shelf()) {
            Ok(shelf) => Ok(Kept {
                hub: Hub::new(shelf),
            }),
            Err(_) => Err(ShelfFault::NoMemory),
        }
    }

    /// Returns the shelf as it is.
    pub fn into_shelf(self) -> KeptDocuments<ListShelf, MOST> {
        self.hub.into_shelf()
    }
}

impl<const MOST: usize> Asks for Kept<MOST> {
    fn answer(&mut self, alloc: Global, now: i64, key: &Key, request: &Request) -> Reply {
        answer_over(&mut self.hub, alloc, now, key, request)
    }

    fn run(&mut self, alloc: Global, asked: &[Asked]) -> Result<Vec<Reply>, AllocError> {
        run_over(&mut self.hub, alloc, asked)
    }

    fn failures(self) -> u64 {
        failures_of(self.hub)
    }
}

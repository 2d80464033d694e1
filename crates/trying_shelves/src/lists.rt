//! The hub over the shelf in memory.

use crate::asked::Asked;
use crate::asks::{Asks, answer_over, failures_of, run_over, serve_over};
use hub::{Hub, Key};
use hub_core::{Edit, ListShelf, Reply, Request, Shelf, ShelfFault};
use hub_http::{ServeFault, Served};
use std::alloc::{AllocError, Global};

/// A hub over a shelf in memory.
#[derive(Drop)]
pub struct Lists {
    pub(crate) hub: Hub<ListShelf>,
}

impl Lists {
    /// Makes a hub with these rows. Fails with the shelf's fault.
    pub fn with(alloc: Global, rows: &[Edit]) -> Result<Lists, ShelfFault> {
        let mut shelf = ListShelf::new(alloc);
        shelf.apply(rows)?;
        Ok(Lists {
            hub: Hub::new(shelf),
        })
    }

    /// Returns the hub with these rows added. Fails if the memory doesn't suffice.
    pub fn with_rows(self, rows: &[Edit]) -> Result<Lists, AllocError> {
        let mut shelf = self.hub.into_shelf();
        match shelf.apply(rows) {
            Ok(()) => Ok(Lists {
                hub: Hub::new(shelf),
            }),
            Err(_) => Err(AllocError),
        }
    }

    /// Returns the shelf as it is.
    pub fn into_shelf(self) -> ListShelf {
        self.hub.into_shelf()
    }

    /// Serves a connection of these bytes, and appends the reply to `out`.
    pub fn serve(
        &mut self,
        alloc: Global,
        bytes: &[u8],
        out: &mut Vec<u8>,
        now: i64,
    ) -> Result<Served, ServeFault> {
        serve_over(&mut self.hub, alloc, bytes, out, now)
    }
}

impl Asks for Lists {
    fn answer(&mut self, alloc: Global, now: i64, key: &Key, request: &Request) -> Reply {
        answer_over(&mut self.hub, alloc, now, key, request)
    }

    fn run(&mut self, alloc: Global, asked: &[Asked]) -> Result<Vec<Reply>, AllocError> {
        run_over(&mut self.hub, alloc, asked)
    }

    fn failures(self) -> u64 {
        failures_of(self.hub)
    }
}

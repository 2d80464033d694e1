//! The hub over the shelves, which are asked the same.

use crate::asked::Asked;
use crate::fault::{Fault, agree};
use crate::reads::{agree_on_rows, agree_on_shelves};
use crate::replies::same_reply;
use hub_core::{Edit, Reply};
use std::alloc::Global;
use trying_shelves::{Asks, Kept, Lists, Rows, Tables};

/// The greatest weight of the documents that the third shelf keeps, so small that one takes the place of another.
const MOST_WEIGHT: usize = 8192;

/// The hub over the shelf in memory, over SQL tables in memory, over a shelf in memory that keeps documents, and over SQL
/// tables whose rows are kept.
#[derive(Drop)]
pub struct Shelves {
    lists: Lists,
    tables: Tables,
    kept: Kept<MOST_WEIGHT>,
    rows: Rows,
}

fn agree_on_reply(
    alloc: Global,
    one: &Reply,
    other: &Reply,
    name: &'static str,
) -> Result<(), Fault> {
    agree(same_reply(alloc, one, other)?, name)
}

impl Shelves {
    /// Makes the shelves with these rows.
    pub fn new(alloc: Global, edits: &[Edit]) -> Result<Shelves, Fault> {
        // the tables last: no return has to drop them
        Ok(Shelves {
            lists: Lists::with(alloc, edits)?,
            kept: Kept::with(alloc, edits)?,
            tables: Tables::with(alloc, edits)?,
            rows: Rows::with(alloc, edits)?,
        })
    }

    /// Returns the reply of all hubs. Fails if theirs differ.
    pub fn reply(&mut self, alloc: Global, asked: &Asked) -> Result<Reply, Fault> {
        let Asked { now, key, request } = asked;
        let reply = self.lists.answer(alloc, *now, key, request);
        match self.agree_on(alloc, asked, &reply) {
            Ok(()) => Ok(reply),
            Err(fault) => Err(fault),
        }
    }

    /// Compares the replies of the other hubs with that of the first.
    fn agree_on(&mut self, alloc: Global, asked: &Asked, reply: &Reply) -> Result<(), Fault> {
        let Asked { now, key, request } = asked;
        let other = self.tables.answer(alloc, *now, key, request);
        agree_on_reply(alloc, reply, &other, "a reply")?;
        let other = self.kept.answer(alloc, *now, key, request);
        let name = "a reply of the shelf that keeps documents";
        agree_on_reply(alloc, reply, &other, name)?;
        let other = self.rows.answer(alloc, *now, key, request);
        agree_on_reply(alloc, reply, &other, "a reply of the shelf that keeps rows")
    }

    /// Returns the same with the tables released and opened again.
    pub fn opened_anew(self, alloc: Global) -> Result<Shelves, Fault> {
        let Shelves {
            lists,
            tables,
            kept,
            rows,
        } = self;
        match (tables.opened_anew(alloc), rows.opened_anew(alloc)) {
            (Some(tables), Some(rows)) => Ok(Shelves {
                lists,
                tables,
                kept,
                rows,
            }),
            _ => Err(Fault::Differs("tables that failed, or weren't opened anew")),
        }
    }

    /// Compares the contents of the shelves.
    pub fn agree_on_content(self, alloc: Global) -> Result<(), Fault> {
        let Shelves {
            lists,
            tables,
            kept,
            rows,
        } = self;
        let mut lists = lists.into_shelf();
        agree_on_shelves(
            alloc,
            &mut lists,
            &mut tables.into_shelf(),
            &mut kept.into_shelf(),
        )?;
        agree_on_rows(alloc, &mut lists, &mut rows.into_shelf())
    }
}

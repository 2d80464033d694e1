//! The lines of the table.
//!
//! The first block sets up the organisations, persons and groups: one request a line, WHO|REQUEST|FIELD|FIELD.. as
//! `asked` of `trying_shelves` reads it. `requests` of `trying_hub` says what a field may say. These requests come
//! before those of each later block. The store begins with organisation 1 and its administrator, person 1.
//!
//! A block of requests is a case that asks them. A block with the line `create` makes a store. A block with lines
//! `sql|STATEMENT` migrates the store that these statements make, of the version of a line `version|NUMBER`; its
//! requests make the same in memory.

use crate::block::Block;
use crate::case::World;
use hub_core::Edit;
use std::alloc::{AllocError, Global};
use trying_shelves::Asked;

/// What the lines so far have set up.
#[derive(Drop)]
pub struct Cases {
    alloc: Global,
    rows: Vec<Edit>,
    /// The requests of the first block.
    asked: Option<Vec<Asked>>,
    /// The lines of the block at hand.
    block: Block,
}

impl Cases {
    /// Makes the cases. The store of each begins with these rows.
    pub fn new(alloc: Global, rows: Vec<Edit>) -> Cases {
        Cases {
            alloc,
            rows,
            asked: None,
            block: Block::new(alloc),
        }
    }

    /// Returns what is printed for one more line, or none if the line is part of a block.
    pub fn told_of(&mut self, line: &str) -> Result<Option<String>, AllocError> {
        if line.is_empty() {
            return self.end_block();
        }
        self.block.add(line)?;
        Ok(None)
    }

    /// Plays the case of a block. Returns none for the first block, for which nothing is printed.
    fn end_block(&mut self) -> Result<Option<String>, AllocError> {
        let alloc = self.alloc;
        if self.block.is_empty() {
            return Ok(None);
        }
        let Some(asked) = &self.asked else {
            self.asked = Some(self.block.requests()?);
            self.block = Block::new(alloc);
            return Ok(None);
        };
        let world = World {
            rows: &self.rows,
            asked,
        };
        let told = world.describe(alloc, &self.block)?;
        self.block = Block::new(alloc);
        Ok(Some(told))
    }
}

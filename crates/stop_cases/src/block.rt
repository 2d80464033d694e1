//! The lines of a case.

use crate::content::MOMENT;
use crate::stores::Way;
use std::alloc::{AllocError, Global};
use trying::number_of;
use trying_shelves::{Asked, asked_by};

#[derive(Drop)]
pub struct Block {
    alloc: Global,
    /// Whether a store is made.
    makes: bool,
    /// The version of an older store.
    version: u32,
    /// The statements that make an older store, each behind the one before.
    pub statements: String,
    requests: Vec<String>,
}

impl Block {
    pub fn new(alloc: Global) -> Block {
        Block {
            alloc,
            makes: false,
            version: 0,
            statements: String::new(alloc),
            requests: Vec::new(alloc),
        }
    }

    pub fn is_empty(&self) -> bool {
        !self.makes && self.statements.is_empty() && self.requests.is_empty()
    }

    /// Returns how the store of the case is taken.
    pub fn way(&self) -> Way {
        if self.makes {
            Way::Make
        } else if self.statements.is_empty() {
            Way::Open
        } else {
            Way::Migrate(self.version)
        }
    }

    pub fn add(&mut self, line: &str) -> Result<(), AllocError> {
        if line == "create" {
            self.makes = true;
            return Ok(());
        }
        match line.split_once('|') {
            Some(("sql", text)) => self.add_statement(text),
            Some(("version", number)) => {
                self.version = number_of(number);
                Ok(())
            }
            _ => {
                self.requests.push(String::from_str(self.alloc, line)?)?;
                Ok(())
            }
        }
    }

    fn add_statement(&mut self, text: &str) -> Result<(), AllocError> {
        self.statements.push_str(text)?;
        self.statements.push_str("; ")
    }

    pub fn requests(&self) -> Result<Vec<Asked>, AllocError> {
        asked_by(self.alloc, &self.requests, MOMENT)
    }
}

//! The reader who asks about a report.

use crate::unfit::Unfit;
use crate::words::{case_of, standing_of};
use policy::{Case, Standing};
use std::alloc::Global;

/// The source of each case.
pub const SOURCE: u32 = 2;

/// The reader who asks about a report, and the case by which it is judged.
#[derive(Drop)]
pub struct Asker {
    pub standing: Standing,
    pub case: Case,
}

impl Asker {
    /// Returns the reader of these words, and the case with these gates and permissions. Fails with `NoCase` if a word
    /// can't be read, and with `NoMemory`.
    pub fn of(alloc: Global, reader: &str, gates: &str, permissions: &str) -> Result<Asker, Unfit> {
        Ok(Asker {
            standing: standing_of(alloc, reader)?,
            case: case_of(alloc, SOURCE, gates, permissions)?,
        })
    }
}

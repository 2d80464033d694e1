//! Why a line has no answer.

ghost use Rattle.std.specs.Prelude.{◌≡◌, IfOk, string_bytes};

use iodef_tree::PathFault;
use std::alloc::{AllocError, AllocFailed, Global};

#[derive(Clone, Copy)]
pub enum Unfit {
    /// The line is no case, or asks about a report and none was accepted.
    NoCase,
    /// No class is at the path.
    NoClass,
    NoMemory,
}

impl Unfit {
    /// Returns the word that the table prints.
    pub fn name(self) -> &'static str {
        match self {
            Unfit::NoCase => "no case",
            Unfit::NoClass => "NoClass",
            Unfit::NoMemory => "NoMemory",
        }
    }
}

impl From<AllocError> for Unfit {
    fn from(_refused: AllocError) -> Unfit {
        Unfit::NoMemory
    }
}

impl<T: Drop> From<AllocFailed<T>> for Unfit {
    fn from(_refused: AllocFailed<T>) -> Unfit {
        Unfit::NoMemory
    }
}

impl From<PathFault> for Unfit {
    fn from(fault: PathFault) -> Unfit {
        match fault {
            PathFault::BadPath => Unfit::NoCase,
            PathFault::NoMemory => Unfit::NoMemory,
        }
    }
}

/// Returns these words as an answer.
pub fn said(alloc: Global, words: &str) -> Result<String, Unfit>
    ensures { IfOk result (λ answer. string_bytes answer ≡ words.now) }
{
    Ok(String::from_str(alloc, words)?)
}

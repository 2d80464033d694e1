//! Why a comparison ends early.

use hub_core::ShelfFault;
use std::alloc::{AllocError, AllocFailed};

/// Why a comparison ends early.
#[derive(Drop)]
pub enum Fault {
    NoMemory,
    /// This couldn't be made.
    Unmade(&'static str),
    /// The step or the premise that the two worlds differ by, what is wrong, and the replies.
    Found(String),
}

impl From<AllocError> for Fault {
    fn from(_refused: AllocError) -> Fault {
        Fault::NoMemory
    }
}

impl<T: Drop> From<AllocFailed<T>> for Fault {
    fn from(_refused: AllocFailed<T>) -> Fault {
        Fault::NoMemory
    }
}

impl From<ShelfFault> for Fault {
    fn from(_fault: ShelfFault) -> Fault {
        Fault::Unmade("a shelf")
    }
}

//! Why a comparison ends early.

use hub_core::ShelfFault;
use std::alloc::{AllocError, AllocFailed};

/// Why a comparison ends early.
#[derive(Drop)]
pub enum Fault {
    NoMemory,
    /// The two differ in this.
    Differs(&'static str),
}

impl From<AllocError> for Fault {
    fn from(_refused: AllocError) -> Fault {
        Fault::NoMemory
    }
}

impl<T: Drop> From<AllocFailed<T>> for Fault {
    fn from(_refused: AllocFailed<T>) -> Fault {
        Fault::NoMemory
    }
}

impl From<ShelfFault> for Fault {
    fn from(fault: ShelfFault) -> Fault {
        match fault {
            ShelfFault::NoMemory => Fault::NoMemory,
            ShelfFault::Failed => Fault::Differs("a shelf that failed"),
        }
    }
}

/// Fails with a difference of this name, unless they are the same.
pub fn agree(alike: bool, name: &'static str) -> Result<(), Fault> {
    if alike {
        Ok(())
    } else {
        Err(Fault::Differs(name))
    }
}

//! Why the markings of a document aren't accepted, and why a path has no site.
ghost use Rattle.std.specs.Prelude.{◌≡◌};
ghost use Rattle.marking.specs.declared.fault.MarkingFault.TheVariants.{NoMemory};
ghost use Rattle.marking.specs.declared.fault.SiteFault.TheVariants as site;

use iodef_tree::Path;
use std::alloc::{AllocError, AllocFailed};
use thiserror::Error;

/// Why the markings of a document aren't accepted.
#[derive(Debug, Drop, Error)]
pub enum MarkingFault {
    /// The class at this path is the first, in stored order, that breaks the marking rule. Its `restriction` is none
    /// of the ten texts (RFC 7970 section 3.3.1), or is `ext-value` without an `ext-restriction`. Or its
    /// `ext-restriction` is no text, or has no `restriction` beside it.
    #[error("a class breaks the marking rule")]
    BadMarking(Path),
    /// Memory ran out.
    #[error("no memory")]
    NoMemory,
}

/// Why a path has no site.
#[derive(Clone, Copy, Debug, Error)]
pub enum SiteFault {
    /// The path is neither that of a class nor the root's.
    #[error("there is no class at the path")]
    NoClass,
    /// Memory ran out.
    #[error("no memory")]
    NoMemory,
}

impl From<AllocError> for MarkingFault {
    ghost from_gives = { λ _ fault. fault ≡ NoMemory };

    fn from(_refused: AllocError) -> MarkingFault {
        MarkingFault::NoMemory
    }
}

impl<T: Drop> From<AllocFailed<T>> for MarkingFault {
    ghost from_gives = { λ _ fault. fault ≡ NoMemory };

    fn from(_refused: AllocFailed<T>) -> MarkingFault {
        MarkingFault::NoMemory
    }
}

impl From<AllocError> for SiteFault {
    ghost from_gives = { λ _ fault. fault ≡ site.NoMemory };

    fn from(_refused: AllocError) -> SiteFault {
        SiteFault::NoMemory
    }
}

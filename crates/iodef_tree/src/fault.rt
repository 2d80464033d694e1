//! Why a body is no list of documents, and why lines make no document.

ghost use Rattle.std.specs.Prelude.{◌≡◌};
ghost use Rattle.iodef_tree.specs.declared.fault.ReadFault.TheVariants.{NoMemory};
ghost use Rattle.iodef_tree.specs.Reading.{fault_name, required_name};

use json_pointer::Path;
use std::alloc::{AllocError, AllocFailed};
use thiserror::Error;

/// The members that an Incident must have (RFC 7970 section 3.2), in the order in which a missing one is found.
#[derive(Clone, Copy, Debug)]
pub enum Required {
    Contact,
    GenerationTime,
    IncidentId,
    Purpose,
}

/// Why a body is no list of documents: the first of these faults that applies, in this order. All faults of one kind
/// come before those of the next; of one kind, the first in stored order is returned. A pointer is one in the body
/// that was read.
///
/// The text of `Display` has no path, since printing one allocates; [`Path::print`] prints it.
#[derive(Debug, Drop, Error)]
pub enum ReadFault {
    /// The bytes are no JSON text (RFC 8259). A number outside every range, such as `1e999`, counts here too.
    #[error("the bytes are no JSON text")]
    NotJson,
    /// The root is no object, or its `Incident` is no array of 1 to 16 objects (RFC 8727 section 4).
    #[error("the body is no document")]
    NotDocument,
    /// The Incident at this pointer lacks this member.
    #[error("an Incident has no {}", .1.name())]
    Missing(Path, Required),
    /// The number at this pointer is neither an i64 nor a u64.
    #[error("a number is neither an i64 nor a u64")]
    NotWhole(Path),
    /// The object at this pointer is inside an array inside an array.
    #[error("an object stands inside an array inside an array")]
    NestedClass(Path),
    /// A line is deeper than the limit, or a value has too many arrays, one inside the other.
    #[error("a line is too deep")]
    TooDeep,
    /// One of the documents has more lines than the limit.
    #[error("a document has too many lines")]
    TooManyLines,
    /// Memory ran out.
    #[error("no memory")]
    NoMemory,
}

impl Required {
    /// Returns the member's name.
    pub fn name(self) -> &'static str
        ensures { result.now ≡ required_name self }
    {
        match self {
            Required::Contact => "Contact",
            Required::GenerationTime => "GenerationTime",
            Required::IncidentId => "IncidentID",
            Required::Purpose => "purpose",
        }
    }
}

impl ReadFault {
    /// Returns the fault's name, without its pointer.
    pub fn name(&self) -> &'static str
        ensures { result.now ≡ fault_name self.now }
    {
        match self {
            ReadFault::NotJson => "NotJson",
            ReadFault::NotDocument => "NotDocument",
            ReadFault::Missing(_, _) => "Missing",
            ReadFault::NotWhole(_) => "NotWhole",
            ReadFault::NestedClass(_) => "NestedClass",
            ReadFault::TooDeep => "TooDeep",
            ReadFault::TooManyLines => "TooManyLines",
            ReadFault::NoMemory => "NoMemory",
        }
    }
}

impl From<AllocError> for ReadFault {
    ghost from_gives = { λ _ fault. fault ≡ NoMemory };

    fn from(_refused: AllocError) -> ReadFault {
        ReadFault::NoMemory
    }
}

impl<T: Drop> From<AllocFailed<T>> for ReadFault {
    ghost from_gives = { λ _ fault. fault ≡ NoMemory };

    fn from(_refused: AllocFailed<T>) -> ReadFault {
        ReadFault::NoMemory
    }
}

/// Why lines make no document.
#[derive(Clone, Copy, Debug, Error)]
pub enum OutlineFault {
    /// The lines are no outline.
    #[error("the lines are no outline")]
    BadOutline,
    /// Memory ran out.
    #[error("no memory")]
    NoMemory,
}

impl From<AllocError> for OutlineFault {
    ghost use Rattle.iodef_tree.specs.declared.fault.OutlineFault.TheVariants.{NoMemory as NoMemoryForLines};

    ghost from_gives = { λ _ fault. fault ≡ NoMemoryForLines };

    fn from(_refused: AllocError) -> OutlineFault {
        OutlineFault::NoMemory
    }
}

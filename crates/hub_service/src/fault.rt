//! Why a command over a store isn't done.
ghost use Rattle.std.specs.Prelude.{◌≡◌};
ghost use Rattle.hub_service.specs.Faults.{fault_name, fault_status, reason_of, reason_text, told_of_shelf};
ghost use Rattle.hub_service.specs.declared.fault.Fault.TheVariants.{NoMemory};

use crate::status::Status;
use hub_core::ShelfFault;
use std::alloc::{AllocError, AllocFailed};

/// Why a store's file can't be opened or written, if the system says so.
#[derive(Clone, Copy, Debug, PartialEq, Eq)]
pub enum Reason {
    NoSuchFile,
    NoPermission,
    /// It has a second name (a hard link), and each would have a log of its own.
    SecondName,
    /// Another program has it open.
    Locked,
    DiskFull,
}

impl Reason {
    /// The reason in words.
    pub fn text(self) -> &'static str
        ensures { result.now ≡ reason_text self }
    {
        match self {
            Reason::NoSuchFile => "no such file",
            Reason::NoPermission => "no permission",
            Reason::SecondName => "a second hard link",
            Reason::Locked => "locked by another program",
            Reason::DiskFull => "disk full",
        }
    }
}

/// Why a command over a store isn't done.
#[derive(Clone, Copy, Debug, PartialEq, Eq)]
pub enum Fault {
    /// The name or the digest is invalid.
    BadArgument,
    /// The file has no store of the hub.
    NotOurs,
    /// The store's tables are of a version that the command doesn't take.
    WrongVersion,
    /// The store failed, or its file can't be opened or written.
    Failed,
    /// The store's file can't be opened or written, for this reason.
    FileFailed(Reason),
    /// The port can't be bound.
    ListenFailed,
    /// Standard input can't be read, a connection can't be accepted, or the clock can't be read.
    ReadFailed,
    WriteFailed,
    NoMemory,
}

impl Fault {
    /// Returns the fault's name, as it is printed.
    pub fn name(self) -> &'static str
        ensures { result.now ≡ fault_name self }
    {
        match self {
            Fault::BadArgument => "B1",
            Fault::NotOurs => "NotOurs",
            Fault::WrongVersion => "WrongVersion",
            Fault::Failed | Fault::FileFailed(_) => "Failed",
            Fault::ListenFailed => "ListenFailed",
            Fault::ReadFailed => "ReadFailed",
            Fault::WriteFailed => "WriteFailed",
            Fault::NoMemory => "NoMemory",
        }
    }

    /// Returns why the store's file can't be opened or written, if the system says so.
    pub fn reason(self) -> Option<Reason>
        ensures { result ≡ reason_of self }
    {
        match self {
            Fault::FileFailed(reason) => Some(reason),
            _ => None,
        }
    }

    /// Returns the program's outcome for the fault.
    pub fn status(self) -> Status
        ensures { result ≡ fault_status self }
    {
        match self {
            Fault::BadArgument => Status::Refused,
            _ => Status::Failed,
        }
    }
}

impl From<AllocError> for Fault {
    ghost from_gives = { λ _ fault. fault ≡ NoMemory };

    fn from(_refused: AllocError) -> Fault {
        Fault::NoMemory
    }
}

impl<T: Drop> From<AllocFailed<T>> for Fault {
    ghost from_gives = { λ _ fault. fault ≡ NoMemory };

    fn from(_refused: AllocFailed<T>) -> Fault {
        Fault::NoMemory
    }
}

/// Returns the fault for a shelf's fault.
pub fn shelf_fault(fault: ShelfFault) -> Fault
    ensures { result ≡ told_of_shelf fault }
{
    match fault {
        ShelfFault::NoMemory => Fault::NoMemory,
        ShelfFault::Failed => Fault::Failed,
    }
}

//! Why the program prints nothing.
ghost use Rattle.std.specs.Prelude.{◌≡◌};
ghost use Rattle.redact_program.specs.Troubles.{trouble_name, trouble_reason, trouble_status};
ghost use Rattle.redaction.specs.declared.fault.Fault.TheVariants.{NoMemory};
ghost use Rattle.redact_program.specs.declared.trouble.Trouble.TheVariants.{NoAnswer};

use crate::status::Status;
use input_hints::ByteOrderMark;
use redaction::Fault;
use std::alloc::AllocError;

/// Why the program prints nothing.
#[derive(Clone, Copy, Debug, PartialEq, Eq)]
pub enum Trouble {
    /// There is no answer, because of this fault.
    NoAnswer(Fault),
    /// The view begins with a byte order mark, so it is no JSON text.
    MarkedView(ByteOrderMark),
    /// The report does.
    MarkedReport(ByteOrderMark),
    /// The word for a pointer may be the name of a file.
    FileForPointer,
    /// Standard input can't be read.
    NoReport,
    /// Standard input has more bytes than the limit.
    LongReport,
    /// There is no file with the view's name.
    NoSuchView,
    /// The program may not read the view's file.
    ClosedView,
    /// The view's file can't be read.
    NoView,
    /// The view's file has more bytes than the limit.
    LongView,
    /// Standard output can't be written.
    WriteFailed,
}

impl Trouble {
    /// Returns its name.
    pub fn name(self) -> &'static str
        ensures { result.now ≡ trouble_name self }
    {
        match self {
            Trouble::NoAnswer(fault) => fault.name(),
            Trouble::MarkedView(_) => Fault::ViewNotJson.name(),
            Trouble::MarkedReport(_) => Fault::NotJson.name(),
            Trouble::FileForPointer => Fault::BadPointer.name(),
            Trouble::NoReport | Trouble::LongReport => "ReadFailed",
            Trouble::NoSuchView | Trouble::ClosedView => "ReadFailed",
            Trouble::NoView | Trouble::LongView => "ReadFailed",
            Trouble::WriteFailed => "WriteFailed",
        }
    }

    /// Returns its reason, in words.
    pub fn reason(self) -> &'static str
        ensures { result.now ≡ trouble_reason self }
    {
        match self {
            Trouble::NoAnswer(fault) => fault.reason(),
            Trouble::MarkedView(mark) | Trouble::MarkedReport(mark) => mark.hint(),
            Trouble::FileForPointer =>
                "POINTER isn't a JSON pointer, which begins with a slash; the report is read from standard input, as in '< FILE'",
            Trouble::NoReport => "standard input can't be read",
            Trouble::LongReport => "the report has more than 1048576 bytes",
            Trouble::NoSuchView => "no such file",
            Trouble::ClosedView => "no permission",
            Trouble::NoView => "the view's file can't be read",
            Trouble::LongView => "the view has more than 1048576 bytes",
            Trouble::WriteFailed => "standard output can't be written",
        }
    }

    /// Returns how the program ends for it.
    pub fn status(self) -> Status
        ensures { result ≡ trouble_status self }
    {
        match self {
            Trouble::NoAnswer(Fault::NoMemory) => Status::Failed,
            Trouble::NoAnswer(_) | Trouble::MarkedView(_) | Trouble::MarkedReport(_) => {
                Status::Refused
            }
            Trouble::FileForPointer => Status::Refused,
            _ => Status::Failed,
        }
    }
}

impl From<Fault> for Trouble {
    ghost from_gives = { λ fault trouble. trouble ≡ NoAnswer fault };

    fn from(fault: Fault) -> Trouble {
        Trouble::NoAnswer(fault)
    }
}

impl From<AllocError> for Trouble {
    ghost from_gives = { λ _ trouble. trouble ≡ NoAnswer NoMemory };

    fn from(_refused: AllocError) -> Trouble {
        Trouble::NoAnswer(Fault::NoMemory)
    }
}

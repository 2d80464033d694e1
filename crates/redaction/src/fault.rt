//! Why there is no answer.
ghost use Rattle.std.specs.Prelude.{◌≡◌};
ghost use Rattle.redaction.specs.Faults as spec;
ghost use Rattle.redaction.specs.declared.fault.Fault.TheVariants as fault;

use iodef_tree::ReadFault;
use std::alloc::{AllocError, AllocFailed};
use std::fmt;

/// Why there is no answer: the first of these faults that applies, in this order. NoMemory may come in place of any
/// answer.
#[derive(Clone, Copy, Debug, PartialEq, Eq, Drop)]
pub enum Fault {
    /// Memory ran out.
    NoMemory,
    /// The view description is no JSON text in UTF-8 (RFC 8259).
    ViewNotJson,
    /// An object in it has a member twice.
    DoubledMember,
    /// It is no object.
    NotObject,
    /// An object in it has an unknown member.
    UnknownMember,
    /// An object in it lacks a member that has to be there.
    MissingMember,
    /// A value in it is of another kind than is wanted.
    WrongKind,
    /// A number, a text or a list in it is outside its limits.
    OutOfRange,
    /// A path in it, or the path of the question, is no JSON pointer (RFC 6901).
    BadPointer,
    /// A moment in it is no whole second with an offset (RFC 3339).
    BadMoment,
    /// The reader is said to be of the source and its organisation isn't the case's source, or the other way round.
    SourceUnsaid,
    /// The text of a search, the name of a class or the path of the question isn't UTF-8.
    NotUtf8,
    /// The report is no JSON text in UTF-8.
    NotJson,
    /// Its root is no object, or its `Incident` no array of 1 to 16 objects.
    NotDocument,
    /// An Incident lacks `Contact`, `GenerationTime`, `IncidentID` or `purpose`.
    Missing,
    /// A number is no whole one of 64 bits.
    NotWhole,
    /// An object is in an array inside an array.
    NestedClass,
    /// A line is too deep, or a value has too many arrays, one inside the other.
    TooDeep,
    /// An Incident has more lines than the limit.
    TooManyLines,
    /// A class of one of its Incidents breaks the marking rule.
    BadMarking,
    /// The report has no Incident at the place of the view.
    NoIncident,
    /// There is no class of the Incident's document at the path of a gate, of a permission or of the question. A gate
    /// may be at the root.
    NoClass,
    /// No class is visible to the reader.
    NothingVisible,
    /// Even with placeholders the excerpt can't be read as a report: it has too many lines, or is too deep.
    NotReadable,
    /// The IncidentID is withheld, and no identifier is given for the excerpt.
    IdMissing,
}

impl Fault {
    /// Returns the fault's number: its place in the order, from 1 on.
    pub fn number(self) -> u32
        ensures { result ≡ spec.fault_number self }
    {
        match self {
            Fault::NoMemory => 1,
            Fault::ViewNotJson => 2,
            Fault::DoubledMember => 3,
            Fault::NotObject => 4,
            Fault::UnknownMember => 5,
            Fault::MissingMember => 6,
            Fault::WrongKind => 7,
            Fault::OutOfRange => 8,
            Fault::BadPointer => 9,
            Fault::BadMoment => 10,
            Fault::SourceUnsaid => 11,
            Fault::NotUtf8 => 12,
            Fault::NotJson => 13,
            Fault::NotDocument => 14,
            Fault::Missing => 15,
            Fault::NotWhole => 16,
            Fault::NestedClass => 17,
            Fault::TooDeep => 18,
            Fault::TooManyLines => 19,
            Fault::BadMarking => 20,
            Fault::NoIncident => 21,
            Fault::NoClass => 22,
            Fault::NothingVisible => 23,
            Fault::NotReadable => 24,
            Fault::IdMissing => 25,
        }
    }

    /// Returns the fault's name.
    pub fn name(self) -> &'static str
        ensures { result.now ≡ spec.name_of self }
    {
        match self {
            Fault::NoMemory => "NoMemory",
            Fault::ViewNotJson => "ViewNotJson",
            Fault::DoubledMember => "DoubledMember",
            Fault::NotObject => "NotObject",
            Fault::UnknownMember => "UnknownMember",
            Fault::MissingMember => "MissingMember",
            Fault::WrongKind => "WrongKind",
            Fault::OutOfRange => "OutOfRange",
            Fault::BadPointer => "BadPointer",
            Fault::BadMoment => "BadMoment",
            Fault::SourceUnsaid => "SourceUnsaid",
            Fault::NotUtf8 => "NotUtf8",
            Fault::NotJson => "NotJson",
            Fault::NotDocument => "NotDocument",
            Fault::Missing => "Missing",
            Fault::NotWhole => "NotWhole",
            Fault::NestedClass => "NestedClass",
            Fault::TooDeep => "TooDeep",
            Fault::TooManyLines => "TooManyLines",
            Fault::BadMarking => "BadMarking",
            Fault::NoIncident => "NoIncident",
            Fault::NoClass => "NoClass",
            Fault::NothingVisible => "NothingVisible",
            Fault::NotReadable => "NotReadable",
            Fault::IdMissing => "IdMissing",
        }
    }

    /// Returns the fault's reason, in words.
    pub fn reason(self) -> &'static str
        ensures { result.now ≡ spec.reason_of self }
    {
        match self {
            Fault::NoMemory => "memory ran out",
            Fault::ViewNotJson => "the view is no JSON text in UTF-8",
            Fault::DoubledMember => "an object of the view has a member twice",
            Fault::NotObject => "the view is no object",
            Fault::UnknownMember => "an object of the view has an unknown member",
            Fault::MissingMember => "an object of the view lacks a member",
            Fault::WrongKind => "a value of the view is of the wrong kind",
            Fault::OutOfRange => "a value of the view is out of range",
            Fault::BadPointer => "a path is no JSON pointer",
            Fault::BadMoment => "a moment of the view is no whole second with an offset",
            Fault::SourceUnsaid =>
                "`source` isn't true exactly if the reader's organisation is the source",
            Fault::NotUtf8 => "a word isn't UTF-8",
            Fault::NotJson => "the report is no JSON text in UTF-8",
            Fault::NotDocument => "the report is no IODEF document",
            Fault::Missing => "an Incident lacks a member",
            Fault::NotWhole => "a number is no whole one of 64 bits",
            Fault::NestedClass => "an object is in an array inside an array",
            Fault::TooDeep => "a member is too deep",
            Fault::TooManyLines => "an Incident has too many lines",
            Fault::BadMarking => "a class breaks the marking rule",
            Fault::NoIncident => "there is no Incident at that place",
            Fault::NoClass => "there is no class at a path",
            Fault::NothingVisible => "no class is visible",
            Fault::NotReadable => "the excerpt has too many lines for a report, or is too deep",
            Fault::IdMissing => "the IncidentID is withheld, and none is given",
        }
    }

    /// Returns the earlier of two faults in the order.
    pub(crate) fn earlier(self, other: Fault) -> Fault
        ensures { result ≡ spec.earlier self other }
    {
        if other.number() < self.number() {
            other
        } else {
            self
        }
    }
}

/// Returns the fault of a report that can't be read.
pub(crate) fn of_report(fault: &ReadFault) -> Fault
    ensures { result ≡ spec.of_report fault.now }
{
    match fault {
        ReadFault::NotJson => Fault::NotJson,
        ReadFault::NotDocument => Fault::NotDocument,
        ReadFault::Missing(_, _) => Fault::Missing,
        ReadFault::NotWhole(_) => Fault::NotWhole,
        ReadFault::NestedClass(_) => Fault::NestedClass,
        ReadFault::TooDeep => Fault::TooDeep,
        ReadFault::TooManyLines => Fault::TooManyLines,
        ReadFault::NoMemory => Fault::NoMemory,
    }
}

impl From<AllocError> for Fault {
    ghost from_gives = { λ _ e. e ≡ fault.NoMemory };

    fn from(_refused: AllocError) -> Fault {
        Fault::NoMemory
    }
}

impl<T: Drop> From<AllocFailed<T>> for Fault {
    ghost from_gives = { λ _ e. e ≡ fault.NoMemory };

    fn from(_refused: AllocFailed<T>) -> Fault {
        Fault::NoMemory
    }
}

impl fmt::Display for Fault {
    ghost use Rattle.std.specs.Prelude.{Some};
    ghost use Rattle.redaction.specs.Faults.{reason_of};

    ghost output = { λ fault. Some (reason_of fault) };

    fn fmt<W: fmt::Write>(&self, f: &mut fmt::Formatter<W>) -> fmt::Result {
        f.write_str(self.reason())
    }
}

impl std::error::Error for Fault {}

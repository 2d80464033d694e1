//! The places of a view description: the members and the items on the way to a value.
ghost use Rattle.std.specs.Prelude.{◌≡◌};
ghost use Rattle.redaction.specs.Places as spec;
ghost use Rattle.redaction.specs.declared.fault.Fault.TheVariants as fault;

use crate::fault::Fault;
use std::alloc::AllocError;

/// A member of a view description, by its name.
#[derive(Clone, Copy, Debug, PartialEq, Eq)]
pub(crate) enum Part {
    Incident,
    Now,
    Clearance,
    Case,
    Reader,
    Source,
    Community,
    Gates,
    Permissions,
    Path,
    Level,
    Group,
    Person,
    Org,
    Until,
    Who,
    Nominated,
    Addressed,
    Client,
    Peer,
    Connected,
    Arrangement,
    Groups,
    ActiveGroups,
    Communities,
}

impl Part {
    /// Returns the member's name.
    pub(crate) fn name(self) -> &'static str
        ensures { result.now ≡ spec.part_name self }
    {
        match self {
            Part::Incident => "incident",
            Part::Now => "now",
            Part::Clearance => "clearance",
            Part::Case => "case",
            Part::Reader => "reader",
            Part::Source => "source",
            Part::Community => "community",
            Part::Gates => "gates",
            Part::Permissions => "permissions",
            Part::Path => "path",
            Part::Level => "level",
            Part::Group => "group",
            Part::Person => "person",
            Part::Org => "org",
            Part::Until => "until",
            Part::Who => "who",
            Part::Nominated => "nominated",
            Part::Addressed => "addressed",
            Part::Client => "client",
            Part::Peer => "peer",
            Part::Connected => "connected",
            Part::Arrangement => "arrangement",
            Part::Groups => "groups",
            Part::ActiveGroups => "active_groups",
            Part::Communities => "communities",
        }
    }
}

/// A step from a value to one inside it.
#[derive(Clone, Copy, Debug, PartialEq, Eq)]
pub(crate) enum Step {
    /// To the member of an object with this name.
    Member(Part),
    /// To the item of an array at this place, from 0 on.
    Item(usize),
    /// To the member of an object at this place, from 0 on. Its name is none of the known ones.
    Nth(usize),
}

/// The place of a value: the steps to it, from the outermost on. A view description has at most four.
#[derive(Clone, Copy, Debug, PartialEq, Eq)]
pub(crate) struct Place {
    pub(crate) first: Option<Step>,
    pub(crate) second: Option<Step>,
    pub(crate) third: Option<Step>,
    pub(crate) fourth: Option<Step>,
}

impl Place {
    /// Returns the place of the value that is read itself.
    pub(crate) fn here() -> Place
        ensures { result ≡ spec.here }
    {
        Place {
            first: None,
            second: None,
            third: None,
            fourth: None,
        }
    }

    /// Returns this place as seen from one step further out.
    pub(crate) fn inside(self, step: Step) -> Place
        ensures { result ≡ spec.inside step self }
    {
        Place {
            first: Some(step),
            second: self.first,
            third: self.second,
            fourth: self.third,
        }
    }
}

/// A fault of a view description, with its place.
#[derive(Clone, Copy, Debug, PartialEq, Eq, Drop)]
pub(crate) struct Refusal {
    pub(crate) fault: Fault,
    pub(crate) place: Place,
}

impl Refusal {
    ghost use Rattle.redaction.specs.Readings.{refused, refused_inside, earlier_of};

    /// Returns the refusal of the value that is read itself.
    pub(crate) fn here(fault: Fault) -> Refusal
        ensures { result ≡ refused fault }
    {
        Refusal {
            fault,
            place: Place::here(),
        }
    }

    /// Returns the refusal as seen from one step further out.
    pub(crate) fn inside(self, step: Step) -> Refusal
        ensures { result ≡ refused_inside step self }
    {
        Refusal {
            fault: self.fault,
            place: self.place.inside(step),
        }
    }

    /// Returns the refusal with the earlier fault in the order; the first of two with the same fault.
    pub(crate) fn earlier(self, other: Refusal) -> Refusal
        ensures { result ≡ earlier_of self other }
    {
        if other.fault.number() < self.fault.number() {
            other
        } else {
            self
        }
    }
}

impl From<AllocError> for Refusal {
    ghost from_gives = { λ _ r. r.fault ≡ fault.NoMemory };

    fn from(_refused: AllocError) -> Refusal {
        Refusal::here(Fault::NoMemory)
    }
}

impl From<Refusal> for Fault {
    ghost from_gives = { λ r e. e ≡ r.fault };

    fn from(refusal: Refusal) -> Fault {
        refusal.fault
    }
}

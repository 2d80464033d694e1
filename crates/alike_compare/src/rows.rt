//! The rows of a small world, in numbers. The steps change them. The hub's edits and the numbers that a reader must
//! learn by the rules are made of them. Organisations, persons, communities, groups and incidents are numbered from 1.

use circle::directory::{Arrangement, Client, Connection, GroupMember, Membership, Role};
use hub_core::Target;
use policy::Grantee;

/// The number of organisations, of communities and of groups.
pub const ORGS: u32 = 5;

pub const COMMUNITIES: u32 = 3;

pub const GROUPS: u32 = 3;

/// The moment of all requests, in seconds since the beginning of 1970.
pub const MOMENT: i64 = 1_700_000_000;

/// A person; its key follows its number.
#[derive(Clone, Copy, PartialEq, Eq)]
pub struct Member {
    pub org: u32,
    pub role: Role,
    pub active: bool,
    pub nominated: bool,
}

/// A sharing group.
#[derive(Clone, Copy, PartialEq, Eq)]
pub struct Club {
    pub owner: u32,
    pub active: bool,
}

/// A distribution level, with the group of level 4.
#[derive(Clone, Copy, PartialEq, Eq)]
pub struct Reach {
    pub level: u8,
    pub group: Option<u32>,
}

/// The directory.
#[derive(Clone, Drop)]
pub struct Circle {
    pub persons: Vec<Member>,
    pub groups: Vec<Club>,
    pub clients: Vec<Client>,
    pub memberships: Vec<Membership>,
    pub connections: Vec<Connection>,
    pub members: Vec<GroupMember>,
    pub arrangements: Vec<Arrangement>,
}

/// The grantee of a permission, and when it ends, if it does.
#[derive(Clone, Copy, PartialEq, Eq)]
pub struct Given {
    pub grantee: Grantee,
    pub until: Option<i64>,
}

/// A class of a report, with its gate and the permissions at it. No grantee has two of these. A class follows those
/// that are above it, one deeper than the one that holds it; 1 is the depth of the Incident.
#[derive(Clone, Drop)]
pub struct Class {
    pub depth: u32,
    /// Which of the two names of its depth the class has.
    pub kind: u32,
    /// The class's label by number, or 0 for none.
    pub label: u32,
    /// The class's plain lines by number.
    pub note: u32,
    pub gate: Option<Reach>,
    pub grants: Vec<Given>,
}

/// An incident. Its classes are in the order of the report, the Incident first.
#[derive(Clone, Drop)]
pub struct Report {
    pub source: u32,
    /// The number in its IncidentID, which no other has.
    pub ident: u32,
    pub revision: u32,
    /// The community that it names, if it names one.
    pub community: Option<u32>,
    pub reach: Reach,
    pub recipients: Vec<Target>,
    pub classes: Vec<Class>,
}

/// All rows. An incident is numbered by its place.
#[derive(Clone, Drop)]
pub struct World {
    pub circle: Circle,
    pub reports: Vec<Report>,
    /// The last IncidentID that was given.
    pub idents: u32,
}

/// Returns the number of the row at this place.
pub fn number_at(place: usize) -> u32 {
    u32::try_from(place).unwrap_or(0).saturating_add(1)
}

/// Returns the place of the row of this number, which for 0 is behind all places.
pub fn place_of(number: u32) -> usize {
    match number.checked_sub(1) {
        Some(place) => place as usize,
        None => usize::MAX,
    }
}

/// Returns the place behind the class at this one and all classes below it.
pub fn end_of(classes: &[Class], place: usize) -> usize {
    let Some(class) = classes.get(place) else {
        return classes.len();
    };
    let behind = place.saturating_add(1);
    let found = classes
        .iter()
        .skip(behind)
        .position(|other| other.depth <= class.depth);
    match found {
        Some(count) => behind.saturating_add(count),
        None => classes.len(),
    }
}

impl World {
    /// Returns an IncidentID that no incident has had.
    pub fn next_ident(&mut self) -> u32 {
        self.idents = self.idents.saturating_add(1);
        self.idents
    }
}

impl Circle {
    pub fn is_member(&self, community: u32, org: u32) -> bool {
        self.memberships.contains(&Membership { community, org })
    }

    pub fn is_in_group(&self, group: u32, org: u32) -> bool {
        self.members
            .iter()
            .any(|member| member.group == group && member.org == org)
    }

    /// Returns whether the group is there and active.
    pub fn is_active(&self, group: u32) -> bool {
        match self.groups.get(place_of(group)) {
            Some(club) => club.active,
            None => false,
        }
    }

    /// Returns whether the two are in one community.
    pub fn share_community(&self, one: u32, other: u32) -> bool {
        self.memberships.iter().any(|row| row.org == one && self.is_member(row.community, other))
    }

    /// Returns whether one is in a community that is connected with one of the other's.
    pub fn are_connected(&self, one: u32, other: u32) -> bool {
        self.connections.iter().any(|link| {
            self.is_member(link.low, one) && self.is_member(link.high, other)
                || self.is_member(link.high, one) && self.is_member(link.low, other)
        })
    }
}

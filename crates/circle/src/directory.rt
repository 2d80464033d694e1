//! The rows of the directory. The numbers of organisations, persons, communities and groups count from 1.
ghost use Rattle.std.specs.Prelude.{◌≡◌, min, max};

use crate::name::Name;
use crate::releasability::Releasability;
use std::alloc::AllocError;

/// What a person may do: an administrator keeps the directory; a coordinator keeps its organisation's groups,
/// arrangements and nominations, and posts incidents; a poster posts incidents; everybody reads.
#[derive(Clone, Copy, Debug, PartialEq, Eq)]
pub enum Role {
    Administrator,
    Coordinator,
    Poster,
    Reader,
}

/// How an organisation handles the label `default` (RFC 7970 section 3.3.1; the labels of TLP 2.0).
///
/// A type of this crate, although `marking` has one too: so `circle` is checked, and its edits are tried, without
/// reading the crates of documents. The crate above turns one into the other.
#[derive(Clone, Copy, Debug, PartialEq, Eq)]
pub enum Handling {
    Clear,
    Green,
    Amber,
    Strict,
    Red,
}

/// An organisation. No two have the same name.
#[derive(Clone, Debug, PartialEq, Eq, Drop)]
pub struct Org {
    pub number: u32,
    pub name: Name,
}

/// A person of an organisation.
#[derive(Debug, PartialEq, Eq, Drop)]
pub struct Person {
    pub number: u32,
    pub org: u32,
    pub name: Name,
    pub role: Role,
    /// Whether the person isn't suspended.
    pub active: bool,
    /// Whether a coordinator of its organisation nominated it (TLP 2.0, TLP:AMBER+STRICT).
    pub nominated: bool,
}

/// A person with the SHA-256 of its key. No two persons, suspended or not, have the same key.
#[derive(Clone, Debug, PartialEq, Eq, Drop)]
pub struct Account {
    pub person: Person,
    pub key: [u8; 32],
}

/// An organisation and one of its clients (TLP 2.0, TLP:AMBER).
#[derive(Clone, Copy, Debug, PartialEq, Eq)]
pub struct Client {
    pub org: u32,
    pub client: u32,
}

/// A community of organisations. No two have the same name.
#[derive(Clone, Debug, PartialEq, Eq, Drop)]
pub struct Community {
    pub number: u32,
    pub name: Name,
}

/// A community and one of its organisations.
#[derive(Clone, Copy, Debug, PartialEq, Eq)]
pub struct Membership {
    pub community: u32,
    pub org: u32,
}

/// Two connected communities (the MISP book, distribution level 2), the smaller number first. The commands `Link` and
/// `Unlink` put it in and take it out.
#[derive(Clone, Copy, Debug, PartialEq, Eq)]
pub struct Connection {
    pub low: u32,
    pub high: u32,
}

/// A sharing group (the MISP book, distribution level 4). No two groups of one owner have the same name.
#[derive(Debug, PartialEq, Eq, Drop)]
pub struct Group {
    pub number: u32,
    pub owner: u32,
    pub name: Name,
    pub releasability: Releasability,
    pub active: bool,
}

/// A group and one of its members, which may put in others if `extend` is set.
#[derive(Clone, Copy, Debug, PartialEq, Eq)]
pub struct GroupMember {
    pub group: u32,
    pub org: u32,
    pub extend: bool,
}

/// How an organisation handles the label `default` of the source, as a coordinator of the source arranged it.
#[derive(Clone, Copy, Debug, PartialEq, Eq)]
pub struct Arrangement {
    pub source: u32,
    pub org: u32,
    pub handling: Handling,
}

impl Connection {
    /// Returns the connection of two communities, given in either order.
    pub fn between(one: u32, other: u32) -> Connection
        ensures { result ≡ record { low = min one other; high = max one other } }
    {
        Connection {
            low: one.min(other),
            high: one.max(other),
        }
    }
}

// Written by hand: derived, these copies would fail for want of memory at each field, and only the texts take any.

impl Clone for Person {
    ghost is_clone = { λ person copy. copy ≡ person };

    fn clone(&self) -> Result<Person, AllocError> {
        Ok(Person {
            number: self.number,
            org: self.org,
            name: self.name.clone()?,
            role: self.role,
            active: self.active,
            nominated: self.nominated,
        })
    }
}

impl Clone for Group {
    ghost is_clone = { λ group copy. copy ≡ group };

    fn clone(&self) -> Result<Group, AllocError> {
        Ok(Group {
            number: self.number,
            owner: self.owner,
            name: self.name.clone()?,
            releasability: self.releasability.clone()?,
            active: self.active,
        })
    }
}

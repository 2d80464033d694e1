//! The replies.
ghost use Rattle.std.specs.Prelude.{◌≡◌};

use crate::recipients::Recipients;
use crate::state::Naming;
use circle::directory::Person;
use circle::name::Name;
use circle::refusal::Refusal;
use circle::releasability::Releasability;
use circle::text::Text;
use iodef_tree::{Document, Path};
use policy::{Gates, Numbers, Permission, Rule};
use std::marker::Model;

/// An incident as it is listed.
#[derive(Clone, Copy, Debug, PartialEq, Eq)]
pub struct Entry {
    pub number: u32,
    pub revision: u32,
    /// The organisation that posted it.
    pub source: u32,
}

/// Incidents as they are listed, in the order of their numbers. Contracts see a list.
#[derive(Drop)]
pub struct Entries {
    entries: Vec<Entry>,
}

impl Model for Entries {
    ghost use Rattle.std.specs.Prelude.{List};
    ghost use Rattle.hub_state.specs.declared.reply.Entry.{Entry};

    ghost Value = { List Entry };

    ghost view = { λ e. e.entries.items };
}

impl Entries {
    /// Makes it of a vector. Takes no memory.
    pub fn new(entries: Vec<Entry>) -> Entries
        ensures { result ≡ entries.items }
    {
        Entries { entries }
    }

    /// Returns the incidents.
    pub fn as_slice(&self) -> &[Entry]
        ensures { result.now ≡ self.now }
    {
        self.entries.as_slice()
    }
}

/// A group of which an organisation is a member.
#[derive(Drop)]
pub struct JoinedGroup {
    pub number: u32,
    pub owner: u32,
    pub name: Name,
    pub releasability: Releasability,
    pub active: bool,
    /// The organisation may add members.
    pub extend: bool,
}

/// Groups of which an organisation is a member, in the order of their numbers. Contracts see a list.
#[derive(Drop)]
pub struct JoinedGroups {
    groups: Vec<JoinedGroup>,
}

impl Model for JoinedGroups {
    ghost use Rattle.std.specs.Prelude.{List};
    ghost use Rattle.hub_state.specs.declared.reply.JoinedGroup.{JoinedGroup};

    ghost Value = { List JoinedGroup };

    ghost view = { λ g. g.groups.items };
}

impl JoinedGroups {
    /// Makes it of a vector. Takes no memory.
    pub fn new(groups: Vec<JoinedGroup>) -> JoinedGroups
        ensures { result ≡ groups.items }
    {
        JoinedGroups { groups }
    }

    /// Returns the groups.
    pub fn as_slice(&self) -> &[JoinedGroup]
        ensures { result.now ≡ self.now }
    {
        self.groups.as_slice()
    }
}

/// A community of which an organisation is a member.
#[derive(Drop)]
pub struct JoinedCommunity {
    pub number: u32,
    pub name: Name,
    /// The organisations that are its members, in the order of their numbers.
    pub members: Numbers,
    /// The communities that are connected to it, in the order of their numbers.
    pub connected: Numbers,
}

/// Communities of which an organisation is a member, in the order of their numbers. Contracts see a list.
#[derive(Drop)]
pub struct JoinedCommunities {
    communities: Vec<JoinedCommunity>,
}

impl Model for JoinedCommunities {
    ghost use Rattle.std.specs.Prelude.{List};
    ghost use Rattle.hub_state.specs.declared.reply.JoinedCommunity.{JoinedCommunity};

    ghost Value = { List JoinedCommunity };

    ghost view = { λ c. c.communities.items };
}

impl JoinedCommunities {
    /// Makes it of a vector. Takes no memory.
    pub fn new(communities: Vec<JoinedCommunity>) -> JoinedCommunities
        ensures { result ≡ communities.items }
    {
        JoinedCommunities { communities }
    }

    /// Returns the communities.
    pub fn as_slice(&self) -> &[JoinedCommunity]
        ensures { result.now ≡ self.now }
    {
        self.communities.as_slice()
    }
}

/// A permission, and whether it has ended.
#[derive(Drop)]
pub struct SharedPermission {
    pub permission: Permission,
    /// At the moment of the request its end has come.
    pub ended: bool,
}

/// The permissions of an incident, in the order of path and grantee. Contracts see a list.
#[derive(Drop)]
pub struct SharedPermissions {
    permissions: Vec<SharedPermission>,
}

impl Model for SharedPermissions {
    ghost use Rattle.std.specs.Prelude.{List};
    ghost use Rattle.hub_state.specs.declared.reply.SharedPermission.{SharedPermission};

    ghost Value = { List SharedPermission };

    ghost view = { λ p. p.permissions.items };
}

impl SharedPermissions {
    /// Makes it of a vector. Takes no memory.
    pub fn new(permissions: Vec<SharedPermission>) -> SharedPermissions
        ensures { result ≡ permissions.items }
    {
        SharedPermissions { permissions }
    }

    /// Returns the permissions, ended ones included.
    pub fn as_slice(&self) -> &[SharedPermission]
        ensures { result.now ≡ self.now }
    {
        self.permissions.as_slice()
    }
}

/// How an incident is shared, as its source is answered.
#[derive(Drop)]
pub struct Sharing {
    pub naming: Naming,
    /// In the byte order of the path's pointer, so the gate at the root comes first.
    pub gates: Gates,
    /// In the order of kind and number.
    pub recipients: Recipients,
    pub permissions: SharedPermissions,
}

/// At which places of an excerpt something is withheld, and by which rule. Contracts see a list.
#[derive(Drop)]
pub struct Withheld {
    pairs: Vec<(Path, Rule)>,
}

impl Model for Withheld {
    ghost use Rattle.std.specs.Prelude.{ℕ, List};
    ghost use Rattle.policy.specs.declared.rule.Rule.{Rule};

    ghost Value = { List (List (List ℕ) × Rule) };

    ghost view = { λ w. w.pairs.items };
}

impl Withheld {
    /// Makes it of a vector. Takes no memory.
    pub fn new(pairs: Vec<(Path, Rule)>) -> Withheld
        ensures { result ≡ pairs.items }
    {
        Withheld { pairs }
    }

    /// Returns each place, in the excerpt's document, with its rule.
    pub fn as_slice(&self) -> &[(Path, Rule)]
        ensures { result.now ≡ self.now }
    {
        self.pairs.as_slice()
    }
}

/// What the caller may see of an incident.
#[derive(Drop)]
pub struct View {
    pub number: u32,
    pub revision: u32,
    /// The organisation that posted it.
    pub source: u32,
    /// How many classes are visible.
    pub classes: u32,
    pub document: Document,
    /// In the byte order of the place's pointer, then of the rule; no pair is there twice.
    pub withheld: Withheld,
}

/// A reply.
#[derive(Drop)]
pub enum Reply {
    /// The change was made.
    Done,
    /// The change was made; the new rows have these numbers.
    Numbers(Numbers),
    /// The document was exchanged; the incident has this revision.
    Revision(u32),
    View(View),
    Incidents(Entries),
    Groups(JoinedGroups),
    Communities(JoinedCommunities),
    Sharing(Sharing),
    Caller(Person),
    /// Why a person sees a class or doesn't, as text.
    Trace(Text),
    Refused(Refusal),
}

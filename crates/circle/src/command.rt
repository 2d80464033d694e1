//! The commands on the directory, the facts that are found out about each, and the edits that they lead to.
use crate::directory::{
    Account, Arrangement, Client, Community, Connection, Group, GroupMember, Handling, Membership,
    Org, Role,
};
use crate::text::Text;
use std::alloc::AllocError;

/// A command. An administrator gives those from `AddOrg` to `Unlink`, every person `NewKey`, a coordinator the others.
#[derive(Drop)]
pub enum CircleCommand {
    /// Adds an organisation with this name.
    AddOrg {
        name: Text,
    },
    /// Adds a person to an organisation, with the SHA-256 of its key.
    AddPerson {
        org: u32,
        name: Text,
        role: Role,
        key: [u8; 32],
    },
    /// Suspends a person.
    SuspendPerson {
        person: u32,
    },
    /// Makes the second organisation a client of the first.
    AddClient {
        org: u32,
        client: u32,
    },
    /// Takes that back.
    RemoveClient {
        org: u32,
        client: u32,
    },
    /// Adds a community with this name.
    AddCommunity {
        name: Text,
    },
    /// Makes the organisation a member of the community.
    Join {
        community: u32,
        org: u32,
    },
    /// Takes that back.
    Leave {
        community: u32,
        org: u32,
    },
    /// Connects two communities.
    Link {
        community: u32,
        other: u32,
    },
    /// Takes that back.
    Unlink {
        community: u32,
        other: u32,
    },
    /// Founds a group of the actor's organisation.
    NewGroup {
        name: Text,
        releasability: Text,
    },
    /// Puts the organisation into the group; `extend` says whether it may put in others.
    GroupAdd {
        group: u32,
        org: u32,
        extend: bool,
    },
    /// Takes the organisation out of the group.
    GroupRemove {
        group: u32,
        org: u32,
    },
    /// Makes the group active or not.
    GroupActive {
        group: u32,
        active: bool,
    },
    /// Arranges with the organisation how it handles the label `default`.
    Arrange {
        org: u32,
        handling: Handling,
    },
    /// Takes that back.
    CancelArrange {
        org: u32,
    },
    /// Nominates a person of the actor's organisation.
    Nominate {
        person: u32,
    },
    /// Takes that back.
    Unnominate {
        person: u32,
    },
    /// Exchanges the actor's key for the one with this SHA-256.
    NewKey {
        key: [u8; 32],
    },
}

/// The facts of a command. A fact that the command doesn't ask for is true for `exists`, and false or 0 for the
/// others.
#[derive(Clone, Copy, PartialEq, Eq)]
pub struct CircleFacts {
    /// All that the command names is there; a group is there only for its members.
    pub exists: bool,
    /// The actor's organisation may extend the group.
    pub may_extend: bool,
    /// The actor's organisation owns the group.
    pub owner: bool,
    /// The organisation that is named owns the group.
    pub target_is_owner: bool,
    /// The person is of the actor's organisation.
    pub own_person: bool,
    /// The row, name, key or flag that the command would bring about is there; for a removal, the one that it would
    /// take back.
    pub stands: bool,
    /// How many rows there are of the kind that the command numbers.
    pub count: u32,
}

/// The whole change that a command makes: the edit of one row, or a founded group with its first member, which is two
/// rows.
#[derive(Debug, Drop)]
pub enum Edit {
    /// The edit of one row.
    Row(RowEdit),
    /// The group, with its owner as a member that may extend it.
    Found(Group),
}

/// One row put in or taken out, or one flag set.
#[derive(Debug, Drop)]
pub enum RowEdit {
    /// Puts in an organisation.
    PutOrg(Org),
    /// Puts in a person with its key.
    PutAccount(Account),
    /// Makes the person with this number inactive.
    Suspend(u32),
    /// Puts in a client.
    PutClient(Client),
    /// Takes out a client.
    TakeClient(Client),
    /// Puts in a community.
    PutCommunity(Community),
    /// Puts in a membership.
    PutMembership(Membership),
    /// Takes out a membership.
    TakeMembership(Membership),
    /// Puts in a connection.
    PutConnection(Connection),
    /// Takes out a connection.
    TakeConnection(Connection),
    /// Puts in a group.
    PutGroup(Group),
    /// Puts in a member of a group.
    PutGroupMember(GroupMember),
    /// Takes out a member of a group.
    TakeGroupMember { group: u32, org: u32 },
    /// Sets whether a group is active.
    SetGroupActive { group: u32, active: bool },
    /// Puts in an arrangement.
    PutArrangement(Arrangement),
    /// Takes out an arrangement.
    TakeArrangement { source: u32, org: u32 },
    /// Sets whether a person is nominated.
    SetNominated { person: u32, nominated: bool },
    /// Exchanges a person's key for the one with this SHA-256.
    SetKey { person: u32, key: [u8; 32] },
}

// Written by hand: derived, it would fail for want of memory in each variant, and only four hold a text.
impl Clone for RowEdit {
    ghost use Rattle.std.specs.Prelude.{◌≡◌};

    ghost is_clone = { λ edit copy. copy ≡ edit };

    fn clone(&self) -> Result<RowEdit, AllocError> {
        Ok(match self {
            RowEdit::PutOrg(org) => RowEdit::PutOrg(org.clone()?),
            RowEdit::PutAccount(account) => RowEdit::PutAccount(account.clone()?),
            RowEdit::PutCommunity(community) => RowEdit::PutCommunity(community.clone()?),
            RowEdit::PutGroup(group) => RowEdit::PutGroup(group.clone()?),
            RowEdit::Suspend(person) => RowEdit::Suspend(*person),
            RowEdit::PutClient(client) => RowEdit::PutClient(*client),
            RowEdit::TakeClient(client) => RowEdit::TakeClient(*client),
            RowEdit::PutMembership(membership) => RowEdit::PutMembership(*membership),
            RowEdit::TakeMembership(membership) => RowEdit::TakeMembership(*membership),
            RowEdit::PutConnection(connection) => RowEdit::PutConnection(*connection),
            RowEdit::TakeConnection(connection) => RowEdit::TakeConnection(*connection),
            RowEdit::PutGroupMember(member) => RowEdit::PutGroupMember(*member),
            RowEdit::TakeGroupMember { group, org } => RowEdit::TakeGroupMember {
                group: *group,
                org: *org,
            },
            RowEdit::SetGroupActive { group, active } => RowEdit::SetGroupActive {
                group: *group,
                active: *active,
            },
            RowEdit::PutArrangement(arrangement) => RowEdit::PutArrangement(*arrangement),
            RowEdit::TakeArrangement { source, org } => RowEdit::TakeArrangement {
                source: *source,
                org: *org,
            },
            RowEdit::SetNominated { person, nominated } => RowEdit::SetNominated {
                person: *person,
                nominated: *nominated,
            },
            RowEdit::SetKey { person, key } => RowEdit::SetKey {
                person: *person,
                key: *key,
            },
        })
    }
}

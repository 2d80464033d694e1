//! A small directory in memory.
use circle::command::RowEdit;
use circle::directory::{
    Account, Arrangement, Client, Community, Connection, Group, GroupMember, Handling, Membership,
    Org, Person, Role,
};
use circle::name::Name;
use circle::releasability::Releasability;
use circle_rows::DirectoryRows;
use std::alloc::{AllocError, Global};

// The rows are out of their order on purpose, as the directory sorts them in.

/// Number and name.
const ORGS: &[(u32, &str)] = &[(3, "Mem"), (1, "Hub"), (5, "Cli"), (2, "Src"), (4, "Far")];

/// Number and name.
const COMMUNITIES: &[(u32, &str)] = &[(2, "south"), (3, "east"), (1, "north")];

/// Number, organisation and role.
const PERSONS: &[(u32, u32, Role)] = &[
    (2, 2, Role::Coordinator),
    (3, 3, Role::Reader),
    (1, 1, Role::Administrator),
];

/// Organisation and client.
const CLIENTS: &[(u32, u32)] = &[(3, 5), (4, 5), (2, 5), (2, 4)];

/// Community and organisation.
const MEMBERSHIPS: &[(u32, u32)] = &[(2, 4), (1, 3), (3, 5), (1, 2)];

/// The lower community and the higher one.
const CONNECTIONS: &[(u32, u32)] = &[(2, 3), (1, 2), (1, 3)];

/// Group, organisation, and whether it may extend the group.
const GROUP_MEMBERS: &[(u32, u32, bool)] = &[
    (2, 4, false),
    (1, 3, false),
    (2, 3, true),
    (1, 2, true),
    (1, 4, true),
];

/// Source, organisation and handling.
const ARRANGEMENTS: &[(u32, u32, Handling)] = &[
    (3, 2, Handling::Red),
    (2, 3, Handling::Green),
    (2, 4, Handling::Strict),
];

/// Returns an edit that puts an organisation. If there is no text, returns an edit that changes nothing.
fn put_org(alloc: Global, number: u32, name: &str) -> Result<RowEdit, AllocError> {
    match Name::of(alloc, name)? {
        Some(name) => Ok(RowEdit::PutOrg(Org { number, name })),
        None => Ok(RowEdit::Suspend(0)),
    }
}

fn put_person(alloc: Global, number: u32, org: u32, role: Role) -> Result<RowEdit, AllocError> {
    match Name::of(alloc, "p")? {
        Some(name) => {
            let person = Person {
                number,
                org,
                name,
                role,
                active: true,
                nominated: false,
            };
            let key = [u8::try_from(number).unwrap_or(0); 32];
            Ok(RowEdit::PutAccount(Account { person, key }))
        }
        None => Ok(RowEdit::Suspend(0)),
    }
}

fn put_community(alloc: Global, number: u32, name: &str) -> Result<RowEdit, AllocError> {
    match Name::of(alloc, name)? {
        Some(name) => Ok(RowEdit::PutCommunity(Community { number, name })),
        None => Ok(RowEdit::Suspend(0)),
    }
}

fn put_group(alloc: Global, number: u32, owner: u32, name: &str) -> Result<RowEdit, AllocError> {
    match (Name::of(alloc, name)?, Releasability::of(alloc, "all")?) {
        (Some(name), Some(releasability)) => Ok(RowEdit::PutGroup(Group {
            number,
            owner,
            name,
            releasability,
            active: true,
        })),
        _ => Ok(RowEdit::Suspend(0)),
    }
}

fn push_named(edits: &mut Vec<RowEdit>, alloc: Global) -> Result<(), AllocError> {
    for (number, name) in ORGS {
        edits.push(put_org(alloc, *number, name)?)?;
    }
    for (number, name) in COMMUNITIES {
        edits.push(put_community(alloc, *number, name)?)?;
    }
    Ok(())
}

fn push_persons(edits: &mut Vec<RowEdit>, alloc: Global) -> Result<(), AllocError> {
    for (number, org, role) in PERSONS {
        edits.push(put_person(alloc, *number, *org, *role)?)?;
    }
    Ok(())
}

fn push_groups(edits: &mut Vec<RowEdit>, alloc: Global) -> Result<(), AllocError> {
    edits.push(put_group(alloc, 2, 3, "h")?)?;
    edits.push(put_group(alloc, 1, 2, "g")?)?;
    Ok(())
}

/// Adds the edits that change rows.
fn push_changes(edits: &mut Vec<RowEdit>) -> Result<(), AllocError> {
    edits.push(RowEdit::Suspend(3))?;
    edits.push(RowEdit::SetNominated {
        person: 2,
        nominated: true,
    })?;
    edits.push(RowEdit::SetGroupActive {
        group: 2,
        active: false,
    })?;
    Ok(())
}

fn push_pairs(edits: &mut Vec<RowEdit>) -> Result<(), AllocError> {
    for &(org, client) in CLIENTS {
        edits.push(RowEdit::PutClient(Client { org, client }))?;
    }
    for &(community, org) in MEMBERSHIPS {
        edits.push(RowEdit::PutMembership(Membership { community, org }))?;
    }
    for &(low, high) in CONNECTIONS {
        edits.push(RowEdit::PutConnection(Connection { low, high }))?;
    }
    Ok(())
}

/// Adds the rows with a value beside the pair.
fn push_valued(edits: &mut Vec<RowEdit>) -> Result<(), AllocError> {
    for &(group, org, extend) in GROUP_MEMBERS {
        edits.push(RowEdit::PutGroupMember(GroupMember { group, org, extend }))?;
    }
    for &(source, org, handling) in ARRANGEMENTS {
        edits.push(RowEdit::PutArrangement(Arrangement {
            source,
            org,
            handling,
        }))?;
    }
    Ok(())
}

/// Adds edits that take a row of each set of pairs out again.
fn push_taken(edits: &mut Vec<RowEdit>) -> Result<(), AllocError> {
    edits.push(RowEdit::TakeClient(Client { org: 4, client: 5 }))?;
    edits.push(RowEdit::TakeMembership(Membership {
        community: 3,
        org: 5,
    }))?;
    edits.push(RowEdit::TakeConnection(Connection { low: 2, high: 3 }))?;
    edits.push(RowEdit::TakeGroupMember { group: 1, org: 4 })?;
    edits.push(RowEdit::TakeArrangement { source: 2, org: 4 })?;
    Ok(())
}

fn edits(alloc: Global) -> Result<Vec<RowEdit>, AllocError> {
    let mut edits = Vec::new(alloc);
    push_named(&mut edits, alloc)?;
    push_persons(&mut edits, alloc)?;
    push_groups(&mut edits, alloc)?;
    push_changes(&mut edits)?;
    push_pairs(&mut edits)?;
    push_valued(&mut edits)?;
    push_taken(&mut edits)?;
    Ok(edits)
}

/// Returns the small directory.
pub fn world(alloc: Global) -> Result<DirectoryRows, AllocError> {
    let mut rows = DirectoryRows::new(alloc);
    let edits = edits(alloc)?;
    rows.apply(edits)?;
    Ok(rows)
}

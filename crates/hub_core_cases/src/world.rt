//! The test world: five organisations, six persons, two communities and a group.

use circle::command::RowEdit;
use circle::directory::{Community, Group, GroupMember, Membership, Role};
use circle::name::Name;
use circle::releasability::Releasability;
use hub_core::Edit;
use std::alloc::{AllocError, Global};
use trying_hub::{key_of, put_org, put_person};

/// Number, organisation, name and role.
const PERSONS: &[(u32, u32, &str, Role)] = &[
    (1, 1, "p1", Role::Administrator),
    (2, 2, "p2", Role::Coordinator),
    (3, 3, "p3", Role::Coordinator),
    (4, 4, "p4", Role::Reader),
    (5, 5, "p5", Role::Coordinator),
    (6, 3, "p6", Role::Reader),
];

/// Returns an edit that puts a community. If the name is out of the limits, returns an edit that changes nothing.
fn put_community(alloc: Global, number: u32, name: &str) -> Result<Edit, AllocError> {
    Ok(Edit::Directory(match Name::of(alloc, name)? {
        Some(name) => RowEdit::PutCommunity(Community { number, name }),
        None => RowEdit::Suspend(0),
    }))
}

fn put_group(alloc: Global, number: u32, owner: u32, name: &str) -> Result<Edit, AllocError> {
    Ok(Edit::Directory(
        match (Name::of(alloc, name)?, Releasability::of(alloc, "")?) {
            (Some(name), Some(releasability)) => RowEdit::PutGroup(Group {
                number,
                owner,
                name,
                releasability,
                active: true,
            }),
            _ => RowEdit::Suspend(0),
        },
    ))
}

fn push_persons(edits: &mut Vec<Edit>, alloc: Global) -> Result<(), AllocError> {
    for &(number, org, name, role) in PERSONS {
        let key = key_of(number);
        edits.push(put_person(alloc, number, org, name, role, key)?)?;
    }
    Ok(())
}

/// Returns the rows of the test world, as edits of a state without a row.
pub fn world(alloc: Global) -> Result<Vec<Edit>, AllocError> {
    let mut edits = Vec::new(alloc);
    for (number, name) in [(1, "Hub"), (2, "Src"), (3, "Mem"), (4, "Far"), (5, "Cli")] {
        edits.push(put_org(alloc, number, name)?)?;
    }
    push_persons(&mut edits, alloc)?;
    edits.push(put_community(alloc, 1, "east")?)?;
    edits.push(put_community(alloc, 2, "west")?)?;
    for (community, org) in [(1, 2), (1, 3), (2, 4)] {
        let row = RowEdit::PutMembership(Membership { community, org });
        edits.push(Edit::Directory(row))?;
    }
    edits.push(put_group(alloc, 1, 2, "g")?)?;
    for (org, extend) in [(2, true), (3, false)] {
        let row = RowEdit::PutGroupMember(GroupMember {
            group: 1,
            org,
            extend,
        });
        edits.push(Edit::Directory(row))?;
    }
    Ok(edits)
}

//! Communities, and how a report is shared, as text.

use hub_core::{JoinedCommunity, SharedPermission, Sharing, Target};
use policy::{Gate, Grantee};
use std::alloc::{AllocError, Global};

fn push_numbers(alloc: Global, all: &mut String, numbers: &[u32]) -> Result<(), AllocError> {
    for number in numbers {
        let one = format!(in alloc; " {number}")?;
        all.push_str(one.as_str())?;
    }
    Ok(())
}

/// Appends `[1 east members 2 3 connected 2]`.
fn push_community(
    alloc: Global,
    all: &mut String,
    community: &JoinedCommunity,
) -> Result<(), AllocError> {
    let (number, name) = (community.number, community.name.as_str());
    let one = format!(in alloc; " [{number} {name} members")?;
    all.push_str(one.as_str())?;
    push_numbers(alloc, all, community.members.as_slice())?;
    all.push_str(" connected")?;
    push_numbers(alloc, all, community.connected.as_slice())?;
    all.push_str("]")
}

/// Returns `communities`, and each with its members and the communities connected to it.
pub fn communities(alloc: Global, list: &[JoinedCommunity]) -> Result<String, AllocError> {
    let mut all = String::from_str(alloc, "communities")?;
    for community in list {
        push_community(alloc, &mut all, community)?;
    }
    Ok(all)
}

fn push_gate(alloc: Global, all: &mut String, gate: &Gate) -> Result<(), AllocError> {
    let path = gate.path.print(alloc)?;
    let (level, group) = (gate.level, gate.group.unwrap_or(0));
    let one = format!(in alloc; " [gate {level} {group} '{path}']")?;
    all.push_str(one.as_str())
}

fn push_target(alloc: Global, all: &mut String, target: Target) -> Result<(), AllocError> {
    let one = match target {
        Target::Person(number) => format!(in alloc; " [person {number}]")?,
        Target::Org(number) => format!(in alloc; " [org {number}]")?,
    };
    all.push_str(one.as_str())
}

fn grantee(alloc: Global, grantee: Grantee) -> Result<String, AllocError> {
    match grantee {
        Grantee::Person(number) => format!(in alloc; "person {number}"),
        Grantee::Org(number) => format!(in alloc; "org {number}"),
        Grantee::Community(number) => format!(in alloc; "community {number}"),
        Grantee::Group(number) => format!(in alloc; "group {number}"),
    }
}

fn end(alloc: Global, until: Option<i64>) -> Result<String, AllocError> {
    match until {
        None => Ok(String::new(alloc)),
        Some(end) => format!(in alloc; " until {end}"),
    }
}

fn push_permission(
    alloc: Global,
    all: &mut String,
    shared: &SharedPermission,
) -> Result<(), AllocError> {
    let path = shared.permission.path.print(alloc)?;
    let grantee = grantee(alloc, shared.permission.grantee)?;
    let end = end(alloc, shared.permission.until)?;
    let ended = if shared.ended { " ended" } else { "" };
    let one = format!(in alloc; " [permission '{path}' {grantee}{end}{ended}]")?;
    all.push_str(one.as_str())
}

/// Returns `sharing 1 revision 1 community 0 ident`, the ident, and the gates, recipients and permissions behind it.
pub fn sharing(alloc: Global, told: &Sharing) -> Result<String, AllocError> {
    let naming = &told.naming;
    let (number, revision, ident) = (naming.number, naming.revision, naming.ident.as_str());
    let community = naming.community.unwrap_or(0);
    let mut all = format!(in alloc;
        "sharing {number} revision {revision} community {community} ident {ident}"
    )?;
    for gate in told.gates.as_slice() {
        push_gate(alloc, &mut all, gate)?;
    }
    for target in told.recipients.as_slice() {
        push_target(alloc, &mut all, *target)?;
    }
    for permission in told.permissions.as_slice() {
        push_permission(alloc, &mut all, permission)?;
    }
    Ok(all)
}

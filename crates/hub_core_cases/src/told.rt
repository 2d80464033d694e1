//! Refusals and edits as text.

use circle::command::RowEdit;
use circle::directory::{Group, GroupMember};
use hub_core::{
    Edit, Gate, GateKey, Incident, Permission, PermissionKey, Recipient, ShelfFault, Target,
};
use iodef_tree::Path;
use policy::Grantee;
use std::alloc::{AllocError, Global};

/// Adds each of these words whose flag is true.
pub fn push_flagged(all: &mut String, words: &[(bool, &str)]) -> Result<(), AllocError> {
    for &(holds, word) in words {
        if holds {
            all.push_str(word)?;
        }
    }
    Ok(())
}

/// Returns the grantee of a permission, and its end if it has one.
pub fn permitted_text(
    alloc: Global,
    permission: &policy::Permission,
) -> Result<String, AllocError> {
    let to = grantee_text(alloc, permission.grantee)?;
    match permission.until {
        None => Ok(to),
        Some(end) => format!(in alloc; "{to} until {end}"),
    }
}

pub fn grantee_text(alloc: Global, grantee: Grantee) -> Result<String, AllocError> {
    match grantee {
        Grantee::Person(n) => format!(in alloc; "person {n}"),
        Grantee::Org(n) => format!(in alloc; "org {n}"),
        Grantee::Community(n) => format!(in alloc; "community {n}"),
        Grantee::Group(n) => format!(in alloc; "group {n}"),
    }
}

fn recipient(alloc: Global, recipient: &Recipient) -> Result<String, AllocError> {
    let incident = recipient.incident;
    match recipient.target {
        Target::Person(n) => format!(in alloc; "{incident} person {n}"),
        Target::Org(n) => format!(in alloc; "{incident} org {n}"),
    }
}

/// Returns the community that an incident names, if it names one.
pub fn named_text(alloc: Global, community: Option<u32>) -> Result<String, AllocError> {
    match community {
        None => Ok(String::new(alloc)),
        Some(n) => format!(in alloc; " in {n}"),
    }
}

fn incident(alloc: Global, row: &Incident) -> Result<String, AllocError> {
    let naming = &row.naming;
    let (number, source, revision) = (naming.number, naming.source, naming.revision);
    let ident = naming.ident.as_str();
    let named = named_text(alloc, naming.community)?;
    let text = row.document.text(alloc)?;
    format!(in alloc; "put incident {number} of {source}{named} {ident} revision {revision} {text}")
}

fn gate(alloc: Global, row: &Gate) -> Result<String, AllocError> {
    let (incident, level) = (row.incident, row.gate.level);
    let path = row.gate.path.print(alloc)?;
    match row.gate.group {
        Some(group) => format!(in alloc; "put gate {incident} '{path}' {level} {group}"),
        None => format!(in alloc; "put gate {incident} '{path}' {level} -"),
    }
}

fn permission(
    alloc: Global,
    verb: &str,
    incident: u32,
    path: &Path,
    to: &str,
) -> Result<String, AllocError> {
    let path = path.print(alloc)?;
    format!(in alloc; "{verb} permission {incident} '{path}' {to}")
}

fn put_permission(alloc: Global, row: &Permission) -> Result<String, AllocError> {
    let to = permitted_text(alloc, &row.permission)?;
    permission(alloc, "put", row.incident, &row.permission.path, &to)
}

fn take_permission(alloc: Global, key: &PermissionKey) -> Result<String, AllocError> {
    let to = grantee_text(alloc, key.grantee)?;
    permission(alloc, "take", key.incident, &key.path, &to)
}

fn take_gate(alloc: Global, key: &GateKey) -> Result<String, AllocError> {
    let incident = key.incident;
    let path = key.path.print(alloc)?;
    format!(in alloc; "take gate {incident} '{path}'")
}

fn group(alloc: Global, group: &Group) -> Result<String, AllocError> {
    let (number, owner, name) = (group.number, group.owner, group.name.as_str());
    let releasability = group.releasability.as_str();
    let active = if group.active { "active" } else { "inactive" };
    format!(in alloc; "put group {number} of {owner} {name:?} {releasability:?} {active}")
}

fn group_member(alloc: Global, member: &GroupMember) -> Result<String, AllocError> {
    let (group, org) = (member.group, member.org);
    let extend = if member.extend { " extend" } else { "" };
    format!(in alloc; "put member {org} of group {group}{extend}")
}

/// Returns an edit of the directory in the words of its table, for the edits that occur here.
fn directory(alloc: Global, row: &RowEdit) -> Result<String, AllocError> {
    match row {
        RowEdit::PutOrg(org) => {
            let (number, name) = (org.number, org.name.as_str());
            format!(in alloc; "put org {number} {name:?}")
        }
        RowEdit::PutGroup(row) => group(alloc, row),
        RowEdit::PutGroupMember(row) => group_member(alloc, row),
        RowEdit::TakeGroupMember { group, org } => {
            format!(in alloc; "take member {org} of group {group}")
        }
        _ => String::from_str(alloc, "another edit of the directory"),
    }
}

fn edit(alloc: Global, edit: &Edit) -> Result<String, AllocError> {
    match edit {
        Edit::Directory(row) => directory(alloc, row),
        Edit::PutIncident(row) => incident(alloc, row),
        Edit::TakeIncident(n) => format!(in alloc; "take incident {n}"),
        Edit::TakePolicy(n) => format!(in alloc; "take policy {n}"),
        Edit::PutGate(row) => gate(alloc, row),
        Edit::TakeGate(key) => take_gate(alloc, key),
        Edit::PutRecipient(row) => {
            let row = recipient(alloc, row)?;
            format!(in alloc; "put recipient {row}")
        }
        Edit::TakeRecipient(row) => {
            let row = recipient(alloc, row)?;
            format!(in alloc; "take recipient {row}")
        }
        Edit::PutPermission(row) => put_permission(alloc, row),
        Edit::TakePermission(key) => take_permission(alloc, key),
    }
}

pub fn edits(alloc: Global, edits: &[Edit]) -> Result<String, AllocError> {
    let mut all = String::new(alloc);
    for one in edits {
        if !all.is_empty() {
            all.push_str("; ")?;
        }
        all.push_str(edit(alloc, one)?.as_str())?;
    }
    if all.is_empty() {
        all.push_str("nothing")?;
    }
    Ok(all)
}

fn numbers(alloc: Global, edits: &[Edit]) -> Result<String, AllocError> {
    let mut all = String::from_str(alloc, "numbers")?;
    for one in edits {
        if let Edit::PutIncident(row) = one {
            let number = row.naming.number;
            all.push_str(format!(in alloc; " {number}")?.as_str())?;
        }
    }
    Ok(all)
}

/// Returns a short answer to a request that nothing refused: `nothing` if it only reads, the revision of an exchanged
/// document, the numbers of new incidents, else `done`.
pub fn outcome(alloc: Global, edits: &[Edit]) -> Result<String, AllocError> {
    match edits {
        [] => String::from_str(alloc, "nothing"),
        [Edit::TakeIncident(_), Edit::PutIncident(row), ..] => {
            let revision = row.naming.revision;
            format!(in alloc; "revision {revision}")
        }
        [Edit::PutIncident(_), ..] => numbers(alloc, edits),
        _ => String::from_str(alloc, "done"),
    }
}

pub fn fault(alloc: Global, fault: ShelfFault) -> Result<String, AllocError> {
    match fault {
        ShelfFault::NoMemory => Err(AllocError),
        ShelfFault::Failed => String::from_str(alloc, "Failed"),
    }
}

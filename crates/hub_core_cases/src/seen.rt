//! What a shelf returns, as text.

use crate::told::{named_text, permitted_text, push_flagged};
use circle::directory::Person;
use hub_core::{Entry, JoinedGroup};
use iodef_tree::Document;
use policy::{Case, Gate, Permission, Standing};
use std::alloc::{AllocError, Global};
use trying_hub::role_name;

fn none(alloc: Global) -> Result<String, AllocError> {
    String::from_str(alloc, "none")
}

fn gate(alloc: Global, gate: &Gate) -> Result<String, AllocError> {
    let path = gate.path.print(alloc)?;
    let level = gate.level;
    match gate.group {
        Some(group) => format!(in alloc; " gate '{path}' {level} {group}"),
        None => format!(in alloc; " gate '{path}' {level} -"),
    }
}

fn permission(alloc: Global, permission: &Permission) -> Result<String, AllocError> {
    let path = permission.path.print(alloc)?;
    let to = permitted_text(alloc, permission)?;
    format!(in alloc; " permission '{path}' {to}")
}

fn case_found(alloc: Global, case: &Case) -> Result<String, AllocError> {
    let source = case.source;
    let mut all = format!(in alloc; "of {source}")?;
    all.push_str(named_text(alloc, case.community)?.as_str())?;
    for row in case.gates.as_slice() {
        all.push_str(gate(alloc, row)?.as_str())?;
    }
    for row in case.permissions.as_slice() {
        all.push_str(permission(alloc, row)?.as_str())?;
    }
    Ok(all)
}

pub fn case(alloc: Global, case: Option<Case>) -> Result<String, AllocError> {
    match case {
        None => none(alloc),
        Some(case) => case_found(alloc, &case),
    }
}

fn push_numbers(
    alloc: Global,
    all: &mut String,
    name: &str,
    numbers: &[u32],
) -> Result<(), AllocError> {
    all.push_str(name)?;
    for number in numbers {
        let word = format!(in alloc; " {number}")?;
        all.push_str(word.as_str())?;
    }
    Ok(())
}

/// Returns the word for a person who shares a community with the source, is a peer, or both.
fn community_word(community: bool, peer: bool) -> &'static str {
    match (community, peer) {
        (true, true) => " community",
        (true, false) => " neighbour",
        (false, true) => " peer",
        (false, false) => "",
    }
}

/// Adds what holds between the reader and the incident.
fn push_relations(all: &mut String, standing: &Standing) -> Result<(), AllocError> {
    let words = [
        (standing.source, " source"),
        (standing.person, " person"),
        (standing.nominated, " nominated"),
        (standing.addressed, " addressed"),
        (standing.client, " client"),
        (true, community_word(standing.community, standing.peer)),
        (standing.connected, " connected"),
    ];
    push_flagged(all, &words)?;
    match standing.arrangement {
        Some(handling) => push_flagged(all, &[(true, " arranged "), (true, handling.name())]),
        None => Ok(()),
    }
}

/// Adds the reader's groups and communities, and the moment if it isn't 0.
fn push_lists(alloc: Global, all: &mut String, standing: &Standing) -> Result<(), AllocError> {
    push_numbers(alloc, all, ", groups", standing.groups.as_slice())?;
    push_numbers(alloc, all, ", active", standing.active_groups.as_slice())?;
    push_numbers(alloc, all, ", communities", standing.communities.as_slice())?;
    let now = standing.now;
    if now == 0 {
        return Ok(());
    }
    let words = format!(in alloc; ", now {now}")?;
    all.push_str(words.as_str())
}

fn standing_found(alloc: Global, standing: &Standing) -> Result<String, AllocError> {
    let (who, org) = (standing.who, standing.org);
    let mut all = format!(in alloc; "{who} of {org}")?;
    push_relations(&mut all, standing)?;
    push_lists(alloc, &mut all, standing)?;
    Ok(all)
}

pub fn standing(alloc: Global, standing: Option<Standing>) -> Result<String, AllocError> {
    match standing {
        None => none(alloc),
        Some(standing) => standing_found(alloc, &standing),
    }
}

pub fn document(alloc: Global, document: Option<Document>) -> Result<String, AllocError> {
    match document {
        None => none(alloc),
        Some(document) => document.text(alloc),
    }
}

pub fn entries(alloc: Global, entries: &[Entry]) -> Result<String, AllocError> {
    let mut all = String::from_str(alloc, "listed")?;
    for entry in entries {
        let (number, source, revision) = (entry.number, entry.source, entry.revision);
        let words = format!(in alloc; " {number} of {source} revision {revision}")?;
        all.push_str(words.as_str())?;
    }
    Ok(all)
}

fn group(alloc: Global, group: &JoinedGroup) -> Result<String, AllocError> {
    let (number, owner) = (group.number, group.owner);
    let name = group.name.as_str();
    let releasability = group.releasability.as_str();
    let mut all = format!(in alloc; " {number} of {owner} '{name}' '{releasability}'")?;
    push_flagged(
        &mut all,
        &[(group.active, " active"), (group.extend, " extend")],
    )?;
    Ok(all)
}

pub fn groups(alloc: Global, groups: &[JoinedGroup]) -> Result<String, AllocError> {
    let mut all = String::from_str(alloc, "joined")?;
    for row in groups {
        all.push_str(group(alloc, row)?.as_str())?;
    }
    Ok(all)
}

fn person_found(alloc: Global, person: &Person) -> Result<String, AllocError> {
    let (number, org) = (person.number, person.org);
    let (name, role) = (person.name.as_str(), role_name(person.role));
    let mut all = format!(in alloc; "{number} of {org} {name} {role}")?;
    push_flagged(
        &mut all,
        &[(person.active, " active"), (person.nominated, " nominated")],
    )?;
    Ok(all)
}

pub fn person(alloc: Global, person: Option<Person>) -> Result<String, AllocError> {
    match person {
        None => none(alloc),
        Some(person) => person_found(alloc, &person),
    }
}

//! The contents of the shelves, read by each of the shelf's reads.

use crate::fault::{Fault, agree};
use crate::replies::{
    same_communities, same_document, same_excerpt, same_gates, same_groups, same_naming,
    same_permissions,
};
use crate::world::{KEYS, key_of};
use circle::directory::Person;
use hub_core::{IncidentSharing, Shelf, ShelfFault};
use iodef_tree::Document;
use policy::{Case, Standing};
use redact::Excerpt;
use std::alloc::Global;

/// How many incidents are read, and for how many persons their standings.
const INCIDENTS: usize = 6;

const PERSONS: u32 = 6;

fn same_case(one: &Case, other: &Case) -> bool {
    one.source == other.source
        && one.community == other.community
        && same_gates(one.gates.as_slice(), other.gates.as_slice())
        && same_permissions(one.permissions.as_slice(), other.permissions.as_slice())
}

fn same_standing(one: &Standing, other: &Standing) -> bool {
    one.source == other.source
        && one.person == other.person
        && one.nominated == other.nominated
        && one.addressed == other.addressed
        && one.client == other.client
        && one.community == other.community
        && one.peer == other.peer
        && one.connected == other.connected
        && one.arrangement == other.arrangement
        && one.who == other.who
        && one.org == other.org
        && one.groups.as_slice() == other.groups.as_slice()
        && one.active_groups.as_slice() == other.active_groups.as_slice()
        && one.communities.as_slice() == other.communities.as_slice()
        && one.now == other.now
}

/// Compares the groups of the person.
fn agree_on_groups<A: Shelf, B: Shelf>(
    lists: &mut A,
    tables: &mut B,
    person: &Person,
) -> Result<(), Fault> {
    let groups = lists.groups_of(person)?;
    let others = tables.groups_of(person)?;
    agree(
        same_groups(groups.as_slice(), others.as_slice()),
        "the groups of a person",
    )
}

/// Compares the communities of the person.
fn agree_on_communities<A: Shelf, B: Shelf>(
    lists: &mut A,
    tables: &mut B,
    person: &Person,
) -> Result<(), Fault> {
    let communities = lists.joined_communities(person)?;
    let others = tables.joined_communities(person)?;
    agree(
        same_communities(communities.as_slice(), others.as_slice()),
        "the communities of a person",
    )
}

/// Compares the person of this key, its groups and its communities.
fn agree_on_key<A: Shelf, B: Shelf>(
    lists: &mut A,
    tables: &mut B,
    key: &[u8; 32],
) -> Result<(), Fault> {
    let found = lists.person_by_key(key)?;
    let other = tables.person_by_key(key)?;
    agree(found == other, "the person of a key")?;
    match &found {
        Some(person) => {
            agree_on_groups(lists, tables, person)?;
            agree_on_communities(lists, tables, person)
        }
        None => Ok(()),
    }
}

/// The moment of the standings.
const NOW: i64 = 1_000;

fn same_standings(one: &Option<Standing>, other: &Option<Standing>) -> bool {
    match (one, other) {
        (Some(one), Some(other)) => same_standing(one, other),
        (None, None) => true,
        _ => false,
    }
}

/// Compares the person's standing to the incident, if it is there.
fn agree_on_standing<A: Shelf, B: Shelf>(
    lists: &mut A,
    tables: &mut B,
    person: u32,
    incident: u32,
) -> Result<(), Fault> {
    let one = lists.standing(person, incident, NOW)?;
    let other = tables.standing(person, incident, NOW)?;
    agree(same_standings(&one, &other), "a standing")
}

/// Compares what the incident is judged by.
fn agree_on_case<A: Shelf, B: Shelf>(
    lists: &mut A,
    tables: &mut B,
    incident: u32,
) -> Result<(), Fault> {
    let one = lists.case(incident)?;
    let other = tables.case(incident)?;
    match (&one, &other) {
        (Some(one), Some(other)) => agree(same_case(one, other), "a case"),
        _ => Err(Fault::Differs("a case that is missing")),
    }
}

fn same_sharing(one: &IncidentSharing, other: &IncidentSharing) -> bool {
    same_naming(&one.naming, &other.naming)
        && same_gates(one.gates.as_slice(), other.gates.as_slice())
        && one.recipients.as_slice() == other.recipients.as_slice()
        && same_permissions(one.permissions.as_slice(), other.permissions.as_slice())
}

/// Compares how the incident is shared.
fn agree_on_sharing<A: Shelf, B: Shelf>(
    lists: &mut A,
    tables: &mut B,
    incident: u32,
) -> Result<(), Fault> {
    let one = lists.incident_sharing(incident)?;
    let other = tables.incident_sharing(incident)?;
    match (&one, &other) {
        (Some(one), Some(other)) => agree(same_sharing(one, other), "how an incident is shared"),
        _ => Err(Fault::Differs("a missing incident's sharing")),
    }
}

/// Compares the document of the incident.
fn agree_on_document<A: Shelf, B: Shelf>(
    alloc: Global,
    lists: &mut A,
    tables: &mut B,
    incident: u32,
) -> Result<(), Fault> {
    let one = lists.document(incident)?;
    let other = tables.document(incident)?;
    match (&one, &other) {
        (Some(one), Some(other)) => agree_on_lines(alloc, one, other),
        _ => Err(Fault::Differs("a document that is missing")),
    }
}

fn agree_on_lines(alloc: Global, one: &Document, other: &Document) -> Result<(), Fault> {
    agree(same_document(alloc, one, other)?, "a document")
}

/// Compares the case of the incident, how it is shared, its document, and the standings of persons to it.
fn agree_on_incident<A: Shelf, B: Shelf>(
    alloc: Global,
    lists: &mut A,
    tables: &mut B,
    incident: u32,
) -> Result<(), Fault> {
    agree_on_case(lists, tables, incident)?;
    agree_on_sharing(lists, tables, incident)?;
    agree_on_document(alloc, lists, tables, incident)?;
    for person in 0..PERSONS {
        agree_on_standing(lists, tables, person, incident)?;
    }
    Ok(())
}

/// Returns none if the case or the standing is missing; else what the person is served of the incident, or none.
pub fn excerpt_of<Sh: Shelf>(
    shelf: &mut Sh,
    person: u32,
    incident: u32,
    now: i64,
) -> Result<Option<Option<Excerpt>>, ShelfFault> {
    let Some(case) = shelf.case(incident)? else {
        return Ok(None);
    };
    match shelf.standing(person, incident, now)? {
        Some(standing) => Ok(Some(shelf.excerpt(incident, case, standing)?)),
        None => Ok(None),
    }
}

/// Compares the excerpt of the incident for a person, if both are there.
fn agree_on_excerpt<A: Shelf, B: Shelf>(
    alloc: Global,
    lists: &mut A,
    kept: &mut B,
    person: u32,
    incident: u32,
) -> Result<(), Fault> {
    let one = excerpt_of(lists, person, incident, NOW)?;
    let other = excerpt_of(kept, person, incident, NOW)?;
    match (&one, &other) {
        (None, None) => Ok(()),
        (Some(one), Some(other)) => agree_on_served(alloc, one, other),
        _ => Err(Fault::Differs("a case or a standing that is missing")),
    }
}

fn agree_on_served(
    alloc: Global,
    one: &Option<Excerpt>,
    other: &Option<Excerpt>,
) -> Result<(), Fault> {
    agree(same_excerpt(alloc, one, other)?, "an excerpt")
}

/// Compares the excerpts of the shelf in memory with those of the one that keeps documents, which by then has some of
/// them.
fn agree_on_excerpts<A: Shelf, B: Shelf>(
    alloc: Global,
    lists: &mut A,
    kept: &mut B,
) -> Result<(), Fault> {
    let entries = lists.incidents_after(0, u32::MAX)?;
    for entry in entries.iter().take(INCIDENTS) {
        for person in 0..PERSONS {
            agree_on_excerpt(alloc, lists, kept, person, entry.number)?;
        }
    }
    Ok(())
}

/// Compares the entries of all incidents.
fn agree_on_entries<A: Shelf, B: Shelf>(lists: &mut A, tables: &mut B) -> Result<(), Fault> {
    let entries = lists.incidents_after(0, u32::MAX)?;
    let others = tables.incidents_after(0, u32::MAX)?;
    agree(entries.as_slice() == others.as_slice(), "the incidents")
}

/// Compares the contents of two shelves.
fn agree_on_reads<A: Shelf, B: Shelf>(
    alloc: Global,
    lists: &mut A,
    tables: &mut B,
) -> Result<(), Fault> {
    for number in 0..KEYS {
        agree_on_key(lists, tables, &key_of(number))?;
    }
    agree_on_entries(lists, tables)?;
    for entry in lists.incidents_after(0, u32::MAX)?.iter().take(INCIDENTS) {
        agree_on_incident(alloc, lists, tables, entry.number)?;
    }
    Ok(())
}

/// Compares what the shelf in memory has with the tables, and with the shelf that keeps documents.
pub fn agree_on_shelves<A: Shelf, B: Shelf, C: Shelf>(
    alloc: Global,
    lists: &mut A,
    tables: &mut B,
    kept: &mut C,
) -> Result<(), Fault> {
    agree_on_reads(alloc, lists, tables)?;
    agree_on_excerpts(alloc, lists, kept)
}

/// Compares what the shelf in memory has with the one that keeps rows.
pub fn agree_on_rows<A: Shelf, B: Shelf>(
    alloc: Global,
    lists: &mut A,
    rows: &mut B,
) -> Result<(), Fault> {
    agree_on_reads(alloc, lists, rows)?;
    agree_on_excerpts(alloc, lists, rows)
}

//! Generated posts and exchanges of documents.

use crate::asked::Asker;
use crate::commands::any_group;
use crate::documents::{Flaw, any_body, any_flaw, ident_text};
use crate::world::{Relation, World};
use circle::text::Text;
use hub_core::{Bytes, Distribution, Post, Replace, WantedGate, WantedGates};
use std::alloc::{AllocError, Global};
use trying::Dice;

/// The number of different IncidentIDs.
const IDENTS: u32 = 6;

/// Returns a level and a group that mostly fit.
pub fn any_level(
    dice: &mut Dice,
    world: &World,
    own: u32,
    highest: u32,
) -> Result<(u32, Option<u32>), AllocError> {
    let group = any_group(dice, world, own)?;
    Ok(match dice.roll(24) {
        0 | 1 => (highest.saturating_add(1), None),
        2 => (4, None),
        3 => (3, Some(group)),
        4..=7 => (4, Some(group)),
        8..=10 => (highest, if highest == 4 { Some(group) } else { None }),
        11 => (0, None),
        12 | 13 => (1, None),
        14 | 15 => (2, None),
        _ => (3, None),
    })
}

/// Returns a pointer into a document, mostly to a class that many documents have.
pub fn any_pointer(dice: &mut Dice) -> &'static str {
    match dice.roll(24) {
        0 => "",
        1 => "Incident",
        2 => "/a~2",
        3 => "/Incident/0/EventData/9",
        4 => "/Incident/0/purpose",
        5 => "/Incident/0/EventData",
        6 => "/a~1b",
        7 | 8 => "/Incident/0/Contact/0",
        9..=13 => "/Incident/0",
        14..=18 => "/Incident/0/EventData/0",
        19..=21 => "/Incident/0/EventData/1",
        22 => "/Incident/0/EventData/0/Flow/0/System/0",
        _ => "/Incident/0/EventData/0/Flow/0",
    }
}

fn any_gates(dice: &mut Dice, world: &World, own: u32) -> Result<Vec<WantedGate>, AllocError> {
    let mut gates = Vec::new(world.alloc);
    let count = match dice.roll(6) {
        0 | 1 => 1,
        2 => dice.roll(4),
        _ => 0,
    };
    for _ in 0..count {
        let (level, group) = any_level(dice, world, own, 5)?;
        let path = Text::of(world.alloc, any_pointer(dice))?;
        gates.push(WantedGate { level, group, path })?;
    }
    Ok(gates)
}

/// Returns a gate at each of so many empty classes: as many as there may be, one less or one more.
fn wide_gates(dice: &mut Dice, alloc: Global) -> Result<Vec<WantedGate>, AllocError> {
    let mut gates = Vec::new(alloc);
    let count = 15u32.saturating_add(dice.roll(3));
    for place in 0..count {
        let pointer = format!(in alloc; "/Incident/0/EventData/{place}")?;
        gates.push(WantedGate {
            level: dice.roll(4),
            group: None,
            path: Text::new(pointer),
        })?;
    }
    Ok(gates)
}

/// Returns no community in one of two, or one. In three of four it is one that the organisation has joined, if it has
/// joined any.
fn any_community(dice: &mut Dice, world: &World, own: u32) -> Result<Option<u32>, AllocError> {
    let mut joined = Vec::new(world.alloc);
    for pair in world.pairs.iter() {
        if pair.relation == Relation::Member && pair.b == own {
            joined.push(pair.a)?;
        }
    }
    if dice.once_in(2) {
        return Ok(None);
    }
    Ok(Some(match dice.one_of(joined.as_slice()) {
        Some(community) if !dice.once_in(4) => *community,
        _ => dice.number(world.communities),
    }))
}

/// Returns the level of a report, and the body of one with these IncidentIDs; one in five has many gates.
fn any_content(
    dice: &mut Dice,
    world: &World,
    own: u32,
    idents: &[String],
) -> Result<(Distribution, Bytes), AllocError> {
    let (level, group) = any_level(dice, world, own, 4)?;
    let is_wide = dice.once_in(5);
    let (gates, flaw) = if is_wide {
        (wide_gates(dice, world.alloc)?, Flaw::Nothing)
    } else {
        (any_gates(dice, world, own)?, any_flaw(dice))
    };
    let gates = WantedGates::new(gates);
    let body = any_body(world.alloc, dice, idents, flaw, is_wide)?;
    let distribution = Distribution {
        community: any_community(dice, world, own)?,
        level,
        group,
        gates,
    };
    Ok((distribution, Bytes::new(body.into_bytes())))
}

/// Returns a report, mostly of one Incident, or of several.
pub fn any_post(dice: &mut Dice, world: &World, own: u32) -> Result<Post, AllocError> {
    let count = match dice.roll(12) {
        0..=8 => 1,
        9 | 10 => 2,
        _ => 3,
    };
    let first = dice.roll(IDENTS);
    let repeats = dice.once_in(3);
    let mut idents = Vec::new(world.alloc);
    for _ in 0..count {
        let number = if repeats { first } else { dice.roll(IDENTS) };
        idents.push(ident_text(world.alloc, number)?)?;
    }
    let (distribution, document) = any_content(dice, world, own, idents.as_slice())?;
    Ok(Post {
        distribution,
        document,
    })
}

/// Returns mostly the revision that the incident has at first, or the next one.
pub fn any_revision(dice: &mut Dice, world: &World, incident: u32) -> u32 {
    match world.incident(incident) {
        Some(row) => row.naming.revision.saturating_add(dice.roll(4) / 3),
        None => dice.roll(4),
    }
}

/// Returns another document, mostly under the incident's IncidentID; one in ten has two Incidents.
pub fn any_replace(dice: &mut Dice, world: &World, asker: Asker) -> Result<Replace, AllocError> {
    let Asker { own, incident, .. } = asker;
    let mut idents = Vec::new(world.alloc);
    idents.push(match world.incident(incident) {
        Some(row) if !dice.once_in(6) => String::from_str(world.alloc, row.naming.ident.as_str())?,
        _ => ident_text(world.alloc, dice.roll(IDENTS))?,
    })?;
    if dice.once_in(10) {
        idents.push(ident_text(world.alloc, dice.roll(IDENTS))?)?;
    }
    let (distribution, document) = any_content(dice, world, own, idents.as_slice())?;
    Ok(Replace {
        incident,
        revision: any_revision(dice, world, incident),
        distribution,
        document,
    })
}

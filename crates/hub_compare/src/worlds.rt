//! Generated worlds: some like a small circle, some at the limits of its incidents.

use crate::commands::any_role;
use crate::documents::{Flaw, any_body, ident_text};
use crate::fault::Fault;
use crate::sharing::any_end;
use crate::world::{Pair, Relation, World, count_of};
use circle::directory::Role;
use hub_core::{Gate, Recipient, Target};
use iodef_tree::Path;
use policy::Grantee;
use std::alloc::{AllocError, Global};
use trying::Dice;

/// Adds persons. Each of the first five is of its own organisation: an administrator, two coordinators and two others.
fn add_persons(world: &mut World, dice: &mut Dice, count: u32) -> Result<(), Fault> {
    for place in 0..count {
        let org = if place < 5 {
            place.saturating_add(1)
        } else {
            dice.one_to(world.orgs)
        };
        let role = match place {
            0 => Role::Administrator,
            1 | 2 => Role::Coordinator,
            _ => any_role(dice),
        };
        let active = place < 3 || !dice.once_in(6);
        world.add_person(org, role, active, dice.once_in(3))?;
    }
    Ok(())
}

/// Returns whether a pair of these may exist.
fn may_stand(relation: Relation, a: u32, b: u32) -> bool {
    match relation {
        Relation::Client | Relation::Arrangement => a != b,
        Relation::Link => a < b && b <= 3,
        Relation::Member | Relation::GroupMember => a <= 3,
    }
}

/// Adds about one in three of the pairs of small numbers, of groups and their members one in two, and each group's
/// owner.
fn add_pairs(world: &mut World, dice: &mut Dice, relation: Relation) -> Result<(), AllocError> {
    for place in 0..25u32 {
        let a = (place / 5).saturating_add(1);
        let b = (place % 5).saturating_add(1);
        let owns = relation == Relation::GroupMember && world.owns(b, a);
        let sides = if relation == Relation::GroupMember {
            2
        } else {
            3
        };
        if may_stand(relation, a, b) && (owns || dice.once_in(sides)) {
            let value = match relation {
                Relation::GroupMember if owns => 1,
                Relation::GroupMember => dice.roll(2),
                _ => dice.roll(5),
            };
            world.pairs.push(Pair {
                relation,
                a,
                b,
                value,
            })?;
        }
    }
    Ok(())
}

fn any_gate(dice: &mut Dice, incident: u32, path: Path) -> Gate {
    let (level, group) = match dice.roll(10) {
        0 => (0, None),
        1 => (1, None),
        2 => (2, None),
        3..=5 => (4, Some(dice.one_to(3))),
        _ => (3, None),
    };
    Gate {
        incident,
        gate: policy::Gate { path, level, group },
    }
}

/// Adds the root's gate, which everybody passes in one of two, and gates at some classes; in a crowded world as many as
/// there may be, or one less.
fn add_gates(
    world: &mut World,
    dice: &mut Dice,
    incident: u32,
    classes: &[Path],
    crowded: bool,
) -> Result<(), AllocError> {
    if dice.once_in(2) {
        world.add_gate(incident, Path::root(world.alloc), 3)?;
    } else {
        let gate = any_gate(dice, incident, Path::root(world.alloc));
        world.gates.push(gate)?;
    }
    let most = if crowded && dice.once_in(2) { 15 } else { 16 };
    for class in classes.iter().take(most) {
        if crowded || dice.once_in(4) {
            let gate = any_gate(dice, incident, class.clone()?);
            world.gates.push(gate)?;
        }
    }
    Ok(())
}

/// Returns how many recipients or permissions an incident gets; in a crowded world as many as there may be, or one
/// less.
fn any_count(dice: &mut Dice, crowded: bool) -> u32 {
    if crowded {
        64u32.saturating_sub(dice.roll(4) / 3)
    } else {
        dice.roll(6)
    }
}

/// How often at most a row is made until there are so many. One that exists isn't put again.
const TRIES: u32 = 900;

fn add_recipients(
    world: &mut World,
    dice: &mut Dice,
    incident: u32,
    crowded: bool,
) -> Result<(), AllocError> {
    let mut left = any_count(dice, crowded);
    for _ in 0..TRIES {
        let target = if dice.once_in(2) {
            Target::Person(dice.one_to(count_of(world.accounts.as_slice())))
        } else {
            Target::Org(dice.one_to(world.orgs))
        };
        let row = Recipient { incident, target };
        if left > 0 && !world.recipients.contains(&row) {
            world.recipients.push(row)?;
            left = left.saturating_sub(1);
        }
    }
    Ok(())
}

fn any_grantee(dice: &mut Dice, world: &World) -> Grantee {
    match dice.roll(4) {
        0 => Grantee::Person(dice.one_to(count_of(world.accounts.as_slice()))),
        1 => Grantee::Org(dice.one_to(world.orgs)),
        2 => Grantee::Community(dice.one_to(3)),
        _ => Grantee::Group(dice.one_to(3)),
    }
}

fn add_permissions(
    world: &mut World,
    dice: &mut Dice,
    incident: u32,
    classes: &[Path],
    crowded: bool,
) -> Result<(), AllocError> {
    let mut left = any_count(dice, crowded);
    for _ in 0..TRIES {
        let grantee = any_grantee(dice, world);
        if let Some(path) = dice.one_of(classes) {
            if left > 0 && !world.has_permission(incident, path, grantee) {
                let until = any_end(dice);
                world.add_permission(incident, path.clone()?, grantee, until)?;
                left = left.saturating_sub(1);
            }
        }
    }
    Ok(())
}

/// Returns the community that an incident names, none in one of two. Its source may have left it.
fn any_community(dice: &mut Dice, world: &World) -> Option<u32> {
    if dice.once_in(2) {
        Some(dice.one_to(world.communities))
    } else {
        None
    }
}

/// Adds an incident with gates, recipients and permissions, unless its source has posted one under the same IncidentID.
fn add_incident(world: &mut World, dice: &mut Dice, crowded: bool) -> Result<(), Fault> {
    let mut idents = Vec::new(world.alloc);
    idents.push(ident_text(world.alloc, dice.roll(6))?)?;
    let body = any_body(world.alloc, dice, idents.as_slice(), Flaw::Nothing, crowded)?;
    let source = match dice.roll(6) {
        0 => dice.one_to(5),
        1 | 2 => 3,
        _ => 2,
    };
    let revision = match dice.roll(4) {
        0 if crowded => 1_000_000,
        1 if crowded => 999_999,
        2 => 7,
        _ => 1,
    };
    let community = any_community(dice, world);
    if let Some(incident) = world.add_incident(source, revision, community, body.as_str())? {
        let classes = world.classes(incident)?;
        add_gates(world, dice, incident, classes.as_slice(), crowded)?;
        add_recipients(world, dice, incident, crowded)?;
        add_permissions(world, dice, incident, classes.as_slice(), crowded)?;
    }
    Ok(())
}

/// Returns the rows of a small circle, or of one with incidents at the limits.
pub fn any_world(alloc: Global, dice: &mut Dice, crowded: bool) -> Result<World, Fault> {
    let mut world = World::new(alloc);
    world.orgs = if crowded { 50 } else { 5 };
    world.communities = 3;
    add_persons(&mut world, dice, if crowded { 50 } else { 9 })?;
    for _ in 0..3 {
        world.add_group(dice.one_to(3), !dice.once_in(2))?;
    }
    for relation in [
        Relation::Client,
        Relation::Member,
        Relation::Link,
        Relation::GroupMember,
        Relation::Arrangement,
    ] {
        add_pairs(&mut world, dice, relation)?;
    }
    let incidents = if crowded { 3 } else { dice.one_to(4) };
    for _ in 0..incidents {
        add_incident(&mut world, dice, crowded)?;
    }
    Ok(world)
}

//! Generated changes of an incident's gates, recipients and permissions.

use crate::asked::Asker;
use crate::commands::any_group;
use crate::posting::{any_level, any_pointer, any_revision};
use crate::world::{World, count_of};
use circle::text::Text;
use hub_core::{
    Address, Gate, Grant, Permission, Recipient, Redistribute, Request, Target, Unaddress, Withdraw,
};
use iodef_tree::Path;
use policy::Grantee;
use std::alloc::{AllocError, Global};
use trying::Dice;

fn pointer(alloc: Global, path: &Path) -> Result<Text, AllocError> {
    Ok(Text::new(path.print(alloc)?))
}

/// Returns the pointer of a class of the incident, if it is there; in one of three of a class without a gate.
fn any_class(dice: &mut Dice, world: &World, incident: u32) -> Result<Text, AllocError> {
    let is_bare = dice.once_in(3);
    let mut found = Vec::new(world.alloc);
    for path in world.classes(incident)? {
        if !is_bare || !world.has_gate(incident, &path) {
            found.push(path)?;
        }
    }
    match dice.one_of(found.as_slice()) {
        Some(path) => pointer(world.alloc, path),
        None => Text::of(world.alloc, "/Incident/0"),
    }
}

/// Returns a pointer to a class of the incident, or another one.
fn any_place(dice: &mut Dice, world: &World, incident: u32) -> Result<Text, AllocError> {
    match dice.roll(12) {
        0 => Text::of(world.alloc, "/a~2"),
        1..=3 => Text::of(world.alloc, any_pointer(dice)),
        _ => any_class(dice, world, incident),
    }
}

/// Returns a gate at the root or at a class; in one of four one that exists.
fn any_redistribute(
    dice: &mut Dice,
    world: &World,
    asker: Asker,
) -> Result<Redistribute, AllocError> {
    let Asker { own, incident, .. } = asker;
    let gates: Vec<&Gate> = world
        .gates
        .iter()
        .filter(|row| row.incident == incident)
        .collect(world.alloc)?;
    let is_root = dice.once_in(6);
    let (path, (level, group)) = match dice.one_of(gates.as_slice()) {
        Some(row) if dice.once_in(4) => (
            pointer(world.alloc, &row.gate.path)?,
            (u32::from(row.gate.level), row.gate.group),
        ),
        _ if is_root => (Text::of(world.alloc, "")?, any_level(dice, world, own, 4)?),
        _ => (
            any_place(dice, world, incident)?,
            any_level(dice, world, own, 5)?,
        ),
    };
    Ok(Redistribute {
        incident,
        revision: any_revision(dice, world, incident),
        path,
        level,
        group,
    })
}

/// Returns a person or an organisation, in one of three one that is addressed.
fn any_target(dice: &mut Dice, world: &World, incident: u32) -> Result<Target, AllocError> {
    let addressed: Vec<&Recipient> = world
        .recipients
        .iter()
        .filter(|row| row.incident == incident)
        .collect(world.alloc)?;
    Ok(match dice.one_of(addressed.as_slice()) {
        Some(row) if dice.once_in(3) => row.target,
        _ if dice.once_in(2) => Target::Person(dice.number(count_of(world.accounts.as_slice()))),
        _ => Target::Org(dice.number(world.orgs)),
    })
}

fn any_grantee(dice: &mut Dice, world: &World, own: u32) -> Result<Grantee, AllocError> {
    Ok(match dice.roll(4) {
        0 => Grantee::Person(dice.number(count_of(world.accounts.as_slice()))),
        1 => Grantee::Org(dice.number(world.orgs)),
        2 => Grantee::Community(dice.number(world.communities)),
        _ => Grantee::Group(any_group(dice, world, own)?),
    })
}

/// Returns no end in half of the cases, else one of a few.
pub fn any_end(dice: &mut Dice) -> Option<i64> {
    match dice.roll(6) {
        0 => Some(0),
        1 => Some(1_000),
        2 => Some(1_717_200_000),
        _ => None,
    }
}

/// Returns the pointer and the grantee of a permission, in one of three those of one that exists.
pub fn any_permission(
    dice: &mut Dice,
    world: &World,
    asker: Asker,
) -> Result<(Text, Grantee), AllocError> {
    let Asker { own, incident, .. } = asker;
    let granted: Vec<&Permission> = world
        .permissions
        .iter()
        .filter(|row| row.incident == incident)
        .collect(world.alloc)?;
    Ok(match dice.one_of(granted.as_slice()) {
        Some(row) if dice.once_in(3) => (
            pointer(world.alloc, &row.permission.path)?,
            row.permission.grantee,
        ),
        _ => (
            any_place(dice, world, incident)?,
            any_grantee(dice, world, own)?,
        ),
    })
}

/// Returns a change of an incident's gates, recipients or permissions.
pub fn any_sharing(dice: &mut Dice, world: &World, asker: Asker) -> Result<Request, AllocError> {
    let incident = asker.incident;
    let target = any_target(dice, world, incident)?;
    let (path, grantee) = any_permission(dice, world, asker)?;
    Ok(match dice.roll(24) {
        0..=6 => Request::Redistribute(any_redistribute(dice, world, asker)?),
        7..=10 => Request::Address(Address { incident, target }),
        11..=13 => Request::Unaddress(Unaddress { incident, target }),
        14..=19 => Request::Grant(Grant {
            incident,
            revision: any_revision(dice, world, incident),
            path,
            grantee,
            until: any_end(dice),
        }),
        _ => Request::Withdraw(Withdraw {
            incident,
            path,
            grantee,
        }),
    })
}

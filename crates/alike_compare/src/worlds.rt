//! Generated worlds: five organisations, seven persons, three groups, and up to four incidents of some classes.

use crate::rows::{
    COMMUNITIES, Circle, Class, Club, GROUPS, Given, MOMENT, Member, ORGS, Reach, Report, World,
    number_at,
};
use crate::writing::{DEEPEST, LABEL_COUNT, NOTE_COUNT, PUBLIC};
use circle::directory::{Arrangement, Client, Connection, GroupMember, Handling, Membership, Role};
use hub_core::Target;
use policy::Grantee;
use std::alloc::{AllocError, Global};
use trying::Dice;

/// The number of persons at first.
pub const PERSONS: u32 = 7;

/// Returns a role by chance.
pub fn any_role(dice: &mut Dice) -> Role {
    match dice.roll(4) {
        0 => Role::Administrator,
        1 => Role::Coordinator,
        2 => Role::Poster,
        _ => Role::Reader,
    }
}

pub fn any_member(dice: &mut Dice) -> Member {
    Member {
        org: dice.one_to(ORGS),
        role: any_role(dice),
        active: !dice.once_in(6),
        nominated: dice.once_in(2),
    }
}

pub fn any_handling(dice: &mut Dice) -> Handling {
    match dice.roll(5) {
        0 => Handling::Clear,
        1 => Handling::Green,
        2 => Handling::Amber,
        3 => Handling::Strict,
        _ => Handling::Red,
    }
}

pub fn any_target(dice: &mut Dice, persons: u32) -> Target {
    if dice.once_in(2) {
        Target::Person(dice.one_to(persons))
    } else {
        Target::Org(dice.one_to(ORGS))
    }
}

fn any_grantee(dice: &mut Dice, persons: u32) -> Grantee {
    match dice.roll(4) {
        0 => Grantee::Person(dice.one_to(persons)),
        1 => Grantee::Org(dice.one_to(ORGS)),
        2 => Grantee::Community(dice.one_to(COMMUNITIES)),
        _ => Grantee::Group(dice.one_to(GROUPS)),
    }
}

/// Returns when a permission ends: a second ago, at the moment of the requests or a second later; in one of two it
/// doesn't.
pub fn any_end(dice: &mut Dice) -> Option<i64> {
    match dice.roll(6) {
        0 => Some(MOMENT.saturating_sub(1)),
        1 => Some(MOMENT),
        2 => Some(MOMENT.saturating_add(1)),
        _ => None,
    }
}

pub fn any_given(dice: &mut Dice, persons: u32) -> Given {
    Given {
        grantee: any_grantee(dice, persons),
        until: any_end(dice),
    }
}

/// Returns a level below this one; level 4 has group 1, 2 or 3.
pub fn any_reach(dice: &mut Dice, levels: u32) -> Reach {
    let level = dice.roll(levels);
    let group = if level == 4 {
        Some(dice.one_to(GROUPS))
    } else {
        None
    };
    Reach {
        level: u8::try_from(level).unwrap_or(0),
        group,
    }
}

/// Returns the community that an incident names, none in one of two. Its source isn't always a member.
pub fn any_community(dice: &mut Dice) -> Option<u32> {
    if dice.once_in(2) {
        Some(dice.one_to(COMMUNITIES))
    } else {
        None
    }
}

/// Adds the directory's rows of two numbers, each in about one of three.
fn push_pair(circle: &mut Circle, dice: &mut Dice, a: u32, b: u32) -> Result<(), AllocError> {
    if a != b && dice.once_in(4) {
        circle.clients.push(Client { org: a, client: b })?;
    }
    if a != b && dice.once_in(3) {
        circle.arrangements.push(Arrangement {
            source: a,
            org: b,
            handling: any_handling(dice),
        })?;
    }
    if a <= COMMUNITIES && dice.once_in(4) {
        circle.memberships.push(Membership {
            community: a,
            org: b,
        })?;
    }
    if a < b && b <= COMMUNITIES && dice.once_in(2) {
        circle.connections.push(Connection { low: a, high: b })?;
    }
    let owns = b == 1;
    if a <= GROUPS && (owns || dice.once_in(3)) {
        circle.members.push(GroupMember {
            group: a,
            org: b,
            extend: owns || dice.once_in(2),
        })?;
    }
    Ok(())
}

fn any_circle(alloc: Global, dice: &mut Dice) -> Result<Circle, AllocError> {
    let mut circle = Circle {
        persons: Vec::new(alloc),
        groups: Vec::new(alloc),
        clients: Vec::new(alloc),
        memberships: Vec::new(alloc),
        connections: Vec::new(alloc),
        members: Vec::new(alloc),
        arrangements: Vec::new(alloc),
    };
    for _ in 0..PERSONS {
        circle.persons.push(any_member(dice))?;
    }
    for _ in 0..GROUPS {
        circle.groups.push(Club {
            owner: 1,
            active: !dice.once_in(3),
        })?;
    }
    for place in 0..ORGS.saturating_mul(ORGS) {
        let (a, b) = (place / ORGS, place % ORGS);
        push_pair(&mut circle, dice, a.saturating_add(1), b.saturating_add(1))?;
    }
    Ok(circle)
}

fn has_grantee(grants: &[Given], given: Given) -> bool {
    grants.iter().any(|other| other.grantee == given.grantee)
}

/// Returns permissions, no two of one grantee.
fn any_grants(alloc: Global, dice: &mut Dice) -> Result<Vec<Given>, AllocError> {
    let mut grants = Vec::new(alloc);
    let count = if dice.once_in(4) { dice.roll(3) } else { 0 };
    for _ in 0..count {
        let given = any_given(dice, PERSONS);
        if !has_grantee(&grants, given) {
            grants.push(given)?;
        }
    }
    Ok(grants)
}

/// Returns a label, none in one of two.
pub fn any_label(dice: &mut Dice) -> u32 {
    if dice.once_in(2) {
        0
    } else {
        dice.roll(LABEL_COUNT)
    }
}

fn any_class(alloc: Global, dice: &mut Dice, depth: u32, kind: u32) -> Result<Class, AllocError> {
    let gate = if dice.once_in(5) {
        Some(any_reach(dice, 6))
    } else {
        None
    };
    Ok(Class {
        depth,
        kind,
        label: any_label(dice),
        note: dice.roll(NOTE_COUNT),
        gate,
        grants: any_grants(alloc, dice)?,
    })
}

/// Adds a class and, behind it, some below it: up to two of each kind, and below each of these up to one.
pub fn push_tree(
    alloc: Global,
    dice: &mut Dice,
    classes: &mut Vec<Class>,
    depth: u32,
    kind: u32,
) -> Result<(), AllocError> {
    classes.push(any_class(alloc, dice, depth, kind)?)?;
    let (inner, deeper) = (depth.saturating_add(1), depth.saturating_add(2));
    let count = if inner > DEEPEST { 0 } else { dice.roll(4) };
    let mut kind = 0;
    for _ in 0..count {
        if dice.once_in(3) {
            kind = 1;
        }
        classes.push(any_class(alloc, dice, inner, kind)?)?;
        if deeper <= DEEPEST && dice.once_in(2) {
            let kind = dice.roll(2);
            classes.push(any_class(alloc, dice, deeper, kind)?)?;
        }
    }
    Ok(())
}

/// Returns an incident of this source. One of two is public unless a class of it says otherwise.
pub fn any_report(
    alloc: Global,
    dice: &mut Dice,
    source: u32,
    ident: u32,
) -> Result<Report, AllocError> {
    let mut classes = Vec::new(alloc);
    push_tree(alloc, dice, &mut classes, 1, 0)?;
    match classes.first_mut() {
        Some(incident) if dice.once_in(2) => incident.label = PUBLIC,
        _ => {}
    }
    if dice.once_in(4) {
        push_tree(alloc, dice, &mut classes, 1, 1)?;
    }
    let mut recipients = Vec::new(alloc);
    for _ in 0..dice.roll(4) {
        let target = any_target(dice, PERSONS);
        if !recipients.contains(&target) {
            recipients.push(target)?;
        }
    }
    let reach = if dice.once_in(3) {
        any_reach(dice, 5)
    } else {
        Reach {
            level: 3,
            group: None,
        }
    };
    Ok(Report {
        source,
        ident,
        revision: dice.one_to(3),
        community: any_community(dice),
        reach,
        recipients,
        classes,
    })
}

/// Returns a world with one to three incidents.
pub fn any_world(alloc: Global, dice: &mut Dice) -> Result<World, AllocError> {
    let mut world = World {
        circle: any_circle(alloc, dice)?,
        reports: Vec::new(alloc),
        idents: 0,
    };
    for _ in 0..dice.one_to(3) {
        let ident = world.next_ident();
        let source = dice.one_to(ORGS);
        let report = any_report(alloc, dice, source, ident)?;
        world.reports.push(report)?;
    }
    Ok(world)
}

/// Returns how many persons there are.
pub fn count_of(circle: &Circle) -> u32 {
    number_at(circle.persons.len()).saturating_sub(1)
}

//! Generated commands of the directory. The rows that they name mostly exist.

use crate::world::{KEYS, Relation, World, count_of, handling_of, key_of};
use circle::command::CircleCommand;
use circle::directory::Role;
use circle::text::Text;
use std::alloc::{AllocError, Global};
use trying::Dice;

/// Returns a text of so many bytes.
pub fn long(alloc: Global, count: u32) -> Result<Text, AllocError> {
    let mut text = String::new(alloc);
    for _ in 0..count {
        text.push('x')?;
    }
    Ok(Text::new(text))
}

/// Returns a name for a row of this kind, mostly a good one; in three of eight that of the row of this number.
fn any_name(dice: &mut Dice, alloc: Global, kind: &str, row: u32) -> Result<Text, AllocError> {
    match dice.roll(16) {
        0 => Text::of(alloc, ""),
        1 => Text::of(alloc, "a\u{7f}"),
        2 => Text::of(alloc, "\u{1f}"),
        3 => long(alloc, 128),
        4 => long(alloc, 129),
        5 => Text::of(alloc, "Köln"),
        6..=11 => Ok(Text::new(format!(in alloc; "{kind} {row}")?)),
        _ => {
            let number = dice.roll(200);
            Ok(Text::new(format!(in alloc; "new {number}")?))
        }
    }
}

/// Returns a role by chance.
pub fn any_role(dice: &mut Dice) -> Role {
    match dice.roll(8) {
        0 => Role::Administrator,
        1 | 2 => Role::Poster,
        3 => Role::Reader,
        _ => Role::Coordinator,
    }
}

/// Returns the numbers of a pair that exists, or others; in one of eight twice the same.
fn any_pair(
    dice: &mut Dice,
    world: &World,
    relation: Relation,
    counts: (u32, u32),
) -> Result<(u32, u32), AllocError> {
    let mut standing = Vec::new(world.alloc);
    for pair in world.pairs.iter() {
        if pair.relation == relation {
            standing.push((pair.a, pair.b))?;
        }
    }
    let (a, b) = match dice.one_of(standing.as_slice()) {
        Some(pair) if dice.once_in(2) => *pair,
        _ => (dice.number(counts.0), dice.number(counts.1)),
    };
    Ok(if dice.once_in(8) { (b, b) } else { (a, b) })
}

/// Returns a command that adds or removes a client, a member of a community or a link of two communities.
fn any_tie(dice: &mut Dice, world: &World) -> Result<CircleCommand, AllocError> {
    let kind = dice.roll(6);
    let (relation, counts) = match kind {
        0 | 1 => (Relation::Client, (world.orgs, world.orgs)),
        2 | 3 => (Relation::Member, (world.communities, world.orgs)),
        _ => (Relation::Link, (world.communities, world.communities)),
    };
    let (a, b) = any_pair(dice, world, relation, counts)?;
    Ok(match kind {
        0 => CircleCommand::AddClient { org: a, client: b },
        1 => CircleCommand::RemoveClient { org: a, client: b },
        2 => CircleCommand::Join {
            community: a,
            org: b,
        },
        3 => CircleCommand::Leave {
            community: a,
            org: b,
        },
        4 => CircleCommand::Link {
            community: b,
            other: a,
        },
        _ => CircleCommand::Unlink {
            community: a,
            other: b,
        },
    })
}

/// Returns the person itself, one that is suspended, or any other.
fn any_to_suspend(dice: &mut Dice, world: &World, who: u32) -> Result<u32, AllocError> {
    let mut suspended = Vec::new(world.alloc);
    for account in world.accounts.iter() {
        if !account.person.active {
            suspended.push(account.person.number)?;
        }
    }
    let other = dice.number(count_of(world.accounts.as_slice()));
    let other = if dice.once_in(4) { who } else { other };
    Ok(dice.one_of_or(4, suspended.as_slice(), other))
}

/// Returns a command of an administrator, the person of this number.
pub fn any_administration(
    dice: &mut Dice,
    world: &World,
    who: u32,
) -> Result<CircleCommand, AllocError> {
    let alloc = world.alloc;
    Ok(match dice.roll(10) {
        0 => CircleCommand::AddOrg {
            name: any_name(dice, alloc, "org", 1)?,
        },
        1 => CircleCommand::AddPerson {
            org: dice.number(world.orgs),
            name: any_name(dice, alloc, "person", 1)?,
            role: any_role(dice),
            key: key_of(dice.roll(KEYS)),
        },
        2 => CircleCommand::AddCommunity {
            name: any_name(dice, alloc, "community", 1)?,
        },
        3 => CircleCommand::SuspendPerson {
            person: any_to_suspend(dice, world, who)?,
        },
        _ => any_tie(dice, world)?,
    })
}

/// Returns an organisation, in one of two one that is in a pair of this relation behind this number.
fn any_org(dice: &mut Dice, world: &World, relation: Relation, a: u32) -> Result<u32, AllocError> {
    let mut partners = Vec::new(world.alloc);
    for pair in world.pairs.iter() {
        if pair.relation == relation && pair.a == a {
            partners.push(pair.b)?;
        }
    }
    let other = dice.number(world.orgs);
    Ok(dice.one_of_or(2, partners.as_slice(), other))
}

/// Returns a group, mostly one of which the organisation is a member, and more often one that it owns.
pub fn any_group(dice: &mut Dice, world: &World, own: u32) -> Result<u32, AllocError> {
    let mut joined = Vec::new(world.alloc);
    for pair in world.pairs.iter() {
        if pair.relation == Relation::GroupMember && pair.b == own {
            joined.push(pair.a)?;
            if world.owns(own, pair.a) {
                joined.push(pair.a)?;
            }
        }
    }
    Ok(match dice.one_of(joined.as_slice()) {
        Some(group) if !dice.once_in(4) => *group,
        _ => dice.number(count_of(world.groups.as_slice())),
    })
}

/// Returns a person, in one of two one of the organisation.
fn any_person(dice: &mut Dice, world: &World, own: u32) -> Result<u32, AllocError> {
    let mut persons = Vec::new(world.alloc);
    for account in world.accounts.iter() {
        if account.person.org == own {
            persons.push(account.person.number)?;
        }
    }
    let other = dice.number(count_of(world.accounts.as_slice()));
    Ok(dice.one_of_or(2, persons.as_slice(), other))
}

/// Returns a command that changes the group's members, or whether it is active.
fn any_group_change(
    dice: &mut Dice,
    world: &World,
    group: u32,
) -> Result<CircleCommand, AllocError> {
    let org = any_org(dice, world, Relation::GroupMember, group)?;
    let flag = dice.once_in(2);
    Ok(match dice.roll(3) {
        0 => CircleCommand::GroupAdd {
            group,
            org: dice.number(world.orgs),
            extend: flag,
        },
        1 => CircleCommand::GroupRemove { group, org },
        _ => CircleCommand::GroupActive {
            group,
            active: flag,
        },
    })
}

fn any_releasability(dice: &mut Dice, alloc: Global) -> Result<Text, AllocError> {
    match dice.roll(4) {
        0 => long(alloc, 513),
        1 => long(alloc, 512),
        _ => Text::of(alloc, "TLP:GREEN\n"),
    }
}

/// Returns a command of a coordinator of this organisation.
pub fn any_coordination(
    dice: &mut Dice,
    world: &World,
    own: u32,
) -> Result<CircleCommand, AllocError> {
    let org = any_org(dice, world, Relation::Arrangement, own)?;
    let person = any_person(dice, world, own)?;
    let group = any_group(dice, world, own)?;
    Ok(match dice.roll(9) {
        0 | 1 => CircleCommand::NewGroup {
            name: any_name(dice, world.alloc, "group", group)?,
            releasability: any_releasability(dice, world.alloc)?,
        },
        2 => CircleCommand::Arrange {
            org: if dice.once_in(8) { own } else { org },
            handling: handling_of(dice.roll(5)),
        },
        3 => CircleCommand::CancelArrange { org },
        4 => CircleCommand::Nominate { person },
        5 => CircleCommand::Unnominate { person },
        _ => any_group_change(dice, world, group)?,
    })
}

//! Generated requests that each role may make: those that change nothing, and a new key.

use crate::asked::Asker;
use crate::commands::long;
use crate::sharing::any_permission;
use crate::world::{KEYS, World, count_of, key_of};
use circle::command::CircleCommand;
use circle::text::Text;
use hub_core::{Explain, Recipient, Request, Search, Target};
use policy::Grantee;
use std::alloc::{AllocError, Global};
use trying::Dice;

fn any_needle(dice: &mut Dice, alloc: Global) -> Result<Text, AllocError> {
    match dice.roll(10) {
        0 => Text::of(alloc, ""),
        1 => long(alloc, 257),
        2 => long(alloc, 256),
        3 => Text::of(alloc, "private"),
        4 | 5 => Text::of(alloc, "x"),
        6 | 7 => Text::of(alloc, "needles"),
        _ => Text::of(alloc, "needle"),
    }
}

fn any_class_name(dice: &mut Dice, alloc: Global) -> Result<Option<Text>, AllocError> {
    match dice.roll(7) {
        0 => Ok(Some(Text::of(alloc, "")?)),
        1 => Ok(Some(long(alloc, 257)?)),
        2 | 3 => Ok(Some(Text::of(alloc, "EventData")?)),
        4 => Ok(Some(Text::of(alloc, "System")?)),
        _ => Ok(None),
    }
}

/// Returns a list, or a search.
fn any_page(dice: &mut Dice, alloc: Global) -> Result<Request, AllocError> {
    let after = if dice.once_in(3) { dice.roll(4) } else { 0 };
    if dice.once_in(3) {
        return Ok(Request::List { after });
    }
    Ok(Request::Search(Search {
        needle: any_needle(dice, alloc)?,
        class: any_class_name(dice, alloc)?,
        after,
    }))
}

/// Returns a request that anybody may make, mostly a view.
pub fn any_reading(dice: &mut Dice, alloc: Global, incident: u32) -> Result<Request, AllocError> {
    match dice.roll(18) {
        0..=2 => any_page(dice, alloc),
        3 => Ok(Request::Addressed {
            after: dice.roll(2),
        }),
        4 => Ok(Request::MyGroups),
        5 => Ok(Request::WhoAmI),
        6 => Ok(Request::MyCommunities),
        7 => Ok(Request::Circle(CircleCommand::NewKey {
            key: key_of(dice.roll(KEYS)),
        })),
        8..=10 => Ok(Request::Sharing { incident }),
        _ => Ok(Request::View { incident }),
    }
}

/// Returns a person, mostly one who exists: a suspended one, a nominated one of an organisation that is addressed, one
/// of another organisation who isn't addressed, or any.
fn any_reader(dice: &mut Dice, world: &World, asker: Asker) -> Result<u32, AllocError> {
    let Asker { own, incident, .. } = asker;
    let choice = dice.roll(8);
    let mut meant = Vec::new(world.alloc);
    for account in world.accounts.iter() {
        let person = &account.person;
        let target = Target::Org(person.org);
        let is_addressed = world.recipients.contains(&Recipient { incident, target });
        let is_meant = match choice {
            0 => !person.active,
            1 | 2 => person.nominated && is_addressed,
            3..=6 => person.active && person.org != own && !is_addressed,
            _ => false,
        };
        if is_meant {
            meant.push(person.number)?;
        }
    }
    let count = count_of(world.accounts.as_slice());
    let other = dice.one_to(count.saturating_add(1));
    Ok(dice.one_of_or(1, meant.as_slice(), other))
}

/// Returns a question why a person sees a class of the incident, or doesn't; often about one that has a permission.
pub fn any_question(dice: &mut Dice, world: &World, asker: Asker) -> Result<Explain, AllocError> {
    let (path, grantee) = any_permission(dice, world, asker)?;
    let person = match grantee {
        Grantee::Person(person) => person,
        _ => any_reader(dice, world, asker)?,
    };
    Ok(Explain {
        person,
        incident: asker.incident,
        path,
    })
}

//! Generated requests, each with its caller, its moment and its incident.

use crate::commands::{any_administration, any_coordination};
use crate::posting::{any_post, any_replace};
use crate::reading::{any_question, any_reading};
use crate::sharing::any_sharing;
use crate::world::{World, count_of, key_of};
use circle::directory::{Person, Role};
use hub::Key;
use hub_core::Request;
use std::alloc::AllocError;
use trying::Dice;

/// A request, its moment, and its caller's key.
#[derive(Drop)]
pub struct Asked {
    pub now: i64,
    pub key: Key,
    pub request: Request,
}

/// The person who asks, its organisation, and the incident of the request.
#[derive(Clone, Copy)]
pub struct Asker {
    pub who: u32,
    pub own: u32,
    pub incident: u32,
}

/// The purpose of a request, and so the persons who may make it.
#[derive(Clone, Copy)]
enum Trade {
    Administration,
    Coordination,
    Posting,
    Exchange,
    Sharing,
    Reading,
    Question,
}

fn any_trade(dice: &mut Dice) -> Trade {
    match dice.roll(32) {
        0..=6 => Trade::Administration,
        7..=13 => Trade::Coordination,
        14..=16 => Trade::Posting,
        17..=19 => Trade::Exchange,
        20..=24 => Trade::Sharing,
        25..=27 => Trade::Reading,
        _ => Trade::Question,
    }
}

/// Returns whether the person has a role for the trade and, if an incident is changed, is of its source.
fn suits(person: &Person, trade: Trade, source: Option<u32>) -> bool {
    let may_post = person.role == Role::Coordinator || person.role == Role::Poster;
    match trade {
        Trade::Administration | Trade::Question => person.role == Role::Administrator,
        Trade::Coordination => person.role == Role::Coordinator,
        Trade::Posting => may_post,
        Trade::Exchange | Trade::Sharing => {
            may_post && (source.is_none() || source == Some(person.org))
        }
        Trade::Reading => true,
    }
}

/// Returns the number of an incident, mostly of one that is there.
fn any_incident(dice: &mut Dice, world: &World) -> u32 {
    let count = count_of(world.incidents.as_slice());
    if dice.once_in(12) {
        return count.saturating_add(dice.roll(3));
    }
    dice.one_to(count)
}

/// Returns a person, mostly one for the trade.
fn any_asker(dice: &mut Dice, world: &World, trade: Trade) -> Result<Asker, AllocError> {
    let incident = any_incident(dice, world);
    let source = match world.incident(incident) {
        Some(row) if !dice.once_in(6) => Some(row.naming.source),
        _ => None,
    };
    let is_any = dice.once_in(3);
    let mut suited = Vec::new(world.alloc);
    for account in world.accounts.iter() {
        let person = &account.person;
        if is_any || person.active && suits(person, trade, source) {
            let (who, own) = (person.number, person.org);
            suited.push(Asker { who, own, incident })?;
        }
    }
    Ok(match dice.one_of(suited.as_slice()) {
        Some(asker) => *asker,
        None => Asker {
            who: 1,
            own: 1,
            incident,
        },
    })
}

fn any_request(
    dice: &mut Dice,
    world: &World,
    trade: Trade,
    asker: Asker,
) -> Result<Request, AllocError> {
    let Asker { who, own, incident } = asker;
    Ok(match trade {
        Trade::Administration => Request::Circle(any_administration(dice, world, who)?),
        Trade::Coordination => Request::Circle(any_coordination(dice, world, own)?),
        Trade::Posting => Request::Post(any_post(dice, world, own)?),
        Trade::Exchange => Request::Replace(any_replace(dice, world, asker)?),
        Trade::Sharing => any_sharing(dice, world, asker)?,
        Trade::Reading => any_reading(dice, world.alloc, incident)?,
        Trade::Question => Request::Explain(any_question(dice, world, asker)?),
    })
}

/// Returns a request of some person.
pub fn any_asked(dice: &mut Dice, world: &World) -> Result<Asked, AllocError> {
    let trade = any_trade(dice);
    let asker = any_asker(dice, world, trade)?;
    let request = any_request(dice, world, trade, asker)?;
    let key = match dice.roll(60) {
        0 => Key::Absent,
        1 => Key::Digest([255; 32]),
        _ => Key::Digest(key_of(asker.who)),
    };
    let now = i64::from(dice.roll(1_000_000));
    Ok(Asked { now, key, request })
}

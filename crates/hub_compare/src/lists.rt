//! Lists of requests by several persons, which all hubs answer.

use crate::asked::{Asked, any_asked};
use crate::fault::Fault;
use crate::shelves::Shelves;
use crate::tally::note;
use crate::world::World;
use crate::worlds::any_world;
use std::alloc::Global;
use trying::{Dice, Tally};

/// The number of requests in a list, and after how many of them the tables are opened again.
const REQUESTS: u32 = 60;

const ANEW: usize = 20;

/// One in so many lists is over a world with incidents at the limits.
const CROWDED: u64 = 5;

/// Returns requests made from the rows of a world.
fn any_list(alloc: Global, dice: &mut Dice, world: &World) -> Result<Vec<Asked>, Fault> {
    let mut list = Vec::new(alloc);
    for _ in 0..REQUESTS {
        list.push(any_asked(dice, world)?)?;
    }
    Ok(list)
}

/// Compares the replies of all hubs to these requests.
fn agree_on_replies(
    alloc: Global,
    tally: &mut Tally,
    shelves: &mut Shelves,
    part: &[Asked],
) -> Result<(), Fault> {
    for asked in part {
        let reply = shelves.reply(alloc, asked)?;
        note(tally, alloc, &asked.request, &reply)?;
    }
    Ok(())
}

/// Compares the replies of all hubs to these requests. Returns the hubs with the tables opened again.
fn agree_on_part(
    alloc: Global,
    tally: &mut Tally,
    mut shelves: Shelves,
    part: &[Asked],
) -> Result<Shelves, Fault> {
    // no return by `?` while there are hubs: each would prove their drop once more
    match agree_on_replies(alloc, tally, &mut shelves, part) {
        Ok(()) => shelves.opened_anew(alloc),
        Err(fault) => Err(fault),
    }
}

/// Compares the replies of all hubs to a list, and then the whole content of their shelves.
fn agree_over(
    alloc: Global,
    tally: &mut Tally,
    shelves: Shelves,
    list: &[Asked],
) -> Result<(), Fault> {
    let mut shelves = shelves;
    for part in list.chunks(ANEW) {
        shelves = agree_on_part(alloc, tally, shelves, part)?;
    }
    shelves.agree_on_content(alloc)
}

/// Compares the replies of all hubs to the list of this seed, and then the whole content of their shelves.
pub fn agree_on_list(alloc: Global, tally: &mut Tally, seed: u64) -> Result<(), Fault> {
    let mut dice = Dice::new(seed);
    let world = any_world(alloc, &mut dice, seed % CROWDED == 1)?;
    let list = any_list(alloc, &mut dice, &world)?;
    let edits = world.into_edits()?;
    let shelves = Shelves::new(alloc, edits.as_slice())?;
    agree_over(alloc, tally, shelves, &list)
}

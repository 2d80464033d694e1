//! Reports of few lines and much text, asked of a shelf that keeps documents.
//!
//! Each has 7 lines. Their names have 8 (`Incident`), 7 (`Contact`), 14 (`GenerationTime`), 10 (`IncidentID`), 7
//! (`purpose`), 11 (`restriction`) and 1 (`a`) bytes, and their texts 0, 1, 1, 2, 1, 6 and 250,705. The last weighs a
//! 32nd more, 258,539. With 192 for the report, 240 for `Incident`, which is in an array, and 160 for each other line
//! such a report weighs 192 + 1,200 + 58 + 11 + 258,539 = 260,000.
//!
//! Each is asked for twice, and so may be kept at its second question. While an eighth of the bound is left it is kept.
//! The first 13 weigh 3,380,000 of 3,500,000, so that the 14th is kept too; all then weigh 3,640,000. From then on one
//! report is kept after 64 questions, which is each 32nd. There is room for the 46th, and another is dropped for the
//! 78th. So 15 are kept in the end: 3,900,000.

use crate::fault::{Fault, agree};
use crate::reads::excerpt_of;
use crate::world::World;
use circle::directory::Role;
use hub_core::ListShelf;
use iodef_tree::Path;
use kept_documents::KeptDocuments;
use std::alloc::{AllocError, Global};
use trying_shelves::Kept;

/// The greatest weight of the kept documents: 15 of these reports, and not 16.
pub const MOST_WEIGHT: usize = 4_000_000;

/// The number of reports; each has an IncidentID of two digits.
pub const REPORTS: u32 = 80;

const FIRST_ID: u32 = 10;

/// The number of bytes in the text of the long line.
const LONG: u32 = 250_705;

/// Returns a report whose IncidentID is this number.
fn body(alloc: Global, ident: u32) -> Result<String, AllocError> {
    let mut text = format!(in alloc;
        "{{\"Incident\":[{{\"Contact\":0,\"GenerationTime\":0,\"IncidentID\":{ident},\"purpose\":0,\"restriction\":\"public\"}}],\"a\":\""
    )?;
    for _ in 0..LONG {
        text.push('x')?;
    }
    text.push_str("\"}")?;
    Ok(text)
}

/// Returns a person of the source, and the reports, each with a gate at its root.
fn reports(alloc: Global) -> Result<World, Fault> {
    let mut world = World::new(alloc);
    world.orgs = 1;
    world.add_person(1, Role::Coordinator, true, false)?;
    for place in 0..REPORTS {
        let number = place.saturating_add(1);
        let body = body(alloc, FIRST_ID.saturating_add(place))?;
        let added = world.add_incident(1, 1, None, body.as_str())?;
        agree(added == Some(number), "the number of an incident")?;
        world.add_gate(number, Path::root(alloc), 3)?;
    }
    Ok(world)
}

/// The shelf of these reports.
type Heavy = KeptDocuments<ListShelf, MOST_WEIGHT>;

/// Asks for the report once. Fails if the kept documents weigh more than they may.
fn ask(shelf: &mut Heavy, incident: u32) -> Result<(), Fault> {
    let Some(excerpt) = excerpt_of(shelf, 1, incident, 0)? else {
        return Err(Fault::Differs("a case or a standing that is missing"));
    };
    agree(excerpt.is_some(), "an excerpt that is missing")?;
    agree(
        shelf.weight() <= MOST_WEIGHT,
        "the kept documents weigh more than they may",
    )
}

/// Asks for each report twice.
fn ask_all(shelf: &mut Heavy) -> Result<(), Fault> {
    for place in 0..REPORTS {
        let incident = place.saturating_add(1);
        ask(shelf, incident)?;
        ask(shelf, incident)?;
    }
    Ok(())
}

/// Returns the weight of the kept documents after each report was asked for twice.
pub fn weight_in_the_end(alloc: Global) -> Result<usize, Fault> {
    let edits = reports(alloc)?.into_edits()?;
    let mut shelf = Kept::<MOST_WEIGHT>::with(alloc, edits.as_slice())?.into_shelf();
    match ask_all(&mut shelf) {
        Ok(()) => Ok(shelf.weight()),
        Err(fault) => Err(fault),
    }
}

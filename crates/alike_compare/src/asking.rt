//! The questions of a reader in a world, and the bytes of the replies.

use crate::edits::edits_of;
use crate::fault::Fault;
use crate::reader::Reader;
use crate::rows::{MOMENT, World, place_of};
use circle::directory::Role;
use hub::{Hub, Key};
use hub_core::{ListShelf, Request, Shelf};
use hub_http::reply_bytes;
use std::alloc::{AllocError, Global};
use trying_hub::{Fields, key_of, request_of};

/// The questions about incidents, the reader's groups, communities and itself, and a new key that is person 1's, with 0
/// before them. Then the requests that are refused about an incident of another organisation, with the number of the
/// incident before them.
const LINES: [(u32, &str); 29] = [
    (0, "View|1"),
    (0, "View|2"),
    (0, "View|3"),
    (0, "View|4"),
    (0, "View|5"),
    (0, "List|0"),
    (0, "List|1"),
    (0, "Search|x|-|0"),
    (0, "Search|needle|-|0"),
    (0, "Search|y|-|1"),
    (0, "Search|x|EventData|0"),
    (0, "Search|needle|Incident|0"),
    (0, "Search|private|-|0"),
    (0, "Addressed|0"),
    (0, "Sharing|1"),
    (0, "Sharing|2"),
    (0, "Sharing|3"),
    (0, "Sharing|4"),
    (0, "Sharing|5"),
    (0, "MyGroups"),
    (0, "MyCommunities"),
    (0, "WhoAmI"),
    (0, "NewKey|1"),
    (1, "Grant|1|1|/Incident/0|org 2"),
    (2, "Withdraw|2|/Incident/0|org 2"),
    (1, "Redistribute|1|1|/Incident/0/EventData/0|3|-"),
    (2, "Address|2|person 2"),
    (1, "Unaddress|1|org 2"),
    (1, "Explain|1|1|/Incident/0"),
];

/// A request, the line that says it, and the number of the incident about which it is refused, or 0.
#[derive(Drop)]
pub struct Question {
    pub line: &'static str,
    incident: u32,
    request: Request,
}

fn push_question(
    alloc: Global,
    all: &mut Vec<Question>,
    incident: u32,
    line: &'static str,
) -> Result<(), AllocError> {
    let request = request_of(alloc, &mut Fields::new(line))?;
    all.push(Question {
        line,
        incident,
        request,
    })?;
    Ok(())
}

/// Returns all questions of a reader.
pub fn questions(alloc: Global) -> Result<Vec<Question>, AllocError> {
    let mut all = Vec::new(alloc);
    for (incident, line) in LINES {
        push_question(alloc, &mut all, incident, line)?;
    }
    Ok(all)
}

/// Returns whether the reader asks this: not what it may change, nor what only an administrator may ask.
fn is_asked(world: &World, reader: Reader<'_>, question: &Question) -> bool {
    let report = world.reports.get(place_of(question.incident));
    let is_own = report.map_or(false, |report| reader.is_source(report));
    let is_explained = matches!(question.request, Request::Explain(_));
    !is_own && !(is_explained && reader.own.role == Role::Administrator)
}

/// Returns the bytes of the replies to the person of this number, or none if it doesn't ask.
pub fn answers(
    alloc: Global,
    world: &World,
    reader: Reader<'_>,
    questions: &[Question],
) -> Result<Vec<Vec<u8>>, Fault> {
    let mut hub = Hub::new(shelf_of(alloc, world)?);
    answers_by(alloc, &mut hub, world, reader, questions)
}

/// Returns a shelf with the rows of a world.
fn shelf_of(alloc: Global, world: &World) -> Result<ListShelf, Fault> {
    let edits = edits_of(alloc, world)?;
    let mut shelf = ListShelf::new(alloc);
    shelf.apply(&edits)?;
    Ok(shelf)
}

/// Returns the bytes of the replies of a hub.
fn answers_by<Sh: Shelf>(
    alloc: Global,
    hub: &mut Hub<Sh>,
    world: &World,
    reader: Reader<'_>,
    questions: &[Question],
) -> Result<Vec<Vec<u8>>, Fault> {
    let key = Key::Digest(key_of(reader.who));
    let mut replies = Vec::new(alloc);
    for question in questions {
        let reply = if is_asked(world, reader, question) {
            answer_by(alloc, hub, &key, &question.request)?
        } else {
            Vec::new(alloc)
        };
        replies.push(reply)?;
    }
    Ok(replies)
}

fn answer_by<Sh: Shelf>(
    alloc: Global,
    hub: &mut Hub<Sh>,
    key: &Key,
    request: &Request,
) -> Result<Vec<u8>, AllocError> {
    let reply = hub.answer(alloc, MOMENT, key, request);
    reply_bytes(alloc, &reply)
}

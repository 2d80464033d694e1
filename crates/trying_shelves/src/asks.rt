//! The trait of a hub that answers, and the calls of a hub over any shelf.

use crate::asked::{Asked, asked_of};
use crate::told::reply_text;
use hub::{Hub, Key};
use hub_core::{Reply, Request, Shelf};
use hub_http::{ServeFault, Served, serve_one, told_by_both};
use std::alloc::{AllocError, Global};

/// A hub over one of the shelves.
pub trait Asks {
    /// Returns the answer to a request at this moment, in seconds since 1970.
    fn answer(&mut self, alloc: Global, now: i64, key: &Key, request: &Request) -> Reply;

    /// Returns the answer to each. Fails only before the first request, if the memory for the list doesn't suffice.
    fn run(&mut self, alloc: Global, asked: &[Asked]) -> Result<Vec<Reply>, AllocError>;

    /// Takes the hub apart. Returns how often its shelf has failed.
    fn failures(self) -> u64;
}

/// Returns the answer of a hub over any shelf.
pub fn answer_over<Sh: Shelf>(
    hub: &mut Hub<Sh>,
    alloc: Global,
    now: i64,
    key: &Key,
    request: &Request,
) -> Reply {
    hub.answer(alloc, now, key, request)
}

/// Returns the answers of a hub over any shelf to a list.
pub fn run_over<Sh: Shelf>(
    hub: &mut Hub<Sh>,
    alloc: Global,
    asked: &[Asked],
) -> Result<Vec<Reply>, AllocError> {
    hub.run(alloc, asked)
}

/// Serves a connection of these bytes by a hub over any shelf, and appends the reply to `out`.
pub fn serve_over<Sh: Shelf>(
    hub: &mut Hub<Sh>,
    alloc: Global,
    bytes: &[u8],
    out: &mut Vec<u8>,
    now: i64,
) -> Result<Served, ServeFault> {
    let mut reader = bytes;
    serve_one(alloc, &mut reader, out, hub, now)
}

/// Returns the bytes of the answers of two hubs over any shelves.
pub fn told_over_both<A: Shelf, B: Shelf>(
    first: &mut Hub<A>,
    second: &mut Hub<B>,
    alloc: Global,
    asked: &Asked,
) -> Result<(Vec<u8>, Vec<u8>), AllocError> {
    let (now, key, request) = asked;
    told_by_both(alloc, first, second, *now, key, request)
}

/// Returns how often the shelf of a hub has failed.
pub fn failures_of<Sh: Shelf + Drop>(hub: Hub<Sh>) -> u64 {
    hub.into_shelf().failures()
}

impl<Sh: Shelf + Drop> Asks for Hub<Sh> {
    fn answer(&mut self, alloc: Global, now: i64, key: &Key, request: &Request) -> Reply {
        answer_over(self, alloc, now, key, request)
    }

    fn run(&mut self, alloc: Global, asked: &[Asked]) -> Result<Vec<Reply>, AllocError> {
        run_over(self, alloc, asked)
    }

    fn failures(self) -> u64 {
        failures_of(self)
    }
}

/// Returns the answer to the request of a line as text. The moment is `now` if the line names none.
pub fn ask<A: Asks>(
    hub: &mut A,
    alloc: Global,
    line: &str,
    now: i64,
) -> Result<String, AllocError> {
    let (now, key, request) = asked_of(alloc, line, now)?;
    reply_text(alloc, &hub.answer(alloc, now, &key, &request))
}

/// Asks each request. Returns whether none is refused, and stops at the first that is.
pub fn are_made<A: Asks>(hub: &mut A, alloc: Global, asked: &[Asked]) -> bool {
    for (now, key, request) in asked {
        if matches!(hub.answer(alloc, *now, key, request), Reply::Refused(_)) {
            return false;
        }
    }
    true
}

//! Connections that are served over memory.

use crate::content::content;
use crate::heap::{arm, disarm};
use crate::requests::MOMENT;
use crate::sweep::{Met, Trial};
use crate::wire::{body_of, hub_behind, keys_shown, written};
use circle::refusal::{Code, Refusal};
use hub::Key;
use hub_core::Reply;
use hub_http::{ServeFault, Served, reply_bytes};
use std::alloc::{AllocError, Global};
use trying_shelves::Lists;

/// More bytes than a reply of the cases has, so that writing it takes no memory.
const ROOM: usize = 65_536;

/// A request that is served, and the answers that are due.
#[derive(Drop)]
pub struct Serving<'a> {
    before: &'a [Vec<u8>],
    bytes: &'a [u8],
    keys: Vec<Key>,
    /// The bytes that are written for it.
    first: Vec<u8>,
    /// The bytes that are written if it is asked again.
    second: Vec<u8>,
    /// The bytes that are written if it is given up.
    given_up: Vec<u8>,
    /// The content of the hub after it.
    content: Vec<u8>,
}

/// The outcome of a connection.
#[derive(Clone, Copy, PartialEq, Eq)]
enum Outcome {
    /// The reply that is due was written.
    Due,
    /// The request was given up, and nothing is changed.
    GivenUp,
    /// Nothing was written. The change may be made or not.
    NoMemory,
    Wrong,
}

impl<'a> Serving<'a> {
    /// Makes the request that follows these, and what is due for it. Returns none if there is no hub.
    pub fn of(
        alloc: Global,
        before: &'a [Vec<u8>],
        bytes: &'a [u8],
    ) -> Result<Option<Serving<'a>>, AllocError> {
        match hub_behind(alloc, before)? {
            Some(mut hub) => Serving::by(alloc, &mut hub, before, bytes).map(Some),
            None => Ok(None),
        }
    }

    /// Makes the request, and what is due for it by a hub that answered those before it.
    fn by(
        alloc: Global,
        hub: &mut Lists,
        before: &'a [Vec<u8>],
        bytes: &'a [u8],
    ) -> Result<Serving<'a>, AllocError> {
        let refused = Reply::Refused(Refusal::bare(alloc, Code::F2));
        let given_up = reply_bytes(alloc, &refused)?;
        let keys = keys_shown(alloc)?;
        let first = written(alloc, hub, bytes)?;
        let content = content(alloc, hub, &keys)?;
        let second = written(alloc, hub, bytes)?;
        Ok(Serving {
            before,
            bytes,
            keys,
            first,
            second,
            given_up,
            content,
        })
    }

    fn outcome(&self, served: Result<Served, ServeFault>, out: &[u8]) -> Outcome {
        match served {
            Ok(Served::Answered) if out == self.first.as_slice() => Outcome::Due,
            Ok(Served::Answered) if out == self.given_up.as_slice() => Outcome::GivenUp,
            Err(ServeFault::NoMemory) if out.is_empty() => Outcome::NoMemory,
            _ => Outcome::Wrong,
        }
    }

    /// Returns whether this may be written if the request is asked again after such an outcome.
    fn may_follow(&self, outcome: Outcome, again: &[u8]) -> bool {
        again == self.first.as_slice()
            || outcome == Outcome::NoMemory && again == self.second.as_slice()
    }

    /// Returns what is due: the bodies of both replies.
    fn due(&self, alloc: Global) -> Result<String, AllocError> {
        let (first, second) = (body_of(&self.first), body_of(&self.second));
        format!(in alloc; "{first} and again {second}")
    }

    /// Returns what is printed after an outcome. A request that wasn't answered is asked again.
    fn describe(
        &self,
        alloc: Global,
        hub: &mut Lists,
        outcome: Outcome,
    ) -> Result<String, AllocError> {
        if outcome == Outcome::Wrong {
            return String::from_str(alloc, "another answer");
        }
        if outcome != Outcome::Due {
            let again = written(alloc, hub, self.bytes)?;
            if !self.may_follow(outcome, &again) {
                let body = body_of(&again);
                return format!(in alloc; "asked again {body}");
            }
        }
        if content(alloc, hub, &self.keys)?.as_slice() != self.content.as_slice() {
            return String::from_str(alloc, "another content");
        }
        self.due(alloc)
    }

    /// Serves the request by a hub that answered those before it, with the n-th growth refused.
    fn run_by(&self, alloc: Global, hub: &mut Lists, n: u32) -> Result<Met, AllocError> {
        let mut out: Vec<u8> = Vec::with_capacity(alloc, ROOM)?;
        arm(alloc, n);
        let served = hub.serve(alloc, self.bytes, &mut out, MOMENT);
        let refused = disarm(alloc);
        let outcome = self.outcome(served, &out);
        if outcome != Outcome::Due && !refused {
            return Ok(Met {
                refused,
                told: None,
            });
        }
        let told = Some(self.describe(alloc, hub, outcome)?);
        Ok(Met { refused, told })
    }
}

impl Trial for Serving<'_> {
    fn run(&self, alloc: Global, n: u32) -> Result<Met, AllocError> {
        match hub_behind(alloc, self.before)? {
            Some(mut hub) => self.run_by(alloc, &mut hub, n),
            None => Ok(Met {
                refused: false,
                told: None,
            }),
        }
    }
}

//! Lists of requests, over each shelf.

use crate::content::content;
use crate::heap::{arm, disarm};
use crate::requests::keys;
use crate::sweep::{Met, Trial};
use crate::worlds::{in_lists, in_rows, in_tables};
use circle::refusal::{Code, Refusal};
use hub::Key;
use hub_core::Reply;
use hub_http::reply_bytes;
use std::alloc::{AllocError, Global};
use trying_shelves::{Asked, Asks};

/// The answers that are due for a list.
#[derive(Drop)]
struct Due {
    /// The bytes of each reply.
    replies: Vec<Vec<u8>>,
    /// The content of the hub in the end.
    content: Vec<u8>,
}

/// A list of requests, behind those of the world.
#[derive(Drop)]
pub struct List<'a> {
    world: &'a [Asked],
    own: &'a [Asked],
    keys: Vec<Key>,
    /// What is due if nothing is given up; after it, what is due if the first request is given up, the second, and so
    /// on.
    due: Vec<Due>,
    /// What is due if the list isn't run.
    unrun: Due,
}

/// A list that is run over the shelf in memory.
#[derive(Clone, Copy)]
pub struct InLists<'a> {
    pub list: &'a List<'a>,
}

/// A list that is run over tables.
#[derive(Clone, Copy)]
pub struct InTables<'a> {
    pub list: &'a List<'a>,
}

/// A list that is run over tables whose rows are kept in memory.
#[derive(Clone, Copy)]
pub struct InRows<'a> {
    pub list: &'a List<'a>,
}

/// Returns whether the request was given up for want of memory.
fn is_given_up(reply: &Reply) -> bool {
    match reply {
        Reply::Refused(refusal) => refusal.code == Code::F2,
        _ => false,
    }
}

/// Returns the bytes of each reply of a hub in memory, which isn't asked one of the requests.
fn replies_but<A: Asks>(
    alloc: Global,
    hub: &mut A,
    asked: &[Asked],
    but: Option<usize>,
) -> Result<Vec<Vec<u8>>, AllocError> {
    let mut all = Vec::new(alloc);
    for (i, (now, key, request)) in asked.iter().enumerate() {
        let reply = if but == Some(i) {
            Reply::Refused(Refusal::bare(alloc, Code::F2))
        } else {
            hub.answer(alloc, *now, key, request)
        };
        all.push(reply_bytes(alloc, &reply)?)?;
    }
    Ok(all)
}

/// Returns what is due if one of the requests is given up, or none if the world isn't made.
fn due_but(
    alloc: Global,
    world: &[Asked],
    own: &[Asked],
    but: Option<usize>,
) -> Result<Option<Due>, AllocError> {
    match in_lists(alloc, world)? {
        Some(mut hub) => due_of(alloc, &mut hub, own, but).map(Some),
        None => Ok(None),
    }
}

/// Returns what is due by a hub in memory, which isn't asked one of the requests.
fn due_of<A: Asks>(
    alloc: Global,
    hub: &mut A,
    own: &[Asked],
    but: Option<usize>,
) -> Result<Due, AllocError> {
    let replies = replies_but(alloc, hub, own, but)?;
    let content = content(alloc, hub, &keys(alloc)?)?;
    Ok(Due { replies, content })
}

/// Returns what is due if nothing is given up, and what is due if each request is.
fn all_due(alloc: Global, world: &[Asked], own: &[Asked]) -> Result<Option<Vec<Due>>, AllocError> {
    let mut all = Vec::new(alloc);
    for place in 0..own.len().saturating_add(1) {
        match due_but(alloc, world, own, place.checked_sub(1))? {
            Some(due) => all.push(due)?,
            None => return Ok(None),
        }
    }
    Ok(Some(all))
}

/// Returns the place of the first reply that isn't the one that is due.
fn first_not_due(alloc: Global, replies: &[Reply], due: &Due) -> Result<Option<usize>, AllocError> {
    if replies.len() != due.replies.len() {
        return Ok(Some(replies.len()));
    }
    for (i, (reply, wanted)) in replies.iter().zip(due.replies.iter()).enumerate() {
        if reply_bytes(alloc, reply)?.as_slice() != wanted.as_slice() {
            return Ok(Some(i));
        }
    }
    Ok(None)
}

/// Returns what is printed if nothing is wrong.
fn right(alloc: Global, replies: &[Reply]) -> Result<String, AllocError> {
    let count = replies.len();
    format!(in alloc; "{count} replies")
}

impl<'a> List<'a> {
    /// Makes the list and what is due for it. Returns none if the world isn't made.
    pub fn of(
        alloc: Global,
        world: &'a [Asked],
        own: &'a [Asked],
    ) -> Result<Option<List<'a>>, AllocError> {
        let Some(unrun) = due_but(alloc, world, &[], None)? else {
            return Ok(None);
        };
        let Some(due) = all_due(alloc, world, own)? else {
            return Ok(None);
        };
        Ok(Some(List {
            world,
            own,
            keys: keys(alloc)?,
            due,
            unrun,
        }))
    }

    /// Returns what is due after these replies, by the first that was given up.
    fn due_behind(&self, replies: &[Reply]) -> Option<&Due> {
        match replies.iter().position(is_given_up) {
            Some(place) => self.due.get(place.saturating_add(1)),
            None => self.due.first(),
        }
    }

    /// Returns what isn't due of these replies and of the hub's content after them, or none if all is.
    fn not_due<A: Asks>(
        &self,
        alloc: Global,
        hub: &mut A,
        replies: &[Reply],
        due: &Due,
    ) -> Result<Option<String>, AllocError> {
        if let Some(i) = first_not_due(alloc, replies, due)? {
            return Ok(Some(format!(in alloc; "reply {i}, from 0 on, isn't the one that is due")?));
        }
        let has = content(alloc, hub, &self.keys)?;
        if has.as_slice() == due.content.as_slice() {
            return Ok(None);
        }
        Ok(Some(String::from_str(alloc, "another content")?))
    }

    /// Returns what is wrong with these replies and with the hub after them, or none if nothing is.
    fn fault<A: Asks + Drop>(
        &self,
        alloc: Global,
        mut hub: A,
        replies: &[Reply],
        due: &Due,
    ) -> Result<Option<String>, AllocError> {
        let not_due = self.not_due(alloc, &mut hub, replies, due);
        let failures = hub.failures();
        match not_due? {
            None if failures > 0 => Ok(Some(String::from_str(alloc, "a failure of the shelf")?)),
            not_due => Ok(not_due),
        }
    }

    /// Runs the list over a hub that has the world. Returns the outcome.
    fn run_over<A: Asks + Drop>(
        &self,
        alloc: Global,
        mut hub: A,
        n: u32,
    ) -> Result<Met, AllocError> {
        arm(alloc, n);
        let outcome = hub.run(alloc, self.own);
        let refused = disarm(alloc);
        let told = match outcome {
            Ok(replies) => self.judge(alloc, hub, &replies, refused)?,
            Err(_) => self.fault(alloc, hub, &[], &self.unrun)?,
        };
        Ok(Met { refused, told })
    }

    /// Returns what is printed for a list that was run, or none if a request was given up and no growth refused.
    fn judge<A: Asks + Drop>(
        &self,
        alloc: Global,
        hub: A,
        replies: &[Reply],
        refused: bool,
    ) -> Result<Option<String>, AllocError> {
        if !refused && replies.iter().any(is_given_up) {
            return Ok(None);
        }
        let Some(due) = self.due_behind(replies) else {
            return Ok(Some(String::from_str(alloc, "more replies than requests")?));
        };
        match self.fault(alloc, hub, replies, due)? {
            None => Ok(Some(right(alloc, replies)?)),
            fault => Ok(fault),
        }
    }
}

/// Returns the outcome of a run before which the world wasn't made.
fn no_world(alloc: Global) -> Result<Met, AllocError> {
    Ok(Met {
        refused: false,
        told: Some(String::from_str(alloc, "no world")?),
    })
}

impl Trial for InLists<'_> {
    fn run(&self, alloc: Global, n: u32) -> Result<Met, AllocError> {
        match in_lists(alloc, self.list.world)? {
            Some(hub) => self.list.run_over(alloc, hub, n),
            None => no_world(alloc),
        }
    }
}

impl Trial for InTables<'_> {
    fn run(&self, alloc: Global, n: u32) -> Result<Met, AllocError> {
        match in_tables(alloc, self.list.world)? {
            Some(hub) => self.list.run_over(alloc, hub, n),
            None => no_world(alloc),
        }
    }
}

impl Trial for InRows<'_> {
    fn run(&self, alloc: Global, n: u32) -> Result<Met, AllocError> {
        match in_rows(alloc, self.list.world)? {
            Some(hub) => self.list.run_over(alloc, hub, n),
            None => no_world(alloc),
        }
    }
}

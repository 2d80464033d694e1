//! The content of a hub, as its callers read it.

use hub::Key;
use hub_core::Request;
use std::alloc::{AllocError, Global};
use trying_hub::key_of;
use trying_shelves::{Asks, reply_text};

/// The moment of readings, and of each request whose line names none, in seconds since 1970.
pub const MOMENT: i64 = 1_700_000_000;

/// A later moment of readings.
const LATER: i64 = 1_700_001_000;

/// How many persons the cases have.
const PERSONS: u32 = 6;

/// More incidents than a case has.
const INCIDENTS: u32 = 2;

/// A moment, and the request that is asked at it.
type Reading = (i64, Request);

fn readings(alloc: Global) -> Result<Vec<Reading>, AllocError> {
    let mut all = Vec::new(alloc);
    all.push((MOMENT, Request::MyGroups))?;
    all.push((MOMENT, Request::MyCommunities))?;
    all.push((MOMENT, Request::List { after: 0 }))?;
    all.push((MOMENT, Request::Addressed { after: 0 }))?;
    for incident in 1..=INCIDENTS {
        all.push((MOMENT, Request::View { incident }))?;
        all.push((LATER, Request::View { incident }))?;
        all.push((MOMENT, Request::Sharing { incident }))?;
    }
    Ok(all)
}

fn push_told<A: Asks>(
    all: &mut String,
    alloc: Global,
    hub: &mut A,
    key: &Key,
    readings: &[Reading],
) -> Result<(), AllocError> {
    for (now, request) in readings {
        let told = reply_text(alloc, &hub.answer(alloc, *now, key, request))?;
        all.push_str("; ")?;
        all.push_str(told.as_str())?;
    }
    Ok(())
}

/// Returns the replies to all persons of the cases.
pub fn content<A: Asks>(alloc: Global, hub: &mut A) -> Result<String, AllocError> {
    let readings = readings(alloc)?;
    let mut all = String::new(alloc);
    for person in 1..=PERSONS {
        let key = Key::Digest(key_of(person));
        push_told(&mut all, alloc, hub, &key, &readings)?;
    }
    Ok(all)
}

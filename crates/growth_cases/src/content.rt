//! The content of a hub, as its callers read it.

use crate::requests::MOMENT;
use hub::Key;
use hub_core::Request;
use hub_http::reply_bytes;
use std::alloc::{AllocError, Global};
use trying_shelves::Asks;

/// More incidents than a case has.
const INCIDENTS: u32 = 2;

fn readings(alloc: Global) -> Result<Vec<Request>, AllocError> {
    let mut all = Vec::new(alloc);
    all.push(Request::WhoAmI)?;
    all.push(Request::MyGroups)?;
    all.push(Request::MyCommunities)?;
    all.push(Request::List { after: 0 })?;
    all.push(Request::Addressed { after: 0 })?;
    for incident in 1..=INCIDENTS {
        all.push(Request::View { incident })?;
        all.push(Request::Sharing { incident })?;
    }
    Ok(all)
}

fn push_told<A: Asks>(
    all: &mut Vec<u8>,
    alloc: Global,
    hub: &mut A,
    key: &Key,
    readings: &[Request],
) -> Result<(), AllocError> {
    for request in readings {
        let reply = hub.answer(alloc, MOMENT, key, request);
        all.extend_from_slice(&reply_bytes(alloc, &reply)?)?;
    }
    Ok(())
}

/// Returns the replies to the persons with these keys, about themselves and about each incident.
pub fn content<A: Asks>(alloc: Global, hub: &mut A, keys: &[Key]) -> Result<Vec<u8>, AllocError> {
    let readings = readings(alloc)?;
    let mut all = Vec::new(alloc);
    for key in keys {
        push_told(&mut all, alloc, hub, key, &readings)?;
    }
    Ok(all)
}

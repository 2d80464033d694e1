//! Serves a request over memory, in the way that the line names.

use crate::content::content;
use crate::streams::{Disturbed, Drip, Full, Narrow};
use crate::written::shown_bytes;
use hub::Hub;
use hub_core::ListShelf;
use hub_http::{ServeFault, Served, serve_one};
use std::alloc::{AllocError, Global};
use trying::bytes_of;

/// The moment of each request, in seconds since 1970.
pub const NOW: i64 = 1_700_000_000;

fn outcome(served: Result<Served, ServeFault>) -> &'static str {
    match served {
        Ok(Served::Answered) => "Answered",
        Ok(Served::WireRefused(_)) => "WireRefused",
        Err(ServeFault::Truncated) => "Truncated",
        Err(ServeFault::ReadFailed) => "ReadFailed",
        Err(ServeFault::WriteFailed) => "WriteFailed",
        Err(ServeFault::NoMemory) => "NoMemory",
    }
}

fn describe(
    alloc: Global,
    served: Result<Served, ServeFault>,
    out: &[u8],
) -> Result<String, AllocError> {
    let outcome = outcome(served);
    let written = shown_bytes(alloc, out)?;
    format!(in alloc; "{outcome} {written}")
}

fn whole(alloc: Global, hub: &mut Hub<ListShelf>, bytes: &[u8]) -> Result<String, AllocError> {
    let mut reader = bytes;
    let mut out: Vec<u8> = Vec::new(alloc);
    let served = serve_one(alloc, &mut reader, &mut out, hub, NOW);
    describe(alloc, served, &out)
}

/// Returns the same, with `changed` in front if some reply to the persons differs after it.
fn unchanged(alloc: Global, hub: &mut Hub<ListShelf>, bytes: &[u8]) -> Result<String, AllocError> {
    let before = content(alloc, hub)?;
    let told = whole(alloc, hub, bytes)?;
    let behind = content(alloc, hub)?;
    if behind.as_slice() == before.as_slice() {
        Ok(told)
    } else {
        format!(in alloc; "changed: {told}")
    }
}

fn by_bytes(alloc: Global, hub: &mut Hub<ListShelf>, bytes: &[u8]) -> Result<String, AllocError> {
    let mut reader = Drip {
        bytes,
        reads: 0,
        fails_after: u32::MAX,
    };
    let mut out: Vec<u8> = Vec::new(alloc);
    let served = serve_one(alloc, &mut reader, &mut out, hub, NOW);
    let reads = reader.reads;
    let told = describe(alloc, served, &out)?;
    format!(in alloc; "{reads} reads {told}")
}

fn prefixes(alloc: Global, hub: &mut Hub<ListShelf>, bytes: &[u8]) -> Result<String, AllocError> {
    let mut count: u32 = 0;
    for n in 0..bytes.len() {
        let mut reader = &bytes[..n];
        let mut out: Vec<u8> = Vec::new(alloc);
        let served = serve_one(alloc, &mut reader, &mut out, hub, NOW);
        if served == Err(ServeFault::Truncated) && out.is_empty() {
            count = count.saturating_add(1);
        }
    }
    format!(in alloc; "{count} Truncated")
}

fn failing_reads(
    alloc: Global,
    hub: &mut Hub<ListShelf>,
    bytes: &[u8],
) -> Result<String, AllocError> {
    let mut count: u32 = 0;
    for k in 0..u32::MAX {
        let mut reader = Drip {
            bytes,
            reads: 0,
            fails_after: k,
        };
        let mut out: Vec<u8> = Vec::new(alloc);
        match serve_one(alloc, &mut reader, &mut out, hub, NOW) {
            Err(ServeFault::ReadFailed) if out.is_empty() => count = count.saturating_add(1),
            other => {
                let told = describe(alloc, other, &out)?;
                return format!(in alloc; "{count} ReadFailed, then {told}");
            }
        }
    }
    String::from_str(alloc, "every read failed")
}

fn failing_writes(
    alloc: Global,
    hub: &mut Hub<ListShelf>,
    bytes: &[u8],
) -> Result<String, AllocError> {
    let mut count: u32 = 0;
    for k in 0..u32::MAX {
        let mut reader = bytes;
        let mut writer = Narrow {
            writes: 0,
            fails_after: k,
        };
        match serve_one(alloc, &mut reader, &mut writer, hub, NOW) {
            Err(ServeFault::WriteFailed) => count = count.saturating_add(1),
            other => {
                let outcome = outcome(other);
                return format!(in alloc; "{count} WriteFailed, then {outcome}");
            }
        }
    }
    String::from_str(alloc, "every write failed")
}

/// Serves one request whose reply fails at the k-th write, for each k. Before each k another request takes it back.
/// After each failure it is asked again, with a writer that takes all bytes. Returns the outcomes.
fn failing_writes_anew(
    alloc: Global,
    hub: &mut Hub<ListShelf>,
    back: &[u8],
    bytes: &[u8],
) -> Result<String, AllocError> {
    let mut all = String::new(alloc);
    for k in 0..u32::MAX {
        whole(alloc, hub, back)?;
        let mut reader = bytes;
        let mut writer = Narrow {
            writes: 0,
            fails_after: k,
        };
        let served = serve_one(alloc, &mut reader, &mut writer, hub, NOW);
        if served != Err(ServeFault::WriteFailed) {
            all.push_str(outcome(served))?;
            return Ok(all);
        }
        let again = whole(alloc, hub, bytes)?;
        let code = again.as_str().split('"').nth(3).unwrap_or("no code");
        all.push_str(format!(in alloc; "WriteFailed and {code}, ")?.as_str())?;
    }
    Ok(all)
}

fn disturbed(alloc: Global, hub: &mut Hub<ListShelf>) -> Result<String, AllocError> {
    let mut out: Vec<u8> = Vec::new(alloc);
    let served = serve_one(alloc, &mut Disturbed, &mut out, hub, NOW);
    describe(alloc, served, &out)
}

fn unwritten(alloc: Global, hub: &mut Hub<ListShelf>, bytes: &[u8]) -> Result<String, AllocError> {
    let mut reader = bytes;
    let served = serve_one(alloc, &mut reader, &mut Full, hub, NOW);
    String::from_str(alloc, outcome(served))
}

/// Returns the answer to the bytes of a request that are served in this way.
pub fn answer(
    alloc: Global,
    hub: &mut Hub<ListShelf>,
    way: &str,
    request: &str,
) -> Result<String, AllocError> {
    if let ("writes anew", Some((back, again))) = (way, request.split_once('|')) {
        let back = bytes_of(alloc, back)?;
        return failing_writes_anew(alloc, hub, &back, &bytes_of(alloc, again)?);
    }
    let bytes = bytes_of(alloc, request)?;
    match way {
        "whole" => whole(alloc, hub, &bytes),
        "unchanged" => unchanged(alloc, hub, &bytes),
        "bytes" => by_bytes(alloc, hub, &bytes),
        "prefixes" => prefixes(alloc, hub, &bytes),
        "reads" => failing_reads(alloc, hub, &bytes),
        "writes" => failing_writes(alloc, hub, &bytes),
        "disturbed" => disturbed(alloc, hub),
        "unwritten" => unwritten(alloc, hub, &bytes),
        _ => String::from_str(alloc, "no such way"),
    }
}

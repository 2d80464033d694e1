//! Serving one connection: a request is read and answered, and the reply is written.
ghost use Rattle.std.specs.Prelude.{◌≡◌, ◌⊎◌, ◌≤◌, IfOk, IfErr};
ghost use Rattle.std.specs.Io.KnownBytes.{IsAtEnd};
ghost use Rattle.hub_http.specs.Serving.{as_gather, Extends, Gathers, Replies, Steps, Serves};

use crate::reply::{write_fault, write_reply};
use crate::wire::{Arrival, read_wire};
use crate::wire_fault::WireFault;
use crate::{BODY_LIMIT, HEAD_LIMIT};
use hub::{Hub, Key};
use hub_core::{Reply, Request, Shelf};
use std::alloc::Global;
use std::io::{Read, Write};
use thiserror::Error;

/// The outcome of a connection that was served to its end.
#[derive(Clone, Copy, Debug, PartialEq, Eq, Drop)]
pub enum Served {
    /// The request was answered, and the reply was written.
    Answered,
    /// The bytes have this fault, which was written as the reply; nothing was asked of the hub.
    WireRefused(WireFault),
}

/// Why a connection wasn't served to its end.
#[derive(Clone, Copy, Debug, PartialEq, Eq, Drop, Error)]
pub enum ServeFault {
    /// The peer ended before its request did; nothing was asked of the hub, and nothing was written.
    #[error("the request ends early")]
    Truncated,
    /// A read failed; nothing was asked of the hub, and nothing was written.
    #[error("a read failed")]
    ReadFailed,
    /// A write failed. A change may have been made whose reply the caller doesn't get.
    #[error("a write failed")]
    WriteFailed,
    /// The memory didn't suffice to read the request; nothing was asked of the hub, and nothing was written.
    #[error("no memory")]
    NoMemory,
}

/// Why no request was read.
#[derive(Drop)]
pub(crate) enum GatherFault {
    Wire(WireFault),
    Truncated,
    ReadFailed,
    NoMemory,
}

/// How many reads a request may take: one for each byte of a head and a body at their limits.
const READ_LIMIT: u32 = HEAD_LIMIT as u32 + BODY_LIMIT;

/// How many bytes a read may return.
const PIECE: usize = 16_384;

/// Reads once into the piece, and appends what came to the bytes. Returns how many came. A read that was interrupted
/// fails like any other.
fn read_more<R: Read>(
    reader: &mut R,
    piece: &mut [u8; PIECE],
    bytes: &mut Vec<u8>,
) -> Result<usize, GatherFault>
    ensures grows { IfOk result (λ n.
        Extends (R.remaining reader.old) (R.remaining reader.new) bytes.old.items bytes.new.items) }
    ensures end { IfOk result (λ n. n ≡ 0 → IsAtEnd (R.remaining reader.new)) }
    ensures fault { IfErr result (λ e. (e ≡ GatherFault.ReadFailed) ⊎ (e ≡ GatherFault.NoMemory)) }
{
    let count = match reader.read(piece) {
        Ok(count) => count,
        Err(_) => return Err(GatherFault::ReadFailed),
    };
    if bytes.extend_from_slice(&piece[..count]).is_err() {
        return Err(GatherFault::NoMemory);
    }
    Ok(count)
}

fn as_gather_fault(fault: WireFault) -> GatherFault
    ensures { result ≡ as_gather fault }
{
    match fault {
        WireFault::NoMemory => GatherFault::NoMemory,
        _ => GatherFault::Wire(fault),
    }
}

/// Reads until a request and its body are there, or a fault.
fn gather<R: Read>(alloc: Global, reader: &mut R) -> Result<(Key, Request), GatherFault>
    ensures { Gathers (R.remaining reader.old) (R.remaining reader.new) result }
{
    let mut bytes: Vec<u8> = Vec::new(alloc);
    let mut piece = [0; PIECE];
    let mut wanted = 1;
    for _ in 0..READ_LIMIT {
        let count = match read_more(reader, &mut piece, &mut bytes) {
            Ok(count) => count,
            Err(GatherFault::NoMemory) => return Err(GatherFault::NoMemory),
            Err(_) => return Err(GatherFault::ReadFailed),
        };
        // The bytes are parsed again only when as many are there as were wanted, or at the end. While the head is open
        // one more byte is wanted, so a slow peer costs at most HEAD_LIMIT parses of HEAD_LIMIT bytes.
        if count != 0 && bytes.len() < wanted {
            continue;
        }
        match read_wire(alloc, &bytes) {
            Arrival::Wants(n) => {
                if count == 0 {
                    return Err(GatherFault::Truncated);
                }
                wanted = n;
            }
            Arrival::Asks(key, request) => return Ok((key, request)),
            Arrival::Refused(fault) => return Err(as_gather_fault(fault)),
        }
    }
    Err(GatherFault::ReadFailed)
}

/// Asks the hub at this moment.
fn ask<Sh: Shelf>(alloc: Global, hub: &mut Hub<Sh>, now: i64, key: &Key, request: &Request) -> Reply
    ensures steps { Steps Sh.has Sh.doubts Sh.failed Sh.may_remain hub.old now
        (key.now, request.now) result hub.new }
    ensures later { Sh.failed hub.old ≤ Sh.failed hub.new }
    ensures doubt { Sh.doubts hub.old ≤ Sh.doubts hub.new }
{
    hub.answer(alloc, now, key, request)
}

/// Asks the hub at this moment, and writes its reply.
fn reply_to<W: Write, Sh: Shelf>(
    alloc: Global,
    writer: &mut W,
    hub: &mut Hub<Sh>,
    now: i64,
    key: &Key,
    request: &Request,
) -> Result<Served, ServeFault>
    ensures replied { Replies (λ reply.
        Steps Sh.has Sh.doubts Sh.failed Sh.may_remain hub.old now
        (key.now, request.now) reply hub.new)
        (W.contents writer.old) (W.contents writer.new) result }
    ensures later { Sh.failed hub.old ≤ Sh.failed hub.new }
    ensures doubt { Sh.doubts hub.old ≤ Sh.doubts hub.new }
{
    let reply = ask(alloc, hub, now, key, request);
    match write_reply(writer, &reply) {
        Ok(()) => Ok(Served::Answered),
        Err(_) => Err(ServeFault::WriteFailed),
    }
}

/// Serves one connection: reads one request, asks the hub at this moment (in seconds since the beginning of 1970, UTC),
/// and writes the reply. What the hub did is promised only if its store has returned what was written. The reply is
/// written in pieces without memory of its own, so the caller of a request that is given up for want of memory reads
/// `F2`. It reads at most as many times as a head and a body may have bytes; a reader that returns more fails with
/// `ReadFailed`.
#[tactic(auto, using(crate::proofs::Replied::serves_reply))]
pub fn serve_one<R: Read, W: Write, Sh: Shelf>(
    alloc: Global,
    reader: &mut R,
    writer: &mut W,
    hub: &mut Hub<Sh>,
    now: i64,
) -> Result<Served, ServeFault>
    ensures served { Serves (λ asked reply.
        Steps Sh.has Sh.doubts Sh.failed Sh.may_remain hub.old now asked reply hub.new)
        (hub.new ≡ hub.old)
        (R.remaining reader.old) (R.remaining reader.new) (W.contents writer.old)
        (W.contents writer.new) result }
    ensures later { Sh.failed hub.old ≤ Sh.failed hub.new }
    ensures doubt { Sh.doubts hub.old ≤ Sh.doubts hub.new }
{
    match gather(alloc, reader) {
        Ok((key, request)) => reply_to(alloc, writer, hub, now, &key, &request),
        Err(GatherFault::Wire(fault)) => match write_fault(writer, fault) {
            Ok(()) => Ok(Served::WireRefused(fault)),
            Err(_) => Err(ServeFault::WriteFailed),
        },
        Err(GatherFault::Truncated) => Err(ServeFault::Truncated),
        Err(GatherFault::ReadFailed) => Err(ServeFault::ReadFailed),
        Err(GatherFault::NoMemory) => Err(ServeFault::NoMemory),
    }
}

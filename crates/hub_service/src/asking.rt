//! One request to the hub.
ghost use Rattle.std.specs.Prelude.{◌≡◌, ℕ, ℤ, List, IfOk, OnErr};
ghost use Rattle.hub_http.specs.Serving.{Steps};
ghost use Rattle.hub_service.specs.Keys.{IsFirstLine};
ghost use Rattle.hub_service.specs.Keys as spec;

use crate::clock::seconds;
use crate::fault::Fault;
use crate::input::read_line;
use crate::keys::line_key;
use hub::Hub;
use hub_core::{Reply, Request, Shelf};
use std::alloc::Global;
use std::io::Read;
use std::time::Clock;

/// Returns the hub's reply to the caller whose key is this line.
pub fn reply_to<Sh: Shelf>(
    alloc: Global,
    hub: &mut Hub<Sh>,
    now: i64,
    line: &[u8],
    request: &Request,
) -> Reply
    ensures steps { Steps Sh.has Sh.doubts Sh.failed Sh.may_remain hub.old now
        (spec.line_key line.now, request.now) result hub.new }
{
    hub.answer(alloc, now, &line_key(line), request)
}

/// What is read of a caller: the line that has the key, and the moment, in seconds since the beginning of 1970 (UTC).
#[derive(Drop)]
pub struct Caller {
    pub line: Vec<u8>,
    pub now: i64,
}

/// Reads the first line of the input, and then the clock. Fails with `ReadFailed` if either can't be read.
pub fn read_caller<R: Read, C: Clock>(
    alloc: Global,
    clock: &C,
    reader: &mut R,
) -> Result<Caller, Fault>
    ensures { IfOk result (λ caller.
        IsFirstLine (R.remaining reader.old) (R.remaining reader.new) caller.line.items) }
{
    let line = read_line(alloc, reader)?;
    let now = seconds(clock)?;
    Ok(Caller { line, now })
}

/// Returns the reply to the caller whose key is the first line of the input, at the present moment. Fails with
/// `ReadFailed`, and asks nothing, if the line or the clock can't be read.
pub fn reply_to_input<Sh: Shelf, R: Read, C: Clock>(
    alloc: Global,
    hub: &mut Hub<Sh>,
    clock: &C,
    request: &Request,
    reader: &mut R,
) -> Result<Reply, Fault>
    ensures steps { IfOk result (λ reply. (line : List ℕ) × (now : ℤ) ×
        IsFirstLine (R.remaining reader.old) (R.remaining reader.new) line ×
        Steps Sh.has Sh.doubts Sh.failed Sh.may_remain hub.old now
        (spec.line_key line, request.now) reply hub.new) }
    ensures unasked { OnErr result (hub.new ≡ hub.old) }
{
    let caller = read_caller(alloc, clock, reader)?;
    Ok(reply_to(alloc, hub, caller.now, &caller.line, request))
}

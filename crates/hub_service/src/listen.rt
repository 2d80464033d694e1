//! Connections, one after the other.
ghost use Rattle.std.specs.Prelude.{◌≡◌, ◌≤◌};
ghost use Rattle.hub_service.specs.Serving.{HasRun, fault_told};

use crate::clock::seconds;
use crate::fault::Fault;
use crate::output::tell;
use crate::peer::{Timed, part};
use crate::status::Status;
use hub::Hub;
use hub_core::Shelf;
use hub_http::{ServeFault, Served, WireFault, serve_one};
use std::alloc::Global;
use std::io::Write;
use std::net::{TcpListener, TcpStream};
use std::time::Clock;

fn fault_name(fault: ServeFault) -> &'static str
    ensures { result.now ≡ fault_told fault }
{
    match fault {
        ServeFault::Truncated => "Truncated",
        ServeFault::ReadFailed => "ReadFailed",
        ServeFault::WriteFailed => "WriteFailed",
        ServeFault::NoMemory => "NoMemory",
    }
}

/// Whether the peer may still be sending its request after the reply.
fn is_sending(served: Served) -> bool {
    match served {
        Served::WireRefused(fault) => !matches!(fault, WireFault::NoRoute | WireFault::BadBody),
        Served::Answered => false,
    }
}

fn serve_stream<Sh: Shelf, C: Clock>(
    alloc: Global,
    stream: &TcpStream,
    hub: &mut Hub<Sh>,
    clock: &C,
    now: i64,
) -> Result<(), ServeFault>
    ensures run { Sh.doubts hub.new ≡ 0 → HasRun Sh.has Sh.may_remain hub.old hub.new 1 }
    ensures later { Sh.failed hub.old ≤ Sh.failed hub.new }
    ensures doubt { Sh.doubts hub.old ≤ Sh.doubts hub.new }
{
    let mut reader = Timed::new(stream, clock);
    let mut writer = Timed::new(stream, clock);
    let served = serve_one(alloc, &mut reader, &mut writer, hub, now)?;
    part(reader, is_sending(served));
    Ok(())
}

fn serve_next<Sh: Shelf, C: Clock>(
    alloc: Global,
    listener: &TcpListener,
    hub: &mut Hub<Sh>,
    clock: &C,
) -> Result<(), ServeFault>
    ensures run { Sh.doubts hub.new ≡ 0 → HasRun Sh.has Sh.may_remain hub.old hub.new 1 }
    ensures later { Sh.failed hub.old ≤ Sh.failed hub.new }
    ensures doubt { Sh.doubts hub.old ≤ Sh.doubts hub.new }
{
    let Ok((stream, _)) = listener.accept() else {
        return Err(ServeFault::ReadFailed);
    };
    match seconds(clock) {
        Ok(now) => serve_stream(alloc, &stream, hub, clock, now),
        Err(_) => Err(ServeFault::ReadFailed),
    }
}

/// Serves `count` connections, each at the moment at which it is accepted. A fault is printed by its name, with nothing
/// about the caller. It counts as a connection, and the next one is served. Returns `Failed` if a fault couldn't be
/// printed.
///
/// What was asked of the hub is a run of at most `count` requests. If everything stops after it, all changes whose
/// replies say so are left. Nothing is promised of the bytes on the sockets, which have no model.
pub fn serve_count<Sh: Shelf, C: Clock, E: Write>(
    alloc: Global,
    listener: &TcpListener,
    count: u32,
    hub: &mut Hub<Sh>,
    clock: &C,
    errors: &mut E,
) -> Status
    ensures run { Sh.doubts hub.new ≡ 0 → HasRun Sh.has Sh.may_remain hub.old hub.new count }
    ensures later { Sh.failed hub.old ≤ Sh.failed hub.new }
    ensures doubt { Sh.doubts hub.old ≤ Sh.doubts hub.new }
{
    let mut status = Status::Done;
    for _ in 0..count {
        // a fault that can't be printed doesn't end the loop either
        if let Err(fault) = serve_next(alloc, listener, hub, clock) {
            status = tell(errors, fault_name(fault), status);
        }
    }
    status
}

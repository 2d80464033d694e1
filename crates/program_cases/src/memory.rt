//! A hub over memory, and clocks that don't move.

use crate::calls::{call_all, push_replies};
use crate::streams::{Ending, Input, Output};
use crate::texts::{field_of, fields_of};
use crate::told::{ended, push_printed};
use circle::name::Name;
use hub::Hub;
use hub_core::{ListShelf, Reply, Request};
use hub_program::{
    Fault, digest_of, put_first_rows, reply_lines, reply_to_input, seconds, serve_count,
};
use std::alloc::{AllocError, Global};
use std::io;
use std::io::ErrorKind;
use std::net::{Ipv4Addr, TcpListener, TcpStream};
use std::time::{Clock, Duration};

/// The SHA-256 of `abc`.
const ABC: &str = "ba7816bf8f01cfea414140de5dae2223b00361a396177a9cb410ff61f20015ad";

/// A clock that always has the same time, in seconds since 1970, or can't be read.
#[derive(Drop)]
enum Hands {
    At(u64),
    Stopped,
}

impl Clock for Hands {
    fn monotonic(&self) -> io::Result<Duration> {
        match self {
            Hands::At(_) => Ok(Duration::ZERO),
            Hands::Stopped => Err(io::Error::from(ErrorKind::Unsupported)),
        }
    }

    fn since_1970(&self) -> io::Result<Duration> {
        match self {
            Hands::At(seconds) => Ok(Duration::from_secs(*seconds)),
            Hands::Stopped => Err(io::Error::from(ErrorKind::Unsupported)),
        }
    }
}

fn clock_of(word: &str) -> Hands {
    match word.parse::<u64>() {
        Ok(seconds) => Hands::At(seconds),
        Err(_) => Hands::Stopped,
    }
}

/// Returns the present moment of a clock.
pub fn moment(rt: &HostRuntime, word: &str) -> io::Result<String> {
    match seconds(&clock_of(word)) {
        Ok(now) => Ok(format!(in rt.alloc(); "{now}\n")?),
        Err(fault) => Ok(told_fault(rt.alloc(), fault)?),
    }
}

fn told_fault(alloc: Global, fault: Fault) -> Result<String, AllocError> {
    let name = fault.name();
    format!(in alloc; "! {name}\n")
}

/// Returns a hub over memory with organisation 1 and its administrator.
fn new_hub(alloc: Global) -> io::Result<Hub<ListShelf>> {
    let mut shelf = ListShelf::new(alloc);
    if let (Some(name), Some(key)) = (Name::of(alloc, "Hub")?, digest_of(ABC)) {
        if put_first_rows(alloc, &mut shelf, name, key).is_err() {
            return Err(io::Error::from(ErrorKind::OutOfMemory));
        }
    }
    Ok(Hub::new(shelf))
}

fn told_reply(alloc: Global, reply: &Reply) -> Result<String, AllocError> {
    let mut all = String::new(alloc);
    push_printed(&mut all, reply_lines(alloc, reply)?.as_bytes())?;
    Ok(all)
}

/// Returns the reply to the caller in the first line of an input, who asks which person it is, at the moment of a
/// clock.
pub fn ask(rt: &HostRuntime, way: &str, rest: &str) -> io::Result<String> {
    let alloc = rt.alloc();
    let (clock, field) = rest.split_once('|').unwrap_or((rest, ""));
    let bytes = field_of(rt, field)?;
    let ending = if way == "ask starved" {
        Ending::NoMemory
    } else {
        Ending::Nothing
    };
    let mut input = Input {
        bytes: &bytes,
        ending,
    };
    let mut hub = new_hub(alloc)?;
    let clock = clock_of(clock);
    match reply_to_input(alloc, &mut hub, &clock, &Request::WhoAmI, &mut input) {
        Ok(reply) => Ok(told_reply(alloc, &reply)?),
        Err(fault) => Ok(told_fault(alloc, fault)?),
    }
}

/// Returns how serving so many connections ends.
fn ended_by(
    alloc: Global,
    listener: &TcpListener,
    count: u32,
    clock: &Hands,
) -> io::Result<String> {
    let mut hub = new_hub(alloc)?;
    let mut errors = Output::new(alloc, true);
    let status = serve_count(alloc, listener, count, &mut hub, clock, &mut errors);
    Ok(ended(alloc, status.code(), b"", &errors.written)?)
}

/// Serves callers over a hub in memory. Returns the outcome, and the reply to each.
pub fn serve(rt: &HostRuntime, rest: &str) -> io::Result<String> {
    let (clock, line) = rest.split_once('|').unwrap_or((rest, ""));
    let requests = fields_of(rt, line)?;
    let listener = TcpListener::bind(rt, (Ipv4Addr::LOCALHOST, 0))?;
    let port = listener.local_addr()?.port();
    let mut callers: Vec<TcpStream> = Vec::new(rt.alloc());
    call_all(rt, port, &requests, &mut callers)?;
    let count = u32::try_from(requests.len()).unwrap_or(0);
    let mut all = ended_by(rt.alloc(), &listener, count, &clock_of(clock))?;
    push_replies(rt, &mut callers, &mut all)?;
    Ok(all)
}

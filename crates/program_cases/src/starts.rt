//! Starts of the programs.

use crate::addresses::Reaching;
use crate::calls::{Calling, push_replies, reply_to};
use crate::loss::Losing;
use crate::place::Place;
use crate::streams::{Ending, Input, Output};
use crate::texts::{field_of, fields_of};
use crate::told::{ended, push_reply};
use crate::words::{args_of, no_args};
use std::alloc::{AllocError, Global};
use std::env::Args;
use std::io;
use std::io::Write;
use std::net::{Ipv4Addr, TcpListener, TcpStream};
use std::str::from_utf8;

/// A program that is started.
#[derive(Clone, Copy)]
enum Program {
    Hub,
    Redact,
}

/// Returns the program that a field of words names, which is `iodef-hub` if none is named, and the words behind it.
fn program_of(field: &str) -> (Program, &str) {
    match field.split_once(' ').unwrap_or((field, "")) {
        ("iodef-redact", words) => (Program::Redact, words),
        _ => (Program::Hub, field),
    }
}

/// Starts a program, as all cases do. Returns its exit status.
fn begin<W: Write>(
    rt: &HostRuntime,
    program: Program,
    words: io::Result<Args>,
    input: &mut Input<'_>,
    output: &mut W,
    errors: &mut Output,
) -> u8 {
    match program {
        Program::Hub => hub_program::cli_start(rt, words, input, output, errors).code(),
        Program::Redact => redact_program::cli_start(rt, words, input, output, errors).code(),
    }
}

/// Returns a port that nobody has, which is held until the listener is dropped, and its number.
fn held_port(rt: &HostRuntime) -> io::Result<(TcpListener, u16)> {
    let listener = TcpListener::bind(rt, (Ipv4Addr::LOCALHOST, 0))?;
    let port = listener.local_addr()?.port();
    Ok((listener, port))
}

/// Returns how the program ended, with `PORT` for the number of the port.
fn told_of(
    alloc: Global,
    status: u8,
    port: u16,
    written: &[u8],
    errors: &Output,
) -> Result<String, AllocError> {
    let listening = format!(in alloc; "listening {port}\n")?;
    if written == listening.as_bytes() {
        ended(alloc, status, b"listening PORT\n", &errors.written)
    } else {
        ended(alloc, status, written, &errors.written)
    }
}

/// Returns what follows the input, and whether standard output and standard error take anything.
fn streams_of(way: &str) -> (Ending, bool, bool) {
    match way {
        "cut" => (Ending::Failure, true, true),
        "starved" => (Ending::NoMemory, true, true),
        "unwritten" => (Ending::Nothing, false, true),
        "untold" => (Ending::Nothing, false, false),
        _ => (Ending::Nothing, true, true),
    }
}

fn start_at(
    rt: &HostRuntime,
    place: &Place,
    port: u16,
    way: &str,
    rest: &str,
) -> io::Result<String> {
    let alloc = rt.alloc();
    let (field, input) = rest.split_once('|').unwrap_or((rest, ""));
    let (program, words) = program_of(field);
    let bytes = field_of(rt, input)?;
    let (ending, takes, tells) = streams_of(way);
    let mut input = Input {
        bytes: &bytes,
        ending,
    };
    let mut output = Calling::new(rt, port, &[], takes);
    let mut errors = Output::new(alloc, tells);
    let args = if way == "wordless" {
        no_args()
    } else {
        args_of(alloc, place, port, words)
    };
    let status = begin(rt, program, args, &mut input, &mut output, &mut errors);
    Ok(told_of(alloc, status, port, &output.written, &errors)?)
}

/// Starts a program in this way. Returns the outcome.
pub fn start(rt: &HostRuntime, place: &Place, way: &str, rest: &str) -> io::Result<String> {
    let (listener, port) = held_port(rt)?;
    if way == "taken" {
        let told = start_at(rt, place, port, way, rest);
        drop(listener);
        return told;
    }
    drop(listener);
    start_at(rt, place, port, way, rest)
}

/// Runs a `serve` for as many callers as there are requests. Returns the outcome, and the callers.
fn served(
    rt: &HostRuntime,
    place: &Place,
    requests: &[Vec<u8>],
) -> io::Result<(String, Vec<TcpStream>)> {
    let alloc = rt.alloc();
    let (listener, port) = held_port(rt)?;
    drop(listener);
    let count = requests.len();
    let words = format!(in alloc; "serve STORE PORT {count}")?;
    let args = args_of(alloc, place, port, words.as_str());
    let mut input = Input {
        bytes: b"",
        ending: Ending::Nothing,
    };
    let mut output = Calling::new(rt, port, requests, true);
    let mut errors = Output::new(alloc, true);
    let status = begin(rt, Program::Hub, args, &mut input, &mut output, &mut errors);
    let told = told_of(alloc, status, port, &output.written, &errors)?;
    Ok((told, output.callers))
}

/// Runs a `serve` for no caller. Returns its exit status, and its standard error.
fn served_none<W: Write>(
    rt: &HostRuntime,
    place: &Place,
    port: u16,
    output: &mut W,
) -> io::Result<(u8, Output)> {
    let alloc = rt.alloc();
    let args = args_of(alloc, place, port, "serve STORE PORT 0");
    let mut input = Input {
        bytes: b"",
        ending: Ending::Nothing,
    };
    let mut errors = Output::new(alloc, true);
    let status = begin(rt, Program::Hub, args, &mut input, output, &mut errors);
    Ok((status, errors))
}

/// Runs a `serve` for no caller. Returns the outcome, and at which addresses it was reached.
pub fn reach(rt: &HostRuntime, place: &Place) -> io::Result<String> {
    let (listener, port) = held_port(rt)?;
    drop(listener);
    let mut output = Reaching {
        rt,
        port,
        told: String::new(rt.alloc()),
    };
    let (status, errors) = served_none(rt, place, port, &mut output)?;
    let mut all = ended(rt.alloc(), status, b"", &errors.written)?;
    all.push_str(output.told.as_str())?;
    Ok(all)
}

/// Runs a `serve` for no caller, whose log is emptied meanwhile. Returns the outcome.
pub fn lose(rt: &HostRuntime, place: &Place) -> io::Result<String> {
    let (listener, port) = held_port(rt)?;
    drop(listener);
    let mut output = Losing {
        rt,
        place,
        written: Vec::new(rt.alloc()),
    };
    let (status, errors) = served_none(rt, place, port, &mut output)?;
    Ok(told_of(rt.alloc(), status, port, &output.written, &errors)?)
}

/// Runs a `serve`. Returns the outcome, and the reply to each caller.
pub fn serve(rt: &HostRuntime, place: &Place, rest: &str) -> io::Result<String> {
    let requests = fields_of(rt, rest)?;
    let (mut all, mut callers) = served(rt, place, &requests)?;
    push_replies(rt, &mut callers, &mut all)?;
    Ok(all)
}

/// Returns the bytes of a post that is written KEY|TARGET|BODY.
fn post_of(alloc: Global, line: &str) -> Result<Vec<u8>, AllocError> {
    let (key, rest) = line.split_once('|').unwrap_or((line, ""));
    let (target, body) = rest.split_once('|').unwrap_or((rest, ""));
    let length = body.len();
    let bytes = format!(in alloc;
        "POST {target} HTTP/1.1\r\nAuthorization: Bearer {key}\r\nContent-Length: {length}\r\n\r\n{body}"
    )?;
    Ok(bytes.into_bytes())
}

fn posts_of(rt: &HostRuntime, field: &str) -> io::Result<Vec<Vec<u8>>> {
    let text = field_of(rt, field)?;
    let mut all = Vec::new(rt.alloc());
    for line in from_utf8(&text).unwrap_or("").lines() {
        all.push(post_of(rt.alloc(), line)?)?;
    }
    Ok(all)
}

/// Returns how many callers got `200 OK`, or the first other reply, if there is one.
fn told_done(rt: &HostRuntime, callers: &mut Vec<TcpStream>) -> io::Result<String> {
    let alloc = rt.alloc();
    let mut count: usize = 0;
    for caller in callers.iter_mut() {
        let reply = reply_to(rt, caller)?;
        if !reply.as_slice().starts_with(b"HTTP/1.1 200 OK\r\n") {
            let mut told = String::new(alloc);
            push_reply(&mut told, &reply)?;
            return Ok(told);
        }
        count = count.saturating_add(1);
    }
    Ok(format!(in alloc; "{count} done\n")?)
}

/// Whether a line of an outcome says that the store was opened and served, and no fault.
fn is_of_serving(line: &str) -> bool {
    line == "status 0" || line == "> listening PORT" || line.starts_with("! opening")
}

/// Posts to the store. Returns how many posts are done, or the first other reply.
pub fn post(rt: &HostRuntime, place: &Place, field: &str) -> io::Result<String> {
    let requests = posts_of(rt, field)?;
    let (told, mut callers) = served(rt, place, &requests)?;
    if !told.as_str().lines().all(is_of_serving) {
        return Ok(told);
    }
    told_done(rt, &mut callers)
}

//! `redact_bench TURNS`: redacts the report on standard input so many times, for a reader who is cleared only for CLEAR
//! under a gate that lets everybody pass. Prints the last excerpt and, on a second line, how many bytes all of them
//! have together.
//!
//! `redact_bench TURNS CALL GATES PERMISSIONS`: calls `excerpt` or `finds` so many times for that reader over the
//! report on the first line. No gate is at the root. CALL may also be `source`, an excerpt for a reader of the source.
//! The second line is the pointer of an array. Its first elements have so many gates that only the source passes, and
//! those behind them so many permissions for the reader. Prints how many classes are visible and how many pairs
//! withheld. For a search it prints `1 0` if something is found, else `0 0`. The exit status is 1 if the report isn't
//! accepted or the second line is no pointer, and 2 for other words.
//!
//! `redact_bench fed LINES` and `redact_bench kept LINES`: a report with so many lines behind a gate. It is fed to a
//! pass line by line, or kept and redacted. Prints the same two counts.
#![tactic(auto)]

mod asked;
mod case;
mod lines;
mod turns;

use asked::{Asked, Call};
use lines::{Way, serve_by};
use std::io::Read;
use std::process::ExitCode;
use std::{env, io};
use turns::{Answered, answer_in_turns};

fn main(rt: HostRuntime) -> io::Result<ExitCode> {
    let words: Vec<String> = env::args(&rt)?.skip(1).collect(rt.alloc())?;
    match (Asked::of(words.as_slice()), lines_of(words.as_slice())) {
        (Some(asked), _) => obeyed(&rt, asked),
        (None, Some((way, hidden))) => print_lines(&rt, way, hidden),
        (None, None) => Ok(ExitCode::from(2)),
    }
}

/// Returns which lines these words ask for, and how they are taken.
fn lines_of(words: &[String]) -> Option<(Way, u32)> {
    match words {
        [way, hidden] => Some((Way::of(way.as_str())?, hidden.parse::<u32>().ok()?)),
        _ => None,
    }
}

fn print_lines(rt: &HostRuntime, way: Way, hidden: u32) -> io::Result<ExitCode> {
    match serve_by(rt.alloc(), way, hidden)? {
        Some((classes, withheld)) => {
            println!(rt; "{classes} {withheld}")?;
            Ok(ExitCode::from(0))
        }
        None => Ok(ExitCode::from(1)),
    }
}

fn obeyed(rt: &HostRuntime, asked: Asked) -> io::Result<ExitCode> {
    let mut input = Vec::new(rt.alloc());
    rt.reader().read_to_end(&mut input)?;
    match answer_in_turns(rt.alloc(), &input, asked)? {
        Some(answered) => print(rt, asked.call, &answered),
        None => Ok(ExitCode::from(1)),
    }
}

fn print(rt: &HostRuntime, call: Call, answered: &Answered) -> io::Result<ExitCode> {
    let Answered {
        text,
        bytes,
        classes,
        withheld,
    } = answered;
    match call {
        Call::Text => println!(rt; "{text}\n{bytes}")?,
        _ => println!(rt; "{classes} {withheld}")?,
    }
    Ok(ExitCode::from(0))
}

//! Refuses each growth of the heap in turn, for the cases of a table.
//!
//! It runs each case once for each growth of the heap that the case's call makes, with that growth refused. It prints
//! how many growths were refused, if the answer of each run was right. Else it prints the first growth whose answer was
//! wrong, and that answer. It prints a line that begins with `#` as it is. `cases` says what a line may say.
//!
//! Any call may fail for want of memory, and no contract says what is left then. Nothing must be half done. The next
//! call must be answered as if the one that was given up hadn't been made.
//!
//! - A call returns want of memory, or what it returns with ample memory. The calls are `Document::read`,
//!   `from_outline` and `text`, `excerpt`, `is_listed`, `finds`, `RowPass`, `Probe`, `explain` and its text, and
//!   `request_of`. A `RowPass` or a `Probe` that returned want of memory returns it for every later line and at the
//!   end.
//! - Of a list of requests at most one is answered `F2`, and none `F1`. Each other request is answered as by a hub in
//!   memory that wasn't asked the one given up. In the end all persons read the same from both hubs. If `run` itself
//!   fails for want of memory, nothing is changed.
//! - A connection (`serve_one`) is answered as with ample memory or with `F2`, or ends with want of memory and writes
//!   nothing. Then the same request is asked again. It must be answered as the first time or, if its change was made,
//!   as a change that was made before (`S1`, `S2` or `S3`).
//!
//! It arms the heap by asking for more bytes than any heap has (`heap`). It asks in the same way whether a
//! growth was refused. The C library of `scripts/refuse-growth`, which is run by hand, understands this and refuses.
//! The script divides the growths among all processors.
//!
//! No heap of the gate refuses a growth. There each case runs with ample memory, and its line says `no growth refused`.
//! This shows that no call returns want of memory then, and that the answers are the ones in `stdout`.
//!
//! With the words `FIRST STEP`, two numbers, it refuses the growths FIRST, FIRST + STEP and so on. The last line then
//! says how many growths were refused, in how many runs.
//!
//! `scripts/refuse-growth.d/` holds three planted faults. A push ignores its refusal, and an excerpt lacks a withheld
//! place. A reply is made after the change, and a change that was made is answered `F2`. A reader forgets a piece of
//! the request, and nothing is answered. `scripts/refuse-growth --planted` builds the program with each and without
//! any. It refuses one growth of 1,024 in each case, then one of 16, then each. It fails if a fault isn't found, or if
//! the program without a fault shows a difference.
#![tactic(auto)]

mod cases;
mod content;
mod documents;
mod heap;
mod lists;
mod passes;
mod readers;
mod requests;
mod searches;
mod serving;
mod sweep;
mod wire;
mod worlds;

use cases::Cases;
use std::io;
use sweep::Sweep;
use trying::number_of;

/// Returns which growths are to be refused, by the words `FIRST STEP` or none.
fn sweep_of(words: &str) -> Sweep {
    let (first, step) = words.split_once(' ').unwrap_or(("1", "1"));
    let (first, step) = (number_of(first), number_of(step));
    Sweep {
        first: first.max(1),
        step: step.max(1),
        growths: 0,
        runs: 0,
    }
}

/// Prints a heading as it is, or the answer to a line if there is one.
fn print_line(rt: &HostRuntime, cases: &mut Cases, line: &str) -> io::Result<()> {
    if line.starts_with('#') {
        return println!(rt; "{line}");
    }
    match cases.told_of(line)? {
        Some(told) => println!(rt; "{told}"),
        None => Ok(()),
    }
}

/// Prints the answer to each line. Returns the counts of growths and runs.
fn print_all(rt: &HostRuntime, mut cases: Cases, table: &str) -> io::Result<Sweep> {
    for line in table.lines() {
        print_line(rt, &mut cases, line)?;
    }
    Ok(cases.sweep)
}

/// Prints the answers to a table, with the words `FIRST STEP` or none.
pub fn run(rt: &HostRuntime, words: &str, table: &str) -> io::Result<()> {
    let sweep = print_all(rt, Cases::new(rt.alloc(), sweep_of(words)), table)?;
    if !words.is_empty() {
        let (growths, runs) = (sweep.growths, sweep.runs);
        println!(rt; "{growths} growths refused in {runs} runs")?;
    }
    Ok(())
}

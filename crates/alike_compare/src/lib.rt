//! Compares the replies to one reader in pairs of generated worlds, byte for byte.
//!
//! A chain of steps begins at each of some worlds. Each step leads to a world that is alike for the reader:
//!
//! - other plain lines in a class that the reader doesn't see;
//! - a wholly hidden class put in, taken out or exchanged;
//! - anything in an incident of which the reader sees nothing;
//! - rows that are for others.
//!
//! A step may leave one premise out, and then the next step begins at the same world. In each pair the reader asks all
//! questions about incidents, how each is shared, its groups, its communities and itself, and makes some requests that
//! are refused, one of them for a new key.
//!
//! The step and a plain judge of each class decide whether a premise holds, over the rows of which the world is made.
//! They also decide what the reader must learn. A pair is printed with the question and both replies, and nothing else
//! is, if
//!
//! - it is alike and told apart;
//! - it had to differ and is told alike;
//! - it is told apart, and nothing differs that the reader learns.
//!
//! Each step is printed with the premises that were left out of it. The counts of pairs are the crate's own output, as
//! nobody can work them out beforehand.
#![tactic(auto)]

mod asking;
mod edits;
mod fault;
mod pairs;
mod reader;
mod row_steps;
mod rows;
mod steps;
mod table;
mod told;
mod worlds;
mod writing;

use asking::questions;
use fault::Fault;
use pairs::agree_on_chain;
use std::io;
use table::{is_full, lines_of, pairs_of};
use trying::Tally;

/// Returns what was found.
fn text_of(fault: &Fault) -> &str {
    match fault {
        Fault::NoMemory => "no memory",
        Fault::Unmade(what) => *what,
        Fault::Found(text) => text.as_str(),
    }
}

/// Compares over so many chains of worlds. Returns whether nothing is wrong.
fn compare(rt: &HostRuntime, tally: &mut Tally, chains: u64) -> io::Result<bool> {
    let questions = questions(rt.alloc())?;
    for seed in 0..chains {
        if let Err(fault) = agree_on_chain(rt.alloc(), tally, &questions, seed) {
            let text = text_of(&fault);
            println!(rt; "chain {seed}: {text}")?;
            return Ok(false);
        }
    }
    Ok(true)
}

/// Prints the counts. Returns whether each kind of pair was met.
fn tell(rt: &HostRuntime, tally: &Tally) -> io::Result<bool> {
    let pairs = pairs_of(tally);
    println!(rt; "{pairs} pairs of worlds")?;
    for line in lines_of(rt.alloc(), tally)?.iter() {
        println!(rt; "{line}")?;
    }
    let is_full = is_full(tally);
    if !is_full {
        println!(rt; "a kind of pair is missing")?;
    }
    Ok(is_full)
}

/// Compares over so many chains. Returns whether nothing is wrong, and each kind of pair was met.
pub fn run(rt: &HostRuntime, chains: u64) -> io::Result<bool> {
    let mut tally = Tally::new(rt.alloc());
    Ok(compare(rt, &mut tally, chains)? && tell(rt, &tally)?)
}

//! Compares the hub over the shelf in memory, the hub over SQL tables, the hub over a shelf in memory that keeps
//! documents, and the hub over SQL tables whose rows are kept.
//!
//! All are asked generated lists of 60 requests, and then for more rows than there may be. The tables are opened
//! again within each list and at its end. All replies must be equal, and so must the contents of the shelves in the
//! end. A difference is printed by its list.
//!
//! Then a shelf that keeps documents is asked for long reports of few lines. How much the kept documents weigh in the
//! end is printed. They may never weigh more than the bound.
//!
//! Each kind of request is printed with how often each outcome was met. Each must be met, and no other. Only these
//! counts are the crate's own output, as nobody can work them out beforehand.
#![tactic(auto)]

mod asked;
mod commands;
mod documents;
mod fault;
mod heavy;
mod limits;
mod lists;
mod outcomes;
mod posting;
mod reading;
mod reads;
mod replies;
mod sharing;
mod shelves;
mod tally;
mod world;
mod worlds;

use fault::Fault;
use std::io;
use tally::{is_full, lines_of};
use trying::Tally;

/// Returns what differs, or that memory ran out.
fn name_of(fault: &Fault) -> &'static str {
    match fault {
        Fault::NoMemory => "no memory",
        Fault::Differs(name) => *name,
    }
}

/// Compares over so many lists. Returns whether there is no difference.
fn agree_on_lists(rt: &HostRuntime, tally: &mut Tally, lists: u64) -> io::Result<bool> {
    for seed in 0..lists {
        if let Err(fault) = lists::agree_on_list(rt.alloc(), tally, seed) {
            let name = name_of(&fault);
            println!(rt; "list {seed}: {name}")?;
            return Ok(false);
        }
    }
    println!(rt; "{lists} lists of 60 requests, no difference")?;
    Ok(true)
}

/// Compares at the limits. Returns whether there is no difference.
fn agree_at_limits(rt: &HostRuntime, tally: &mut Tally) -> io::Result<bool> {
    if let Err(fault) = limits::agree_at_limits(rt.alloc(), tally) {
        let name = name_of(&fault);
        println!(rt; "at the limits: {name}")?;
        return Ok(false);
    }
    println!(rt; "at the limits, no difference")?;
    Ok(true)
}

/// Prints the weight of the kept documents after long reports of few lines. Returns whether it was never more than the
/// bound.
fn weigh_heavy_reports(rt: &HostRuntime) -> io::Result<bool> {
    match heavy::weight_in_the_end(rt.alloc()) {
        Ok(weight) => {
            println!(rt;
                "{} reports of 7 lines and 251 KB: the kept documents weigh {weight} of at most {}",
                heavy::REPORTS,
                heavy::MOST_WEIGHT
            )?;
            Ok(true)
        }
        Err(fault) => {
            let name = name_of(&fault);
            println!(rt; "of reports of 7 lines and 251 KB: {name}")?;
            Ok(false)
        }
    }
}

/// Prints the counts. Returns whether each outcome was met, and no other.
fn tell(rt: &HostRuntime, tally: &Tally) -> io::Result<bool> {
    for line in lines_of(rt.alloc(), tally)?.iter() {
        println!(rt; "{line}")?;
    }
    let is_full = is_full(tally);
    if !is_full {
        println!(rt; "an outcome is missing, or strange")?;
    }
    Ok(is_full)
}

/// Compares over so many lists. Returns whether nothing is wrong.
pub fn run(rt: &HostRuntime, lists: u64) -> io::Result<bool> {
    let mut tally = Tally::new(rt.alloc());
    let is_same = agree_on_lists(rt, &mut tally, lists)?
        && agree_at_limits(rt, &mut tally)?
        && weigh_heavy_reports(rt)?;
    Ok(is_same && tell(rt, &tally)?)
}

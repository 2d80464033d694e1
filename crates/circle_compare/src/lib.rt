//! Compares a directory in memory, `judge` and its edits with a plain, slow program that asks the rows themselves. It
//! compares them over directories of 200 generated commands each. A difference is printed by its seed. Each kind of
//! command is printed with the outcomes that were met at least 20 times.
#![tactic(auto)]

mod changes;
mod commands;
mod facts;
mod generated;
mod limits;
mod reads;
mod refusals;
mod rows;
mod tally;

use std::io;
use tally::lines_of;
use trying::Tally;

/// Compares over so many directories. Returns whether there is no difference.
fn compare(rt: &HostRuntime, tally: &mut Tally, seeds: u64) -> io::Result<bool> {
    for seed in 0..seeds {
        if !generated::agrees_at(rt.alloc(), tally, seed)? {
            println!(rt; "seed {seed}: a difference")?;
            return Ok(false);
        }
    }
    println!(rt; "{seeds} directories of 200 commands, no difference")?;
    Ok(true)
}

/// Prints which outcomes each kind of command met.
fn tell(rt: &HostRuntime, tally: &Tally) -> io::Result<()> {
    let lines = lines_of(rt.alloc(), tally)?;
    print!(rt; "{lines}")
}

fn compare_at_limits(rt: &HostRuntime) -> io::Result<bool> {
    if !limits::hold_limits(rt.alloc())? {
        println!(rt; "at the limits: a difference")?;
        return Ok(false);
    }
    println!(rt; "at the limits: as expected")?;
    Ok(true)
}

/// Compares so many directories, and the one at the limits. Returns whether there is no difference.
pub fn run(rt: &HostRuntime, seeds: u64) -> io::Result<bool> {
    let mut tally = Tally::new(rt.alloc());
    if !compare(rt, &mut tally, seeds)? {
        return Ok(false);
    }
    tell(rt, &tally)?;
    compare_at_limits(rt)
}

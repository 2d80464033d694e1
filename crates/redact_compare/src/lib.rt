//! Compares `excerpt`, `is_listed` and `finds` with a plain, slow program, over generated reports, gates, permissions and
//! readers. That program judges each path by itself over the flat outline. `RowPass` is compared with a pass that keeps
//! all lines. In one case of some, if `Probe` is sure, generated reports that begin with the same lines must meet the
//! want. A difference is printed by its seed.
#![tactic(auto)]

mod by_lines;
mod compared;
mod documents;
mod entry;
mod growing;
mod judged;
mod policy_tables;
mod probing;
mod readers;
mod shown;
mod stations;
mod tally;
mod world;
mod writing;

use compared::agrees_at;
use probing::is_sure_rightly;
use std::alloc::{AllocError, Global};
use std::io;
use tally::Tally;

/// Returns whether the case of this seed shows no difference, and its search by lines, if there is one, is right.
fn is_right(
    alloc: Global,
    tally: &mut Tally,
    seed: u64,
    is_searched: bool,
) -> Result<bool, AllocError> {
    Ok(agrees_at(alloc, tally, seed)? && (!is_searched || is_sure_rightly(alloc, tally, seed)?))
}

/// Returns the seed of the first of the cases that shows a difference.
fn difference(
    alloc: Global,
    tally: &mut Tally,
    cases: u64,
    every: u64,
) -> Result<Option<u64>, AllocError> {
    for seed in 0..cases {
        if !is_right(alloc, tally, seed, seed % every.max(1) == 0)? {
            return Ok(Some(seed));
        }
    }
    Ok(None)
}

/// Compares the cases. Returns whether there is no difference.
fn compare(rt: &HostRuntime, tally: &mut Tally, cases: u64, every: u64) -> io::Result<bool> {
    let found = difference(rt.alloc(), tally, cases, every)?;
    match found {
        Some(seed) => println!(rt; "seed {seed}: a difference")?,
        None => println!(rt; "{cases} cases, no difference")?,
    }
    Ok(found.is_none())
}

/// Prints what the cases showed. Returns whether nothing of it is rare.
fn tell(rt: &HostRuntime, tally: &Tally) -> io::Result<bool> {
    if let Some(rare) = tally.rare() {
        let (name, count) = (rare.name, rare.count);
        println!(rt; "{name}: only {count}")?;
        return Ok(false);
    }
    for count in tally.counts() {
        let name = count.name;
        println!(rt; "covered: {name}")?;
    }
    Ok(true)
}

/// Compares so many cases, of which one of `every` is searched by lines. Returns whether there is no difference, and
/// nothing was rare.
pub fn run(rt: &HostRuntime, cases: u64, every: u64) -> io::Result<bool> {
    let mut tally = Tally::new(rt.alloc())?;
    Ok(compare(rt, &mut tally, cases, every)? && tell(rt, &tally)?)
}

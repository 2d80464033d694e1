//! Runs the hub over each shelf for the cases of a table, and prints the answer to each request.
//!
//! A case is a block of lines, one request a line, with an empty line behind it; each case is one list that is run. The
//! first block sets up the organisations, persons and groups, and its requests come before those of every later block.
//! The shelf begins with organisation 1 and its administrator, person 1. A line that begins with `#` is printed as it
//! is.
//!
//! A request is WHO|REQUEST|FIELD|FIELD.. with the fields in the request's order. WHO is `p4` for person 4, or
//! `nobody`, and `p4 at 1717200000` asks at that moment, in seconds since 1970. Each other request comes a second after
//! the one before. The key of person N is 32 bytes of N. The level of a Post or a Replace is `1@3` if its incidents
//! name community 3. A group is `-` for none, and so is a class. Gates are LEVEL:GROUP:POINTER with a space between
//! them. Targets and grantees are `person 4`, `org 3`, `community 1` or `group 1`. `150 times` before a request asks it
//! so often; in it `<n>` is the number of the time, and `<a,b>` is a and b in turn.
//!
//! After the answers of a block it prints whether tables in memory, opened again after each request, answer
//! the same, and tables whose rows are kept too. After all blocks it prints
//!
//! - the outcomes of stores that are made, opened and refused;
//! - the lines of a report as rows;
//! - the answers if a row is missing in the middle of a report;
//! - stores of older versions, migrated to the newest.
//!
//! A block with a line `every call fails` is run once more for each call of the shelf, which then fails that one time.
//! One request must be answered F1, and all others as if that one hadn't been made.
//!
//! A block with a line `steps are limited` is run once more over tables for each limit on the steps of a statement,
//! from one on. A request must be answered F1 or as without a limit. After F1 everybody must see the same as before,
//! and then the same request must be answered without a limit.
//!
//! A block with a line `searches are counted` prints for each of its pages how many reports the shelf was asked about,
//! whether they meet the want.
//!
//! A block with a line `searches below the rows are counted` prints for each of its pages how many reports the tables
//! below kept rows were asked for: with a sketch of each report that was drawn with its edit, with one that was drawn
//! of the stored document, and without sketches.
#![tactic(auto)]

mod below;
mod block;
mod counted;
mod missing_row;
mod old_store;
mod openings;
mod play;
mod steps;
mod stored_lines;
mod watched;
mod world;

use block::Block;
use std::{io, mem};

fn print_all(rt: &HostRuntime, lines: &[String]) -> io::Result<()> {
    for line in lines {
        println!(rt; "{line}")?;
    }
    Ok(())
}

/// Adds a line of the table to the block, or prints it if it is a heading. At the end of a block it prints the answers
/// and begins a new one; the first block becomes the world.
fn read_line(rt: &HostRuntime, world: &mut Block, block: &mut Block, line: &str) -> io::Result<()> {
    if line.starts_with('#') {
        return println!(rt; "{line}");
    }
    if !line.is_empty() {
        return Ok(block.add(line)?);
    }
    print_all(rt, &play::answers(rt.alloc(), world, block)?)?;
    let last = mem::replace(block, Block::new(rt.alloc()));
    if world.is_empty() {
        *world = last;
    }
    Ok(())
}

/// Prints what is printed for each block. Returns the first one.
fn print_blocks(rt: &HostRuntime, table: &str) -> io::Result<Block> {
    let mut world = Block::new(rt.alloc());
    let mut block = Block::new(rt.alloc());
    for line in table.lines() {
        read_line(rt, &mut world, &mut block, line)?;
    }
    Ok(world)
}

/// Prints what is printed after all blocks.
fn print_stores(rt: &HostRuntime, world: &Block) -> io::Result<()> {
    let alloc = rt.alloc();
    print_all(rt, &openings::all(alloc)?)?;
    let told = stored_lines::describe(alloc, world)?;
    println!(rt; "{told}")?;
    print_all(rt, &missing_row::all(alloc, world)?)?;
    print_all(rt, &old_store::all(alloc)?)
}

/// Prints the answers to a table, and what is printed after all blocks.
pub fn run(rt: &HostRuntime, table: &str) -> io::Result<()> {
    let world = print_blocks(rt, table)?;
    print_stores(rt, &world)
}

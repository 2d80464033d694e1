//! Compares the replies to a person in worlds that differ in what is withheld from it, for the blocks of a table. Empty
//! lines separate the blocks.
//!
//! The first block sets up the circle, and its requests come before those of every world. The second is the world with
//! which the others are compared. The third has the person's requests. Each later block is another world. A line that
//! begins with `#` is printed as it is.
//!
//! A request is KEY METHOD TARGET, or KEY METHOD TARGET|BODY, and is read as the bytes that ask it over HTTP. The hub
//! begins with organisation 1 and its administrator, person 1, whose key is `abc`.
//!
//! For each request the body of the reply is printed if both worlds answer the same bytes, else both bodies. For the
//! third block the second world is compared with itself. The last line of a world says whether the replies are the same
//! if one of the worlds, or both, are in tables, and if their rows are kept in memory too.
#![tactic(auto)]

mod asking;
mod comparing;
mod world;

use comparing::Comparison;
use std::io;

/// Prints what is printed for each block of a table.
pub fn run(rt: &HostRuntime, table: &str) -> io::Result<()> {
    let mut comparison = Comparison::new(rt.alloc());
    for block in table.split("\n\n") {
        for line in block.lines().filter(|line| line.starts_with('#')) {
            println!(rt; "{line}")?;
        }
        for told in comparison.told_of(block)? {
            println!(rt; "{told}")?;
        }
    }
    Ok(())
}

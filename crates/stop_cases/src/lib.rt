//! Stops a store in memory after each call of its two files, for the cases of a table, and prints the outcomes.
//!
//! A case is a block of lines, with an empty line behind it. A line that begins with `#` is printed as it is. `cases`
//! says what a line may say. A law of `hub_store` says that a store opened again after a stop has one of the contents
//! that the stop may leave. This crate tries it on bytes.
//!
//! A case is a list of steps. A step makes a store, puts its first rows, answers a request, or migrates a store of an
//! older version to the newest. The requests post, give permissions with an end and without, exchange documents,
//! address incidents and change groups.
//!
//! It plays a case over two files in memory, the log and the database file. First the log refuses each call
//! after the first 0, 1, 2 and so on, until a run meets no refusal, the closing of the files included. Then the
//! database file does. A run ends at its first step that isn't answered as done, as a program that stops there does.
//! Written pages go to the log four at a time. A log of four pages is carried over before the next change is written.
//! So the database file too is stopped within a change, if a case has one more.
//!
//! After each stop the files are opened as two disks. One lost all that wasn't synced, as when the power fails. The
//! other has all that was written, as when the process dies. Six persons then ask for Views at two moments, Lists,
//! addressed incidents and groups. Between the two moments a permission of one list ends. The replies must be those of
//! a hub in memory after all steps that were answered as done. If one more step was begun, they may be those after that
//! step too.
//!
//! - If making a store wasn't answered as done, the files may be no store of the hub (`NotOurs`). Then making the store
//!   must succeed.
//! - If a migration wasn't answered as done, the store may be of the older version (`WrongVersion`), never of a version
//!   between. Then migrating it must succeed, with the same content. There are stores of versions 1, 2 and 3.
//!
//! All this is done over tables, and again over tables whose rows are kept in memory, as the program does.
//!
//! If nothing is lost that was answered as done, it prints how many steps are changes, which is known by hand.
//! It also prints its own counts: calls of each file at which it was stopped, changes within which the database file
//! was stopped, and unanswered changes that were found as made. It prints a fault in their place if
//!
//! - a stop goes wrong: the first one, and what was found after it;
//! - a change is never stopped within the log, or the database file is never stopped;
//! - more unanswered changes are found than there are changes, as one call of the log, its last, puts a change on the
//!   disk.
//!
//! The kit's file in memory loses all bytes of unsynced writes or keeps them all. No write is torn.
#![tactic(auto)]

mod block;
mod case;
mod cases;
mod content;
mod due;
mod files;
mod found;
mod lists;
mod steps;
mod stops;
mod stores;

use cases::Cases;
use std::io;
use trying_hub::{first_rows, key_of};

/// Prints a heading as it is, or the answer to a line if there is one.
fn print_line(rt: &HostRuntime, cases: &mut Cases, line: &str) -> io::Result<()> {
    if line.starts_with('#') {
        return println!(rt; "{line}");
    }
    match cases.told_of(line)? {
        Some(told) => println!(rt; "{told}"),
        None => Ok(()),
    }
}

/// Prints the outcomes of a table.
pub fn run(rt: &HostRuntime, table: &str) -> io::Result<()> {
    let alloc = rt.alloc();
    let mut cases = Cases::new(alloc, first_rows(alloc, key_of(1))?);
    for line in table.lines() {
        print_line(rt, &mut cases, line)?;
    }
    Ok(())
}

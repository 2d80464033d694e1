//! Answers the cases of a table, one a line, and prints each answer. It prints a line that begins with `#` as it is.
//! `cases` says what a case may say.
#![tactic(auto)]

mod cases;

use cases::Table;
use std::io;

/// Prints the answers to the lines of a table.
pub fn run(rt: &HostRuntime, lines: &str) -> io::Result<()> {
    let mut table = Table::new(rt.alloc());
    for line in lines.lines() {
        print_answer(rt, &mut table, line)?;
    }
    Ok(())
}

fn print_answer(rt: &HostRuntime, table: &mut Table, line: &str) -> io::Result<()> {
    if line.starts_with('#') {
        return println!(rt; "{line}");
    }
    if line.is_empty() {
        return Ok(());
    }
    let answer = table.answer(rt.alloc(), line)?;
    print!(rt; "{answer}")
}

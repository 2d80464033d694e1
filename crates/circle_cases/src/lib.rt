//! Answers the cases of a table, one a line, and prints each answer. A case is a command to judge (`judged`), a
//! question to a small directory in memory (`asked`), or a text, a refusal or a code to show (`parts`). `told` says in
//! which words. It prints a line that begins with `#` as it is, and skips an empty one.
#![tactic(auto)]

mod asked;
mod commands;
mod judged;
mod parts;
mod told;
mod world;
mod written;

use std::alloc::{AllocError, Global};
use std::io;
use trying::print_answers;

/// Prints the answers to a table.
pub fn run(rt: &HostRuntime, table: &str) -> io::Result<()> {
    let alloc = rt.alloc();
    print_answers(rt, table, |line| answer(alloc, line))
}

fn answer(alloc: Global, line: &str) -> Result<String, AllocError> {
    if let Some(question) = line.strip_prefix("ask|") {
        return asked::answer(alloc, question);
    }
    match parts::answer(alloc, line)? {
        Some(answer) => Ok(answer),
        None => judged::answer(alloc, line),
    }
}

//! From a line of the table to its answer.

use crate::{bodies, outlines, pointers};
use std::alloc::{AllocError, Global};
use trying::written_out;

/// Returns the words before the first space, and the words behind it.
pub fn parts(line: &str) -> (&str, &str) {
    match line.split_once(' ') {
        Some(parts) => parts,
        None => (line, ""),
    }
}

fn answered(alloc: Global, line: &str) -> Result<String, AllocError> {
    let (verb, about) = parts(line);
    match verb {
        "read" => bodies::read(alloc, about.as_bytes()),
        "bytes" => bodies::read_digits(alloc, about),
        "outlines" | "texts" | "values" | "ids" | "classes" => bodies::each(alloc, verb, about),
        "at" => bodies::at(alloc, about),
        "outline" | "made" | "id" => outlines::answer(alloc, verb, about),
        "pointer" => pointers::pointer(alloc, about),
        "print" => pointers::print(alloc, about),
        "prefix" => pointers::prefix(alloc, about),
        _ => String::from_str(alloc, "no such verb"),
    }
}

/// Returns the answer of a case.
pub fn answer(alloc: Global, line: &str) -> Result<String, AllocError> {
    let line = written_out(alloc, line)?;
    answered(alloc, line.as_str())
}

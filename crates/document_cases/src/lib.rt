//! Answers the cases of a table, one a line, and prints each answer. It prints a line that begins with `#` as it is, and
//! skips an empty one.
//!
//! A case is a verb and what it is about. `<3*0,>` means `0,0,0,` in it. Pointers are written as JSON strings. An
//! outline is its lines with a semicolon between them, each as DEPTH NAME KIND TEXT. The name of an element has `[]`
//! behind it. The kind is `class`, `text` (in quotes, as JSON) or `value` (compact JSON).
//!
//! - `read BODY`: how many documents it gives, or the fault with its pointer and the member that is missing.
//! - `bytes DIGITS`: the same of bytes, each written as two hexadecimal digits.
//! - `outlines BODY`, `texts BODY`, `values BODY`, `ids BODY`, `classes BODY`: what each document of it is, with a bar
//!   between them. `texts` makes each document again from its outline, and its text must be the same.
//! - `at ["POINTER",BODY]`: the names of the members of the class there, or `none`.
//! - `outline LINES`: whether they are one; `made LINES`: the text of the document with these lines; `id LINES`: its
//!   IncidentID.
//! - `pointer "TEXT"`: the tokens of the path, which must print as the text; `print ["TOKEN",..]`: the pointer
//!   of these; `prefix ["TEXT","TEXT"]`: whether the first path is a prefix of the second.
#![tactic(auto)]

mod bodies;
mod outlines;
mod pointers;
mod table;

use std::io;
use trying::print_answers;

/// Prints the answers to a table.
pub fn run(rt: &HostRuntime, table: &str) -> io::Result<()> {
    let alloc = rt.alloc();
    print_answers(rt, table, |line| table::answer(alloc, line))
}

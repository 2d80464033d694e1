//! Labels, markings, verdicts and excerpts, by the cases of a table, one a line; each answer is a line. A line that
//! begins with `#` is printed as it is. `cases` says what a case may say.
#![tactic(auto)]

mod alone;
mod cases;
mod labels;
mod line;
mod probing;
mod rows;
mod served;
mod sketching;
mod verdicts;

use std::alloc::{AllocError, Global};
use std::io;
use trying::print_answers;
use trying_policy::Report;

/// Prints the answers to a table.
pub fn run(rt: &HostRuntime, table: &str) -> io::Result<()> {
    let alloc = rt.alloc();
    let mut report = Report::new();
    print_answers(rt, table, |line| answer(&mut report, alloc, line))
}

/// Returns the answer of a line, or why there is none.
fn answer(report: &mut Report, alloc: Global, line: &str) -> Result<String, AllocError> {
    match cases::answer(report, alloc, line) {
        Ok(answer) => Ok(answer),
        Err(unfit) => String::from_str(alloc, unfit.name()),
    }
}

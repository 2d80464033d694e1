//! The traces of the cases of a table, one a line; each answer is the lines of the trace, or a word. A line that begins
//! with `#` is printed as it is. `cases` says what a case may say.
#![tactic(auto)]

mod cases;

use cases::answer;
use std::io;
use trying_policy::Report;

/// Prints the answers to a table.
pub fn run(rt: &HostRuntime, table: &str) -> io::Result<()> {
    let mut report = Report::new();
    for line in table.lines() {
        if line.starts_with('#') {
            println!(rt; "{line}")?;
        } else if !line.is_empty() {
            print_answer(rt, &mut report, line)?;
        }
    }
    Ok(())
}

/// Prints the lines of the answer, or why there is none.
fn print_answer(rt: &HostRuntime, report: &mut Report, line: &str) -> io::Result<()> {
    match answer(report, rt.alloc(), line) {
        Ok(answer) => print!(rt; "{answer}"),
        Err(unfit) => {
            let name = unfit.name();
            println!(rt; "{name}")
        }
    }
}

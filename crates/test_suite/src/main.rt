//! `test_suite [HEADING]`: runs the tables of cases and the comparisons that standard input names. One program runs them
//! all, as each takes the gate minutes.
//!
//! Standard input has a section for each, with an empty line between two. A section begins with its heading,
//! `== NAME WORDS`, and the table follows. NAME is the crate that runs it. WORDS is how much a comparison compares, or
//! which growths `growth_cases` refuses. Each heading is printed as it is, and then what its crate prints.
//!
//! With a HEADING, as in `test_suite 'hub_compare 1000'`, only the section of its NAME is run, with its WORDS. With a NAME
//! alone, the section's own words are taken.
//!
//! The status is 1 if a comparison finds something wrong, or a heading names nothing.
#![tactic(auto)]

mod sections;

use std::io::Read;
use std::process::ExitCode;
use std::{env, io};

fn main(rt: HostRuntime) -> io::Result<ExitCode> {
    let alloc = rt.alloc();
    let words: Vec<String> = env::args(&rt)?.skip(1).collect(alloc)?;
    let mut text = String::new(alloc);
    rt.reader().read_to_string(&mut text)?;
    let asked = words.first().map(|word| word.as_str());
    let is_right = sections::run_all(&rt, asked, text.as_str())?;
    Ok(ExitCode::from(u8::from(!is_right)))
}

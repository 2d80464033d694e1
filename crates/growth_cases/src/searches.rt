//! A search that is fed the lines of a report one at a time.

use crate::documents::met;
use crate::heap::arm;
use crate::readers::asker_of;
use crate::sweep::{Met, Trial};
use iodef_tree::{Line, OutlineFault};
use redact::{Probe, Want};
use std::alloc::{AllocError, Global};
use trying_hub::Fields;
use trying_policy::{Asker, Report, Unfit, said};

/// A report, the reader for whom its lines are searched, and the want, in words.
#[derive(Clone, Copy)]
pub struct Seeking<'a> {
    pub report: &'a Report,
    pub words: &'a str,
}

/// The answers of a search to the lines so far.
#[derive(Clone, Copy)]
enum Fed {
    Unsure,
    /// The search was sure at the line of this number, and from then on.
    Sure(usize),
    /// Memory was wanting, and the search returned that from then on.
    Lacking,
    /// An answer that must not be.
    Wrong(&'static str),
}

impl Fed {
    /// Returns the state after one more line, the one of this number.
    fn with(self, number: usize, answer: Result<bool, OutlineFault>) -> Fed {
        match (self, answer) {
            (Fed::Wrong(words), _) => Fed::Wrong(words),
            (Fed::Lacking, Err(OutlineFault::NoMemory)) => Fed::Lacking,
            (Fed::Lacking, _) => Fed::Wrong("a line was taken behind want of memory"),
            (_, Err(OutlineFault::NoMemory)) => Fed::Lacking,
            (_, Err(OutlineFault::BadOutline)) => Fed::Wrong("a line was refused"),
            (Fed::Sure(_), Ok(false)) => Fed::Wrong("unsure behind a line that was sure"),
            (Fed::Sure(first), Ok(true)) => Fed::Sure(first),
            (Fed::Unsure, Ok(true)) => Fed::Sure(number),
            (Fed::Unsure, Ok(false)) => Fed::Unsure,
        }
    }
}

fn feed_all(probe: &mut Probe, lines: Vec<Line>) -> Fed {
    let mut fed = Fed::Unsure;
    for (i, line) in lines.into_iter().enumerate() {
        fed = fed.with(i.saturating_add(1), probe.feed(line));
    }
    fed
}

/// Returns what the search gives at the end.
fn finish(probe: Probe) -> Result<&'static str, Unfit> {
    match probe.finish() {
        Ok(true) => Ok("met"),
        Ok(false) => Ok("not met"),
        Err(OutlineFault::BadOutline) => Ok("BadOutline"),
        Err(OutlineFault::NoMemory) => Err(Unfit::NoMemory),
    }
}

/// Returns at which of these lines a search is sure, and its end. If a line was refused for want of memory, the end
/// must be too.
fn sought(alloc: Global, mut probe: Probe, lines: Vec<Line>) -> Result<String, Unfit> {
    let fed = feed_all(&mut probe, lines);
    match (fed, finish(probe)) {
        (Fed::Wrong(words), _) => said(alloc, words),
        (Fed::Lacking, Ok(_)) => said(alloc, "an end behind want of memory"),
        (_, Err(unfit)) => Err(unfit),
        (Fed::Sure(number), Ok(end)) => Ok(format!(in alloc; "sure at line {number}, {end}")?),
        (Fed::Unsure, Ok(end)) => Ok(format!(in alloc; "never sure, {end}")?),
    }
}

/// Returns the text, or none if it is empty.
fn text_of(alloc: Global, word: &str) -> Result<Option<String>, AllocError> {
    if word.is_empty() {
        return Ok(None);
    }
    Ok(Some(String::from_str(alloc, word)?))
}

impl Seeking<'_> {
    /// Returns the reader for whom the lines are searched, the want, and the lines.
    fn fresh(&self, alloc: Global) -> Result<(Asker, Want, Vec<Line>), Unfit> {
        let mut fields = Fields::new(self.words);
        let asker = asker_of(alloc, &mut fields)?;
        let needle = text_of(alloc, fields.word())?;
        let class = text_of(alloc, fields.word())?;
        let lines = self.report.document()?.outline(alloc)?;
        Ok((asker, Want { needle, class }, lines))
    }
}

fn feed_search(alloc: Global, asker: Asker, want: Want, lines: Vec<Line>) -> Result<String, Unfit> {
    let Asker { standing, case } = asker;
    let probe = Probe::new(alloc, case, standing, want)?;
    sought(alloc, probe, lines)
}

impl Trial for Seeking<'_> {
    fn run(&self, alloc: Global, n: u32) -> Result<Met, AllocError> {
        match self.fresh(alloc) {
            Ok((asker, want, lines)) => {
                arm(alloc, n);
                let answer = feed_search(alloc, asker, want, lines);
                met(alloc, answer)
            }
            Err(unfit) => met(alloc, Err(unfit)),
        }
    }
}

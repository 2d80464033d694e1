//! A pass that is fed the lines of a report one at a time.

use crate::documents::met;
use crate::heap::arm;
use crate::readers::{asker_of, show};
use crate::sweep::{Met, Trial};
use iodef_tree::{Line, OutlineFault};
use redact::RowPass;
use std::alloc::{AllocError, Global};
use trying_hub::Fields;
use trying_policy::{Asker, Report, Unfit, said};

/// A report, and the reader for whom its lines are fed, in words.
#[derive(Clone, Copy)]
pub struct Feeding<'a> {
    pub report: &'a Report,
    pub reader: &'a str,
}

/// Feeds the lines. Returns whether no line was taken after a want of memory. Fails with `NoMemory` if memory was
/// wanting.
fn feed_all(pass: &mut RowPass, lines: Vec<Line>) -> Result<bool, OutlineFault> {
    let mut lacks = false;
    for line in lines {
        match pass.feed(line) {
            Ok(()) if lacks => return Ok(false),
            Ok(()) => {}
            Err(OutlineFault::NoMemory) => lacks = true,
            Err(OutlineFault::BadOutline) => return Err(OutlineFault::BadOutline),
        }
    }
    if lacks {
        return Err(OutlineFault::NoMemory);
    }
    Ok(true)
}

/// Returns what the pass gives at the end.
fn finish(alloc: Global, pass: RowPass) -> Result<String, Unfit> {
    match pass.finish() {
        Ok(Some(excerpt)) => show(alloc, &excerpt),
        Ok(None) => said(alloc, "none"),
        Err(OutlineFault::BadOutline) => said(alloc, "BadOutline"),
        Err(OutlineFault::NoMemory) => Err(Unfit::NoMemory),
    }
}

/// Returns what a reader is served by these lines. If a line was refused for want of memory, the end must be too.
fn feed_lines(alloc: Global, asker: Asker, lines: Vec<Line>) -> Result<String, Unfit> {
    let Asker { standing, case } = asker;
    let mut pass = RowPass::new(alloc, case, standing)?;
    match feed_all(&mut pass, lines) {
        Ok(true) => finish(alloc, pass),
        Ok(false) => said(alloc, "a line was taken behind want of memory"),
        Err(OutlineFault::BadOutline) => said(alloc, "a line was refused"),
        Err(OutlineFault::NoMemory) => match pass.finish() {
            Err(OutlineFault::NoMemory) => Err(Unfit::NoMemory),
            _ => said(alloc, "an end behind want of memory"),
        },
    }
}

impl Feeding<'_> {
    /// Returns the reader for whom the lines are fed, and the lines.
    fn fresh(&self, alloc: Global) -> Result<(Asker, Vec<Line>), Unfit> {
        let asker = asker_of(alloc, &mut Fields::new(self.reader))?;
        let lines = self.report.document()?.outline(alloc)?;
        Ok((asker, lines))
    }
}

impl Trial for Feeding<'_> {
    fn run(&self, alloc: Global, n: u32) -> Result<Met, AllocError> {
        match self.fresh(alloc) {
            Ok((asker, lines)) => {
                arm(alloc, n);
                let answer = feed_lines(alloc, asker, lines);
                met(alloc, answer)
            }
            Err(unfit) => met(alloc, Err(unfit)),
        }
    }
}

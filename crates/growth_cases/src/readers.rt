//! Questions about a report for a reader.

ghost use Rattle.std.specs.Prelude.{◌≡◌, None};
ghost use Rattle.iodef_tree.specs.Paths.{located};
ghost use Rattle.marking.specs.Marks.{first_bad_marking};

use crate::documents::met;
use crate::heap::arm;
use crate::sweep::{Met, Trial};
use explain::{ExplainFault, explain};
use iodef_tree::{Document, Path};
use redact::{Excerpt, excerpt, finds, is_listed};
use std::alloc::{AllocError, Global};
use trying_hub::Fields;
use trying_policy::{Asker, Report, Unfit, said, served_text};

/// Reads the next three words: the reader, the gates and the permissions.
pub fn asker_of(alloc: Global, fields: &mut Fields<'_>) -> Result<Asker, Unfit> {
    Asker::of(alloc, fields.word(), fields.word(), fields.word())
}

/// The question that a line asks about a report.
#[derive(Drop)]
pub struct Asking<'a> {
    pub report: &'a Report,
    pub asker: Asker,
    /// `excerpt`, `listed`, `find` or `explain`.
    pub kind: &'a str,
    /// The needle, or the pointer of a class.
    pub word: &'a str,
    /// The name of the classes that are searched; empty for all.
    pub class: &'a str,
}

/// Returns how many classes are visible, the document, and each withheld pair.
pub fn show(alloc: Global, excerpt: &Excerpt) -> Result<String, Unfit> {
    Ok(served_text(alloc, excerpt.classes, &excerpt.document, &excerpt.withheld)?)
}

fn serve(alloc: Global, document: &Document, asker: &Asker) -> Result<String, Unfit>
    requires { first_bad_marking (located document.now) ≡ None }
{
    match excerpt(alloc, document, &asker.case, &asker.standing)? {
        Some(excerpt) => show(alloc, &excerpt),
        None => said(alloc, "none"),
    }
}

fn tell_why(
    alloc: Global,
    document: &Document,
    asker: &Asker,
    pointer: &str,
) -> Result<String, Unfit>
    requires { first_bad_marking (located document.now) ≡ None }
{
    let path = Path::parse(alloc, pointer)?;
    match explain(alloc, document, &asker.case, &asker.standing, &path) {
        Ok(trace) => Ok(trace.text(alloc)?),
        Err(ExplainFault::NoClass) => Err(Unfit::NoClass),
        Err(ExplainFault::NoMemory) => Err(Unfit::NoMemory),
    }
}

fn truth(alloc: Global, holds: bool) -> Result<String, Unfit> {
    said(alloc, if holds { "yes" } else { "no" })
}

impl Asking<'_> {
    fn finds(&self, alloc: Global, document: &Document) -> Result<bool, AllocError> {
        let Asker { case, standing } = &self.asker;
        let class = if self.class.is_empty() {
            None
        } else {
            Some(self.class)
        };
        finds(alloc, document, case, standing, self.word, class)
    }

    fn answer(&self, alloc: Global) -> Result<String, Unfit> {
        let document = self.report.document()?;
        let Asker { case, standing } = &self.asker;
        match self.kind {
            "excerpt" => serve(alloc, document, &self.asker),
            "listed" => truth(alloc, is_listed(alloc, document, case, standing)?),
            "find" => truth(alloc, self.finds(alloc, document)?),
            _ => tell_why(alloc, document, &self.asker, self.word),
        }
    }
}

impl Trial for Asking<'_> {
    fn run(&self, alloc: Global, n: u32) -> Result<Met, AllocError> {
        arm(alloc, n);
        let answer = self.answer(alloc);
        met(alloc, answer)
    }
}

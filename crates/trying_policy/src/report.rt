//! The report that the lines of a table ask about.

ghost use Rattle.std.specs.Prelude.{◌≡◌, None, IfOk};
ghost use Rattle.iodef_tree.specs.Paths.{located};
ghost use Rattle.marking.specs.Marks.{first_bad_marking};

use crate::unfit::{Unfit, said};
use iodef_tree::Document;
use marking::{MarkingFault, check};
use std::alloc::Global;

/// A document whose markings were accepted.
#[derive(Drop)]
struct Accepted {
    document: Document,
    ghost accepted: { first_bad_marking (located document) ≡ None },
}

/// The last report that was read, if its markings were accepted.
#[derive(Drop)]
pub struct Report {
    last: Option<Accepted>,
}

impl Report {
    /// Makes a report that isn't read yet.
    pub fn new() -> Report {
        Report { last: None }
    }

    /// Reads a body. Returns that it was accepted, that it wasn't read, or which marking isn't accepted.
    pub fn read(&mut self, alloc: Global, body: &str) -> Result<String, Unfit> {
        self.last = None;
        let Ok(mut documents) = Document::read(alloc, body.as_bytes()) else {
            return said(alloc, "not read");
        };
        let document = documents.pop().ok_or(Unfit::NoCase)?;
        match check(alloc, &document) {
            Ok(()) => {
                self.last = Some(Accepted { document });
                said(alloc, "accepted")
            }
            Err(MarkingFault::BadMarking(path)) => {
                let pointer = path.print(alloc)?;
                Ok(format!(in alloc; "BadMarking {pointer}")?)
            }
            Err(MarkingFault::NoMemory) => Err(Unfit::NoMemory),
        }
    }

    /// Returns the document of the last line with one. Fails with `NoCase` if none was accepted.
    pub fn document(&self) -> Result<&Document, Unfit>
        ensures { IfOk result (λ document. first_bad_marking (located document.now) ≡ None) }
    {
        match &self.last {
            Some(accepted) => Ok(&accepted.document),
            None => Err(Unfit::NoCase),
        }
    }
}

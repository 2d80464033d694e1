//! Documents that are read, and documents that are made of their lines.

use crate::heap::{arm, disarm};
use crate::sweep::{Met, Trial};
use iodef_tree::{Document, Line, OutlineFault, ReadFault};
use std::alloc::{AllocError, Global};
use trying_policy::Unfit;

/// Returns the outcome of a run whose call gave this answer. Disarms the heap.
pub fn met(alloc: Global, answer: Result<String, Unfit>) -> Result<Met, AllocError> {
    let refused = disarm(alloc);
    let told = match answer {
        Ok(answer) => Some(answer),
        Err(Unfit::NoMemory) => None,
        Err(unfit) => Some(String::from_str(alloc, unfit.name())?),
    };
    Ok(Met { refused, told })
}

/// A body that is read.
#[derive(Clone, Copy)]
pub struct Reading<'a> {
    pub body: &'a str,
}

/// Returns the texts of the documents, with a bar between them.
fn texts(alloc: Global, documents: &[Document]) -> Result<String, Unfit> {
    let mut all = String::new(alloc);
    for document in documents {
        if !all.is_empty() {
            all.push_str(" | ")?;
        }
        all.push_str(document.text(alloc)?.as_str())?;
    }
    Ok(all)
}

fn read(alloc: Global, body: &str) -> Result<String, Unfit> {
    match Document::read(alloc, body.as_bytes()) {
        Ok(documents) => texts(alloc, &documents),
        Err(ReadFault::NoMemory) => Err(Unfit::NoMemory),
        Err(fault) => Ok(String::from_str(alloc, fault.name())?),
    }
}

impl Trial for Reading<'_> {
    fn run(&self, alloc: Global, n: u32) -> Result<Met, AllocError> {
        arm(alloc, n);
        let answer = read(alloc, self.body);
        met(alloc, answer)
    }
}

/// Lines of which a document is made.
#[derive(Drop)]
pub struct Making {
    pub lines: Vec<Line>,
}

impl Making {
    /// Takes the lines of the last document of a body.
    pub fn of(alloc: Global, body: &str) -> Result<Making, Unfit> {
        let Ok(mut documents) = Document::read(alloc, body.as_bytes()) else {
            return Err(Unfit::NoCase);
        };
        let document = documents.pop().ok_or(Unfit::NoCase)?;
        Ok(Making {
            lines: document.outline(alloc)?,
        })
    }
}

/// Returns the text of the document with these lines.
fn write_document(alloc: Global, lines: &[Line]) -> Result<String, Unfit> {
    match Document::from_outline(alloc, lines) {
        Ok(document) => Ok(document.text(alloc)?),
        Err(OutlineFault::NoMemory) => Err(Unfit::NoMemory),
        Err(OutlineFault::BadOutline) => Ok(String::from_str(alloc, "BadOutline")?),
    }
}

impl Trial for Making {
    fn run(&self, alloc: Global, n: u32) -> Result<Met, AllocError> {
        arm(alloc, n);
        let answer = write_document(alloc, &self.lines);
        met(alloc, answer)
    }
}

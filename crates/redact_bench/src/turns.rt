//! A report, redacted or searched again and again.

ghost use Rattle.std.specs.Prelude.{◌≡◌, None};
ghost use Rattle.iodef_tree.specs.Paths.{located};
ghost use Rattle.marking.specs.Marks.{first_bad_marking};

use crate::asked::{Asked, Call};
use crate::case::{READER, case_of};
use iodef_tree::{Document, Path, PathFault, ReadFault};
use marking::{MarkingFault, check};
use policy::{Case, Standing};
use redact::{excerpt, finds};
use std::alloc::{AllocError, Global};

/// The answer of the last call (the excerpt's text if it is asked for, visible classes or hits, withheld pairs), and
/// the bytes of all texts.
#[derive(Drop)]
pub struct Answered {
    pub text: String,
    pub bytes: u64,
    pub classes: u32,
    pub withheld: usize,
}

fn nothing(alloc: Global) -> Answered {
    Answered {
        text: String::new(alloc),
        bytes: 0,
        classes: 0,
        withheld: 0,
    }
}

fn serve(
    alloc: Global,
    document: &Document,
    case: &Case,
    reader: &Standing,
    call: Call,
) -> Result<Answered, AllocError>
    requires { first_bad_marking (located document.now) ≡ None }
{
    let Some(excerpt) = excerpt(alloc, document, case, reader)? else {
        return Ok(nothing(alloc));
    };
    let text = match call {
        Call::Text => excerpt.document.text(alloc)?,
        _ => String::new(alloc),
    };
    Ok(Answered {
        text,
        bytes: 0,
        classes: excerpt.classes,
        withheld: excerpt.withheld.len(),
    })
}

fn answer(
    alloc: Global,
    document: &Document,
    case: &Case,
    reader: &Standing,
    call: Call,
) -> Result<Answered, AllocError>
    requires { first_bad_marking (located document.now) ≡ None }
{
    if call == Call::Finds {
        let found = finds(alloc, document, case, reader, "nowhere", None)?;
        let mut answered = nothing(alloc);
        answered.classes = u32::from(found);
        return Ok(answered);
    }
    serve(alloc, document, case, reader, call)
}

fn in_turns(
    alloc: Global,
    document: &Document,
    array: &Path,
    asked: Asked,
) -> Result<Answered, AllocError>
    requires { first_bad_marking (located document.now) ≡ None }
{
    let case = case_of(alloc, array, asked)?;
    // Nothing else holds of the reader, so it is cleared only for CLEAR.
    let mut reader = Standing::stranger(alloc, READER, READER);
    reader.source = asked.call == Call::Source;
    let mut last = nothing(alloc);
    for _ in 0..asked.turns {
        let bytes = last.bytes;
        last = answer(alloc, document, &case, &reader, asked.call)?;
        last.bytes = bytes.saturating_add(last.text.len() as u64);
    }
    Ok(last)
}

/// Returns the answer for a document whose markings are accepted.
fn of_accepted(
    alloc: Global,
    document: &Document,
    array: &Path,
    asked: Asked,
) -> Result<Option<Answered>, AllocError> {
    match check(alloc, document) {
        Ok(()) => Ok(Some(in_turns(alloc, document, array, asked)?)),
        Err(MarkingFault::BadMarking(_)) => Ok(None),
        Err(MarkingFault::NoMemory) => Err(AllocError),
    }
}

/// Returns the last Incident of the report, or `None` if it isn't read.
fn document_of(alloc: Global, report: &[u8]) -> Result<Option<Document>, AllocError> {
    match Document::read(alloc, report) {
        Ok(mut documents) => Ok(documents.pop()),
        Err(ReadFault::NoMemory) => Err(AllocError),
        Err(_) => Ok(None),
    }
}

/// Returns the path of the pointer, or `None` if it is none.
fn array_of(alloc: Global, pointer: &[u8]) -> Result<Option<Path>, AllocError> {
    match Path::parse(alloc, std::str::from_utf8(pointer).unwrap_or("?")) {
        Ok(path) => Ok(Some(path)),
        Err(PathFault::BadPath) => Ok(None),
        Err(PathFault::NoMemory) => Err(AllocError),
    }
}

fn of_parts(
    alloc: Global,
    report: &[u8],
    pointer: &[u8],
    asked: Asked,
) -> Result<Option<Answered>, AllocError> {
    match (document_of(alloc, report)?, array_of(alloc, pointer)?) {
        (Some(document), Some(array)) => of_accepted(alloc, &document, &array, asked),
        _ => Ok(None),
    }
}

/// Returns the answer after so many turns, or `None` if the report isn't accepted or the second line is no pointer.
pub fn answer_in_turns(
    alloc: Global,
    input: &[u8],
    asked: Asked,
) -> Result<Option<Answered>, AllocError> {
    if asked.call == Call::Text {
        return of_parts(alloc, input, b"", asked);
    }
    let mut lines = input.split(|byte| *byte == b'\n');
    let report = lines.next().unwrap_or(b"");
    let pointer = lines.next().unwrap_or(b"");
    of_parts(alloc, report, pointer, asked)
}

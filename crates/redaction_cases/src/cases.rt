//! A case: a verb and what it is about, with a space between two parts. The last part is the rest of the line. `%` and
//! two hexadecimal digits in it mean a byte.
//!
//! - `report BYTES`: the report of the cases behind it; nothing is answered.
//! - `excerpt VIEW`, `document VIEW`: what is answered, and a newline.
//! - `excerpts VIEW VIEW ..`: the answer of `excerpt` to each view, a line each.
//! - `reads VIEW`: whether the document is a report again.
//! - `whole NAME ID VIEW`: the document as a report again, with this identifier; with none for `- -`.
//! - `fault VIEW`: the first fault, with its place; `faultd VIEW`: the same if the moment is wanted.
//! - `finds NEEDLE VIEW`, `finds NEEDLE@CLASS VIEW`: the same.
//! - `explain POINTER VIEW`, `marks PLACE`: the lines that are answered.
//! - `faults`: each fault's number, name and reason.
//!
//! A case without an answer prints the fault's number and name.

use percent_encoding::percent_decode;
use redaction::{Fault, Identifier};
use std::alloc::{AllocError, Global};

/// The report that the cases are about.
#[derive(Drop)]
pub struct Table {
    report: Vec<u8>,
}

/// All faults, in their order.
const FAULTS: [Fault; 25] = [
    Fault::NoMemory,
    Fault::ViewNotJson,
    Fault::DoubledMember,
    Fault::NotObject,
    Fault::UnknownMember,
    Fault::MissingMember,
    Fault::WrongKind,
    Fault::OutOfRange,
    Fault::BadPointer,
    Fault::BadMoment,
    Fault::SourceUnsaid,
    Fault::NotUtf8,
    Fault::NotJson,
    Fault::NotDocument,
    Fault::Missing,
    Fault::NotWhole,
    Fault::NestedClass,
    Fault::TooDeep,
    Fault::TooManyLines,
    Fault::BadMarking,
    Fault::NoIncident,
    Fault::NoClass,
    Fault::NothingVisible,
    Fault::NotReadable,
    Fault::IdMissing,
];

/// Returns the bytes of a part.
fn bytes_of(alloc: Global, part: &str) -> Result<Vec<u8>, AllocError> {
    let mut bytes = Vec::new(alloc);
    percent_decode(part.as_bytes()).append_to(&mut bytes)?;
    Ok(bytes)
}

/// Returns the text of an answer, or its fault's number and name.
fn told(alloc: Global, answer: Result<Vec<u8>, Fault>) -> Result<String, AllocError> {
    match answer {
        Ok(bytes) => {
            let text = String::from_utf8_lossy(alloc, &bytes)?;
            String::from_str(alloc, text.as_str())
        }
        Err(fault) => {
            let (number, name) = (fault.number(), fault.name());
            format!(in alloc; "{number} {name}")
        }
    }
}

/// Returns the answer on a line that ends.
fn line_of(alloc: Global, answer: Result<Vec<u8>, Fault>) -> Result<String, AllocError> {
    let mut text = told(alloc, answer)?;
    if !text.ends_with('\n') {
        text.push_str("\n")?;
    }
    Ok(text)
}

/// Returns each of the answers on a line that ends.
fn lines_of(alloc: Global, answers: Vec<Result<Vec<u8>, Fault>>) -> Result<Vec<u8>, AllocError> {
    let mut lines = String::new(alloc);
    for answer in answers {
        let line = line_of(alloc, answer)?;
        lines.push_str(line.as_str())?;
    }
    Ok(lines.into_bytes())
}

fn faults(alloc: Global) -> Result<String, AllocError> {
    let mut text = String::new(alloc);
    for fault in FAULTS {
        let (number, name, reason) = (fault.number(), fault.name(), fault.reason());
        let line = format!(in alloc; "{number} {name}: {reason}\n")?;
        text.push_str(line.as_str())?;
    }
    Ok(text)
}

impl Table {
    pub fn new(alloc: Global) -> Table {
        Table {
            report: Vec::new(alloc),
        }
    }

    /// Returns the answer to a case.
    pub fn answer(&mut self, alloc: Global, line: &str) -> Result<String, AllocError> {
        let (verb, rest) = line.split_once(' ').unwrap_or((line, ""));
        match verb {
            "report" => {
                self.report = bytes_of(alloc, rest)?;
                Ok(String::new(alloc))
            }
            "faults" => faults(alloc),
            _ => line_of(alloc, self.asked(alloc, verb, rest)?),
        }
    }

    /// Returns what the library answers.
    fn asked(
        &self,
        alloc: Global,
        verb: &str,
        rest: &str,
    ) -> Result<Result<Vec<u8>, Fault>, AllocError> {
        let report = self.report.as_slice();
        if verb == "marks" {
            let place = rest.parse::<u32>().unwrap_or(0);
            return Ok(redaction::marks(alloc, report, place));
        }
        if verb == "excerpt" || verb == "document" || verb == "reads" {
            return self.excerpt(alloc, verb, rest);
        }
        if verb == "excerpts" {
            return self.excerpts(alloc, rest);
        }
        if verb == "fault" || verb == "faultd" {
            let view = bytes_of(alloc, rest)?;
            return Ok(redaction::first_fault(alloc, verb == "faultd", report, &view));
        }
        let (word, view) = rest.split_once(' ').unwrap_or((rest, ""));
        if verb == "whole" {
            return self.whole(alloc, word, view);
        }
        let view = bytes_of(alloc, view)?;
        if verb == "explain" {
            let pointer = bytes_of(alloc, word)?;
            return Ok(redaction::explain(alloc, report, &view, &pointer));
        }
        self.finds(alloc, word, &view)
    }

    fn excerpt(
        &self,
        alloc: Global,
        verb: &str,
        view: &str,
    ) -> Result<Result<Vec<u8>, Fault>, AllocError> {
        let report = self.report.as_slice();
        let view = bytes_of(alloc, view)?;
        if verb == "excerpt" {
            return Ok(redaction::excerpt(alloc, report, &view));
        }
        match redaction::excerpt_document(alloc, report, &view) {
            Ok(document) if verb == "document" => Ok(Ok(document.text)),
            Ok(document) if document.readable => Ok(Ok(Vec::from_slice(alloc, b"true")?)),
            Ok(_) => Ok(Ok(Vec::from_slice(alloc, b"false")?)),
            Err(fault) => Ok(Err(fault)),
        }
    }

    fn excerpts(&self, alloc: Global, views: &str) -> Result<Result<Vec<u8>, Fault>, AllocError> {
        let mut given = Vec::new(alloc);
        for view in views.split_whitespace() {
            given.push(bytes_of(alloc, view)?)?;
        }
        let mut descriptions: Vec<&[u8]> = Vec::new(alloc);
        for view in &given {
            descriptions.push(view.as_slice())?;
        }
        match redaction::excerpts(alloc, self.report.as_slice(), &descriptions) {
            Ok(answers) => Ok(Ok(lines_of(alloc, answers)?)),
            Err(fault) => Ok(Err(fault)),
        }
    }

    fn whole(
        &self,
        alloc: Global,
        name: &str,
        rest: &str,
    ) -> Result<Result<Vec<u8>, Fault>, AllocError> {
        let report = self.report.as_slice();
        let (id, view) = rest.split_once(' ').unwrap_or((rest, ""));
        let view = bytes_of(alloc, view)?;
        if id == "-" {
            return Ok(redaction::excerpt_whole(alloc, report, &view, None));
        }
        let (name, id) = (bytes_of(alloc, name)?, bytes_of(alloc, id)?);
        let identifier = Identifier {
            name: name.as_slice(),
            id: id.as_slice(),
        };
        Ok(redaction::excerpt_whole(alloc, report, &view, Some(identifier)))
    }

    fn finds(
        &self,
        alloc: Global,
        word: &str,
        view: &[u8],
    ) -> Result<Result<Vec<u8>, Fault>, AllocError> {
        let report = self.report.as_slice();
        match word.split_once('@') {
            None => {
                let needle = bytes_of(alloc, word)?;
                Ok(redaction::finds(alloc, report, view, &needle, None))
            }
            Some((needle, class)) => {
                let needle = bytes_of(alloc, needle)?;
                let class = bytes_of(alloc, class)?;
                Ok(redaction::finds(alloc, report, view, &needle, Some(class.as_slice())))
            }
        }
    }
}

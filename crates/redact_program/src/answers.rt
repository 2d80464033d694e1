//! The answer for the words, the bytes of the view's file and the bytes of the report.
ghost use Rattle.std.specs.Prelude.{◌≡◌, ◌++◌, codes, IfOk, IfErr, OnOk, IsOk, Err, string_bytes, option_copied, option_map};
ghost use Rattle.redaction.specs.Outcome.{YieldsAs};
ghost use Rattle.redaction.specs.Whole.{identifier};
ghost use Rattle.redact_program.specs.Answers as spec;

use crate::status::Status;
use crate::words::{Asked, Form, IncidentId, Whom};
use redaction::{ExcerptDocument, Fault, Identifier};
use std::alloc::{AllocError, Global};

/// What else is said of an answer.
#[derive(Clone, Copy, Debug, PartialEq, Eq)]
pub enum Remark {
    /// Nothing.
    Nothing,
    /// Whether the document that is printed can be read as a report.
    Readable(bool),
    /// Whether the search found something.
    Found(bool),
}

/// What is printed, and what else is said of it.
#[derive(Drop)]
pub struct Answered {
    /// The bytes that are printed.
    pub text: Vec<u8>,
    /// What else is said.
    pub remark: Remark,
}

impl Remark {
    /// Returns how the program ends if it has printed the answer.
    pub fn status(self) -> Status
        ensures { result ≡ spec.remark_status self }
    {
        match self {
            Remark::Found(false) => Status::NotFound,
            Remark::Nothing | Remark::Readable(_) | Remark::Found(true) => Status::Done,
        }
    }
}

/// Appends the member for the moment, and ends the object.
fn push_moment(text: &mut String, moment: &str) -> Result<(), AllocError>
    ensures { OnOk result (string_bytes text.new ≡
        string_bytes text.old ++ codes ",\"now\":\"" ++ moment.now ++ codes "\"}") }
{
    text.push_str(",\"now\":\"")?;
    text.push_str(moment)?;
    text.push_str("\"}")?;
    Ok(())
}

/// Returns the beginning of the short form of a clearance.
fn open_form(alloc: Global, clearance: &str, place: u32) -> Result<String, AllocError>
    ensures { IfOk result (λ s. string_bytes s ≡ spec.open_form clearance.now place) }
{
    let mut text = String::from_str(alloc, "{\"clearance\":\"")?;
    text.push_str(clearance)?;
    text.push_str("\",\"incident\":")?;
    let mut buffer = itoa::Buffer::new();
    text.push_str(buffer.format(place))?;
    Ok(text)
}

/// Returns the short form of a clearance.
fn short_form(
    alloc: Global,
    clearance: &str,
    place: u32,
    moment: Option<&str>,
) -> Result<String, AllocError>
    ensures { IfOk result (λ s. string_bytes s ≡
        spec.short_form clearance.now place (option_copied moment.entry)) }
{
    let mut text = open_form(alloc, clearance, place)?;
    match moment {
        None => {
            text.push_str("}")?;
            Ok(text)
        }
        Some(moment) => {
            push_moment(&mut text, moment)?;
            Ok(text)
        }
    }
}

/// Returns the view description: the bytes of the view's file if the words name one, else the short form.
pub fn view_of(alloc: Global, whom: &Whom<'_>, file: &[u8]) -> Result<Vec<u8>, AllocError>
    ensures { IfOk result (λ v. v.items ≡ spec.view_told whom.now file.now) }
{
    match whom {
        Whom::Described(_) => Vec::from_slice(alloc, file),
        Whom::Cleared(cleared) => {
            let text = short_form(alloc, cleared.clearance, cleared.incident, cleared.moment)?;
            Ok(text.into_bytes())
        }
    }
}

fn bytes_of<'a>(name: Option<&'a str>) -> Option<&'a [u8]>
    ensures { option_copied result ≡ option_copied name.entry }
{
    match name {
        Some(name) => Some(name.as_bytes()),
        None => None,
    }
}

/// Returns an answer about which nothing else is said.
fn plain(answer: Result<Vec<u8>, Fault>) -> Result<Answered, Fault>
    ensures ok { IfOk answer (λ v. IfOk result (λ a. spec.answer_by a ≡ (v.items, Remark.Nothing))) }
    ensures some { IfOk answer (λ _. IsOk result) }
    ensures err { IfErr answer (λ e. result ≡ Err e) }
{
    match answer {
        Ok(text) => Ok(Answered {
            text,
            remark: Remark::Nothing,
        }),
        Err(fault) => Err(fault),
    }
}

/// Returns the identifier in bytes.
fn identifier_of<'a>(id: Option<IncidentId<'a>>) -> Option<Identifier<'a>>
    ensures { option_map identifier result ≡ option_map spec.id_told id.entry }
{
    match id {
        Some(id) => Some(Identifier {
            name: id.name.as_bytes(),
            id: id.id.as_bytes(),
        }),
        None => None,
    }
}

/// Returns the document of the excerpt, with whether it can be read as a report.
fn document(alloc: Global, report: &[u8], view: &[u8]) -> Result<Answered, Fault>
    ensures { YieldsAs spec.answer_by result (spec.document_told report.now view.now) }
{
    match redaction::excerpt_document(alloc, report, view) {
        Ok(ExcerptDocument { text, readable }) => Ok(Answered {
            text,
            remark: Remark::Readable(readable),
        }),
        Err(fault) => Err(fault),
    }
}

/// Returns what a reader may see, in one of its forms.
fn excerpt(alloc: Global, form: &Form<'_>, report: &[u8], view: &[u8]) -> Result<Answered, Fault>
    ensures { YieldsAs spec.answer_by result (spec.excerpt_told form.now report.now view.now) }
{
    match form {
        Form::Answer => plain(redaction::excerpt(alloc, report, view)),
        Form::Document => document(alloc, report, view),
        Form::Report(id) => plain(redaction::excerpt_whole(
            alloc,
            report,
            view,
            identifier_of(*id),
        )),
    }
}

/// Returns whether a reader finds a text.
fn finds(
    alloc: Global,
    report: &[u8],
    view: &[u8],
    needle: &str,
    class: Option<&str>,
) -> Result<Answered, Fault>
    ensures { YieldsAs spec.answer_by result
        (spec.finds_told report.now view.now needle.now (option_copied class.entry)) }
{
    match redaction::finds(alloc, report, view, needle.as_bytes(), bytes_of(class)) {
        Ok(text) => {
            let found = text.as_slice() == b"true".as_slice();
            Ok(Answered {
                text,
                remark: Remark::Found(found),
            })
        }
        Err(fault) => Err(fault),
    }
}

/// Returns what the words ask about the report, for the reader whom they name, or who is described by the bytes of the
/// view's file if they name one. Fails with the first fault in the order of [`Fault`].
pub fn answer(
    alloc: Global,
    asked: &Asked<'_>,
    file: &[u8],
    report: &[u8],
) -> Result<Answered, Fault>
    ensures { YieldsAs spec.answer_by result (spec.answer_told asked.now file.now report.now) }
{
    match asked {
        Asked::Excerpt { whom, form } => {
            let view = view_of(alloc, whom, file)?;
            excerpt(alloc, form, report, &view)
        }
        Asked::Explain { whom, pointer } => {
            let view = view_of(alloc, whom, file)?;
            plain(redaction::explain(alloc, report, &view, pointer.as_bytes()))
        }
        Asked::Finds {
            whom,
            needle,
            class,
        } => {
            let view = view_of(alloc, whom, file)?;
            finds(alloc, report, &view, needle, *class)
        }
        Asked::Marks { incident } => plain(redaction::marks(alloc, report, *incident)),
    }
}

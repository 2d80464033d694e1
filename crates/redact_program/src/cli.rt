//! The command line.
ghost use Rattle.std.specs.Prelude.{◌≡◌, ◌≢◌, ◌⊎◌, ℕ, List, [], IfOk, IfSome, None, map, string_bytes, ⊤};
ghost use Rattle.redaction.specs.declared.fault.Fault.TheVariants.{NoMemory};
ghost use Rattle.redact_program.specs.Answers.{answer_told, view_told};
ghost use Rattle.redact_program.specs.Outcomes as spec;
ghost use Rattle.redact_program.specs.Runs.{Answers, OpensAtMost, ReadsBehind, Runs};
ghost use Rattle.redact_program.specs.Streams.{Given, Logs, Reads, Tells, ok_by};
ghost use Rattle.redact_program.specs.Troubles.{report_read, trouble_of, trouble_text};

use crate::answers::{Answered, answer, view_of};
use crate::host::{Host, System};
use crate::input::{read_report, read_view_file};
use crate::output::{Located, end_with, tell};
use crate::status::Status;
use crate::trouble::Trouble;
use crate::words::{Asked, Cleared, Form, Whom, command_line, read_words, usage};
use clap::Error;
use clap::error::ErrorKind;
use input_hints::ByteOrderMark;
use redaction::Fault;
use std::alloc::{AllocError, Global};
use std::env::Args;
use std::io;
use std::io::{Read, Write};

/// Does what the words of the program's start say; the first is the program's name. Returns how the program ends. A word
/// that isn't UTF-8 is a usage error.
pub fn cli_start<R: Read, W: Write, E: Write>(
    rt: &HostRuntime,
    words: io::Result<Args>,
    reader: &mut R,
    writer: &mut W,
    errors: &mut E,
) -> Status
    ensures { (said : List (List ℕ)) × Runs (λ _ _. ⊤) said
        (R.remaining reader.old) (R.remaining reader.new)
        (W.contents writer.old) (W.contents writer.new)
        (E.contents errors.old) (E.contents errors.new) None None result }
{
    match words_behind(rt.alloc(), words) {
        Ok(words) => cli_run(rt, &words, reader, writer, errors),
        Err(error) => refuse_words(rt.alloc(), &error, errors),
    }
}

/// Returns the words behind the program's name.
fn words_behind(alloc: Global, words: io::Result<Args>) -> io::Result<Vec<String>> {
    Ok(words?.skip(1).collect(alloc)?)
}

/// Ends the program for words that can't be read.
fn refuse_words<E: Write>(alloc: Global, error: &io::Error, errors: &mut E) -> Status
    ensures { (result ≡ Status.Usage) ⊎ (result ≡ Status.Failed) }
{
    if error.kind() == io::ErrorKind::OutOfMemory {
        return no_memory(errors);
    }
    match usage(alloc, "a word isn't UTF-8") {
        Ok(error) => tell_usage(&error, errors),
        Err(_) => no_memory(errors),
    }
}

/// Ends the program for want of memory.
fn no_memory<E: Write>(errors: &mut E) -> Status
    ensures { result ≡ Status.Failed }
{
    tell(errors, Trouble::NoAnswer(Fault::NoMemory), b"")
}

/// Does what the words behind the program's name say, over the files of the operating system. Returns how the program
/// ends.
pub fn cli_run<R: Read, W: Write, E: Write>(
    rt: &HostRuntime,
    words: &[String],
    reader: &mut R,
    writer: &mut W,
    errors: &mut E,
) -> Status
    ensures { Runs (λ _ _. ⊤) (map string_bytes words.now)
        (R.remaining reader.old) (R.remaining reader.new)
        (W.contents writer.old) (W.contents writer.new)
        (E.contents errors.old) (E.contents errors.new) None None result }
{
    run_over(
        rt.alloc(),
        &mut System::new(rt),
        words,
        reader,
        writer,
        errors,
    )
}

/// Does what the words behind the program's name say, over the files of a host. Returns how the program ends: `Done` or
/// `NotFound` if the answer is printed on `writer`; else nothing is, and `errors` has why, or a write failed. A file that
/// the words name is read first, then `reader`.
pub fn run_over<H: Host, R: Read, W: Write, E: Write>(
    alloc: Global,
    host: &mut H,
    words: &[String],
    reader: &mut R,
    writer: &mut W,
    errors: &mut E,
) -> Status
    ensures { Runs (H.may_give host.old) (map string_bytes words.now)
        (R.remaining reader.old) (R.remaining reader.new)
        (W.contents writer.old) (W.contents writer.new)
        (E.contents errors.old) (E.contents errors.new)
        (H.opened host.old) (H.opened host.new) result }
{
    let Ok(line) = command_line(alloc, words) else {
        return no_memory(errors);
    };
    match read_words(alloc, line.as_slice()) {
        Ok(asked) => run(alloc, host, &asked, reader, writer, errors),
        Err(error) => tell_usage(&error, errors),
    }
}

/// Prints the usage, or the help, on standard error.
fn tell_usage<E: Write>(error: &Error, errors: &mut E) -> Status
    ensures { (result ≡ Status.Usage) ⊎ (result ≡ Status.Failed) }
{
    if error.kind() == ErrorKind::OutOfMemory {
        return no_memory(errors);
    }
    match write!(errors, "{error}") {
        Ok(()) => Status::Usage,
        Err(_) => Status::Failed,
    }
}

/// Answers what the words ask, and prints the answer.
fn run<H: Host, R: Read, W: Write, E: Write>(
    alloc: Global,
    host: &mut H,
    asked: &Asked<'_>,
    reader: &mut R,
    writer: &mut W,
    errors: &mut E,
) -> Status
    ensures answers { Answers (H.may_give host.old) asked.now
        (R.remaining reader.old) (R.remaining reader.new)
        (W.contents writer.old) (W.contents writer.new)
        (E.contents errors.old) (E.contents errors.new) result }
    ensures opens { OpensAtMost (spec.file_named asked.now) (H.opened host.old) (H.opened host.new) }
{
    let answer = answer_input(alloc, host, asked, reader);
    end_with(writer, errors, answer)
}

/// Returns the bytes of the view's file, or none if the words name no file.
fn read_view<H: Host>(alloc: Global, host: &mut H, asked: &Asked<'_>) -> Result<Vec<u8>, Trouble>
    ensures read { (file : Given) × IfSome (spec.file_named asked.now) (λ name. H.may_give host.old name file)
        × (ok_by (λ v. v.items) result ≡ spec.file_read (spec.file_named asked.now) file) }
    ensures opens { OpensAtMost (spec.file_named asked.now) (H.opened host.old) (H.opened host.new) }
{
    match asked.file() {
        Some(name) => read_view_file(alloc, host, name),
        None => Ok(Vec::new(alloc)),
    }
}

/// Returns the trouble without a place.
fn nowhere(alloc: Global, trouble: Trouble) -> Located
    ensures { (result.trouble ≡ trouble) × (result.place.items ≡ []) }
{
    Located {
        trouble,
        place: Vec::new(alloc),
    }
}

/// Returns the answer about the report on standard input. The view is read before the report.
fn answer_input<H: Host, R: Read>(
    alloc: Global,
    host: &mut H,
    asked: &Asked<'_>,
    reader: &mut R,
) -> Result<Answered, Located>
    ensures answers { (file : Given) × IfSome (spec.file_named asked.now) (λ name. H.may_give host.old name file)
        × (report : Given)
        × ReadsBehind (spec.file_read (spec.file_named asked.now) file) (R.remaining reader.old) (R.remaining reader.new) report
        × spec.Gives (spec.outcome_of asked.now file report) (spec.outcome_by result) }
    ensures opens { OpensAtMost (spec.file_named asked.now) (H.opened host.old) (H.opened host.new) }
{
    match read_view(alloc, host, asked) {
        Ok(view) => answer_about(alloc, asked, &view, reader),
        Err(trouble) => Err(nowhere(alloc, trouble)),
    }
}

/// Returns the answer for the bytes of the view's file about the report on standard input.
fn answer_about<R: Read>(
    alloc: Global,
    asked: &Asked<'_>,
    view: &[u8],
    reader: &mut R,
) -> Result<Answered, Located>
    ensures { (report : Given) × Reads (R.remaining reader.old) (R.remaining reader.new) report
        × spec.Gives (spec.outcome_about asked.now view.now (report_read report)) (spec.outcome_by result) }
{
    match read_report(alloc, reader) {
        Ok(report) => answer_to(alloc, asked, view, &report),
        Err(trouble) => Err(nowhere(alloc, trouble)),
    }
}

/// Returns the answer about a report, or its first fault as a trouble.
fn answer_to(
    alloc: Global,
    asked: &Asked<'_>,
    view: &[u8],
    report: &[u8],
) -> Result<Answered, Located>
    ensures { spec.Gives (spec.answer_or_trouble asked.now view.now report.now
        (answer_told asked.now view.now report.now)) (spec.outcome_by result) }
{
    match answer(alloc, asked, view, report) {
        Ok(answer) => Ok(answer),
        Err(Fault::NoMemory) => Err(nowhere(alloc, Trouble::NoAnswer(Fault::NoMemory))),
        Err(fault) => Err(located(alloc, fault, asked, view, report)),
    }
}

/// Returns why there is no answer, with its place.
fn located(alloc: Global, fault: Fault, asked: &Asked<'_>, view: &[u8], report: &[u8]) -> Located
    ensures { spec.Gives (spec.refused asked.now view.now report.now fault) (spec.located_by result) }
{
    let marks = (ByteOrderMark::of(view), ByteOrderMark::of(report));
    let trouble = trouble_for(fault, marks, asked.has_file_for_pointer());
    match place_of(alloc, fault, asked, view, report) {
        Ok(place) => Located { trouble, place },
        Err(_) => nowhere(alloc, trouble),
    }
}

/// Returns the reader whose view has the faults: for labels, which have no reader, a stranger to the Incident.
fn reader_of<'a>(asked: &Asked<'a>) -> Whom<'a>
    ensures { (file : List ℕ) → view_told result file ≡ spec.view_located asked.now file }
{
    match asked {
        Asked::Excerpt { whom, .. } | Asked::Explain { whom, .. } | Asked::Finds { whom, .. } =>
            *whom,
        Asked::Marks { incident } => Whom::Cleared(Cleared {
            clearance: "CLEAR",
            incident: *incident,
            moment: None,
        }),
    }
}

/// Whether the words want the moment of the view.
fn is_dated(asked: &Asked<'_>) -> bool
    ensures { result ≡ spec.is_dated asked.now }
{
    matches!(
        asked,
        Asked::Excerpt {
            form: Form::Report(_),
            ..
        }
    )
}

/// Returns the place in the text of the first fault, if that is this fault.
fn place_in(alloc: Global, fault: Fault, text: &[u8]) -> Result<Vec<u8>, AllocError>
    ensures { IfOk result (λ v. v.items ≡ spec.place_in fault text.now) }
{
    let number = fault.number();
    let begin = format!(in alloc; "{number} ")?;
    match text.strip_prefix(begin.as_bytes()) {
        Some(place) => Vec::from_slice(alloc, place),
        None => Ok(Vec::new(alloc)),
    }
}

/// Returns the JSON pointer of the place of a fault; an empty text if the fault has none.
fn place_of(
    alloc: Global,
    fault: Fault,
    asked: &Asked<'_>,
    file: &[u8],
    report: &[u8],
) -> Result<Vec<u8>, Fault>
    ensures { IfOk result (λ v. v.items ≡ spec.place_told asked.now file.now report.now fault) }
{
    let view = view_of(alloc, &reader_of(asked), file)?;
    let found = redaction::first_fault(alloc, is_dated(asked), report, &view)?;
    Ok(place_in(alloc, fault, &found)?)
}

/// Returns why there is no answer: the fault, or what a person is likely to have done that led to it.
fn trouble_for(
    fault: Fault,
    marks: (Option<ByteOrderMark>, Option<ByteOrderMark>),
    has_file_for_pointer: bool,
) -> Trouble
    ensures { result ≡ trouble_of fault marks.0 marks.1 has_file_for_pointer }
{
    match (fault, marks) {
        (Fault::ViewNotJson, (Some(mark), _)) => Trouble::MarkedView(mark),
        (Fault::NotJson, (_, Some(mark))) => Trouble::MarkedReport(mark),
        (Fault::BadPointer, _) if has_file_for_pointer => Trouble::FileForPointer,
        _ => Trouble::NoAnswer(fault),
    }
}

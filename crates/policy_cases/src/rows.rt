//! A pass that is fed lines one at a time.

use crate::served::show;
use iodef_tree::{Document, Kind, Line, OutlineFault, Text};
use redact::RowPass;
use std::alloc::Global;
use trying_policy::{Asker, Unfit, number_of, said};

/// Returns what the pass answers to one more line.
fn answer_of(pass: &mut RowPass, line: Line) -> Result<&'static str, Unfit> {
    match pass.feed(line) {
        Ok(()) => Ok("taken"),
        Err(OutlineFault::BadOutline) => Ok("BadOutline"),
        Err(OutlineFault::NoMemory) => Err(Unfit::NoMemory),
    }
}

/// Returns what the pass gives at the end.
fn finish_of(alloc: Global, pass: RowPass) -> Result<String, Unfit> {
    match pass.finish() {
        Ok(Some(excerpt)) => show(alloc, &excerpt),
        Ok(None) => said(alloc, "none"),
        Err(OutlineFault::BadOutline) => said(alloc, "BadOutline"),
        Err(OutlineFault::NoMemory) => Err(Unfit::NoMemory),
    }
}

/// Returns what the reader is served of a document, by its lines one after another.
pub fn served_by_lines(alloc: Global, document: &Document, asker: Asker) -> Result<String, Unfit> {
    let Asker { standing, case } = asker;
    let mut pass = RowPass::new(alloc, case, standing)?;
    for line in document.outline(alloc)? {
        answer_of(&mut pass, line)?;
    }
    finish_of(alloc, pass)
}

/// Returns the name, the kind and the text of a member by its word.
fn member_of(word: &str) -> (&str, Kind, &str) {
    if let Some((name, text)) = word.split_once('=') {
        return (name, Kind::Text, text);
    }
    match word.strip_suffix("{}") {
        Some(name) => (name, Kind::Class, ""),
        None => (word, Kind::Text, ""),
    }
}

/// Returns a line by its depth and its member, as `1:version`, with its text behind `=`. `{}` behind the name makes a
/// class, and `[]` an element of an array.
pub fn line_of(alloc: Global, word: &str) -> Result<Line, Unfit> {
    let (depth, member) = word.split_once(':').ok_or(Unfit::NoCase)?;
    let (name, kind, text) = member_of(member);
    let (name, in_array) = match name.strip_suffix("[]") {
        Some(name) => (name, true),
        None => (name, false),
    };
    Ok(Line {
        depth: number_of(depth)?,
        name: Text::new(String::from_str(alloc, name)?),
        in_array,
        kind,
        text: Text::new(String::from_str(alloc, text)?),
    })
}

/// Adds what the pass answers to one more line.
fn push_answer(
    alloc: Global,
    told: &mut String,
    pass: &mut RowPass,
    word: &str,
) -> Result<(), Unfit> {
    let answer = answer_of(pass, line_of(alloc, word)?)?;
    push_text(told, answer)
}

/// Adds an answer and a semicolon.
pub fn push_text(told: &mut String, answer: &str) -> Result<(), Unfit> {
    told.push_str(answer)?;
    Ok(told.push_str("; ")?)
}

/// Returns what the pass answers to each of these lines, which have spaces between them.
fn answers_of(alloc: Global, pass: &mut RowPass, words: &str) -> Result<String, Unfit> {
    let mut told = String::new(alloc);
    for word in words.split_whitespace() {
        push_answer(alloc, &mut told, pass, word)?;
    }
    Ok(told)
}

/// Returns the answers to the lines, and what is given at the end.
pub fn with_end(alloc: Global, answers: &str, end: &str) -> Result<String, Unfit> {
    Ok(format!(in alloc; "{answers}at the end {end}")?)
}

/// Returns what a pass answers to each of these lines, which have spaces between them, and at the end.
pub fn feed_words(alloc: Global, asker: Asker, words: &str) -> Result<String, Unfit> {
    let Asker { standing, case } = asker;
    let mut pass = RowPass::new(alloc, case, standing)?;
    // the pass ends before any fault is returned: each return beside it would prove its drop once more
    let answers = answers_of(alloc, &mut pass, words);
    let end = finish_of(alloc, pass);
    with_end(alloc, answers?.as_str(), end?.as_str())
}

//! A search that is fed lines one at a time.

use crate::rows::{line_of, push_text, with_end};
use iodef_tree::{Document, Line, OutlineFault};
use redact::{Probe, Want};
use std::alloc::{AllocError, Global};
use trying_policy::{Asker, Unfit};

/// Returns the text, or none if it is empty.
pub fn text_of(alloc: Global, word: &str) -> Result<Option<String>, AllocError> {
    if word.is_empty() {
        return Ok(None);
    }
    Ok(Some(String::from_str(alloc, word)?))
}

/// Returns a search by its want. The needle and the class are none if they are empty.
pub fn probe_of(
    alloc: Global,
    asker: Asker,
    needle: &str,
    class: Option<&str>,
) -> Result<Probe, Unfit> {
    let Asker { standing, case } = asker;
    let needle = text_of(alloc, needle)?;
    let class = text_of(alloc, class.unwrap_or(""))?;
    Ok(Probe::new(alloc, case, standing, Want { needle, class })?)
}

/// Returns what the search answers to one more line, or at the end.
fn answer_of(answer: Result<bool, OutlineFault>) -> Result<&'static str, Unfit> {
    match answer {
        Ok(true) => Ok("sure"),
        Ok(false) => Ok("unsure"),
        Err(OutlineFault::BadOutline) => Ok("BadOutline"),
        Err(OutlineFault::NoMemory) => Err(Unfit::NoMemory),
    }
}

/// Returns what the search answers at the end.
fn finish_of(probe: Probe) -> Result<&'static str, Unfit> {
    match answer_of(probe.finish())? {
        "sure" => Ok("met"),
        "unsure" => Ok("not met"),
        fault => Ok(fault),
    }
}

/// Returns the number of the first line at which the search is sure, with the first line as 1. Feeds all lines.
fn sure_at(probe: &mut Probe, lines: Vec<Line>) -> Result<Option<usize>, Unfit> {
    let mut sure = None;
    for (i, line) in lines.into_iter().enumerate() {
        let answer = answer_of(probe.feed(line))?;
        if answer == "sure" && sure.is_none() {
            sure = Some(i.saturating_add(1));
        }
    }
    Ok(sure)
}

/// Returns the number of the first line of a document at which the search is sure.
fn sure_in(alloc: Global, document: &Document, probe: &mut Probe) -> Result<Option<usize>, Unfit> {
    sure_at(probe, document.outline(alloc)?)
}

/// Returns the words for the line at which the search is sure, and for the end.
fn sure_text(alloc: Global, sure: Option<usize>, end: &str) -> Result<String, AllocError> {
    match sure {
        Some(number) => format!(in alloc; "sure at line {number}, {end}"),
        None => format!(in alloc; "never sure, {end}"),
    }
}

/// Returns at which line of a document the search is sure, and what it answers at the end.
pub fn probed(alloc: Global, document: &Document, mut probe: Probe) -> Result<String, Unfit> {
    let sure = sure_in(alloc, document, &mut probe);
    let end = finish_of(probe);
    Ok(sure_text(alloc, sure?, end?)?)
}

/// Adds what the search answers to one more line.
fn push_answer(
    alloc: Global,
    told: &mut String,
    probe: &mut Probe,
    word: &str,
) -> Result<(), Unfit> {
    let answer = answer_of(probe.feed(line_of(alloc, word)?))?;
    push_text(told, answer)
}

/// Returns what the search answers to each of these lines.
fn answers_of(alloc: Global, probe: &mut Probe, words: &str) -> Result<String, Unfit> {
    let mut told = String::new(alloc);
    for word in words.split_whitespace() {
        push_answer(alloc, &mut told, probe, word)?;
    }
    Ok(told)
}

/// Returns what the search answers to each of these lines, which have spaces between them, and at the end.
pub fn sought(alloc: Global, mut probe: Probe, words: &str) -> Result<String, Unfit> {
    let answers = answers_of(alloc, &mut probe, words);
    let end = finish_of(probe);
    with_end(alloc, answers?.as_str(), end?)
}

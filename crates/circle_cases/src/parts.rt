//! name|TEXT, releasability|TEXT, text|ONE|OTHER, between|ONE|OTHER, refusal|CODE|DETAIL, code|CODE.
use crate::told;
use crate::told::Row;
use crate::written::text_of;
use circle::directory::Connection;
use circle::name::Name;
use circle::refusal::{Code, Refusal};
use circle::releasability::Releasability;
use circle::text::Text;
use std::alloc::{AllocError, Global};
use trying::number_of;

const CODES: [Code; 14] = [
    Code::K1,
    Code::W1,
    Code::B1,
    Code::N1,
    Code::N2,
    Code::W2,
    Code::W3,
    Code::N3,
    Code::S1,
    Code::S2,
    Code::S3,
    Code::L1,
    Code::F1,
    Code::F2,
];

/// Returns `kept` if a name and its copy keep its text, else `changed` or `refused`.
fn name(alloc: Global, text: &str) -> Result<&'static str, AllocError> {
    match Name::of(alloc, text)? {
        Some(name) => {
            let copy = name.clone()?;
            let is_same = name == copy;
            let is_kept = name.as_str() == text;
            let given_back = copy.into_string();
            Ok(as_told(is_same && is_kept && given_back.as_str() == text))
        }
        None => Ok("refused"),
    }
}

fn releasability(alloc: Global, text: &str) -> Result<&'static str, AllocError> {
    match Releasability::of(alloc, text)? {
        Some(found) => {
            let copy = found.clone()?;
            let is_same = found == copy;
            let is_kept = found.as_str() == text;
            let given_back = copy.into_string();
            Ok(as_told(is_same && is_kept && given_back.as_str() == text))
        }
        None => Ok("refused"),
    }
}

fn as_told(is_kept: bool) -> &'static str {
    if is_kept { "kept" } else { "changed" }
}

/// Returns whether the text is its own copy, and both keep the text of which it was made.
fn keeps(text: &Text, copy: Text, made_of: &str) -> bool {
    let is_same = *text == copy;
    let given_back = copy.into_string();
    is_same && text.as_str() == made_of && given_back.as_str() == made_of
}

/// Returns the word for whether two texts are the same, and the first its own copy.
fn texts(alloc: Global, one: &str, other: &str) -> Result<&'static str, AllocError> {
    let text = Text::of(alloc, one)?;
    let is_kept = keeps(&text, text.clone()?, one);
    let is_same = text == Text::of(alloc, other)?;
    Ok(compared(is_kept, is_same))
}

fn compared(is_kept: bool, is_same: bool) -> &'static str {
    match (is_kept, is_same) {
        (false, _) => "changed",
        (true, true) => "the same",
        (true, false) => "different",
    }
}

fn code_of(word: &str) -> Option<Code> {
    for code in CODES {
        if code.name() == word {
            return Some(code);
        }
    }
    None
}

fn refusal(alloc: Global, word: &str, detail: &str) -> Result<String, AllocError> {
    let Some(code) = code_of(word) else {
        return String::from_str(alloc, "no code");
    };
    let refusal = if detail.is_empty() {
        Refusal::bare(alloc, code)
    } else {
        Refusal::new(alloc, code, detail)
    };
    told::refusal(alloc, &refusal)
}

fn code(alloc: Global, word: &str) -> Result<String, AllocError> {
    match code_of(word) {
        Some(code) => {
            let name = code.name();
            let status = code.status();
            let reason = code.reason();
            format!(in alloc; "{name} {status} {reason}")
        }
        None => String::from_str(alloc, "no code"),
    }
}

fn between(alloc: Global, one: &str, other: &str) -> Result<String, AllocError> {
    Connection::between(number_of(one), number_of(other)).words(alloc)
}

/// Returns the word for whether the texts are kept or are the same; none for another kind.
fn word(
    alloc: Global,
    kind: &str,
    one: &str,
    other: &str,
) -> Result<Option<&'static str>, AllocError> {
    match kind {
        "name" => Ok(Some(name(alloc, one)?)),
        "releasability" => Ok(Some(releasability(alloc, one)?)),
        "text" => Ok(Some(texts(alloc, one, other)?)),
        _ => Ok(None),
    }
}

/// Returns what is shown for a code, a refusal or a connection; none for another kind.
fn shown(alloc: Global, kind: &str, one: &str, other: &str) -> Option<Result<String, AllocError>> {
    match kind {
        "between" => Some(between(alloc, one, other)),
        "refusal" => Some(refusal(alloc, one, other)),
        "code" => Some(code(alloc, one)),
        _ => None,
    }
}

fn answer_to(
    alloc: Global,
    kind: &str,
    one: &str,
    other: &str,
) -> Result<Option<String>, AllocError> {
    match word(alloc, kind, one, other)? {
        Some(told) => Ok(Some(String::from_str(alloc, told)?)),
        None => shown(alloc, kind, one, other).transpose(),
    }
}

/// Returns the answer to a line of these kinds; none for another.
pub fn answer(alloc: Global, line: &str) -> Result<Option<String>, AllocError> {
    let Some((kind, rest)) = line.split_once('|') else {
        return Ok(None);
    };
    let (one, other) = rest.split_once('|').unwrap_or((rest, ""));
    let first = text_of(alloc, one)?;
    let second = text_of(alloc, other)?;
    answer_to(alloc, kind, first.as_str(), second.as_str())
}

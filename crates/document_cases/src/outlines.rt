//! Cases about outlines, and outlines as they are written in the table.

use crate::bodies::id;
use crate::pointers::json;
use crate::table::parts;
use iodef_tree::{Document, Kind, Line, OutlineFault, Text};
use serde_json::Value;
use std::alloc::{AllocError, Global};

/// Returns the text as JSON.
fn quoted(alloc: Global, text: &str) -> Result<String, AllocError> {
    let value = Value::String(String::from_str(alloc, text)?);
    value.to_string(alloc)
}

/// Returns what follows the kind: a text as JSON, anything else as it is.
fn told(alloc: Global, line: &Line) -> Result<String, AllocError> {
    let text = line.text.as_str();
    match line.kind {
        Kind::Text => quoted(alloc, text),
        Kind::Class | Kind::Value => String::from_str(alloc, text),
    }
}

fn kind_in_front(kind: Kind) -> &'static str {
    match kind {
        Kind::Class => "class",
        Kind::Text => "text ",
        Kind::Value => "value ",
    }
}

/// Returns the line as DEPTH NAME KIND TEXT.
pub fn written(alloc: Global, line: &Line) -> Result<String, AllocError> {
    let depth = line.depth;
    let name = line.name.as_str();
    let element = if line.in_array { "[]" } else { "" };
    let kind = kind_in_front(line.kind);
    let told = told(alloc, line)?;
    format!(in alloc; "{depth} {name}{element} {kind}{told}")
}

fn kind_of(word: &str) -> Kind {
    match word {
        "class" => Kind::Class,
        "text" => Kind::Text,
        _ => Kind::Value,
    }
}

/// Returns the text that follows the kind: for `text` what its JSON says, else the words as they are.
fn text_of(alloc: Global, kind: &str, text: &str) -> Result<Text, AllocError> {
    let quoted = json(alloc, text)?;
    let text = match kind {
        "text" => quoted.as_str().unwrap_or(text),
        _ => text,
    };
    Ok(Text::new(String::from_str(alloc, text)?))
}

fn line_of(alloc: Global, row: &str) -> Result<Line, AllocError> {
    let (depth, rest) = parts(row);
    let (place, rest) = parts(rest);
    let (kind, text) = parts(rest);
    let (name, in_array) = match place.strip_suffix("[]") {
        Some(name) => (name, true),
        None => (place, false),
    };
    Ok(Line {
        depth: depth.parse::<u32>().unwrap_or(0),
        name: Text::new(String::from_str(alloc, name)?),
        in_array,
        kind: kind_of(kind),
        text: text_of(alloc, kind, text)?,
    })
}

fn lines_of(alloc: Global, about: &str) -> Result<Vec<Line>, AllocError> {
    let mut lines = Vec::new(alloc);
    for row in about.split(';') {
        let row = row.trim_start();
        if !row.is_empty() {
            lines.push(line_of(alloc, row)?)?;
        }
    }
    Ok(lines)
}

fn answer_of(alloc: Global, verb: &str, document: &Document) -> Result<String, AllocError> {
    match verb {
        "made" => document.text(alloc),
        "id" => id(alloc, document),
        _ => String::from_str(alloc, "an outline"),
    }
}

fn answer_by(alloc: Global, verb: &str, lines: &[Line]) -> Result<String, AllocError> {
    match Document::from_outline(alloc, lines) {
        Ok(document) => answer_of(alloc, verb, &document),
        Err(OutlineFault::NoMemory) => Err(AllocError),
        Err(OutlineFault::BadOutline) => String::from_str(alloc, "BadOutline"),
    }
}

pub fn answer(alloc: Global, verb: &str, about: &str) -> Result<String, AllocError> {
    let lines = lines_of(alloc, about)?;
    answer_by(alloc, verb, &lines)
}

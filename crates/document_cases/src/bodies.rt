//! Cases about bodies.

use crate::outlines::written;
use crate::pointers::{json, path_of};
use iodef_tree::{Document, Line, Object, OutlineFault, Path, ReadFault};
use serde_json::Value;
use std::alloc::{AllocError, Global};

/// Returns the fault with its pointer.
fn at_place(alloc: Global, name: &str, path: &Path) -> Result<String, AllocError> {
    let pointer = path.print(alloc)?;
    format!(in alloc; "{name} {pointer}")
}

/// Returns the fault with its pointer and the member that is missing.
fn missing(alloc: Global, name: &str, path: &Path, member: &str) -> Result<String, AllocError> {
    let pointer = path.print(alloc)?;
    format!(in alloc; "{name} {pointer} {member}")
}

/// Returns the fault's name, and what more it says.
fn told(alloc: Global, fault: ReadFault) -> Result<String, AllocError> {
    let name = fault.name();
    match fault {
        ReadFault::Missing(path, required) => missing(alloc, name, &path, required.name()),
        ReadFault::NotWhole(path) | ReadFault::NestedClass(path) => at_place(alloc, name, &path),
        ReadFault::NoMemory => Err(AllocError),
        _ => String::from_str(alloc, name),
    }
}

pub fn read(alloc: Global, body: &[u8]) -> Result<String, AllocError> {
    match Document::read(alloc, body) {
        Ok(documents) => {
            let count = documents.len();
            format!(in alloc; "{count}")
        }
        Err(fault) => told(alloc, fault),
    }
}

/// Returns the same for the bytes that pairs of hexadecimal digits name.
pub fn read_digits(alloc: Global, digits: &str) -> Result<String, AllocError> {
    match hex::decode(alloc, digits.as_bytes()) {
        Ok(bytes) => read(alloc, bytes.as_slice()),
        Err(_) => String::from_str(alloc, "no digits"),
    }
}

fn push_line(all: &mut String, alloc: Global, line: &Line) -> Result<(), AllocError> {
    let line = written(alloc, line)?;
    if !all.is_empty() {
        all.push_str("; ")?;
    }
    all.push_str(line.as_str())
}

fn lines(alloc: Global, lines: &[Line]) -> Result<String, AllocError> {
    let mut all = String::new(alloc);
    for line in lines {
        push_line(&mut all, alloc, line)?;
    }
    Ok(all)
}

fn outline(alloc: Global, document: &Document) -> Result<String, AllocError> {
    let outline = document.outline(alloc)?;
    lines(alloc, &outline)
}

/// Returns the text of the document with these lines.
fn text_by(alloc: Global, lines: &[Line]) -> Result<String, AllocError> {
    match Document::from_outline(alloc, lines) {
        Ok(document) => document.text(alloc),
        Err(OutlineFault::NoMemory) => Err(AllocError),
        Err(OutlineFault::BadOutline) => String::from_str(alloc, "BadOutline"),
    }
}

fn text_again(alloc: Global, document: &Document) -> Result<String, AllocError> {
    let outline = document.outline(alloc)?;
    text_by(alloc, &outline)
}

/// Returns one text if both are the same.
fn same(alloc: Global, text: &str, other: &str) -> Result<String, AllocError> {
    if text == other {
        String::from_str(alloc, text)
    } else {
        format!(in alloc; "{text} and then {other}")
    }
}

/// Returns the text, which must be that of the document with the same lines.
fn text(alloc: Global, document: &Document) -> Result<String, AllocError> {
    let text = document.text(alloc)?;
    let again = text_again(alloc, document)?;
    same(alloc, text.as_str(), again.as_str())
}

fn push_path(all: &mut String, alloc: Global, path: &Path) -> Result<(), AllocError> {
    let pointer = path.print(alloc)?;
    if !all.is_empty() {
        all.push(' ')?;
    }
    all.push_str(pointer.as_str())
}

fn paths(alloc: Global, paths: &[Path]) -> Result<String, AllocError> {
    let mut all = String::new(alloc);
    for path in paths {
        push_path(&mut all, alloc, path)?;
    }
    Ok(all)
}

fn classes(alloc: Global, document: &Document) -> Result<String, AllocError> {
    let classes = document.classes(alloc)?;
    paths(alloc, &classes)
}

fn value(alloc: Global, document: &Document) -> Result<String, AllocError> {
    let value = document.value(alloc)?;
    value.to_string(alloc)
}

/// Returns the compact text of the document's IncidentID.
pub fn id(alloc: Global, document: &Document) -> Result<String, AllocError> {
    match document.incident_id(alloc)? {
        Some(id) => Ok(id),
        None => String::from_str(alloc, "none"),
    }
}

fn one(alloc: Global, verb: &str, document: &Document) -> Result<String, AllocError> {
    match verb {
        "outlines" => outline(alloc, document),
        "texts" => text(alloc, document),
        "values" => value(alloc, document),
        "classes" => classes(alloc, document),
        _ => id(alloc, document),
    }
}

fn push_one(
    all: &mut String,
    alloc: Global,
    verb: &str,
    document: &Document,
) -> Result<(), AllocError> {
    let told = one(alloc, verb, document)?;
    all.push_str(told.as_str())
}

fn all(alloc: Global, verb: &str, documents: &[Document]) -> Result<String, AllocError> {
    let mut all = String::new(alloc);
    for (i, document) in documents.iter().enumerate() {
        if i > 0 {
            all.push_str(" | ")?;
        }
        push_one(&mut all, alloc, verb, document)?;
    }
    Ok(all)
}

/// Returns what each document of the body is, with a bar between them.
pub fn each(alloc: Global, verb: &str, body: &str) -> Result<String, AllocError> {
    match Document::read(alloc, body.as_bytes()) {
        Ok(documents) => all(alloc, verb, &documents),
        Err(fault) => told(alloc, fault),
    }
}

fn names(alloc: Global, object: &Object) -> Result<String, AllocError> {
    let mut all = String::new(alloc);
    for (name, _) in &object.members {
        if !all.is_empty() {
            all.push(' ')?;
        }
        all.push_str(name.as_str())?;
    }
    Ok(all)
}

fn root_names(alloc: Global, root: &Object) -> Result<String, AllocError> {
    let names = names(alloc, root)?;
    format!(in alloc; "the root: {names}")
}

/// Returns the names of the members of the class at the path, or of the root.
fn members_at(alloc: Global, document: &Document, path: &Path) -> Result<String, AllocError> {
    match document.class(path) {
        None => String::from_str(alloc, "none"),
        Some(class) if document.has_class(path) => names(alloc, class),
        Some(root) => root_names(alloc, root),
    }
}

fn first_at(alloc: Global, documents: &[Document], path: &Path) -> Result<String, AllocError> {
    match documents.first() {
        Some(document) => members_at(alloc, document, path),
        None => String::from_str(alloc, "no document"),
    }
}

fn at_path(alloc: Global, path: &Path, body: &str) -> Result<String, AllocError> {
    match Document::read(alloc, body.as_bytes()) {
        Ok(documents) => first_at(alloc, &documents, path),
        Err(fault) => told(alloc, fault),
    }
}

fn at_pointer(alloc: Global, pointer: &str, body: &str) -> Result<String, AllocError> {
    match path_of(alloc, pointer)? {
        Some(path) => at_path(alloc, &path, body),
        None => String::from_str(alloc, "BadPath"),
    }
}

/// Returns the body of a case.
fn body_of(alloc: Global, about: &Value) -> Result<String, AllocError> {
    match about.get(1usize) {
        Some(body) => body.to_string(alloc),
        None => Ok(String::new(alloc)),
    }
}

fn at_of(alloc: Global, about: &Value) -> Result<String, AllocError> {
    let body = body_of(alloc, about)?;
    let pointer = about.get(0usize).and_then(Value::as_str);
    at_pointer(alloc, pointer.unwrap_or("no text"), body.as_str())
}

/// Returns what is at a pointer in the first document of a body.
pub fn at(alloc: Global, about: &str) -> Result<String, AllocError> {
    let about = json(alloc, about)?;
    at_of(alloc, &about)
}

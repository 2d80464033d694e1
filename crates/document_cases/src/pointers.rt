//! Cases about JSON pointers.

use iodef_tree::{Path, PathFault};
use serde_json::Value;
use std::alloc::{AllocError, Global};

/// Returns the JSON of a case, or null if it is none.
pub fn json(alloc: Global, about: &str) -> Result<Value, AllocError> {
    match Value::from_str(alloc, about) {
        Ok(value) => Ok(value),
        Err(error) => {
            if error.is_memory() {
                return Err(AllocError);
            }
            Ok(Value::Null)
        }
    }
}

/// Returns the path of a text, if it is a pointer.
pub fn path_of(alloc: Global, text: &str) -> Result<Option<Path>, AllocError> {
    match Path::parse(alloc, text) {
        Ok(path) => Ok(Some(path)),
        Err(PathFault::BadPath) => Ok(None),
        Err(PathFault::NoMemory) => Err(AllocError),
    }
}

/// Returns the tokens as JSON.
fn tokens(alloc: Global, path: &Path) -> Result<String, AllocError> {
    let mut all = Vec::new(alloc);
    for token in path.tokens() {
        all.push(Value::String(String::from_str(alloc, token.as_str())?))?;
    }
    Value::Array(all).to_string(alloc)
}

/// Returns the tokens of the path if it prints as the text, else what it prints as.
fn printed_as(alloc: Global, path: &Path, text: &str) -> Result<String, AllocError> {
    let printed = path.print(alloc)?;
    if printed.as_str() == text {
        tokens(alloc, path)
    } else {
        Ok(printed)
    }
}

fn read_back(alloc: Global, text: &str) -> Result<String, AllocError> {
    match path_of(alloc, text)? {
        Some(path) => printed_as(alloc, &path, text),
        None => String::from_str(alloc, PathFault::BadPath.name()),
    }
}

pub fn pointer(alloc: Global, about: &str) -> Result<String, AllocError> {
    let value = json(alloc, about)?;
    read_back(alloc, value.as_str().unwrap_or("no text"))
}

/// Returns the path of these tokens.
fn path_to(alloc: Global, parts: &[Value]) -> Result<Path, AllocError> {
    let mut path = Path::root(alloc);
    for part in parts {
        path = path.member(alloc, part.as_str().unwrap_or("no text"))?;
    }
    Ok(path)
}

fn printed(alloc: Global, parts: &[Value]) -> Result<String, AllocError> {
    let path = path_to(alloc, parts)?;
    path.print(alloc)
}

pub fn print(alloc: Global, about: &str) -> Result<String, AllocError> {
    let value = json(alloc, about)?;
    match value.as_array() {
        Some(parts) => printed(alloc, parts),
        None => Ok(String::new(alloc)),
    }
}

/// Returns whether the first path is a prefix of the second, if both texts are pointers.
fn compared(alloc: Global, first: &str, second: &str) -> Result<Option<bool>, AllocError> {
    match (path_of(alloc, first)?, path_of(alloc, second)?) {
        (Some(prefix), Some(path)) => Ok(Some(prefix.is_prefix_of(&path))),
        _ => Ok(None),
    }
}

fn prefix_of(alloc: Global, value: &Value) -> Result<Option<bool>, AllocError> {
    let first = value.get(0usize).and_then(Value::as_str).unwrap_or("");
    let second = value.get(1usize).and_then(Value::as_str).unwrap_or("");
    compared(alloc, first, second)
}

pub fn prefix(alloc: Global, about: &str) -> Result<String, AllocError> {
    let value = json(alloc, about)?;
    let answer = match prefix_of(alloc, &value)? {
        Some(true) => "yes",
        Some(false) => "no",
        None => PathFault::BadPath.name(),
    };
    String::from_str(alloc, answer)
}

//! The requests of lines: WHO|REQUEST|FIELD|FIELD.. with the fields that `requests` of `trying_hub` names.

use hub::Key;
use hub_core::Request;
use std::alloc::{AllocError, Global};
use trying::number_of;
use trying_hub::{Fields, key_of, request_of};

/// A moment, in seconds since 1970, the key of the caller, and the request.
pub type Asked = (i64, Key, Request);

/// Returns the key of person 4 for `p4`, and so on; no key for a word without a number, such as `nobody`.
fn caller(word: &str) -> Key {
    match word.split_once('p') {
        Some((_, number)) => Key::Digest(key_of(number_of(number))),
        None => Key::Absent,
    }
}

/// Returns the caller's key, and the moment if one is named: `p4`, or `p4 at 1717200000`.
fn who_and_when(words: &str) -> (Key, Option<i64>) {
    match words.split_once(" at ") {
        Some((who, moment)) => (caller(who), moment.parse::<i64>().ok()),
        None => (caller(words), None),
    }
}

/// Returns the request of a line. The moment is `now` if the line names none.
pub fn asked_of(alloc: Global, line: &str, now: i64) -> Result<Asked, AllocError> {
    let mut fields = Fields::new(line);
    let (key, moment) = who_and_when(fields.word());
    Ok((moment.unwrap_or(now), key, request_of(alloc, &mut fields)?))
}

/// Returns the requests of these lines. The moment of each is `now` if its line names none.
pub fn asked_by(alloc: Global, lines: &[String], now: i64) -> Result<Vec<Asked>, AllocError> {
    let mut asked = Vec::new(alloc);
    for line in lines {
        asked.push(asked_of(alloc, line.as_str(), now)?)?;
    }
    Ok(asked)
}

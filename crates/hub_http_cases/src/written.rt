//! The bytes that are written for a reply or a fault.

use crate::replies::reply_of;
use hub_http::{WireFault, body_text, fault_bytes, reply_bytes};
use std::alloc::{AllocError, Global};

/// Returns the text with `\r` and `\n` for CR and LF.
fn show_ends(alloc: Global, text: &str) -> Result<String, AllocError> {
    let mut all = String::new(alloc);
    for c in text.chars() {
        match c {
            '\r' => all.push_str("\\r")?,
            '\n' => all.push_str("\\n")?,
            _ => all.push(c)?,
        }
    }
    Ok(all)
}

/// Returns bytes as they are printed.
pub fn shown_bytes(alloc: Global, bytes: &[u8]) -> Result<String, AllocError> {
    match std::str::from_utf8(bytes) {
        Ok(text) => show_ends(alloc, text),
        Err(_) => String::from_str(alloc, "no text"),
    }
}

fn fault_named(name: &str) -> Option<WireFault> {
    match name {
        "HeadTooLong" => Some(WireFault::HeadTooLong),
        "BadHead" => Some(WireFault::BadHead),
        "Chunked" => Some(WireFault::Chunked),
        "NoLength" => Some(WireFault::NoLength),
        "TooLarge" => Some(WireFault::TooLarge),
        "Truncated" => Some(WireFault::Truncated),
        "NoRoute" => Some(WireFault::NoRoute),
        "BadBody" => Some(WireFault::BadBody),
        "NoMemory" => Some(WireFault::NoMemory),
        _ => None,
    }
}

/// Returns the answer to the name of a fault.
pub fn fault(alloc: Global, name: &str) -> Result<String, AllocError> {
    match fault_named(name) {
        Some(fault) => shown_bytes(alloc, &fault_bytes(alloc, fault)?),
        None => String::from_str(alloc, "no such fault"),
    }
}

/// Returns the answer to a reply: its bytes.
pub fn reply(alloc: Global, line: &str) -> Result<String, AllocError> {
    match reply_of(alloc, line)? {
        Some(reply) => shown_bytes(alloc, &reply_bytes(alloc, &reply)?),
        None => String::from_str(alloc, "no reply"),
    }
}

/// Returns the answer to a reply: only its body.
pub fn body(alloc: Global, line: &str) -> Result<String, AllocError> {
    match reply_of(alloc, line)? {
        Some(reply) => body_text(alloc, &reply),
        None => String::from_str(alloc, "no reply"),
    }
}

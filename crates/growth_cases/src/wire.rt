//! Requests as bytes, and what they ask.

use crate::content::content;
use crate::heap::{arm, disarm};
use crate::requests::MOMENT;
use crate::sweep::{Met, Trial};
use hub::Key;
use hub_core::Request;
use hub_http::{Served, WireFault, key_of_text, reply_bytes, request_of};
use std::alloc::{AllocError, Global};
use trying::written_out;
use trying_hub::{ABC, first_rows};
use trying_shelves::{Asks, Lists};

/// Returns the bytes of a line, in which `\n` means CR and LF.
pub fn bytes_of(alloc: Global, line: &str) -> Result<Vec<u8>, AllocError> {
    let line = written_out(alloc, line)?;
    let mut all = Vec::new(alloc);
    for piece in line.as_str().split("\\n") {
        if !all.is_empty() {
            all.extend_from_slice(b"\r\n")?;
        }
        all.extend_from_slice(piece.as_bytes())?;
    }
    Ok(all)
}

/// Returns the keys of those who ask by bytes.
pub fn keys_shown(alloc: Global) -> Result<Vec<Key>, AllocError> {
    let mut keys = Vec::new(alloc);
    for text in ["abc", "key-2", "key-3"] {
        keys.push(key_of_text(text.as_bytes()))?;
    }
    Ok(keys)
}

/// Returns what the hub writes for these bytes, or nothing if they weren't answered.
pub fn written(alloc: Global, hub: &mut Lists, bytes: &[u8]) -> Result<Vec<u8>, AllocError> {
    let mut out: Vec<u8> = Vec::new(alloc);
    match hub.serve(alloc, bytes, &mut out, MOMENT) {
        Ok(Served::Answered) => Ok(out),
        _ => Ok(Vec::new(alloc)),
    }
}

/// Returns the hub in memory after these requests.
pub fn hub_behind(alloc: Global, before: &[Vec<u8>]) -> Result<Option<Lists>, AllocError> {
    let Ok(mut hub) = Lists::with(alloc, &first_rows(alloc, ABC)?) else {
        return Ok(None);
    };
    // no return by `?` while there is a hub: each would prove its drop once more
    match ask_all(alloc, &mut hub, before) {
        Ok(()) => Ok(Some(hub)),
        Err(refused) => Err(refused),
    }
}

fn ask_all(alloc: Global, hub: &mut Lists, requests: &[Vec<u8>]) -> Result<(), AllocError> {
    for bytes in requests {
        written(alloc, hub, bytes)?;
    }
    Ok(())
}

/// Returns the bytes after the head of a reply.
pub fn body_of(reply: &[u8]) -> &str {
    let text = str::from_utf8(reply).unwrap_or("no text");
    match text.split_once("\r\n\r\n") {
        Some((_, body)) => body,
        None => "no answer",
    }
}

/// Bytes of which the program prints what they ask, by what a hub answers and then has.
#[derive(Clone, Copy)]
pub struct Bytes<'a> {
    pub before: &'a [Vec<u8>],
    pub bytes: &'a [u8],
}

/// Returns what a hub answers, and what it then has.
fn describe_by(
    alloc: Global,
    hub: &mut Lists,
    key: &Key,
    request: &Request,
) -> Result<String, AllocError> {
    let reply = hub.answer(alloc, MOMENT, key, request);
    let bytes = reply_bytes(alloc, &reply)?;
    let has = content(alloc, hub, &keys_shown(alloc)?)?;
    let (body, has) = (body_of(&bytes), str::from_utf8(&has).unwrap_or("no text"));
    format!(in alloc; "{body}\n{has}")
}

impl Bytes<'_> {
    fn describe(&self, alloc: Global, key: &Key, request: &Request) -> Result<String, AllocError> {
        match hub_behind(alloc, self.before)? {
            Some(mut hub) => describe_by(alloc, &mut hub, key, request),
            None => String::from_str(alloc, "no hub"),
        }
    }
}

impl Trial for Bytes<'_> {
    fn run(&self, alloc: Global, n: u32) -> Result<Met, AllocError> {
        arm(alloc, n);
        let outcome = request_of(alloc, self.bytes);
        let refused = disarm(alloc);
        let told = match outcome {
            Ok((key, request)) => Some(self.describe(alloc, &key, &request)?),
            Err(WireFault::NoMemory) => None,
            Err(fault) => Some(format!(in alloc; "{fault:?}")?),
        };
        Ok(Met { refused, told })
    }
}

//! Requests as lines, and as the bytes that ask them.

use hub_http::request_of;
use std::alloc::{AllocError, Global};
use trying_shelves::Asked;

/// The moment of all requests, in seconds since 1970.
const MOMENT: i64 = 1_700_000_000;

/// Returns the bytes of the request that a line says.
fn bytes_of(alloc: Global, line: &str) -> Result<Vec<u8>, AllocError> {
    let (head, body) = line.split_once('|').unwrap_or((line, ""));
    let (key, target) = head.split_once(' ').unwrap_or((head, ""));
    let length = body.len();
    let text = format!(in alloc;
        "{target} HTTP/1.1\r\nAuthorization: Bearer {key}\r\nContent-Length: {length}\r\n\r\n{body}"
    )?;
    Ok(text.into_bytes())
}

/// Returns the requests of the lines of a block, or none if one of them is no request.
pub fn asked_by(alloc: Global, block: &str) -> Result<Option<Vec<Asked>>, AllocError> {
    let mut asked = Vec::new(alloc);
    for line in block.lines().filter(|line| !line.starts_with('#')) {
        let bytes = bytes_of(alloc, line)?;
        match request_of(alloc, bytes.as_slice()) {
            Ok((key, request)) => asked.push((MOMENT, key, request))?,
            Err(_) => return Ok(None),
        }
    }
    Ok(Some(asked))
}

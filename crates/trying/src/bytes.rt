//! The bytes that a text in a line means. The functions have no contracts: the program's `stdout` shows what they
//! return.

use crate::lines::written_out;
use std::alloc::{AllocError, Global};

/// Returns the byte of two hexadecimal digits, or 0.
fn byte_of(digits: &[u8]) -> u8 {
    let mut byte = [0];
    match hex::decode_to_slice(digits, &mut byte) {
        Ok(()) => byte[0],
        Err(_) => 0,
    }
}

/// Adds the bytes of a piece behind a backslash.
fn push_escaped(all: &mut Vec<u8>, piece: &[u8]) -> Result<(), AllocError> {
    let (byte, rest) = match piece {
        [b'r', rest @ ..] => (b'\r', rest),
        [b'n', rest @ ..] => (b'\n', rest),
        [b'x', high, low, rest @ ..] => (byte_of(&[*high, *low]), rest),
        _ => (b'?', piece),
    };
    all.push(byte)?;
    all.extend_from_slice(rest)
}

/// Returns the bytes of a text, after `<3*ab>` in it is written out. `\r` and `\n` mean CR and LF, and `\x41` is the
/// byte of these two hexadecimal digits. Any other backslash becomes `?`.
pub fn bytes_of(alloc: Global, text: &str) -> Result<Vec<u8>, AllocError> {
    let text = written_out(alloc, text)?;
    let mut all = Vec::new(alloc);
    let mut pieces = text.as_str().split('\\');
    if let Some(first) = pieces.next() {
        all.extend_from_slice(first.as_bytes())?;
    }
    for piece in pieces {
        push_escaped(&mut all, piece.as_bytes())?;
    }
    Ok(all)
}

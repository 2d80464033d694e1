//! The texts of JSON strings (RFC 8259 section 7).
ghost use Rattle.std.specs.Prelude.{◌≡◌, ◌<◌, ◌≤◌, ◌∷◌, [], IsTrue, OnOk, length, take};
ghost use Rattle.std.specs.Char.{digit_char};
ghost use Rattle.json.specs.Print.{escape, escape_byte, escape_letter};
ghost use Rattle.json_text.specs.Shown.{shown_byte, shown_bytes};

use crate::plain::needs_no_escape;
use crate::sink::{Refused, Sink};

/// The text that a byte belongs to.
#[derive(Clone, Copy, PartialEq, Eq, Drop)]
pub enum Within {
    /// The text of a string.
    Text,
    /// A reference token (RFC 6901 section 3) of a pointer that is the text of a string.
    Token,
}

/// Returns the letter of a byte's short escape, or 0 if it has none.
fn letter_of(byte: u8) -> u8
    ensures { result ≡ escape_letter byte }
{
    match byte {
        b'"' | b'\\' => byte,
        8 => b'b',
        12 => b'f',
        b'\n' => b'n',
        b'\r' => b'r',
        b'\t' => b't',
        _ => 0,
    }
}

/// Returns whether a string holds the byte as it is. May return false for such a byte too.
fn is_plain(within: Within, byte: u8) -> bool
    ensures { IsTrue result → shown_byte within byte ≡ byte ∷ [] }
{
    let is_escaped = (byte < 32) | (byte == b'"') | (byte == b'\\');
    match within {
        Within::Text => !is_escaped,
        Within::Token => !(is_escaped | (byte == b'~') | (byte == b'/')),
    }
}

/// Returns how many bytes at the front a string holds as they are.
fn plain_len(within: Within, bytes: &[u8]) -> usize
    ensures bound { result ≤ length bytes.now }
    ensures plain { shown_bytes within (take result bytes.now) ≡ take result bytes.now }
{
    for (i, byte) in bytes.iter().enumerate() {
        if !is_plain(within, *byte) {
            return i;
        }
    }
    bytes.len()
}

/// Returns the hexadecimal digit of a number below 16.
fn digit(number: u8) -> u8
    requires { number < 16 }
    ensures { result ≡ digit_char number }
{
    if number < 10 {
        b'0' + number
    } else {
        b'a' + (number - 10)
    }
}

/// Puts the byte as a string holds it.
fn put_escape<S: Sink>(sink: &mut S, byte: u8) -> Result<(), Refused>
    ensures { OnOk result (S.puts sink.old (escape_byte byte) sink.new) }
{
    let letter = letter_of(byte);
    if letter > 0 {
        return sink.put(&[b'\\', letter]);
    }
    if byte < 32 {
        let (high, low) = (digit(byte / 16), digit(byte % 16));
        return sink.put(&[b'\\', b'u', b'0', b'0', high, low]);
    }
    sink.put(&[byte])
}

/// Puts the byte as a string holds it: in a reference token, `~` and `/` are escaped first.
fn put_shown<S: Sink>(sink: &mut S, within: Within, byte: u8) -> Result<(), Refused>
    ensures { OnOk result (S.puts sink.old (shown_byte within byte) sink.new) }
{
    match (within, byte) {
        (Within::Token, b'~') => sink.put(b"~0"),
        (Within::Token, b'/') => sink.put(b"~1"),
        _ => put_escape(sink, byte),
    }
}

/// Puts the bytes of a text as a string holds them: mostly as they are.
pub(crate) fn put_text<S: Sink>(sink: &mut S, bytes: &[u8]) -> Result<(), Refused>
    ensures { OnOk result (S.puts sink.old (escape bytes.now) sink.new) }
{
    if needs_no_escape(bytes) {
        sink.put(bytes)
    } else {
        put_escaped(sink, Within::Text, bytes)
    }
}

/// Puts the bytes as a string holds them. Bytes that need no escape are put together.
pub(crate) fn put_escaped<S: Sink>(
    sink: &mut S,
    within: Within,
    bytes: &[u8],
) -> Result<(), Refused>
    ensures { OnOk result (S.puts sink.old (shown_bytes within bytes.now) sink.new) }
{
    let mut rest = bytes;
    while let Some((byte, behind)) = rest.split_first() {
        let len = plain_len(within, rest);
        if len > 0 {
            let (plain, more) = rest.split_at(len);
            sink.put(plain)?;
            rest = more;
        } else {
            put_shown(sink, within, *byte)?;
            rest = behind;
        }
    }
    Ok(())
}

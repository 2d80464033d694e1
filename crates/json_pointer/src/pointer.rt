//! JSON pointers as texts (RFC 6901).

ghost use Rattle.std.specs.Prelude.{◌≡◌, ◌++◌, ◌∷◌, string_bytes, is_ok, if◌then◌else◌, OnOk, OnErr, IfOk, encode_utf8};
ghost use Rattle.std.specs.List.{list_any};
ghost use Rattle.std.specs.Str.{byte};
ghost use Rattle.json_pointer.specs.Pointer.{is_escaped_byte, escaped, escaped_by, unescaped, slash_separated, fault_name};
ghost use Rattle.json_pointer.specs.Text.{BeginsWith};
ghost use Rattle.json_pointer.specs.declared.pointer.PathFault.TheVariants.{NoMemory};

use crate::text::Text;
use std::alloc::{AllocError, AllocFailed, Global};
use thiserror::Error;

/// Why no path can be read from a text.
#[derive(Clone, Copy, Debug, PartialEq, Eq, Error)]
pub enum PathFault {
    /// The text is no JSON pointer.
    #[error("the text is no JSON pointer")]
    BadPath,
    /// Memory ran out.
    #[error("no memory")]
    NoMemory,
}

impl PathFault {
    /// Returns the fault's name.
    pub fn name(self) -> &'static str
        ensures { result.now ≡ fault_name self }
    {
        match self {
            PathFault::BadPath => "BadPath",
            PathFault::NoMemory => "NoMemory",
        }
    }
}

impl From<AllocError> for PathFault {
    ghost from_gives = { λ _ fault. fault ≡ NoMemory };

    fn from(_refused: AllocError) -> PathFault {
        PathFault::NoMemory
    }
}

impl<T: Drop> From<AllocFailed<T>> for PathFault {
    ghost from_gives = { λ _ fault. fault ≡ NoMemory };

    fn from(_refused: AllocFailed<T>) -> PathFault {
        PathFault::NoMemory
    }
}

/// Appends a reference token to a pointer: a slash, and the token with `~` as `~0` and `/` as `~1` (RFC 6901 section
/// 3).
///
/// Fails if memory runs out; then a part of the token may have been appended.
pub fn push_token(pointer: &mut String, token: &str) -> Result<(), AllocError>
    ensures ok { OnOk result
        (string_bytes pointer.new ≡ string_bytes pointer.old ++ byte "/" ∷ escaped token.now) }
    ensures err { OnErr result (BeginsWith (string_bytes pointer.new) (string_bytes pointer.old)) }
{
    pointer.push('/')?;
    if is_written_otherwise(token) {
        return push_escaped(pointer, token);
    }
    pointer.push_str(token)?;
    Ok(())
}

/// Returns whether a byte of the token is escaped.
fn is_written_otherwise(token: &str) -> bool
    ensures { result ≡ list_any is_escaped_byte token.now }
{
    let mut found = false;
    for byte in token.as_bytes() {
        found = found | (*byte == b'~') | (*byte == b'/');
    }
    found
}

/// Appends the characters of a token, each escaped if it has to be.
fn push_escaped(pointer: &mut String, token: &str) -> Result<(), AllocError>
    ensures ok { OnOk result (string_bytes pointer.new ≡
        string_bytes pointer.old ++ escaped token.now) }
    ensures err { OnErr result (BeginsWith (string_bytes pointer.new) (string_bytes pointer.old)) }
{
    for c in token.chars() {
        push_escaped_char(pointer, c)?;
    }
    Ok(())
}

/// Appends a character of a token: `~` as `~0` and `/` as `~1` (RFC 6901 section 3).
#[tactic(auto, using(crate::proofs::Steps::push_escaped_char_steps))]
fn push_escaped_char(pointer: &mut String, c: char) -> Result<(), AllocError>
    ensures { string_bytes pointer.new
        ≡ (if is_ok result then string_bytes pointer.old ++ escaped (encode_utf8 c)
        else string_bytes pointer.old) }
{
    match c {
        '~' => pointer.push_str("~0"),
        '/' => pointer.push_str("~1"),
        _ => pointer.push(c),
    }
}

/// Reads what follows the first slash of a pointer: reference tokens, with a slash between each two (RFC 6901 section
/// 3).
///
/// Fails with BadPath if a `~` in a token is followed by neither `0` nor `1`; with NoMemory if memory runs out.
pub fn read_tokens(alloc: Global, written: &str) -> Result<Vec<Text>, PathFault>
    ensures tokens { IfOk result (λ ts. slash_separated written.now ≡ Some ts.items) }
    ensures bad { result ≡ Err PathFault.BadPath → slash_separated written.now ≡ None }
{
    let mut tokens = Vec::new(alloc);
    for token in written.split('/') {
        tokens.push(read_token(alloc, token)?)?;
    }
    Ok(tokens)
}

/// Reads one reference token: `~0` is `~` and `~1` is `/` (RFC 6901 section 4). Fails with BadPath at any other `~`.
fn read_token(alloc: Global, written: &str) -> Result<Text, PathFault>
    ensures token { IfOk result (λ t. unescaped written.now ≡ Some t) }
    ensures bad { result ≡ Err PathFault.BadPath → unescaped written.now ≡ None }
{
    let mut token = String::new(alloc);
    let mut behind_tilde = false;
    for c in written.chars() {
        if behind_tilde {
            token.push(escaped_char(c).ok_or(PathFault::BadPath)?)?;
            behind_tilde = false;
        } else if c == '~' {
            behind_tilde = true;
        } else {
            token.push(c)?;
        }
    }
    if behind_tilde {
        return Err(PathFault::BadPath);
    }
    Ok(Text::new(token))
}

/// Returns the character that a `~` and this one mean, or none if they are no escape.
fn escaped_char(code: char) -> Option<char>
    ensures { result ≡ escaped_by code }
{
    match code {
        '0' => Some('~'),
        '1' => Some('/'),
        _ => None,
    }
}

//! The fields of a head: the length of the body, and the caller's key.
ghost use Rattle.std.specs.Prelude.{◌≡◌, ◌↔◌, ℕ, ◌+◌, ◌<◌, ◌≤◌, List, [], ◌∷◌, length, map, min, drop, IsTrue, Ok, Some, codes, option_copied, IfOk, IfSome};
ghost use Rattle.std.specs.Prelude.{IfErr, ◌≢◌};
ghost use Rattle.std.specs.List.{list_all};
ghost use Rattle.std.specs.Option.{ForSome};
ghost use Rattle.std.specs.Char.{is_ascii_digit, to_ascii_lowercase};
ghost use Rattle.std.specs.Str.Parse.{digits_value};
ghost use Rattle.httparse.specs.Borrowed.{header_parts};
ghost use Rattle.hub_http.specs.inner.Texts.{IsText};
ghost use Rattle.hub_http.specs.Fields.{same_name, field_values, is_digits, length_text, declared_length, body_length, is_visible, is_bearer, key_in, key_of};
ghost use Rattle.hub_http.specs.Fields.{key_shown, lacks};
ghost use Rattle.hub_http.specs.inner.Texts.{IsSole};

use crate::spelling::has_digits_alone;
use crate::wire_fault::WireFault;
use crate::{BODY_LIMIT, KEY_LIMIT};
use httparse::Header;
use hub::Key;
use sha2::{Digest, Sha256};

/// The value of the fields of a name: none, one, or several.
#[derive(Clone, Copy, Drop)]
pub(crate) enum Sole<'a> {
    Missing,
    One(&'a [u8]),
    Several,
}

fn is_same_name(a: &[u8], b: &[u8]) -> bool
    ensures { result ≡ same_name a.now b.now }
{
    a.eq_ignore_ascii_case(b)
}

/// Returns the value of the fields of a name.
fn field_of<'a>(fields: &[Header<'a>], name: &str) -> Sole<'a>
    ensures { IsSole (field_values name.now (map header_parts fields.now)) result }
{
    let mut found = Sole::Missing;
    for field in fields {
        if is_same_name(field.name.as_bytes(), name.as_bytes()) {
            if let Sole::One(_) = found {
                return Sole::Several;
            }
            found = Sole::One(field.value);
        }
    }
    found
}

fn has_digits(text: &[u8]) -> bool
    ensures { result ≡ is_digits text.now }
{
    !text.is_empty() && has_digits_alone(text)
}

/// Returns the number that digits write, or BODY_LIMIT + 1 if it is higher. Leading zeros are allowed.
fn capped_value(text: &[u8]) -> u32
    requires { IsTrue (is_digits text.now) }
    ensures { result ≡ min (digits_value 10 text.now) (BODY_LIMIT + 1) }
{
    let mut n: u32 = 0;
    for b in text {
        let digit = u32::from(*b - b'0');
        n = (n * 10 + digit).min(BODY_LIMIT + 1);
    }
    n
}

/// Returns the text of the Content-Length field, if there is one. Fails with `BadHead` if there are several or it isn't
/// digits.
#[tactic(auto, unfolding(crate::specs::Fields::length_text))]
fn read_length_text<'a>(fields: &[Header<'a>]) -> Result<Option<&'a [u8]>, WireFault>
    ensures value { IsText result
        (length_text (field_values (codes "content-length") (map header_parts fields.now))) }
    ensures whole { IfErr result (λ e. e ≢ WireFault.Truncated) }
    ensures digits { IfOk result (λ o. IfSome o (λ t. IsTrue (is_digits t.now))) }
{
    match field_of(fields, "content-length") {
        Sole::Missing => Ok(None),
        Sole::One(text) => {
            if has_digits(text) {
                Ok(Some(text))
            } else {
                Err(WireFault::BadHead)
            }
        }
        Sole::Several => Err(WireFault::BadHead),
    }
}

fn has_none(fields: &[Header<'_>], name: &str) -> bool
    ensures { result ≡ lacks name.now (map header_parts fields.now) }
{
    matches!(field_of(fields, name), Sole::Missing)
}

/// Returns the length of the body.
#[tactic(auto, unfolding(crate::specs::Fields::body_length, crate::specs::Fields::declared_length))]
pub(crate) fn read_body_length(is_get: bool, fields: &[Header<'_>]) -> Result<u32, WireFault>
    ensures value { result ≡ body_length is_get (map header_parts fields.now) }
    ensures whole { IfErr result (λ e. e ≢ WireFault.Truncated) }
    ensures bound { IfOk result (λ n. n ≤ BODY_LIMIT) }
{
    let text = read_length_text(fields)?;
    if !has_none(fields, "transfer-encoding") {
        return Err(WireFault::Chunked);
    }
    read_declared_length(is_get, text)
}

#[tactic(auto, unfolding(crate::specs::Fields::declared_length))]
fn read_declared_length(is_get: bool, text: Option<&[u8]>) -> Result<u32, WireFault>
    requires { ForSome text (λ t. IsTrue (is_digits t.now)) }
    ensures value { result ≡ declared_length is_get (option_copied text.entry) }
    ensures whole { IfErr result (λ e. e ≢ WireFault.Truncated) }
    ensures bound { IfOk result (λ n. n ≤ BODY_LIMIT) }
{
    let Some(text) = text else {
        return if is_get {
            Ok(0)
        } else {
            Err(WireFault::NoLength)
        };
    };
    let n = capped_value(text);
    if n > BODY_LIMIT {
        return Err(WireFault::TooLarge);
    }
    Ok(n)
}

fn is_bearer_value(value: &[u8]) -> bool
    ensures { result ≡ is_bearer value.now }
{
    if value.len() < 8 || value.len() > 7 + KEY_LIMIT {
        return false;
    }
    is_same_name(&value[..7], b"Bearer ") && has_visible_alone(&value[7..])
}

fn has_visible_alone(text: &[u8]) -> bool
    ensures { result ≡ list_all is_visible text.now }
{
    text.iter().all(|b| 33 <= *b && *b <= 126)
}

/// Returns the key with this text: its SHA-256.
pub fn key_of_text(text: &[u8]) -> Key
    ensures { result ≡ key_shown text.now }
{
    Key::Digest(Sha256::digest(text))
}

/// Returns the caller's key, or `Absent` if there isn't exactly one Authorization field with a bearer token.
#[tactic(auto, unfolding(crate::specs::Fields::key_in))]
pub(crate) fn read_key(fields: &[Header<'_>]) -> Key
    ensures { result ≡ key_of (map header_parts fields.now) }
{
    match field_of(fields, "authorization") {
        Sole::One(value) => {
            if is_bearer_value(value) {
                key_of_text(&value[7..])
            } else {
                Key::Absent
            }
        }
        _ => Key::Absent,
    }
}

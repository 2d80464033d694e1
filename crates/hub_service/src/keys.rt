//! The key of a reader, and the digest of a key in hexadecimal digits.
ghost use Rattle.std.specs.Prelude.{◌≡◌};
ghost use Rattle.std.specs.List.{list_all};
ghost use Rattle.hub_http.specs.Fields.{is_visible};
ghost use Rattle.hub_service.specs.Keys as spec;

use hub::Key;
use hub_http::{KEY_LIMIT, key_of_text};

fn has_visible_alone(line: &[u8]) -> bool
    ensures { result ≡ list_all is_visible line.now }
{
    line.iter().all(|b| 33 <= *b && *b <= 126)
}

fn is_key(line: &[u8]) -> bool
    ensures { result ≡ spec.is_key line.now }
{
    if line.is_empty() || line.len() > KEY_LIMIT {
        return false;
    }
    has_visible_alone(line)
}

/// Returns the key of a line: 1 to [`KEY_LIMIT`] bytes from `!` to `~`. Returns `Absent` for any other line.
pub fn line_key(line: &[u8]) -> Key
    ensures { result ≡ spec.line_key line.now }
{
    if is_key(line) {
        key_of_text(line)
    } else {
        Key::Absent
    }
}

/// Returns the bytes that 64 hexadecimal digits spell. None if the text isn't that.
pub fn digest_of(text: &str) -> Option<[u8; 32]>
    ensures { result ≡ spec.digest_of text.now }
{
    let mut bytes = [0; 32];
    match hex::decode_to_slice(text, &mut bytes) {
        Ok(()) => Some(bytes),
        Err(_) => None,
    }
}

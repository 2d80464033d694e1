//! A text as a JSON string.

ghost use Rattle.std.specs.Prelude.{◌≡◌, ◌++◌, string_bytes, OnOk, OnErr};
ghost use Rattle.std.specs.List.{list_any};
ghost use Rattle.json.specs.Print.{quoted};
ghost use Rattle.json_pointer.specs.Text.{BeginsWith};
ghost use Rattle.iodef_tree.specs.inner.Written.{needs_escape};

use serde_json::Value;
use std::alloc::{AllocError, Global};

/// Appends a text as a JSON string: in quotes, and escaped as `serde_json` escapes (RFC 8259 section 7). Allocates a
/// text of its own only if a byte has to be escaped.
///
/// Fails if memory runs out; then a part of the string may have been appended.
pub fn push_quoted(alloc: Global, out: &mut String, text: &str) -> Result<(), AllocError>
    ensures ok { OnOk result (string_bytes out.new ≡ string_bytes out.old ++ quoted text.now) }
    ensures err { OnErr result (BeginsWith (string_bytes out.new) (string_bytes out.old)) }
{
    if is_escaped(text) {
        let quoted = Value::String(String::from_str(alloc, text)?).to_string(alloc)?;
        out.push_str(quoted.as_str())?;
        return Ok(());
    }
    out.push('"')?;
    out.push_str(text)?;
    out.push('"')?;
    Ok(())
}

/// Returns whether JSON escapes a byte of the text (RFC 8259 section 7).
fn is_escaped(text: &str) -> bool
    ensures { result ≡ list_any needs_escape text.now }
{
    let mut escaped = false;
    for byte in text.as_bytes() {
        escaped = escaped | (*byte == b'"') | (*byte == b'\\') | (*byte < 32);
    }
    escaped
}

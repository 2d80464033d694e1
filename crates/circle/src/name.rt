//! Names within their limits.
ghost use Rattle.std.specs.Prelude.{◌≡◌, IfOk, IsTrue, Some, None, if◌then◌else◌, string_bytes};
ghost use Rattle.std.specs.List.{list_all};
ghost use Rattle.circle.specs.Texts.{is_name, is_no_control};

use crate::NAME_LIMIT;
use std::alloc::{AllocError, Global};
use std::marker::Model;

/// The name of an organisation, a person, a community or a group: 1 to [`NAME_LIMIT`] bytes, none of which is a
/// control character of ASCII. Bytes count, not letters; nothing is trimmed.
#[derive(Debug, Drop)]
pub struct Name {
    text: String,
}

impl Model for Name {
    ghost use Rattle.std.specs.Prelude.{List, ℕ, string_bytes, IsTrue};
    ghost use Rattle.circle.specs.Texts.{is_name};

    ghost Value = { List ℕ };

    ghost view = { λ t. string_bytes t.text };

    ghost invariant = { λ t. IsTrue (is_name (string_bytes t.text)) };
}

impl Name {
    /// Returns the text as a name, or `None` if it is outside the limits. Fails if memory runs out.
    pub fn of(alloc: Global, text: &str) -> Result<Option<Name>, AllocError>
        ensures { IfOk result (λ name. name ≡ (if is_name text.now then Some text.now else None)) }
    {
        if !names_something(text) {
            return Ok(None);
        }
        let text = String::from_str(alloc, text)?;
        Ok(Some(Name { text }))
    }

    /// Returns the name as a string slice.
    pub fn as_str(&self) -> &str
        ensures value { result.now ≡ self.now }
        ensures limits { IsTrue (is_name self.now) }
    {
        self.text.as_str()
    }

    /// Returns the string. Allocates nothing.
    pub fn into_string(self) -> String
        ensures value { string_bytes result ≡ self }
        ensures limits { IsTrue (is_name self) }
    {
        self.text
    }
}

/// Returns whether the text is a name.
fn names_something(text: &str) -> bool
    ensures { result ≡ is_name text.now }
{
    let bytes = text.as_bytes();
    1 <= bytes.len() && bytes.len() <= NAME_LIMIT && has_no_control(bytes)
}

/// Returns whether no byte is a control character of ASCII.
fn has_no_control(bytes: &[u8]) -> bool
    ensures { result ≡ list_all is_no_control bytes.now }
{
    bytes.iter().all(|b| 0x20 <= *b && *b != 0x7f)
}

impl PartialEq for Name {
    ghost use Rattle.std.specs.Str.{bytes_eq};
    ghost use Rattle.std.specs.Cmp.{partial_equiv_from_equiv};
    ghost use Rattle.std.proofs.lemmas.Cmp.{nat_list_eq_equiv};

    ghost eq = { bytes_eq };

    ghost laws = { partial_equiv_from_equiv nat_list_eq_equiv };

    fn eq(&self, other: &Name) -> bool {
        self.as_str() == other.as_str()
    }
}

impl Eq for Name {
    ghost use Rattle.std.proofs.lemmas.Cmp.{nat_list_eq_equiv};

    ghost laws = { nat_list_eq_equiv };
}

impl Clone for Name {
    ghost is_clone = { λ text copy. copy ≡ text };

    fn clone(&self) -> Result<Name, AllocError> {
        Ok(Name {
            text: self.text.clone()?,
        })
    }
}

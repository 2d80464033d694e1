//! Releasabilities within their limit.
ghost use Rattle.std.specs.Prelude.{◌≡◌, IfOk, IsTrue, Some, None, if◌then◌else◌, string_bytes};
ghost use Rattle.circle.specs.Texts.{is_releasability};

use crate::RELEASABILITY_LIMIT;
use std::alloc::{AllocError, Global};
use std::marker::Model;

/// To whom a group's content may be passed on, in the group's own words: at most [`RELEASABILITY_LIMIT`] bytes, of any
/// kind.
#[derive(Debug, Drop)]
pub struct Releasability {
    text: String,
}

impl Model for Releasability {
    ghost use Rattle.std.specs.Prelude.{List, ℕ, string_bytes, IsTrue};
    ghost use Rattle.circle.specs.Texts.{is_releasability};

    ghost Value = { List ℕ };

    ghost view = { λ t. string_bytes t.text };

    ghost invariant = { λ t. IsTrue (is_releasability (string_bytes t.text)) };
}

impl Releasability {
    /// Returns the text as a releasability, or `None` if it is too long. Fails if memory runs out.
    pub fn of(alloc: Global, text: &str) -> Result<Option<Releasability>, AllocError>
        ensures { IfOk result (λ found. found ≡
            (if is_releasability text.now then Some text.now else None)) }
    {
        if RELEASABILITY_LIMIT < text.len() {
            return Ok(None);
        }
        let text = String::from_str(alloc, text)?;
        Ok(Some(Releasability { text }))
    }

    /// Returns the releasability as a string slice.
    pub fn as_str(&self) -> &str
        ensures value { result.now ≡ self.now }
        ensures limits { IsTrue (is_releasability self.now) }
    {
        self.text.as_str()
    }

    /// Returns the string. Allocates nothing.
    pub fn into_string(self) -> String
        ensures value { string_bytes result ≡ self }
        ensures limits { IsTrue (is_releasability self) }
    {
        self.text
    }
}

impl PartialEq for Releasability {
    ghost use Rattle.std.specs.Str.{bytes_eq};
    ghost use Rattle.std.specs.Cmp.{partial_equiv_from_equiv};
    ghost use Rattle.std.proofs.lemmas.Cmp.{nat_list_eq_equiv};

    ghost eq = { bytes_eq };

    ghost laws = { partial_equiv_from_equiv nat_list_eq_equiv };

    fn eq(&self, other: &Releasability) -> bool {
        self.as_str() == other.as_str()
    }
}

impl Eq for Releasability {
    ghost use Rattle.std.proofs.lemmas.Cmp.{nat_list_eq_equiv};

    ghost laws = { nat_list_eq_equiv };
}

impl Clone for Releasability {
    ghost is_clone = { λ text copy. copy ≡ text };

    fn clone(&self) -> Result<Releasability, AllocError> {
        Ok(Releasability {
            text: self.text.clone()?,
        })
    }
}

//! Paths.

ghost use Rattle.std.specs.Prelude.{◌≡◌, ◌++◌, ◌∷◌, [], IfOk, string_bytes};
ghost use Rattle.json_pointer.specs.Pointer.{pointer_text, pointer_tokens};
ghost use Rattle.json_pointer.specs.Text.{is_prefix};

use crate::pointer::{PathFault, push_token, read_tokens};
use crate::text::Text;
use std::alloc::{AllocError, Global};
use std::marker::Model;

/// A path as its reference tokens (RFC 6901 section 3). The root's path has none. The place in an array is its decimal
/// digits.
/// Contracts see the list of the tokens.
#[derive(Debug, Drop)]
pub struct Path {
    tokens: Vec<Text>,
}

impl Model for Path {
    ghost use Rattle.std.specs.Prelude.{ℕ, List};

    ghost Value = { List (List ℕ) };

    ghost view = { λ p. p.tokens.items };
}

impl Path {
    /// Returns the path of the root.
    pub fn root(alloc: Global) -> Path
        ensures { result ≡ [] }
    {
        Path {
            tokens: Vec::new(alloc),
        }
    }

    /// Returns the path of these tokens. Allocates nothing.
    pub fn new(tokens: Vec<Text>) -> Path
        ensures { result ≡ tokens.items }
    {
        Path { tokens }
    }

    /// Returns the reference tokens, in order.
    pub fn tokens(&self) -> &[Text]
        ensures { result.now ≡ self.now }
    {
        &self.tokens
    }

    /// Returns the tokens. Allocates nothing.
    pub fn into_tokens(self) -> Vec<Text>
        ensures { result.items ≡ self }
    {
        self.tokens
    }

    /// Returns the JSON pointer of the path (RFC 6901 section 3). Fails if memory runs out.
    pub fn print(&self, alloc: Global) -> Result<String, AllocError>
        ensures { IfOk result (λ s. string_bytes s ≡ pointer_text self.now) }
    {
        let mut pointer = String::new(alloc);
        for token in &self.tokens {
            push_token(&mut pointer, token.as_str())?;
        }
        Ok(pointer)
    }

    /// Returns the path of which the text is the JSON pointer (RFC 6901 section 3).
    ///
    /// Fails with BadPath if the text is neither empty nor begins with a slash, or if neither `0` nor `1` follows a
    /// `~` in it. Fails with NoMemory if memory runs out.
    pub fn parse(alloc: Global, text: &str) -> Result<Path, PathFault>
        ensures path { IfOk result (λ p. pointer_tokens text.now ≡ Some p) }
        ensures bad { result ≡ Err PathFault.BadPath → pointer_tokens text.now ≡ None }
    {
        if text.is_empty() {
            return Ok(Path::root(alloc));
        }
        let Some(written) = text.strip_prefix('/') else {
            return Err(PathFault::BadPath);
        };
        Ok(Path::new(read_tokens(alloc, written)?))
    }

    /// Returns whether the other path begins with the tokens of this one. Allocates nothing.
    #[tactic(auto, using(crate::proofs::Steps::is_prefix_of_steps))]
    pub fn is_prefix_of(&self, other: &Path) -> bool
        ensures { result ≡ is_prefix self.now other.now }
    {
        other.tokens.starts_with(&self.tokens)
    }

    /// Returns the path with one token more: the name of a member, or the digits of a place in an array. Fails if
    /// memory runs out.
    pub fn member(&self, alloc: Global, name: &str) -> Result<Path, AllocError>
        ensures { IfOk result (λ p. p ≡ self.now ++ name.now ∷ []) }
    {
        // One call for names and places: two calls would differ only in the digits.
        let mut path = self.clone()?;
        path.tokens.push(Text::new(String::from_str(alloc, name)?))?;
        Ok(path)
    }
}

impl Clone for Path {
    ghost is_clone = { λ path copy. copy ≡ path };

    fn clone(&self) -> Result<Path, AllocError> {
        let mut tokens = Vec::with_capacity(*self.tokens.allocator(), self.tokens.len())?;
        for token in &self.tokens {
            tokens.push(token.clone()?)?;
        }
        Ok(Path { tokens })
    }
}

impl PartialEq for Path {
    ghost use Rattle.std.specs.Cmp.{partial_equiv_from_equiv};
    ghost use Rattle.std.proofs.lemmas.Cmp.{lists_equiv, nat_list_eq_equiv};
    ghost use Rattle.json_pointer.specs.Text.{same_path};

    ghost eq = { same_path };

    ghost laws = { partial_equiv_from_equiv (lists_equiv nat_list_eq_equiv) };

    fn eq(&self, other: &Path) -> bool {
        self.tokens == other.tokens
    }
}

impl Eq for Path {
    ghost use Rattle.std.proofs.lemmas.Cmp.{lists_equiv, nat_list_eq_equiv};

    ghost laws = { lists_equiv nat_list_eq_equiv };
}

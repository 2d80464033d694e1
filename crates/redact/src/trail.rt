//! The path of a pass, as tokens without memory of their own.

ghost use Rattle.std.specs.Prelude.{◌≡◌, ◌∷◌, [], IfOk, decimal};
ghost use Rattle.std.specs.Str.{bytes_eq};
ghost use Rattle.iodef_tree.specs.Text.{same_path};
ghost use Rattle.marking.specs.Marks.{incident_path};
ghost use Rattle.redact.specs.inner.Tokens.{token_of, path_of};

use iodef_tree::{Path, Text};
use policy::Spot;
use std::alloc::{AllocError, Global};

/// A token of a path: a member's name or a place in an array.
#[derive(Clone, Copy)]
pub enum Token<'a> {
    /// The name of a member.
    Name(&'a str),
    /// The place in an array.
    Index(usize),
}

impl<'a> Token<'a> {
    /// Returns the text of the token. The digits of a place are written into the buffer.
    pub fn as_str(self, digits: &'a mut itoa::Buffer) -> &'a str
        ensures { result.now ≡ token_of self.entry }
    {
        match self {
            Token::Name(name) => name,
            Token::Index(place) => digits.format(place),
        }
    }
}

/// The place of a pass, by its tokens.
#[derive(Clone, Copy)]
pub struct Trail<'t, 'a> {
    pub tokens: &'t [Token<'a>],
}

impl<'t, 'a> Spot for Trail<'t, 'a> {
    ghost tokens = { λ t. path_of t.tokens.now };

    fn is_at_incident(&self) -> bool {
        is_incident(self.tokens)
    }
}

/// Returns whether these tokens are the path of the Incident.
fn is_incident(trail: &[Token<'_>]) -> bool
    ensures { result ≡ same_path (path_of trail.now) incident_path }
{
    match trail {
        [first, second] => lead_to_incident(*first, *second),
        _ => false,
    }
}

/// The same for two tokens.
fn lead_to_incident(first: Token<'_>, second: Token<'_>) -> bool
    ensures { result ≡ same_path (token_of first.entry ∷ token_of second.entry ∷ []) incident_path }
{
    match first {
        Token::Name(name) => leads_to_incident(name, second),
        Token::Index(place) => {
            let mut digits = itoa::Buffer::new();
            leads_to_incident(digits.format(place), second)
        }
    }
}

/// The same for a name and a token.
fn leads_to_incident(first: &str, second: Token<'_>) -> bool
    ensures { result ≡ same_path (first.now ∷ token_of second.entry ∷ []) incident_path }
{
    match second {
        Token::Name(name) => marking::is_incident(first, name),
        Token::Index(place) => {
            let mut digits = itoa::Buffer::new();
            marking::is_incident(first, digits.format(place))
        }
    }
}

/// Returns whether two tokens have the same text.
pub fn is_same(one: Token<'_>, other: Token<'_>) -> bool
    ensures { result ≡ bytes_eq (token_of one.entry) (token_of other.entry) }
{
    match (one, other) {
        (Token::Name(one), Token::Name(other)) => one == other,
        (Token::Index(one), Token::Index(other)) => one == other,
        (Token::Name(name), Token::Index(place)) => is_place(name, place),
        (Token::Index(place), Token::Name(name)) => is_place(name, place),
    }
}

/// Returns whether a name is the digits of a place.
pub(crate) fn is_place(name: &str, place: usize) -> bool
    ensures { result ≡ bytes_eq name.now (decimal place) }
{
    let mut digits = itoa::Buffer::new();
    name == digits.format(place)
}

/// Returns the text of a token. Fails if memory runs out.
fn text_of(alloc: Global, token: Token<'_>) -> Result<Text, AllocError>
    ensures { IfOk result (λ t. t ≡ token_of token.entry) }
{
    match token {
        Token::Name(name) => Ok(Text::new(String::from_str(alloc, name)?)),
        Token::Index(place) => Ok(Text::new(format!(in alloc; "{place}")?)),
    }
}

/// Returns the path with these tokens. Fails if memory runs out.
pub fn path_at(alloc: Global, trail: &[Token<'_>]) -> Result<Path, AllocError>
    ensures { IfOk result (λ p. p ≡ path_of trail.now) }
{
    let mut tokens = Vec::with_capacity(alloc, trail.len())?;
    for token in trail {
        tokens.push(text_of(alloc, *token)?)?;
    }
    Ok(Path::new(tokens))
}

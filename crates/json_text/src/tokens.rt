//! The tokens of a JSON text.
ghost use Rattle.std.specs.Prelude.{◌≡◌, ◌∷◌, ◌++◌, [], true, false, OnOk, decimal};
ghost use Rattle.json.specs.Token.{boolean};
ghost use Rattle.json.specs.Print.{separator, token_text, quoted, escape, ends};
ghost use Rattle.json.specs.Reads.{token_of};
ghost use Rattle.serde_json.specs.Written.{comma_if};
ghost use Rattle.iodef_tree.specs.Pointer.{pointer_text};
ghost use Rattle.json_text.specs.Members.{member_text};

use crate::escape::{Within, put_escaped, put_text};
use crate::sink::{Refused, Sink};
use iodef_tree::Path;
use json::Token;

/// Puts the tokens of a JSON text (RFC 8259 section 2) into a sink, with the commas and colons between them. The
/// caller has to end each object and array.
#[derive(Drop)]
pub struct Tokens<S> {
    /// Where the tokens are put.
    pub sink: S,
    /// Whether the last token ended a value.
    pub after_value: bool,
}

impl<S: Sink> Tokens<S> {
    /// Returns a text without tokens.
    pub fn new(sink: S) -> Tokens<S>
        ensures sink { result.sink ≡ sink }
        ensures first { result.after_value ≡ false }
    {
        Tokens {
            sink,
            after_value: false,
        }
    }

    /// Puts a token that begins a value, or is one, behind a comma if the last token ended a value.
    fn begin(&mut self, text: &[u8], is_value: bool) -> Result<(), Refused>
        ensures puts { OnOk result (S.puts self.old.sink
            (comma_if self.old.after_value ++ text.now) self.new.sink) }
        ensures after { OnOk result (self.new.after_value ≡ is_value) }
    {
        if self.after_value {
            self.sink.put(b",")?;
        }
        self.sink.put(text)?;
        self.after_value = is_value;
        Ok(())
    }

    /// The same in one text: `text` if no comma comes before the token, else `behind_comma`, which begins with it.
    fn begin_at_once(
        &mut self,
        text: &[u8],
        behind_comma: &[u8],
        is_value: bool,
    ) -> Result<(), Refused>
        requires { behind_comma.now ≡ 44 ∷ text.now }
        ensures puts { OnOk result (S.puts self.old.sink
            (comma_if self.old.after_value ++ text.now) self.new.sink) }
        ensures after { OnOk result (self.new.after_value ≡ is_value) }
    {
        let begun = if self.after_value { behind_comma } else { text };
        self.sink.put(begun)?;
        self.after_value = is_value;
        Ok(())
    }

    /// Puts a token that ends a value.
    fn end(&mut self, text: &[u8]) -> Result<(), Refused>
        ensures puts { OnOk result (S.puts self.old.sink text.now self.new.sink) }
        ensures after { OnOk result (self.new.after_value ≡ true) }
    {
        self.sink.put(text)?;
        self.after_value = true;
        Ok(())
    }

    /// Puts a quotation mark and a text, which is still to be ended by a quotation mark.
    fn open_quote(&mut self, text: &str) -> Result<(), Refused>
        ensures { OnOk result (S.puts self.old.sink
            (comma_if self.old.after_value ++ 34 ∷ escape text.now) self.new.sink) }
    {
        self.begin_at_once(b"\"", b",\"", true)?;
        put_text(&mut self.sink, text.as_bytes())
    }

    /// Puts a text in quotation marks.
    fn quote(&mut self, text: &str) -> Result<(), Refused>
        ensures puts { OnOk result (S.puts self.old.sink
            (comma_if self.old.after_value ++ quoted text.now) self.new.sink) }
        ensures after { OnOk result (self.new.after_value ≡ true) }
    {
        self.open_quote(text)?;
        self.end(b"\"")
    }

    /// Puts the name of a member, and a colon.
    pub fn name(&mut self, name: &str) -> Result<(), Refused>
        ensures puts { OnOk result (S.puts self.old.sink
            (comma_if self.old.after_value ++ (quoted name.now ++ 58 ∷ [])) self.new.sink) }
        ensures after { OnOk result (self.new.after_value ≡ false) }
    {
        self.open_quote(name)?;
        self.sink.put(b"\":")?;
        self.after_value = false;
        Ok(())
    }

    /// Puts a token, with a comma before it if a value or a member begins behind another.
    pub fn token(&mut self, token: Token<'_>) -> Result<(), Refused>
        ensures puts { OnOk result (S.puts self.old.sink
            (separator self.old.after_value (token_of token.entry) ++
            token_text (token_of token.entry)) self.new.sink) }
        ensures after { OnOk result (self.new.after_value ≡ ends (token_of token.entry)) }
    {
        match token {
            Token::BeginObject => self.begin_at_once(b"{", b",{", false),
            Token::EndObject => self.end(b"}"),
            Token::BeginArray => self.begin_at_once(b"[", b",[", false),
            Token::EndArray => self.end(b"]"),
            Token::Key(name) => self.name(name),
            Token::String(text) => self.quote(text),
            Token::Number(text) => self.begin(text.as_bytes(), true),
            Token::Bool(true) => self.begin(b"true", true),
            Token::Bool(false) => self.begin(b"false", true),
            Token::Null => self.begin(b"null", true),
            Token::Bad => self.begin(b"", true),
        }
    }

    /// Puts a whole number.
    pub fn number(&mut self, number: u32) -> Result<(), Refused>
        ensures puts { OnOk result (S.puts self.old.sink
            (comma_if self.old.after_value ++ decimal number) self.new.sink) }
        ensures after { OnOk result (self.new.after_value ≡ true) }
    {
        let mut buffer = itoa::Buffer::new();
        self.begin(buffer.format(number).as_bytes(), true)
    }

    /// Puts a member that is a whole number.
    pub fn number_member(&mut self, name: &str, number: u32) -> Result<(), Refused>
        ensures puts { OnOk result (S.puts self.old.sink
            (member_text self.old.after_value name.now (decimal number)) self.new.sink) }
        ensures after { OnOk result (self.new.after_value ≡ true) }
    {
        self.name(name)?;
        self.number(number)
    }

    /// Puts a member that is a text.
    pub fn text_member(&mut self, name: &str, text: &str) -> Result<(), Refused>
        ensures puts { OnOk result (S.puts self.old.sink
            (member_text self.old.after_value name.now (quoted text.now)) self.new.sink) }
        ensures after { OnOk result (self.new.after_value ≡ true) }
    {
        self.name(name)?;
        self.quote(text)
    }

    /// Puts a member that is a truth value.
    pub fn flag_member(&mut self, name: &str, flag: bool) -> Result<(), Refused>
        ensures puts { OnOk result (S.puts self.old.sink
            (member_text self.old.after_value name.now (token_text (boolean flag))) self.new.sink) }
        ensures after { OnOk result (self.new.after_value ≡ true) }
    {
        self.name(name)?;
        self.token(Token::Bool(flag))
    }

    /// Puts a string whose text is the JSON pointer of the path (RFC 6901 section 3).
    pub fn pointer(&mut self, path: &Path) -> Result<(), Refused>
        ensures puts { OnOk result (S.puts self.old.sink
            (comma_if self.old.after_value ++ quoted (pointer_text path.now)) self.new.sink) }
        ensures after { OnOk result (self.new.after_value ≡ true) }
    {
        self.begin_at_once(b"\"", b",\"", true)?;
        for token in path.tokens() {
            self.sink.put(b"/")?;
            put_escaped(&mut self.sink, Within::Token, token.as_str().as_bytes())?;
        }
        self.end(b"\"")
    }
}

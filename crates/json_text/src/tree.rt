//! The tree of a document as JSON.
ghost use Rattle.std.specs.Prelude.{◌≡◌, ◌∷◌, ◌++◌, [], map, true, false, OnOk};
ghost use Rattle.std.specs.List.{AllByRecursion};
ghost use Rattle.serde_json.specs.Data.{object as json_object};
ghost use Rattle.serde_json.specs.Written.{comma_if, compact_text};
ghost use Rattle.iodef_tree.specs.Filled.{IsFilled, IsMemberFilled, IsItemFilled};
ghost use Rattle.iodef_tree.specs.Json.{data_of};
ghost use Rattle.iodef_tree.specs.View.{forest, bodies, body};
ghost use Rattle.iodef_tree.specs.inner.Written.{written, body_text, array_text, bodies_text, member_text};

use crate::sink::{Refused, Sink};
use crate::tokens::Tokens;
use iodef_tree::{Document, Item, Member, Object, Text};
use json::Token;

impl<S: Sink> Tokens<S> {
    /// Puts the document as JSON (RFC 8727 section 2).
    pub fn document(&mut self, document: &Document) -> Result<(), Refused>
        ensures puts { OnOk result (S.puts self.old.sink (comma_if self.old.after_value ++
            compact_text (json_object (data_of document.now))) self.new.sink) }
        ensures after { OnOk result (self.new.after_value ≡ true) }
    {
        put_object(self, document.root())
    }
}

/// Puts the object.
#[cycle(put)]
fn put_object<S: Sink>(out: &mut Tokens<S>, object: &Object) -> Result<(), Refused>
    requires { IsFilled object.now }
    ensures puts { OnOk result (S.puts out.old.sink (comma_if out.old.after_value ++
        123 ∷ (written false (forest object.now) ++ 125 ∷ [])) out.new.sink) }
    ensures after { OnOk result (out.new.after_value ≡ true) }
{
    out.token(Token::BeginObject)?;
    for (name, member) in &object.members {
        put_member(out, name, member)?;
    }
    out.token(Token::EndObject)
}

/// Puts the member, with its name.
#[cycle(put)]
fn put_member<S: Sink>(out: &mut Tokens<S>, name: &Text, member: &Member) -> Result<(), Refused>
    requires { IsMemberFilled member.now }
    ensures puts { OnOk result (S.puts out.old.sink
        (member_text out.old.after_value name.now (bodies member.now)) out.new.sink) }
    ensures after { OnOk result (out.new.after_value ≡ true) }
{
    out.token(Token::Key(name.as_str()))?;
    match member {
        Member::One(item) => put_item(out, item),
        Member::Many(items) => put_items(out, items),
    }
}

/// Puts the items as an array.
#[cycle(put)]
fn put_items<S: Sink>(out: &mut Tokens<S>, items: &Vec<Item>) -> Result<(), Refused>
    requires { AllByRecursion IsItemFilled items.now.items }
    ensures puts { OnOk result (S.puts out.old.sink (comma_if out.old.after_value ++
        91 ∷ array_text false (map body items.now.items)) out.new.sink) }
    ensures after { OnOk result (out.new.after_value ≡ true) }
{
    out.token(Token::BeginArray)?;
    for item in items {
        put_item(out, item)?;
    }
    out.token(Token::EndArray)
}

/// Puts the item. A value is put as its text.
#[cycle(put)]
fn put_item<S: Sink>(out: &mut Tokens<S>, item: &Item) -> Result<(), Refused>
    requires { IsItemFilled item.now }
    ensures puts { OnOk result (S.puts out.old.sink
        (comma_if out.old.after_value ++ body_text (body item.now)) out.new.sink) }
    ensures after { OnOk result (out.new.after_value ≡ true) }
{
    match item {
        Item::Class(object) => put_object(out, object),
        Item::Text(text) => out.token(Token::String(text.as_str())),
        Item::Value(text) => out.token(Token::Number(text.as_str())),
    }
}

//! The highest label of the classes that an excerpt shows. Nothing is allocated.

ghost use Rattle.std.specs.Prelude.{◌≡◌};
ghost use Rattle.iodef_tree.specs.Filled.{IsFilled, IsMemberFilled, IsItemFilled};
ghost use Rattle.iodef_tree.specs.View.{forest, bodies, body};
ghost use Rattle.marking.specs.Members.{spelled_in};
ghost use Rattle.redaction.specs.Highest as spec;
ghost use Rattle.redaction.specs.inner.Labels as tree;

use iodef_tree::{Document, Item, Member, Object};
use marking::Handling;
use marking::class::written;

/// Returns the name of a handling as a label of TLP 2.0.
pub(crate) fn tlp_name(handling: Handling) -> &'static str
    ensures { result.now ≡ spec.tlp_name handling }
{
    match handling {
        Handling::Clear => "TLP:CLEAR",
        Handling::Green => "TLP:GREEN",
        Handling::Amber => "TLP:AMBER",
        Handling::Strict => "TLP:AMBER+STRICT",
        Handling::Red => "TLP:RED",
    }
}

/// Returns the strictest handling of the labels that the classes of a document spell, given what the source arranged
/// with the reader's organisation. Returns RED if no class spells a label.
pub(crate) fn highest(document: &Document, arranged: Option<Handling>) -> Handling
    ensures { result ≡ spec.highest arranged document.now }
{
    strictest_in(document.root(), arranged, None).unwrap_or(Handling::Red)
}

/// Returns the stricter of a handling and those before, if there are some.
fn stricter(before: Option<Handling>, handling: Handling) -> Handling
    ensures { result ≡ spec.stricter before handling }
{
    match before {
        None => handling,
        Some(before) => {
            if handling.is_at_most(before) {
                before
            } else {
                handling
            }
        }
    }
}

/// Returns the strictest handling before, and of the label that a class spells.
fn with_label(
    object: &Object,
    arranged: Option<Handling>,
    before: Option<Handling>,
) -> Option<Handling>
    requires { IsFilled object.now }
    ensures { result ≡ spec.with_label arranged (spelled_in (forest object.now)) before }
{
    match written(object) {
        None => before,
        Some(label) => Some(stricter(before, label.handling(arranged))),
    }
}

/// Returns the strictest handling of the labels before, and of those that the classes in an object spell.
#[cycle(strictest)]
fn strictest_in(
    object: &Object,
    arranged: Option<Handling>,
    before: Option<Handling>,
) -> Option<Handling>
    requires { IsFilled object.now }
    ensures { result ≡ tree.strictest_in arranged (forest object.now) before }
{
    let mut strictest = before;
    for (_name, member) in &object.members {
        strictest = strictest_of(member, arranged, strictest);
    }
    strictest
}

/// The same of a member.
#[cycle(strictest)]
fn strictest_of(
    member: &Member,
    arranged: Option<Handling>,
    before: Option<Handling>,
) -> Option<Handling>
    requires { IsMemberFilled member.now }
    ensures { result ≡ tree.strictest_of arranged (bodies member.now) before }
{
    match member {
        Member::One(item) => strictest_at(item, arranged, before),
        Member::Many(items) => {
            let mut strictest = before;
            for item in items {
                strictest = strictest_at(item, arranged, strictest);
            }
            strictest
        }
    }
}

/// The same of an item.
#[cycle(strictest)]
fn strictest_at(
    item: &Item,
    arranged: Option<Handling>,
    before: Option<Handling>,
) -> Option<Handling>
    requires { IsItemFilled item.now }
    ensures { result ≡ tree.strictest_at arranged (body item.now) before }
{
    match item {
        Item::Class(object) => strictest_in(object, arranged, with_label(object, arranged, before)),
        Item::Text(_) | Item::Value(_) => before,
    }
}

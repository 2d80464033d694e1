//! The label that the members of one class spell.

ghost use Rattle.std.specs.Prelude.{◌≡◌, option_map};
ghost use Rattle.iodef_tree.specs.Filled.{IsFilled};
ghost use Rattle.iodef_tree.specs.View.{forest, bodies};
ghost use Rattle.marking.specs.Label.{marking_of};
ghost use Rattle.marking.specs.Members.{held_of, held_by_bodies, held_in, spelled_in, is_rule_kept_in};

use crate::label::Label;
use iodef_tree::{Item, Member, Object};

/// What a class holds under a name.
#[derive(Clone, Copy)]
pub(crate) enum Found<'a> {
    /// Nothing.
    Absent,
    /// A text outside arrays.
    Text(&'a str),
    /// An array, a class or any other value.
    Other,
}

/// Returns what a member holds.
fn held_by(member: &Member) -> Found<'_>
    ensures { held_of result ≡ held_by_bodies (bodies member.now) }
{
    match member {
        Member::One(Item::Text(text)) => Found::Text(text.as_str()),
        Member::One(Item::Class(_)) => Found::Other,
        Member::One(Item::Value(_)) => Found::Other,
        Member::Many(_) => Found::Other,
    }
}

/// Returns what the first member of this name holds.
fn held<'a>(object: &'a Object, name: &str) -> Found<'a>
    requires { IsFilled object.now }
    ensures { held_of result ≡ held_in name.now (forest object.now) }
{
    for (key, member) in &object.members {
        if key.as_str() == name {
            return held_by(member);
        }
    }
    Found::Absent
}

/// Returns the label that the members of a class spell, if they spell one (RFC 7970 sections 3.3.1 and 5.1.1).
pub fn written(object: &Object) -> Option<Label<'_>>
    requires { IsFilled object.now }
    ensures { option_map marking_of result ≡ spelled_in (forest object.now) }
{
    let Found::Text(restriction) = held(object, "restriction") else {
        return None;
    };
    match held(object, "ext-restriction") {
        Found::Absent => Label::of(restriction, None),
        Found::Text(ext) => Label::of(restriction, Some(ext)),
        Found::Other => None,
    }
}

/// Returns whether the members of a class keep the marking rule.
pub(crate) fn is_well_marked(object: &Object) -> bool
    requires { IsFilled object.now }
    ensures { result ≡ is_rule_kept_in (forest object.now) }
{
    match held(object, "restriction") {
        Found::Absent => match held(object, "ext-restriction") {
            Found::Absent => true,
            Found::Text(_) => false,
            Found::Other => false,
        },
        Found::Text(_) => written(object).is_some(),
        Found::Other => false,
    }
}

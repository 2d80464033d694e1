//! Labels, put in among the members of a class.

ghost use Rattle.std.specs.Prelude.{◌≡◌, ◌≤◌, ◌++◌, ◌∷◌, IfOk, List, ℕ, length, take, drop, map, option_map};
ghost use Rattle.std.specs.List.{AllByRecursion};
ghost use Rattle.iodef_tree.specs.View.{forest, named, members_forest};
ghost use Rattle.marking.specs.Label.{marking_of};
ghost use Rattle.redact.specs.inner.Judged.{put_leaf, put_attributes, attribute_leaf};
ghost use Rattle.redact.specs.Told.{attributes_of, ext_restriction_of};
ghost use Rattle.iodef_tree.specs.Filled.{IsFilled, IsMemberFilled};
ghost use Rattle.redact.specs.inner.Saying.{saying};
ghost use Rattle.iodef_tree.specs.View.{forest_of_members};

use iodef_tree::{Item, Member, Object, Text};
use marking::Label;
use std::alloc::{AllocError, Global};

/// Returns the place of a member of this name: behind the last member whose name isn't later.
fn place_for(members: &[(Text, Member)], name: &str) -> usize
    requires { AllByRecursion (λ m. IsMemberFilled m.1) members.now }
    ensures within { result ≤ length members.now }
    ensures splits { (text : List ℕ) →
        put_leaf (attribute_leaf (name.now, text)) (members_forest members.now)
        ≡ forest_of_members
        (map named (take result members.now) ++
        (name.now, saying text) ∷ map named (drop result members.now)) }
{
    for (i, (own, _)) in members.iter().enumerate() {
        if name < own.as_str() {
            return i;
        }
    }
    members.len()
}

/// Returns the object with a text member put in at its place by name.
fn with_attribute(
    alloc: Global,
    object: Object,
    name: &str,
    text: &str,
) -> Result<Object, AllocError>
    requires { IsFilled object }
    ensures put { IfOk result (λ o.
        forest o ≡ put_leaf (attribute_leaf (name.now, text.now)) (forest object)) }
    ensures filled { IfOk result (λ o. IsFilled o) }
{
    let mut members = object.members;
    let at = place_for(&members, name);
    let value = Member::One(Item::Text(Text::new(String::from_str(alloc, text)?)));
    members.insert(at, (Text::new(String::from_str(alloc, name)?), value))?;
    Ok(Object { members })
}

/// Returns the value of `ext-restriction` for an extended label (RFC 7970 section 5.1.1).
fn ext_restriction<'a>(label: Label<'a>) -> Option<&'a str>
    ensures { option_map (λ t. t.now) result ≡ ext_restriction_of (marking_of label.entry) }
{
    match label {
        Label::Ext(text) => Some(text),
        _ => None,
    }
}

/// Returns the object with the members of a label put in (RFC 7970 sections 3.3.1 and 5.1.1).
pub fn put_label(alloc: Global, object: Object, label: Label<'_>) -> Result<Object, AllocError>
    requires { IsFilled object }
    ensures put { IfOk result (λ o.
        forest o ≡ put_attributes (attributes_of (marking_of label.entry)) (forest object)) }
    ensures filled { IfOk result (λ o. IsFilled o) }
{
    let object = with_attribute(alloc, object, "restriction", label.restriction())?;
    match ext_restriction(label) {
        Some(text) => Ok(with_attribute(alloc, object, "ext-restriction", text)?),
        None => Ok(object),
    }
}

//! From the values of `serde_json` to the tree. Each text is moved, not copied.

ghost use Rattle.std.specs.Prelude.{◌≡◌, ◌≤◌, ◌++◌, ◌∷◌, [], IfOk, OnOk, Some, true, false, string_bytes};
ghost use Rattle.serde_json.specs.View.{view, items_view, members_view};
ghost use Rattle.serde_json.specs.Written.{compact_text, has_float, items_have_float, members_have_float};
ghost use Rattle.serde_json.specs.Data.{array};
ghost use Rattle.serde_json.specs.Data as spec;
ghost use Rattle.serde_json.specs.Read.{max_depth, read as read_text};
ghost use Rattle.iodef_tree.specs.Texts.{may_be_value};
ghost use Rattle.iodef_tree.specs.inner.FitValues.{is_flat, is_element_flat, are_flat, are_members_flat};
ghost use Rattle.iodef_tree.specs.inner.Converted.{IsObjectOf, IsMemberOf, IsItemOf, AreItemsOf};

use crate::object::{Item, Member, Object};
use json_pointer::Text;
use serde_json::{Map, Value};
use std::alloc::{AllocError, Global};

/// Returns the object with these members. No number may be a float, since its text is not promised.
#[cycle(convert)]
pub(crate) fn object_from(alloc: Global, members: Map<String, Value>) -> Result<Object, AllocError>
    requires whole { members_have_float (members_view members.entries) ≡ false }
    requires flat { are_members_flat (members_view members.entries) ≡ true }
    ensures { IfOk result (λ o. IsObjectOf (members_view members.entries) o) }
{
    let mut made = Vec::with_capacity(alloc, members.len())?;
    for (name, value) in members {
        push_member(&mut made, name, member_from(alloc, value)?)?;
    }
    Ok(Object { members: made })
}

/// Returns what a member with this value holds.
#[cycle(convert)]
fn member_from(alloc: Global, value: Value) -> Result<Member, AllocError>
    requires whole { has_float (view value) ≡ false }
    requires flat { is_flat (view value) ≡ true }
    ensures { IfOk result (λ m. IsMemberOf (view value) m) }
{
    match value {
        Value::Array(items) => array_from(alloc, items),
        Value::Object(members) => Ok(Member::One(Item::Class(object_from(alloc, members)?))),
        Value::String(text) => Ok(Member::One(Item::Text(Text::new(text)))),
        plain => plain_member(alloc, plain),
    }
}

/// Returns what a member with this array holds: its elements, or an empty array as a value.
#[cycle(convert)]
fn array_from(alloc: Global, items: Vec<Value>) -> Result<Member, AllocError>
    requires whole { items_have_float (items_view items.items) ≡ false }
    requires flat { are_flat (items_view items.items) ≡ true }
    ensures { IfOk result (λ m. IsMemberOf (array (items_view items.items)) m) }
{
    if items.as_slice().is_empty() {
        plain_member(alloc, Value::Array(items))
    } else {
        Ok(Member::Many(items_from(alloc, items)?))
    }
}

/// Returns the elements of an array.
#[cycle(convert)]
fn items_from(alloc: Global, items: Vec<Value>) -> Result<Vec<Item>, AllocError>
    requires whole { items_have_float (items_view items.items) ≡ false }
    requires flat { are_flat (items_view items.items) ≡ true }
    ensures { IfOk result (λ v. AreItemsOf (items_view items.items) v.items) }
{
    let mut made = Vec::with_capacity(alloc, items.len())?;
    for item in items {
        made.push(item_from(alloc, item)?)?;
    }
    Ok(made)
}

/// Returns one element of an array.
#[cycle(convert)]
fn item_from(alloc: Global, value: Value) -> Result<Item, AllocError>
    requires whole { has_float (view value) ≡ false }
    requires flat { is_element_flat (view value) ≡ true }
    ensures { IfOk result (λ i. IsItemOf (view value) i) }
{
    match value {
        Value::Object(members) => Ok(Item::Class(object_from(alloc, members)?)),
        Value::String(text) => Ok(Item::Text(Text::new(text))),
        plain => plain_item(alloc, plain),
    }
}

/// Returns a member of a value that is neither an object, nor a text, nor an array with elements.
fn plain_member(alloc: Global, value: Value) -> Result<Member, AllocError>
    requires whole { has_float (view value) ≡ false }
    requires plain { may_be_value false (view value) ≡ true }
    ensures { IfOk result (λ m. IsMemberOf (view value) m) }
{
    Ok(Member::One(Item::Value(written(alloc, value)?)))
}

/// Returns an element that is neither an object nor a text.
fn plain_item(alloc: Global, value: Value) -> Result<Item, AllocError>
    requires whole { has_float (view value) ≡ false }
    requires plain { may_be_value true (view value) ≡ true }
    ensures { IfOk result (λ i. IsItemOf (view value) i) }
{
    Ok(Item::Value(written(alloc, value)?))
}

/// Appends a member.
fn push_member(
    made: &mut Vec<(Text, Member)>,
    name: String,
    member: Member,
) -> Result<(), AllocError>
    ensures { OnOk result (made.new.items ≡ made.old.items ++ (string_bytes name, member) ∷ []) }
{
    made.push((Text::new(name), member))?;
    Ok(())
}

/// Returns the compact JSON of a value.
fn written(alloc: Global, value: Value) -> Result<Text, AllocError>
    requires { has_float (view value) ≡ false }
    ensures text { IfOk result (λ t. t ≡ compact_text (view value)) }
    ensures reads_back { IfOk result (λ t.
        spec.depth (view value) ≤ max_depth → read_text t ≡ Some (view value)) }
{
    Ok(Text::new(value.to_string(alloc)?))
}

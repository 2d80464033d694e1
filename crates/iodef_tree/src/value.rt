//! The JSON value that a tree means.

ghost use Rattle.std.specs.Prelude.{◌≡◌, IfOk, OnOk, IfSome, map, option_map, option_and_then, unwrap_or, string_bytes};
ghost use Rattle.std.specs.List.{AllByRecursion};
ghost use Rattle.serde_json.specs.Data.{null, put, string, object as json_object};
ghost use Rattle.serde_json.specs.Find.{get_member, as_object};
ghost use Rattle.serde_json.specs.Read.{read as read_text};
ghost use Rattle.serde_json.specs.View.{view, members_view};
ghost use Rattle.serde_json.specs.Written.{compact_text};
ghost use Rattle.iodef_tree.specs.Filled.{IsFilled, IsMemberFilled, IsItemFilled};
ghost use Rattle.iodef_tree.specs.inner.FitValues.{IsBodyOrdered, AreBodiesOrdered};
ghost use Rattle.iodef_tree.specs.Json as spec;
ghost use Rattle.iodef_tree.specs.inner.SoundParts.{IsKept, AreKept, kids_of};
ghost use Rattle.iodef_tree.specs.Sound.{IsOrdered};
ghost use Rattle.iodef_tree.specs.View.{forest, bodies, body};
ghost use Rattle.iodef_tree.specs.inner.Written.{members_of, body_data, bodies_data};

use crate::object::{Item, Member, Object};
use json_pointer::Text;
use serde_json::{Map, Value};
use std::alloc::{AllocError, Global};

/// Returns the members of an object as JSON.
#[cycle(value)]
pub(crate) fn object_value(alloc: Global, object: &Object) -> Result<Map<String, Value>, AllocError>
    requires ordered { IsOrdered (forest object.now) }
    requires filled { IsFilled object.now }
    ensures { IfOk result (λ m. members_view m.entries ≡ members_of (forest object.now)) }
{
    let mut made = Map::new(alloc);
    for (name, member) in &object.members {
        put_member(alloc, &mut made, name, member_value(alloc, member)?)?;
    }
    Ok(made)
}

/// Returns the value of a member.
#[cycle(value)]
fn member_value(alloc: Global, member: &Member) -> Result<Value, AllocError>
    requires ordered { AreBodiesOrdered (bodies member.now) }
    requires filled { IsMemberFilled member.now }
    ensures { IfOk result (λ v. view v ≡ bodies_data (bodies member.now)) }
{
    match member {
        Member::One(item) => item_value(alloc, item),
        Member::Many(items) => Ok(Value::Array(items_value(alloc, items)?)),
    }
}

/// Returns the elements of an array.
#[cycle(value)]
fn items_value(alloc: Global, items: &Vec<Item>) -> Result<Vec<Value>, AllocError>
    requires ordered { AllByRecursion IsBodyOrdered (map body items.now.items) }
    requires filled { AllByRecursion IsItemFilled items.now.items }
    ensures { IfOk result (λ v. map view v.items ≡ map body_data (map body items.now.items)) }
{
    let mut made = Vec::with_capacity(alloc, items.as_slice().len())?;
    for item in items {
        made.push(item_value(alloc, item)?)?;
    }
    Ok(made)
}

/// Returns the value of an item.
#[cycle(value)]
fn item_value(alloc: Global, item: &Item) -> Result<Value, AllocError>
    requires ordered { IsBodyOrdered (body item.now) }
    requires filled { IsItemFilled item.now }
    ensures { IfOk result (λ v. view v ≡ body_data (body item.now)) }
{
    match item {
        Item::Class(object) => Ok(Value::Object(object_value(alloc, object)?)),
        Item::Text(text) => text_value(alloc, text),
        Item::Value(text) => read_value(alloc, text),
    }
}

/// Puts a member under a copy of its name.
fn put_member(
    alloc: Global,
    made: &mut Map<String, Value>,
    name: &Text,
    value: Value,
) -> Result<(), AllocError>
    ensures { OnOk result (members_view made.new.entries ≡
        put name.now (view value) (members_view made.old.entries)) }
{
    let name = String::from_str(alloc, name.as_str())?;
    drop(made.insert(name, value)?);
    Ok(())
}

/// Returns a string with a copy of the text.
fn text_value(alloc: Global, text: &Text) -> Result<Value, AllocError>
    ensures { IfOk result (λ v. view v ≡ string text.now) }
{
    Ok(Value::String(String::from_str(alloc, text.as_str())?))
}

/// Returns the value whose JSON the text is, or null if it is none.
fn read_value(alloc: Global, text: &Text) -> Result<Value, AllocError>
    ensures { IfOk result (λ v. view v ≡ unwrap_or (read_text text.now) null) }
{
    match Value::from_str(alloc, text.as_str()) {
        Ok(value) => Ok(value),
        Err(error) => {
            if error.is_memory() {
                return Err(AllocError);
            }
            Ok(Value::Null)
        }
    }
}

/// Returns the value of a member as compact JSON.
#[tactic(auto, using(crate::proofs::Steps::member_text_steps))]
pub(crate) fn member_text(alloc: Global, member: &Member) -> Result<String, AllocError>
    requires kept { AreKept (bodies member.now) }
    requires filled { IsMemberFilled member.now }
    ensures { IfOk result (λ s. string_bytes s ≡ compact_text (bodies_data (bodies member.now))) }
{
    member_value(alloc, member)?.to_string(alloc)
}

/// Returns the member of this name.
fn member_named<'a>(object: &'a Object, name: &str) -> Option<&'a Member>
    requires kept { IsKept (forest object.now) }
    requires filled { IsFilled object.now }
    ensures found { option_map (λ m. bodies_data (bodies m.now)) result
        ≡ get_member name.now (members_of (forest object.now)) }
    ensures kept { IfSome result (λ m. AreKept (bodies m.now)) }
    ensures filled { IfSome result (λ m. IsMemberFilled m.now) }
{
    for (own, member) in &object.members {
        if own.as_str() == name {
            return Some(member);
        }
    }
    None
}

/// Returns the object that the item is, if it is one.
fn object_of(item: &Item) -> Option<&Object>
    requires { IsItemFilled item.now }
    ensures found { option_map (λ o. forest o.now) result ≡ kids_of (body item.now) }
    ensures filled { IfSome result (λ o. IsFilled o.now) }
{
    match item {
        Item::Class(object) => Some(object),
        Item::Text(_) | Item::Value(_) => None,
    }
}

/// Returns the object that the member is, if it is one.
fn object_in(member: &Member) -> Option<&Object>
    requires kept { AreKept (bodies member.now) }
    requires filled { IsMemberFilled member.now }
    ensures found { option_map (λ o. members_of (forest o.now)) result ≡
        as_object (bodies_data (bodies member.now)) }
    ensures kept { IfSome result (λ o. IsKept (forest o.now)) }
    ensures filled { IfSome result (λ o. IsFilled o.now) }
{
    match member {
        Member::One(item) => object_of(item),
        Member::Many(_) => None,
    }
}

/// Returns the object at `0` in the member, which is an array or an object.
fn zeroth(member: &Member) -> Option<&Object>
    requires kept { AreKept (bodies member.now) }
    requires filled { IsMemberFilled member.now }
    ensures found { option_map (λ o. members_of (forest o.now)) result
        ≡ option_and_then as_object (spec.zeroth (bodies_data (bodies member.now))) }
    ensures kept { IfSome result (λ o. IsKept (forest o.now)) }
    ensures filled { IfSome result (λ o. IsFilled o.now) }
{
    match member {
        Member::One(_) => object_in(member_named(object_in(member)?, "0")?),
        Member::Many(items) => object_of(items.as_slice().first()?),
    }
}

/// Returns the member `IncidentID` of the value at `/Incident/0`.
#[tactic(auto, using(crate::proofs::Steps::id_in_steps))]
pub(crate) fn id_in(root: &Object) -> Option<&Member>
    requires kept { IsKept (forest root.now) }
    requires filled { IsFilled root.now }
    ensures found { option_map (λ m. bodies_data (bodies m.now)) result
        ≡ spec.id_in (json_object (members_of (forest root.now))) }
    ensures kept { IfSome result (λ m. AreKept (bodies m.now)) }
    ensures filled { IfSome result (λ m. IsMemberFilled m.now) }
{
    let incidents = member_named(root, "Incident")?;
    let incident = zeroth(incidents)?;
    member_named(incident, "IncidentID")
}

//! The values of a body that no document can hold.
#![tactic(auto, using(crate::proofs::Seeking::seeking))]

ghost use Rattle.std.specs.Prelude.{◌≡◌, ◌+◌, ◌<◌, ◌^◌, ◌∷◌, not, IfOk, Some, option_map, decimal, string_bytes};
ghost use Rattle.serde_json.specs.Data.{items_depth, members_depth};
ghost use Rattle.serde_json.specs.Data as spec;
ghost use Rattle.serde_json.specs.View.{view, items_view, members_view};
ghost use Rattle.iodef_tree.specs.Values.{node, nodes, item_nodes, member_nodes, first_at};
ghost use Rattle.iodef_tree.specs.inner.FitValues.{any_at, is_refused, is_sought};

use crate::DEPTH_LIMIT;
use json_pointer::Text;
use serde_json::{Map, Value};
use std::alloc::{AllocError, Global};

/// The kinds of values that are sought.
#[derive(Clone, Copy)]
pub(crate) enum Sought {
    NotWhole,
    NestedClass,
    TooDeep,
}

impl Sought {
    /// Returns whether a value is of this kind, given how many objects are around it and how many arrays in the
    /// nearest.
    fn is(self, objects: u32, arrays: u32, value: &Value) -> bool
        ensures { result ≡ is_sought self (node objects arrays (view value.now)).seen }
    {
        match self {
            Sought::NotWhole => value.is_f64(),
            Sought::NestedClass => arrays > 1 && value.is_object(),
            Sought::TooDeep => objects > DEPTH_LIMIT || (arrays > DEPTH_LIMIT && value.is_array()),
        }
    }
}

/// Returns whether a value is of any kind that is sought.
fn is_refused(objects: u32, arrays: u32, value: &Value) -> bool
    ensures { result ≡ is_refused (node objects arrays (view value.now)).seen }
{
    Sought::NotWhole.is(objects, arrays, value)
        || (Sought::NestedClass.is(objects, arrays, value)
            || Sought::TooDeep.is(objects, arrays, value))
}

/// Returns whether neither the value nor any value inside it is of a kind that is sought. Allocates nothing.
#[cycle(plain)]
pub(crate) fn is_plain(objects: u32, arrays: u32, value: &Value) -> bool
    requires { (objects + arrays) + spec.depth (view value.now) < 2 ^ 32 }
    ensures { result ≡ not (any_at is_refused (nodes objects arrays (view value.now))) }
{
    if is_refused(objects, arrays, value) {
        return false;
    }
    match value {
        Value::Array(items) => are_items_plain(objects, arrays + 1, items),
        Value::Object(members) => are_members_plain(objects + 1, members),
        Value::Null | Value::Bool(_) | Value::Number(_) | Value::String(_) => true,
    }
}

/// The same for the elements of an array.
#[cycle(plain)]
fn are_items_plain(objects: u32, arrays: u32, items: &Vec<Value>) -> bool
    requires { (objects + arrays) + items_depth (items_view items.now.items) < 2 ^ 32 }
    ensures { result ≡ not
        (any_at is_refused (item_nodes objects arrays 0 (items_view items.now.items))) }
{
    for item in items {
        if !is_plain(objects, arrays, item) {
            return false;
        }
    }
    true
}

/// The same for the members of an object.
#[cycle(plain)]
fn are_members_plain(objects: u32, members: &Map<String, Value>) -> bool
    requires { objects + members_depth (members_view members.now.entries) < 2 ^ 32 }
    ensures { result ≡ not
        (any_at is_refused (member_nodes objects (members_view members.now.entries))) }
{
    for (_name, value) in members.iter() {
        if !is_plain(objects, 0, value) {
            return false;
        }
    }
    true
}

/// Returns the pointer of the first value of this kind, at or inside this value. Allocates only if there is one.
#[cycle(seek)]
pub(crate) fn first_in(
    alloc: Global,
    sought: Sought,
    objects: u32,
    arrays: u32,
    value: &Value,
) -> Result<Option<Vec<Text>>, AllocError>
    requires { (objects + arrays) + spec.depth (view value.now) < 2 ^ 32 }
    ensures { IfOk result (λ o. option_map (λ p. p.items) o
        ≡ first_at (is_sought sought) (nodes objects arrays (view value.now))) }
{
    if sought.is(objects, arrays, value) {
        return Ok(Some(Vec::new(alloc)));
    }
    match value {
        Value::Array(items) => first_in_items(alloc, sought, objects, arrays + 1, items),
        Value::Object(members) => first_in_members(alloc, sought, objects + 1, members),
        Value::Null | Value::Bool(_) | Value::Number(_) | Value::String(_) => Ok(None),
    }
}

/// The same for the elements of an array.
#[cycle(seek)]
fn first_in_items(
    alloc: Global,
    sought: Sought,
    objects: u32,
    arrays: u32,
    items: &Vec<Value>,
) -> Result<Option<Vec<Text>>, AllocError>
    requires { (objects + arrays) + items_depth (items_view items.now.items) < 2 ^ 32 }
    ensures { IfOk result (λ o. option_map (λ p. p.items) o
        ≡ first_at (is_sought sought) (item_nodes objects arrays 0 (items_view items.now.items))) }
{
    for (index, item) in items.iter().enumerate() {
        if let Some(pointer) = first_in(alloc, sought, objects, arrays, item)? {
            return below_index(alloc, index, pointer);
        }
    }
    Ok(None)
}

/// The same for the members of an object.
#[cycle(seek)]
fn first_in_members(
    alloc: Global,
    sought: Sought,
    objects: u32,
    members: &Map<String, Value>,
) -> Result<Option<Vec<Text>>, AllocError>
    requires { objects + members_depth (members_view members.now.entries) < 2 ^ 32 }
    ensures { IfOk result (λ o. option_map (λ p. p.items) o
        ≡ first_at (is_sought sought) (member_nodes objects (members_view members.now.entries))) }
{
    for (name, value) in members.iter() {
        if let Some(pointer) = first_in(alloc, sought, objects, 0, value)? {
            return below_name(name, pointer);
        }
    }
    Ok(None)
}

/// Returns the pointer with the place of an element in front.
fn below_index(
    alloc: Global,
    index: usize,
    mut pointer: Vec<Text>,
) -> Result<Option<Vec<Text>>, AllocError>
    ensures { IfOk result (λ o. option_map (λ p. p.items) o ≡
        Some (decimal index ∷ pointer.items)) }
{
    pointer.insert(0, Text::new(format!(in alloc; "{index}")?))?;
    Ok(Some(pointer))
}

/// Returns the pointer with the name of a member in front.
fn below_name(name: &String, mut pointer: Vec<Text>) -> Result<Option<Vec<Text>>, AllocError>
    ensures { IfOk result (λ o.
        option_map (λ p. p.items) o ≡ Some (string_bytes name.now ∷ pointer.items)) }
{
    pointer.insert(0, Text::new(name.clone()?))?;
    Ok(Some(pointer))
}

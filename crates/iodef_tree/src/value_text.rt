//! The texts of JSON values that a line may hold.

ghost use Rattle.std.specs.Prelude.{◌≡◌, ◌&&◌, IfOk};
ghost use Rattle.std.specs.Str.{bytes_eq};
ghost use Rattle.serde_json.specs.Written.{compact_text};
ghost use Rattle.serde_json.specs.View.{view, items_view};
ghost use Rattle.iodef_tree.specs.Texts.{is_plain, are_plain, is_empty, may_be_value, is_value_text};

use crate::DEPTH_LIMIT;
use serde_json::Value;
use std::alloc::{AllocError, Global};

/// Returns whether the text is the compact JSON of a value that a line may hold.
pub(crate) fn is_value_text(alloc: Global, in_array: bool, text: &str) -> Result<bool, AllocError>
    ensures { IfOk result (λ b. b ≡ is_value_text in_array text.now) }
{
    match Value::from_str(alloc, text) {
        Ok(value) => is_text_of(alloc, in_array, &value, text),
        Err(error) => {
            if error.is_memory() {
                return Err(AllocError);
            }
            Ok(false)
        }
    }
}

/// Returns whether the text is the compact JSON of this value, and a line may hold the value.
#[tactic(auto, using(crate::proofs::Steps::is_text_of_steps))]
fn is_text_of(alloc: Global, in_array: bool, value: &Value, text: &str) -> Result<bool, AllocError>
    ensures { IfOk result (λ b. b ≡ (may_be_value in_array (view value.now)
        && bytes_eq (compact_text (view value.now)) text.now)) }
{
    if !may_be_value(in_array, value) {
        return Ok(false);
    }
    let written = value.to_string(alloc)?;
    Ok(written.as_str() == text)
}

/// Returns whether a line may hold this value.
fn may_be_value(in_array: bool, value: &Value) -> bool
    ensures { result ≡ may_be_value in_array (view value.now) }
{
    match value {
        Value::Null | Value::Bool(_) => true,
        Value::Number(number) => !number.is_f64(),
        Value::String(_) | Value::Object(_) => false,
        Value::Array(items) => (is_empty(items) | in_array) && is_plain(DEPTH_LIMIT, value),
    }
}

/// Returns whether an array has no element.
fn is_empty(items: &Vec<Value>) -> bool
    ensures { result ≡ is_empty (items_view items.now.items) }
{
    match items.as_slice() {
        [] => true,
        [_, ..] => false,
    }
}

/// Returns whether the value has no object, no float, and no more than so many arrays one inside the other.
#[cycle(plain)]
fn is_plain(deep: u32, value: &Value) -> bool
    ensures { result ≡ is_plain deep (view value.now) }
{
    match value {
        Value::Null | Value::Bool(_) | Value::String(_) => true,
        Value::Number(number) => !number.is_f64(),
        Value::Array(items) => deep > 0 && are_plain(deep - 1, items),
        Value::Object(_) => false,
    }
}

/// The same for the elements of an array.
#[cycle(plain)]
fn are_plain(deep: u32, items: &Vec<Value>) -> bool
    ensures { result ≡ are_plain deep (items_view items.now.items) }
{
    for item in items {
        if !is_plain(deep, item) {
            return false;
        }
    }
    true
}

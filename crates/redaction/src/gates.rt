//! The gates of a view's case.
ghost use Rattle.std.specs.Prelude.{◌≡◌, IfOk};
ghost use Rattle.std.specs.List.{list_any};
ghost use Rattle.json.specs.Value.{value_view, items_view};
ghost use Rattle.redaction.specs.Readings.{require};
ghost use Rattle.redaction.specs.Values as values;
ghost use Rattle.redaction.specs.Described as spec;

use crate::GATE_LIMIT;
use crate::both::{Read, at, at_member, both, collect, unless};
use crate::fault::Fault;
use crate::place::{Part, Refusal, Step};
use crate::value::{count_of, given_number, number_in, object_in, only, wanted_path};
use iodef_tree::Path;
use json::Value;
use policy::{Gate, Gates};
use std::alloc::{AllocError, Global};

/// Returns the level that a value says.
#[tactic(auto, unfolding(crate::specs::Described::level_in))]
fn level_in(value: &Value<'_>) -> Read<u8>
    ensures { result ≡ spec.level_in (value_view value.now) }
{
    level_of(number_in(value)?)
}

/// Returns a distribution level from 0 to 5. Fails with OutOfRange.
fn level_of(number: u32) -> Read<u8>
    ensures { result ≡ spec.level_of number }
{
    if number <= 5 {
        Ok(number as u8)
    } else {
        Err(Refusal::here(Fault::OutOfRange))
    }
}

/// Returns the level of a gate, which has to be there.
fn wanted_level(value: &Value<'_>) -> Read<u8>
    ensures { result ≡ values.wanted spec.level_in Part.Level (value_view value.now) }
{
    at_member(
        Part::Level,
        match value.get(Part::Level.name()) {
            Some(value) => level_in(value),
            None => Err(Refusal::here(Fault::MissingMember)),
        },
    )
}

/// Returns the level and the group: level 4 names a group, and no other level does.
fn reach_of(level: u8, group: Option<u32>) -> Read<(u8, Option<u32>)>
    ensures { result ≡ spec.reach_of level group }
{
    match group {
        None if level == 4 => at_member(Part::Group, Err(Refusal::here(Fault::MissingMember))),
        Some(_) if level != 4 => at_member(Part::Group, Err(Refusal::here(Fault::OutOfRange))),
        group => Ok((level, group)),
    }
}

/// Returns the level and the group of a gate.
#[tactic(auto, unfolding(crate::specs::Described::reach_in))]
fn reach_in(value: &Value<'_>) -> Read<(u8, Option<u32>)>
    ensures { result ≡ spec.reach_in (value_view value.now) }
{
    let (level, group) = both(wanted_level(value), given_number(value, Part::Group))?;
    reach_of(level, group)
}

/// Returns a gate. Fails with OutOfRange at the root with level 5, which takes the level above.
fn gate_at(path: Path, level: u8, group: Option<u32>) -> Read<Gate>
    ensures { result ≡ spec.gate_at path level group }
{
    if path.tokens().is_empty() && level == 5 {
        return at_member(Part::Level, Err(Refusal::here(Fault::OutOfRange)));
    }
    Ok(Gate { path, level, group })
}

/// Returns the gate that a value says.
#[tactic(auto, unfolding(crate::specs::Described::gate_in))]
fn gate_in(alloc: Global, value: &Value<'_>) -> Result<Read<Gate>, AllocError>
    ensures { IfOk result (λ r. r ≡ spec.gate_in (value_view value.now)) }
{
    if let Err(refusal) = object_in(value) {
        return Ok(Err(refusal));
    }
    let names = only(value, &[Part::Path, Part::Level, Part::Group]);
    let path = wanted_path(alloc, value, Part::Path)?;
    match both(both(names, path), reach_in(value)) {
        Ok((((), path), (level, group))) => Ok(gate_at(path, level, group)),
        Err(refusal) => Ok(Err(refusal)),
    }
}

/// Returns whether the value is a gate whose place is the root.
fn is_root_gate(value: &Value<'_>) -> bool
    ensures { result ≡ spec.is_root_gate (value_view value.now) }
{
    match value.get(Part::Path.name()) {
        Some(path) => path.as_str() == Some(""),
        None => false,
    }
}

/// Returns how many gates are at the root.
fn root_gates(items: &Vec<Value<'_>>) -> usize
    ensures { result ≡ spec.root_gates (items_view items.now.items) }
{
    let mut count = 0;
    for item in items {
        if is_root_gate(item) {
            count += 1;
        }
    }
    count
}

/// Fails with OutOfRange unless one gate is at the root and there are at most [`GATE_LIMIT`] others.
fn are_gates(items: &Vec<Value<'_>>) -> Read<()>
    ensures { result ≡ require (spec.are_gates (items_view items.now.items)) Fault.OutOfRange }
{
    if root_gates(items) == 1 && count_of(items) <= GATE_LIMIT + 1 {
        Ok(())
    } else {
        Err(Refusal::here(Fault::OutOfRange))
    }
}

/// Returns the gates of an array.
fn each_gate(alloc: Global, items: &Vec<Value<'_>>) -> Result<Read<Gates>, AllocError>
    ensures { IfOk result (λ r. r ≡ values.each spec.gate_in (items_view items.now.items)) }
{
    let mut found = Vec::new(alloc);
    let mut first = None;
    let mut place = 0;
    for item in items {
        let gate = at(Step::Item(place), gate_in(alloc, item)?);
        collect(&mut first, &mut found, gate)?;
        place += 1;
    }
    Ok(unless(first, Gates::new(found)))
}

/// Returns whether one of the others is like it.
fn is_among(one: &Gate, others: &[Gate]) -> bool
    ensures { result ≡ list_any (spec.same_place one.now) others.now }
{
    others.iter().any(|other| one.path == other.path)
}

/// Returns whether two of the gates are at one place.
fn has_alike(gates: &[Gate]) -> bool
    ensures { result ≡ spec.has_alike spec.same_place gates.now }
{
    let mut rest = gates;
    for gate in gates {
        rest = &rest[1..];
        if is_among(gate, rest) {
            return true;
        }
    }
    false
}

/// Returns the gates. Fails with OutOfRange if two of them are at one place.
fn apart(gates: Gates) -> Read<Gates>
    ensures { result ≡ spec.gates_apart gates }
{
    if has_alike(gates.as_slice()) {
        return Err(Refusal::here(Fault::OutOfRange));
    }
    Ok(gates)
}

/// Returns the gates that a value says.
#[tactic(auto, unfolding(crate::specs::Described::gates_in))]
fn gates_in(alloc: Global, value: &Value<'_>) -> Result<Read<Gates>, AllocError>
    ensures { IfOk result (λ r. r ≡ spec.gates_in (value_view value.now)) }
{
    let Value::Array(items) = value else {
        return Ok(Err(Refusal::here(Fault::WrongKind)));
    };
    let gates = each_gate(alloc, items)?;
    match both(are_gates(items), gates) {
        Ok(((), gates)) => Ok(apart(gates)),
        Err(refusal) => Ok(Err(refusal)),
    }
}

/// Returns the gates of a case, which have to be there.
pub(crate) fn wanted_gates(alloc: Global, value: &Value<'_>) -> Result<Read<Gates>, AllocError>
    ensures { IfOk result (λ r.
        r ≡ values.wanted spec.gates_in Part.Gates (value_view value.now)) }
{
    let gates = match value.get(Part::Gates.name()) {
        Some(value) => gates_in(alloc, value)?,
        None => Err(Refusal::here(Fault::MissingMember)),
    };
    Ok(at_member(Part::Gates, gates))
}

//! The case of a view.
ghost use Rattle.std.specs.Prelude.{◌≡◌, IfOk};
ghost use Rattle.json.specs.Value.{value_view, items_view};
ghost use Rattle.redaction.specs.Values as values;
ghost use Rattle.redaction.specs.Described as spec;

use crate::both::{Read, at_member, both};
use crate::fault::Fault;
use crate::gates::wanted_gates;
use crate::permissions::given_permissions;
use crate::place::{Part, Refusal};
use crate::value::{given_number, object_in, only, wanted_number};
use json::Value;
use policy::Case;
use std::alloc::{AllocError, Global};

/// Returns the case that a value says, which is an object.
fn case_in(alloc: Global, value: &Value<'_>) -> Result<Read<Case>, AllocError>
    ensures { IfOk result (λ r. r ≡ spec.case_in (value_view value.now)) }
{
    match object_in(value) {
        Ok(()) => case_of(alloc, value),
        Err(refusal) => Ok(Err(refusal)),
    }
}

/// Returns the case that the members of an object say.
#[tactic(auto, unfolding(crate::specs::Described::case_of))]
fn case_of(alloc: Global, value: &Value<'_>) -> Result<Read<Case>, AllocError>
    ensures { IfOk result (λ r. r ≡ spec.case_of (value_view value.now)) }
{
    let names = only(
        value,
        &[
            Part::Source,
            Part::Community,
            Part::Gates,
            Part::Permissions,
        ],
    );
    let whose = both(
        wanted_number(value, Part::Source),
        given_number(value, Part::Community),
    );
    let gates = wanted_gates(alloc, value)?;
    let permissions = given_permissions(alloc, value)?;
    match both(both(names, whose), both(gates, permissions)) {
        Ok((((), (source, community)), (gates, permissions))) => Ok(Ok(Case {
            source,
            community,
            gates,
            permissions,
        })),
        Err(refusal) => Ok(Err(refusal)),
    }
}

/// Returns the case of a view, which has to be there.
pub(crate) fn wanted_case(alloc: Global, value: &Value<'_>) -> Result<Read<Case>, AllocError>
    ensures { IfOk result (λ r.
        r ≡ values.wanted spec.case_in Part.Case (value_view value.now)) }
{
    let case = match value.get(Part::Case.name()) {
        Some(value) => case_in(alloc, value)?,
        None => Err(Refusal::here(Fault::MissingMember)),
    };
    Ok(at_member(Part::Case, case))
}

/// Returns whether one of the permissions says when it ends.
fn some_says_end(items: &Vec<Value<'_>>) -> bool
    ensures { result ≡ spec.some_says_end (items_view items.now.items) }
{
    for item in items {
        if item.get(Part::Until.name()).is_some() {
            return true;
        }
    }
    false
}

/// Returns whether a permission of the view's case says when it ends.
pub(crate) fn has_end(value: &Value<'_>) -> bool
    ensures { result ≡ spec.has_end (value_view value.now) }
{
    let Some(case) = value.get(Part::Case.name()) else {
        return false;
    };
    match case.get(Part::Permissions.name()) {
        Some(Value::Array(items)) => some_says_end(items),
        _ => false,
    }
}

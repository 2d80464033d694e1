//! The moment of a view.
ghost use Rattle.std.specs.Prelude.{◌≡◌, IfOk, option_map};
ghost use Rattle.json.specs.Value.{value_view};
ghost use Rattle.redaction.specs.Described as spec;

use crate::both::{Read, at_member};
use crate::fault::Fault;
use crate::place::{Part, Refusal};
use crate::value::moment_of;
use iodef_tree::Text;
use json::Value;
use std::alloc::{AllocError, Global};

/// A moment in seconds since the beginning of 1970 (UTC), and its text if one says it.
pub(crate) type Said = (i64, Option<Text>);

/// Returns a copy of the text of a moment.
fn copy_of(alloc: Global, text: &str) -> Result<Text, AllocError>
    ensures { IfOk result (λ t. t ≡ text.now) }
{
    Ok(Text::new(String::from_str(alloc, text)?))
}

/// Returns the moment that a value says, with its text.
#[tactic(auto, unfolding(crate::specs::Described::moment_said))]
fn moment_said(alloc: Global, value: &Value<'_>) -> Result<Read<Said>, AllocError>
    ensures { IfOk result (λ r. r ≡ spec.moment_said (value_view value.now)) }
{
    let Some(text) = value.as_str() else {
        return Ok(Err(Refusal::here(Fault::WrongKind)));
    };
    match moment_of(text) {
        Ok(moment) => Ok(Ok((moment, Some(copy_of(alloc, text)?)))),
        Err(refusal) => Ok(Err(refusal)),
    }
}

/// Returns the moment that a value says; if it isn't wanted, the beginning of 1970 if there is none.
fn now_by(
    alloc: Global,
    is_wanted: bool,
    value: Option<&Value<'_>>,
) -> Result<Read<Said>, AllocError>
    ensures { IfOk result (λ r.
        r ≡ spec.now_by is_wanted (option_map (λ v. value_view v.now) value.entry)) }
{
    match value {
        Some(value) => moment_said(alloc, value),
        None if is_wanted => Ok(Err(Refusal::here(Fault::MissingMember))),
        None => Ok(Ok((0, None))),
    }
}

/// Returns the moment of a view.
pub(crate) fn now_in(
    alloc: Global,
    is_wanted: bool,
    value: &Value<'_>,
) -> Result<Read<Said>, AllocError>
    ensures { IfOk result (λ r. r ≡ spec.now_in is_wanted (value_view value.now)) }
{
    let now = now_by(alloc, is_wanted, value.get(Part::Now.name()))?;
    Ok(at_member(Part::Now, now))
}

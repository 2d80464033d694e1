//! Two readings side by side.
ghost use Rattle.std.specs.Prelude.{◌≡◌, OnOk};
ghost use Rattle.redaction.specs.Outcome as outcome;
ghost use Rattle.redaction.specs.Readings.{◌&◌, at, without_place};
ghost use Rattle.redaction.specs.inner.SoFar as spec;

use crate::fault::Fault;
use crate::place::{Part, Refusal, Step};
use std::alloc::AllocError;

/// A value, or a fault with its place. Want of memory is an error around it.
pub(crate) type Read<T> = Result<T, Refusal>;

/// Returns a reading as seen from one step further out.
pub(crate) fn at<A: Drop>(step: Step, reading: Read<A>) -> Read<A>
    ensures { result ≡ at step reading }
{
    match reading {
        Ok(value) => Ok(value),
        Err(refusal) => Err(refusal.inside(step)),
    }
}

/// Returns a reading of a member as seen from the object.
pub(crate) fn at_member<A: Drop>(part: Part, reading: Read<A>) -> Read<A>
    ensures { result ≡ at (Step.Member part) reading }
{
    at(Step::Member(part), reading)
}

/// Returns both values, or the earlier fault in the order. So members are read side by side, and the fault that is
/// returned doesn't depend on where a fault is.
pub(crate) fn both<A: Drop, B: Drop>(one: Read<A>, other: Read<B>) -> Read<(A, B)>
    ensures { result ≡ one & other }
{
    match (one, other) {
        (Ok(a), Ok(b)) => Ok((a, b)),
        (Ok(_a), Err(refusal)) => Err(refusal),
        (Err(refusal), Ok(_b)) => Err(refusal),
        (Err(first), Err(second)) => Err(first.earlier(second)),
    }
}

/// Returns the earlier of the fault so far and one more.
fn noted(first: Option<Refusal>, refusal: Refusal) -> Refusal
    ensures { result ≡ spec.noted first refusal }
{
    match first {
        None => refusal,
        Some(first) => first.earlier(refusal),
    }
}

/// Adds one reading to the fault and the values so far.
pub(crate) fn collect<T: Drop>(
    first: &mut Option<Refusal>,
    found: &mut Vec<T>,
    reading: Read<T>,
) -> Result<(), AllocError>
    ensures { OnOk result ((first.new, found.new.items) ≡
        spec.collected (first.old, found.old.items) reading) }
{
    match reading {
        Ok(value) => found.push(value)?,
        Err(refusal) => *first = Some(noted(*first, refusal)),
    }
    Ok(())
}

/// Returns the value, unless there is a fault.
pub(crate) fn unless<A: Drop>(refusal: Option<Refusal>, value: A) -> Read<A>
    ensures { result ≡ spec.unless refusal value }
{
    match refusal {
        None => Ok(value),
        Some(refusal) => Err(refusal),
    }
}

/// Returns a reading without the place of its fault.
pub(crate) fn answer_of<A: Drop>(reading: Read<A>) -> Result<A, Fault>
    ensures { result ≡ without_place reading }
{
    match reading {
        Ok(value) => Ok(value),
        Err(refusal) => Err(refusal.fault),
    }
}

/// Returns both answers, or the earlier fault in the order.
pub(crate) fn beside<A: Drop, B: Drop>(
    one: Result<A, Fault>,
    other: Result<B, Fault>,
) -> Result<(A, B), Fault>
    ensures { result ≡ outcome.both one other }
{
    match (one, other) {
        (Ok(a), Ok(b)) => Ok((a, b)),
        (Ok(_a), Err(fault)) => Err(fault),
        (Err(fault), Ok(_b)) => Err(fault),
        (Err(first), Err(second)) => Err(first.earlier(second)),
    }
}

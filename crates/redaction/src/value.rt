//! What the JSON values of a view description say.
ghost use Rattle.std.specs.Prelude.{◌≡◌, IfOk, nat_le};
ghost use Rattle.std.specs.List.{list_all};
ghost use Rattle.std.specs.Char.{is_ascii_digit};
ghost use Rattle.json.specs.Value.{value_view, items_view, members_view};
ghost use Rattle.redaction.specs.Readings.{require};
ghost use Rattle.redaction.specs.Values as spec;

use crate::NUMBER_LIMIT;
use crate::both::{Read, at, at_member, both, collect, unless};
use crate::fault::Fault;
use crate::moment::is_written;
use crate::place::{Part, Refusal, Step};
use iodef_tree::{Path, PathFault};
use json::Value;
use policy::{Numbers, read_moment};
use std::alloc::{AllocError, Global};

/// Returns whether a value is an object.
pub(crate) fn is_object(value: &Value<'_>) -> bool
    ensures { result ≡ spec.is_object (value_view value.now) }
{
    matches!(value, Value::Object(_))
}

/// Fails with WrongKind unless the value is an object.
pub(crate) fn object_in(value: &Value<'_>) -> Read<()>
    ensures { result ≡ spec.object_in (value_view value.now) }
{
    if is_object(value) {
        Ok(())
    } else {
        Err(Refusal::here(Fault::WrongKind))
    }
}

/// Returns the truth value that a value is.
fn truth_in(value: &Value<'_>) -> Read<bool>
    ensures { result ≡ spec.truth_in (value_view value.now) }
{
    match value.as_bool() {
        Some(truth) => Ok(truth),
        None => Err(Refusal::here(Fault::WrongKind)),
    }
}

/// Returns whether each byte is a decimal digit.
fn has_digits_alone(text: &[u8]) -> bool
    ensures { result ≡ list_all is_ascii_digit text.now }
{
    text.iter().all(|b| b.is_ascii_digit())
}

/// Returns whether a text has decimal digits only, and at least one.
fn is_whole(text: &[u8]) -> bool
    ensures { result ≡ spec.is_whole text.now }
{
    !text.is_empty() && has_digits_alone(text)
}

/// Returns a whole number below 2^32, written without a sign, a fraction or an exponent. Fails with OutOfRange.
fn whole(text: &str) -> Read<u32>
    ensures { result ≡ spec.whole text.now }
{
    if !is_whole(text.as_bytes()) {
        return Err(Refusal::here(Fault::OutOfRange));
    }
    match text.parse::<u32>() {
        Ok(number) => Ok(number),
        Err(_) => Err(Refusal::here(Fault::OutOfRange)),
    }
}

/// Returns the whole number that a value is.
#[tactic(auto, unfolding(crate::specs::Values::number_in))]
pub(crate) fn number_in(value: &Value<'_>) -> Read<u32>
    ensures { result ≡ spec.number_in (value_view value.now) }
{
    match value.as_number() {
        Some(text) => whole(text),
        None => Err(Refusal::here(Fault::WrongKind)),
    }
}

/// Returns the path of which the text is the JSON pointer.
pub(crate) fn path_of(alloc: Global, text: &str) -> Result<Read<Path>, AllocError>
    ensures { IfOk result (λ r. r ≡ spec.path_of text.now) }
{
    match Path::parse(alloc, text) {
        Ok(path) => Ok(Ok(path)),
        Err(PathFault::BadPath) => Ok(Err(Refusal::here(Fault::BadPointer))),
        Err(PathFault::NoMemory) => Err(AllocError),
    }
}

/// Returns the path that a value says.
#[tactic(auto, unfolding(crate::specs::Values::path_in))]
fn path_in(alloc: Global, value: &Value<'_>) -> Result<Read<Path>, AllocError>
    ensures { IfOk result (λ r. r ≡ spec.path_in (value_view value.now)) }
{
    match value.as_str() {
        Some(text) => path_of(alloc, text),
        None => Ok(Err(Refusal::here(Fault::WrongKind))),
    }
}

/// Returns the moment that a value says.
#[tactic(auto, unfolding(crate::specs::Values::moment_from))]
pub(crate) fn moment_from(value: &Value<'_>) -> Read<i64>
    ensures { result ≡ spec.moment_from (value_view value.now) }
{
    match value.as_str() {
        Some(text) => moment_of(text),
        None => Err(Refusal::here(Fault::WrongKind)),
    }
}

/// Returns the moment that a text gives, in seconds since the beginning of 1970 (UTC). Fails with BadMoment also if
/// the text isn't written by RFC 3339 section 5.6.
pub(crate) fn moment_of(text: &str) -> Read<i64>
    ensures { result ≡ spec.moment_of text.now }
{
    if !is_written(text) {
        return Err(Refusal::here(Fault::BadMoment));
    }
    match read_moment(text) {
        Ok(moment) => Ok(moment),
        Err(_) => Err(Refusal::here(Fault::BadMoment)),
    }
}

/// Returns whether a name is that of one of these members.
fn is_one_of(known: &[Part], name: &str) -> bool
    ensures { result ≡ spec.is_one_of known.now name.now }
{
    known.iter().any(|part| part.name() == name)
}

/// Fails with UnknownMember at the first member of an object that is none of these.
pub(crate) fn only(value: &Value<'_>, known: &[Part]) -> Read<()>
    ensures { result ≡ spec.only known.now (value_view value.now) }
{
    match value {
        Value::Object(members) => only_among(members, known),
        _ => Ok(()),
    }
}

/// The same for the members of an object.
fn only_among<'a>(members: &Vec<(&'a str, Value<'a>)>, known: &[Part]) -> Read<()>
    ensures { result ≡ spec.only_from known.now 0 (members_view members.now.items) }
{
    let mut place = 0;
    for (name, _value) in members {
        if !is_one_of(known, name) {
            return Err(Refusal::here(Fault::UnknownMember).inside(Step::Nth(place)));
        }
        place += 1;
    }
    Ok(())
}

/// Returns the number of a member, which has to be there.
pub(crate) fn wanted_number(value: &Value<'_>, part: Part) -> Read<u32>
    ensures { result ≡ spec.wanted spec.number_in part (value_view value.now) }
{
    at_member(
        part,
        match value.get(part.name()) {
            Some(value) => number_in(value),
            None => Err(Refusal::here(Fault::MissingMember)),
        },
    )
}

/// Returns the number that a value is, as one that is there.
fn some_number(value: &Value<'_>) -> Read<Option<u32>>
    ensures { result ≡ spec.some_in spec.number_in (value_view value.now) }
{
    Ok(Some(number_in(value)?))
}

/// Returns the number of a member, if it is there.
pub(crate) fn given_number(value: &Value<'_>, part: Part) -> Read<Option<u32>>
    ensures { result ≡ spec.given spec.number_in part (value_view value.now) }
{
    at_member(
        part,
        match value.get(part.name()) {
            Some(value) => some_number(value),
            None => Ok(None),
        },
    )
}

/// Returns the number of a member, or 0.
pub(crate) fn number_or_zero(value: &Value<'_>, part: Part) -> Read<u32>
    ensures { result ≡ spec.given_or 0 spec.number_in part (value_view value.now) }
{
    at_member(
        part,
        match value.get(part.name()) {
            Some(value) => number_in(value),
            None => Ok(0),
        },
    )
}

/// Returns the path of a member, which has to be there.
pub(crate) fn wanted_path(
    alloc: Global,
    value: &Value<'_>,
    part: Part,
) -> Result<Read<Path>, AllocError>
    ensures { IfOk result (λ r.
        r ≡ spec.wanted spec.path_in part (value_view value.now)) }
{
    let path = match value.get(part.name()) {
        Some(value) => path_in(alloc, value)?,
        None => Err(Refusal::here(Fault::MissingMember)),
    };
    Ok(at_member(part, path))
}

/// Returns the moment that a value says, as one that is there.
fn some_moment(value: &Value<'_>) -> Read<Option<i64>>
    ensures { result ≡ spec.some_in spec.moment_from (value_view value.now) }
{
    Ok(Some(moment_from(value)?))
}

/// Returns the moment of a member, if it is there.
pub(crate) fn given_moment(value: &Value<'_>, part: Part) -> Read<Option<i64>>
    ensures { result ≡ spec.given spec.moment_from part (value_view value.now) }
{
    at_member(
        part,
        match value.get(part.name()) {
            Some(value) => some_moment(value),
            None => Ok(None),
        },
    )
}

/// Returns the truth of a member; false if it is missing.
pub(crate) fn flag(value: &Value<'_>, part: Part) -> Read<bool>
    ensures { result ≡ spec.flag part (value_view value.now) }
{
    at_member(
        part,
        match value.get(part.name()) {
            Some(value) => truth_in(value),
            None => Ok(false),
        },
    )
}

/// Returns how many elements there are.
pub(crate) fn count_of(items: &Vec<Value<'_>>) -> usize
    ensures { result ≡ spec.count_of (items_view items.now.items) }
{
    items.as_slice().len()
}

/// Returns the whole numbers of an array.
fn each_number(alloc: Global, items: &Vec<Value<'_>>) -> Result<Read<Numbers>, AllocError>
    ensures { IfOk result (λ r. r ≡ spec.each spec.number_in (items_view items.now.items)) }
{
    let mut found = Vec::new(alloc);
    let mut first = None;
    let mut place = 0;
    for item in items {
        collect(
            &mut first,
            &mut found,
            at(Step::Item(place), number_in(item)),
        )?;
        place += 1;
    }
    Ok(unless(first, Numbers::new(found)))
}

/// Fails with OutOfRange above [`NUMBER_LIMIT`].
fn are_numbers(items: &Vec<Value<'_>>) -> Read<()>
    ensures { result ≡
        require (nat_le (spec.count_of (items_view items.now.items)) NUMBER_LIMIT) Fault.OutOfRange }
{
    if count_of(items) <= NUMBER_LIMIT {
        Ok(())
    } else {
        Err(Refusal::here(Fault::OutOfRange))
    }
}

/// Returns the whole numbers that a value says.
#[tactic(auto, unfolding(crate::specs::Values::numbers_in))]
fn numbers_in(alloc: Global, value: &Value<'_>) -> Result<Read<Numbers>, AllocError>
    ensures { IfOk result (λ r. r ≡ spec.numbers_in (value_view value.now)) }
{
    let Value::Array(items) = value else {
        return Ok(Err(Refusal::here(Fault::WrongKind)));
    };
    let numbers = each_number(alloc, items)?;
    match both(are_numbers(items), numbers) {
        Ok(((), numbers)) => Ok(Ok(numbers)),
        Err(refusal) => Ok(Err(refusal)),
    }
}

/// Returns the whole numbers of a member; none if it is missing.
pub(crate) fn numbers_under(
    alloc: Global,
    value: &Value<'_>,
    part: Part,
) -> Result<Read<Numbers>, AllocError>
    ensures { IfOk result (λ r. r ≡ spec.numbers_under part (value_view value.now)) }
{
    let numbers = match value.get(part.name()) {
        Some(value) => numbers_in(alloc, value)?,
        None => Ok(Numbers::new(Vec::new(alloc))),
    };
    Ok(at_member(part, numbers))
}

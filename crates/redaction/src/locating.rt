//! The first fault of a view description and a report, with its place.
ghost use Rattle.std.specs.Prelude.{◌≡◌, ◌≢◌, [], IfOk, not, option_map, decimal};
ghost use Rattle.std.specs.List.{position_from};
ghost use Rattle.json.specs.Value.{value_view, items_view, members_view};
ghost use Rattle.iodef_tree.specs.Paths.{located};
ghost use Rattle.iodef_tree.specs.Reading.{reading};
ghost use Rattle.marking.specs.Marks.{first_bad_marking};
ghost use Rattle.redaction.specs.Asked.{gate_stands, permission_stands};
ghost use Rattle.redaction.specs.Described.{described_at, undoubled};
ghost use Rattle.redaction.specs.Outcome.{Yields, YieldsAs};
ghost use Rattle.redaction.specs.Places as places;
ghost use Rattle.redaction.specs.Locating as spec;

use crate::asked::{gate_stands, permission_stands};
use crate::fault::{Fault, of_report};
use crate::place::{Part, Place, Refusal, Step};
use crate::view::{View, parse, read_view};
use iodef_tree::{Document, Path, ReadFault, Text};
use json::{Scratch, Value};
use marking::{MarkingFault, check};
use policy::{Case, Gate, Permission};
use std::alloc::{AllocError, Global};

/// A fault, and its place.
#[derive(Drop)]
struct Found {
    fault: Fault,
    place: Path,
}

/// Returns the name of the member at a place, or an empty text.
fn nth_name<'a>(members: &Vec<(&'a str, Value<'a>)>, place: usize) -> &'a str
    ensures { result.now ≡ places.nth_name (members_view members.now.items) place }
{
    let mut left = place;
    for (name, _value) in members {
        if left == 0 {
            return name;
        }
        left -= 1;
    }
    ""
}

/// Returns the item of an array at a place.
fn nth_item<'v, 'a>(items: &'v Vec<Value<'a>>, place: usize) -> Option<&'v Value<'a>>
    ensures { option_map (λ v. value_view v.now) result ≡ places.nth_item (items_view items.now.items) place }
{
    let mut left = place;
    for item in items {
        if left == 0 {
            return Some(item);
        }
        left -= 1;
    }
    None
}

/// Returns a copy of a text.
fn copy_of(alloc: Global, text: &str) -> Result<Text, AllocError>
    ensures { IfOk result (λ t. t ≡ text.now) }
{
    Ok(Text::new(String::from_str(alloc, text)?))
}

/// Returns the digits of a place.
fn digits_of(alloc: Global, place: usize) -> Result<Text, AllocError>
    ensures { IfOk result (λ t. t ≡ decimal place) }
{
    let mut buffer = itoa::Buffer::new();
    copy_of(alloc, buffer.format(place))
}

/// Returns the reference token of a step from a value.
fn token_of(alloc: Global, step: Step, value: &Value<'_>) -> Result<Text, AllocError>
    ensures { IfOk result (λ t. t ≡ places.token_of step (value_view value.now)) }
{
    match step {
        Step::Member(part) => copy_of(alloc, part.name()),
        Step::Item(place) => digits_of(alloc, place),
        Step::Nth(place) => match value {
            Value::Object(members) => copy_of(alloc, nth_name(members, place)),
            _ => copy_of(alloc, ""),
        },
    }
}

/// Returns the value to which a step leads, if there is one.
fn value_at<'v, 'a>(step: Step, value: &'v Value<'a>) -> Option<&'v Value<'a>>
    ensures { option_map (λ v. value_view v.now) result ≡ places.value_at step (value_view value.now) }
{
    match step {
        Step::Member(part) => value.get(part.name()),
        Step::Item(place) => match value {
            Value::Array(items) => nth_item(items, place),
            _ => None,
        },
        Step::Nth(_) => None,
    }
}

/// Adds the token of a step, if there is one, and returns the value to which it leads.
fn after_step<'v, 'a>(
    alloc: Global,
    tokens: &mut Vec<Text>,
    value: Option<&'v Value<'a>>,
    step: Option<Step>,
) -> Result<Option<&'v Value<'a>>, AllocError>
    ensures { IfOk result (λ o. (tokens.new.items, option_map (λ v. value_view v.now) o) ≡
        places.after_step step (tokens.old.items, option_map (λ v. value_view v.now) value.entry)) }
{
    match (step, value) {
        (Some(step), Some(value)) => {
            tokens.push(token_of(alloc, step, value)?)?;
            Ok(value_at(step, value))
        }
        (_, value) => Ok(value),
    }
}

/// Returns the path of a place in a view description.
fn path_of(alloc: Global, place: Place, value: &Value<'_>) -> Result<Path, AllocError>
    ensures { IfOk result (λ p. p ≡ places.tokens_at place (value_view value.now)) }
{
    let mut tokens = Vec::new(alloc);
    let at = after_step(alloc, &mut tokens, Some(value), place.first)?;
    let at = after_step(alloc, &mut tokens, at, place.second)?;
    let at = after_step(alloc, &mut tokens, at, place.third)?;
    after_step(alloc, &mut tokens, at, place.fourth)?;
    Ok(Path::new(tokens))
}

/// Returns the root's path, for a view description that isn't a value. Fails if memory ran out.
fn path_without(alloc: Global, refusal: Refusal) -> Result<Path, AllocError>
    ensures ok { IfOk result (λ p. p ≡ []) }
    ensures memory { IfOk result (λ p. refusal.fault ≢ Fault.NoMemory) }
{
    match refusal.fault {
        Fault::NoMemory => Err(AllocError),
        _ => Ok(Path::root(alloc)),
    }
}

/// Returns the path of a place in a view description that is read once more, as it is only asked after a fault.
fn path_in(alloc: Global, place: Place, description: &[u8]) -> Result<Path, AllocError>
    ensures { IfOk result (λ p. p ≡ spec.tokens_in place (undoubled description.now)) }
{
    let mut scratch = Scratch::new(alloc);
    match parse(alloc, description, &mut scratch) {
        Ok(value) => path_of(alloc, place, &value),
        Err(refusal) => path_without(alloc, refusal),
    }
}

/// Returns where in a report a fault of reading is.
fn read_place(alloc: Global, fault: ReadFault) -> Result<Path, AllocError>
    ensures { IfOk result (λ p. p ≡ spec.read_place fault) }
{
    match fault {
        ReadFault::Missing(path, member) => path.member(alloc, member.name()),
        ReadFault::NotWhole(path) => Ok(path),
        ReadFault::NestedClass(path) => Ok(path),
        ReadFault::NotJson | ReadFault::NotDocument => Ok(Path::root(alloc)),
        ReadFault::TooDeep | ReadFault::TooManyLines => Ok(Path::root(alloc)),
        ReadFault::NoMemory => Ok(Path::root(alloc)),
    }
}

/// Returns whether a token is this text.
fn is_token(tokens: &[Text], place: usize, text: &str) -> bool
    ensures { result ≡ spec.is_token tokens.now place text.now }
{
    match tokens.get(place) {
        Some(token) => token.as_str() == text,
        None => false,
    }
}

/// Returns the path in a report of a class of its document at this place.
fn in_report(alloc: Global, place: usize, path: Path) -> Result<Path, AllocError>
    ensures { IfOk result (λ p. p ≡ spec.in_report place path) }
{
    let mut tokens = path.into_tokens();
    if is_token(tokens.as_slice(), 0, "Incident") && is_token(tokens.as_slice(), 1, "0") {
        tokens[1] = digits_of(alloc, place)?;
    }
    Ok(Path::new(tokens))
}

/// Returns the path of the first class of a document that breaks the marking rule.
fn bad_class(alloc: Global, document: &Document) -> Result<Option<Path>, AllocError>
    ensures { IfOk result (λ o. o ≡ first_bad_marking (located document.now)) }
{
    match check(alloc, document) {
        Ok(()) => Ok(None),
        Err(MarkingFault::BadMarking(path)) => Ok(Some(path)),
        Err(MarkingFault::NoMemory) => Err(AllocError),
    }
}

/// Returns the path in a report of the first class of its documents that breaks the marking rule.
fn bad_class_in(alloc: Global, documents: &[Document]) -> Result<Option<Path>, AllocError>
    ensures { IfOk result (λ o. o ≡ spec.bad_class_from 0 documents.now) }
{
    let mut place = 0;
    for document in documents {
        if let Some(path) = bad_class(alloc, document)? {
            return Ok(Some(in_report(alloc, place, path)?));
        }
        place += 1;
    }
    Ok(None)
}

/// Returns the place of the path of a case's gate or permission, by its number.
fn path_at(alloc: Global, part: Part, place: usize) -> Result<Path, AllocError>
    ensures { IfOk result (λ p. p ≡ spec.path_at part place) }
{
    let mut tokens = Vec::new(alloc);
    tokens.push(copy_of(alloc, Part::Case.name())?)?;
    tokens.push(copy_of(alloc, part.name())?)?;
    tokens.push(digits_of(alloc, place)?)?;
    tokens.push(copy_of(alloc, Part::Path.name())?)?;
    Ok(Path::new(tokens))
}

/// Returns the number of the first gate that is neither at the root nor at a class.
fn stray_gate(document: &Document, gates: &[Gate]) -> Option<usize>
    ensures { result ≡ position_from (λ g. not (gate_stands (located document.now) g)) 0 gates.now }
{
    let mut place = 0;
    for gate in gates {
        if !gate_stands(document, gate) {
            return Some(place);
        }
        place += 1;
    }
    None
}

/// Returns the number of the first permission at no class.
fn stray_permission(document: &Document, permissions: &[Permission]) -> Option<usize>
    ensures { result ≡ position_from (λ x. not (permission_stands (located document.now) x)) 0 permissions.now }
{
    let mut place = 0;
    for permission in permissions {
        if !permission_stands(document, permission) {
            return Some(place);
        }
        place += 1;
    }
    None
}

/// Returns the place of the first gate that is neither at the root nor at a class, or else of the first permission at
/// no class.
fn stray(alloc: Global, document: &Document, case: &Case) -> Result<Option<Path>, AllocError>
    ensures { IfOk result (λ o. o ≡ spec.stray (located document.now) case.now) }
{
    if let Some(place) = stray_gate(document, case.gates.as_slice()) {
        return Ok(Some(path_at(alloc, Part::Gates, place)?));
    }
    match stray_permission(document, case.permissions.as_slice()) {
        Some(place) => Ok(Some(path_at(alloc, Part::Permissions, place)?)),
        None => Ok(None),
    }
}

/// Returns the first fault of an Incident's document, or of none, under a case.
fn found_in(
    alloc: Global,
    document: Option<&Document>,
    case: &Case,
) -> Result<Option<Found>, AllocError>
    ensures { IfOk result (λ o. option_map spec.found o ≡
        spec.found_in (option_map (λ d. d.now) document.entry) case.now) }
{
    let Some(document) = document else {
        let mut tokens = Vec::new(alloc);
        tokens.push(copy_of(alloc, Part::Incident.name())?)?;
        return Ok(Some(Found {
            fault: Fault::NoIncident,
            place: Path::new(tokens),
        }));
    };
    match stray(alloc, document, case)? {
        Some(place) => Ok(Some(Found {
            fault: Fault::NoClass,
            place,
        })),
        None => Ok(None),
    }
}

/// Returns the first fault of the documents of a report.
fn found_among(
    alloc: Global,
    documents: &[Document],
    view: &View,
) -> Result<Option<Found>, AllocError>
    ensures { IfOk result (λ o. option_map spec.found o ≡ spec.found_among documents.now view.now) }
{
    if let Some(place) = bad_class_in(alloc, documents)? {
        return Ok(Some(Found {
            fault: Fault::BadMarking,
            place,
        }));
    }
    found_in(alloc, documents.get(view.incident as usize), &view.case)
}

/// Returns the first fault of a report.
fn found_of(alloc: Global, report: &[u8], view: &View) -> Result<Option<Found>, AllocError>
    ensures { IfOk result (λ o. option_map spec.found o ≡ spec.found_of (reading report.now) view.now) }
{
    match Document::read(alloc, report) {
        Ok(documents) => found_among(alloc, documents.as_slice(), view),
        Err(ReadFault::NoMemory) => Err(AllocError),
        Err(fault) => Ok(Some(Found {
            fault: of_report(&fault),
            place: read_place(alloc, fault)?,
        })),
    }
}

/// Returns the first fault of a view description, or else of the report.
fn found_by(
    alloc: Global,
    is_dated: bool,
    report: &[u8],
    description: &[u8],
) -> Result<Option<Found>, AllocError>
    ensures { IfOk result (λ o. option_map spec.found o ≡
        spec.found_by report.now description.now (described_at is_dated description.now)) }
{
    match read_view(alloc, is_dated, description) {
        Ok(view) => found_of(alloc, report, &view),
        Err(refusal) => match refusal.fault {
            Fault::NoMemory => Err(AllocError),
            fault => Ok(Some(Found {
                fault,
                place: path_in(alloc, refusal.place, description)?,
            })),
        },
    }
}

/// Returns the text of a fault and its place.
fn text_of(alloc: Global, found: &Found) -> Result<Vec<u8>, AllocError>
    ensures { IfOk result (λ v. v.items ≡ spec.found_text (Some (spec.found found.now))) }
{
    let mut buffer = itoa::Buffer::new();
    let mut text = String::from_str(alloc, buffer.format(found.fault.number()))?;
    text.push_str(" ")?;
    let pointer = found.place.print(alloc)?;
    text.push_str(pointer.as_str())?;
    Ok(text.into_bytes())
}

/// Returns the first fault of a view description and a report, with its place: the fault's number, a space, and a JSON
/// pointer into the description, or into the report if it is a fault of that. If there are several, the first in the
/// order of [`Fault`] is returned. The text is empty if there is none. `is_dated` says whether the moment of the view
/// is wanted, as by [`excerpt_whole`](crate::excerpt_whole).
///
/// The pointer is empty if the whole text is at fault, also for `DoubledMember`, `TooDeep` and `TooManyLines`.
/// `NoIncident` and `NoClass` are at a place of the description. Fails with NoMemory alone.
#[tactic(auto, unfolding(crate::specs::Locating::first_fault_text))]
pub fn first_fault(
    alloc: Global,
    is_dated: bool,
    report: &[u8],
    description: &[u8],
) -> Result<Vec<u8>, Fault>
    ensures { YieldsAs (λ v. v.items) result
        (Ok (spec.first_fault_text is_dated report.now description.now)) }
{
    match found_by(alloc, is_dated, report, description)? {
        Some(found) => Ok(text_of(alloc, &found)?),
        None => Ok(Vec::new(alloc)),
    }
}

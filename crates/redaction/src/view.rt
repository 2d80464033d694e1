//! What a view description says.
ghost use Rattle.std.specs.Prelude.{◌≡◌, ◌||◌, IfOk};
ghost use Rattle.json.specs.Value.{value_view};
ghost use Rattle.redaction.specs.Readings.{Reads, ReadsAs, at, require};
ghost use Rattle.redaction.specs.Described as spec;

use crate::both::{Read, at_member, both};
use crate::case::{has_end, wanted_case};
use crate::fault::Fault;
use crate::now::{Said, now_in};
use crate::place::{Part, Refusal, Step};
use crate::reader::wanted_reader;
use crate::short::short_in;
use crate::value::{is_object, number_or_zero, only};
use iodef_tree::Text;
use json::{Error, Scratch, Value};
use policy::{Case, Standing};
use std::alloc::{AllocError, Global};

/// The reader for whom a report is redacted, and the case.
#[derive(Drop)]
pub(crate) struct View {
    /// The place of the Incident in the report, from 0 on.
    pub(crate) incident: u32,
    /// The case that the Incident is judged by.
    pub(crate) case: Case,
    /// The reader, at the moment of the view.
    pub(crate) reader: Standing,
    /// The text of the moment, if the description says one.
    pub(crate) said: Option<Text>,
}

/// The parts of a view.
type Parts = (((), (Said, u32)), (Case, Standing));

/// Returns whether two truths are the same.
fn same_truth(one: bool, other: bool) -> bool
    ensures { result ≡ spec.same_truth one other }
{
    if one { other } else { !other }
}

/// Fails with OutOfRange unless a peer is one that the case can have: of a community of the source, if the case names
/// none.
fn check_peer(case: &Case, reader: &Standing) -> Read<()>
    ensures { result ≡ at (Step.Member Part.Peer) (require (spec.is_peer_right case.now reader.entry.now) Fault.OutOfRange) }
{
    if case.community.is_some() || same_truth(reader.peer, reader.community) {
        return Ok(());
    }
    at_member(Part::Peer, Err(Refusal::here(Fault::OutOfRange)))
}

/// Fails with SourceUnsaid unless the reader is said to be of the source exactly if its organisation is the source. It
/// would see less than in a hub, without a word, or more.
fn check_source(case: &Case, reader: &Standing) -> Read<()>
    ensures { result ≡ at (Step.Member Part.Source) (require (spec.is_source_right case.now reader.entry.now) Fault.SourceUnsaid) }
{
    if same_truth(reader.source, reader.org == case.source) {
        return Ok(());
    }
    at_member(Part::Source, Err(Refusal::here(Fault::SourceUnsaid)))
}

/// Fails if the reader is none that the case can have.
fn fits_case(case: &Case, reader: &Standing) -> Read<()>
    ensures { result ≡ spec.fits_case case.now reader.entry.now }
{
    let both = both(check_peer(case, reader), check_source(case, reader));
    match at_member(Part::Reader, both) {
        Ok(((), ())) => Ok(()),
        Err(refusal) => Err(refusal),
    }
}

/// Returns the view of these parts. Fails if the reader is none that the case can have.
fn view_read(parts: Read<Parts>) -> Read<View>
    ensures { result ≡ spec.view_read parts }
{
    match parts {
        Ok((((), ((now, said), incident)), (case, mut reader))) => {
            fits_case(&case, &reader)?;
            reader.now = now;
            Ok(View {
                incident,
                case,
                reader,
                said,
            })
        }
        Err(refusal) => Err(refusal),
    }
}

/// Returns whether the moment is wanted: by the caller, or as a permission has an end.
fn is_moment_wanted(is_dated: bool, value: &Value<'_>) -> bool
    ensures { result ≡ (is_dated || spec.has_end (value_view value.now)) }
{
    is_dated || has_end(value)
}

/// Returns the view that an object in the long form says. Its moment is wanted if a permission has an end, or if
/// `is_dated`.
fn long_in(alloc: Global, is_dated: bool, value: &Value<'_>) -> Result<Read<View>, AllocError>
    ensures { IfOk result (λ r. r ≡ spec.long_in is_dated (value_view value.now)) }
{
    let names = only(
        value,
        &[Part::Now, Part::Incident, Part::Case, Part::Reader],
    );
    let now = now_in(alloc, is_moment_wanted(is_dated, value), value)?;
    let when = both(now, number_or_zero(value, Part::Incident));
    let case = wanted_case(alloc, value)?;
    let reader = wanted_reader(alloc, value)?;
    Ok(view_read(both(both(names, when), both(case, reader))))
}

/// Returns the view that an object says: in the short form if it has a clearance, else in the long one.
fn view_in(alloc: Global, is_dated: bool, value: &Value<'_>) -> Result<Read<View>, AllocError>
    ensures { IfOk result (λ r. r ≡ spec.view_in is_dated (value_view value.now)) }
{
    if value.get(Part::Clearance.name()).is_some() {
        short_in(alloc, is_dated, value)
    } else {
        long_in(alloc, is_dated, value)
    }
}

/// Returns the view that a value says, which is an object.
fn view_from(alloc: Global, is_dated: bool, value: &Value<'_>) -> Result<View, Refusal>
    ensures { Reads result (spec.view_from is_dated (value_view value.now)) }
{
    if !is_object(value) {
        return Err(Refusal::here(Fault::NotObject));
    }
    view_in(alloc, is_dated, value)?
}

/// Returns the view that a description says, whose moment is wanted if `is_dated`. Fails with its first fault and the
/// place of that.
#[tactic(auto, unfolding(crate::specs::Described::described_at))]
pub(crate) fn read_view(alloc: Global, is_dated: bool, description: &[u8]) -> Result<View, Refusal>
    ensures { Reads result (spec.described_at is_dated description.now) }
{
    let mut scratch = Scratch::new(alloc);
    let value = parse(alloc, description, &mut scratch)?;
    view_from(alloc, is_dated, &value)
}

/// Returns the JSON value of the text, in which no object has a member twice.
pub(crate) fn parse<'a>(
    alloc: Global,
    description: &'a [u8],
    scratch: &'a mut Scratch,
) -> Result<Value<'a>, Refusal>
    ensures { ReadsAs value_view result (spec.undoubled description.now) }
{
    match std::str::from_utf8(description) {
        Ok(text) => parse_text(alloc, text, scratch),
        Err(_) => Err(Refusal::here(Fault::ViewNotJson)),
    }
}

/// The same of a text that is UTF-8.
fn parse_text<'a>(
    alloc: Global,
    text: &'a str,
    scratch: &'a mut Scratch,
) -> Result<Value<'a>, Refusal>
    ensures { ReadsAs value_view result (spec.undoubled text.now) }
{
    match Value::parse_strict(alloc, text, scratch) {
        Ok(value) => Ok(value),
        Err(Error::Invalid) => Err(Refusal::here(Fault::ViewNotJson)),
        Err(Error::DuplicateKey) => Err(Refusal::here(Fault::DoubledMember)),
        Err(Error::OutOfMemory | Error::TooLong) => Err(Refusal::here(Fault::NoMemory)),
    }
}

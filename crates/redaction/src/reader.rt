//! The reader of a view.
ghost use Rattle.std.specs.Prelude.{◌≡◌, IfOk, is_some};
ghost use Rattle.json.specs.Value.{value_view};
ghost use Rattle.redaction.specs.Values as values;
ghost use Rattle.redaction.specs.Described as spec;

use crate::both::{Read, at_member, both};
use crate::fault::Fault;
use crate::place::{Part, Refusal};
use crate::value::{flag, numbers_under, object_in, only, wanted_number};
use json::Value;
use marking::Handling;
use policy::{Numbers, Standing};
use std::alloc::{AllocError, Global};

/// The truths of a reader.
#[derive(Clone, Copy)]
pub(crate) struct Flags {
    pub(crate) source: bool,
    pub(crate) person: bool,
    pub(crate) nominated: bool,
    pub(crate) addressed: bool,
    pub(crate) client: bool,
    pub(crate) community: bool,
    pub(crate) peer: bool,
    pub(crate) connected: bool,
}

/// The groups and communities of a reader's organisation.
#[derive(Drop)]
pub(crate) struct Lists {
    pub(crate) groups: Numbers,
    pub(crate) active_groups: Numbers,
    pub(crate) communities: Numbers,
}

/// Returns the truths of a reader; each one that is missing is false.
#[tactic(auto, unfolding(crate::specs::Described::flags_in))]
fn flags_in(value: &Value<'_>) -> Read<Flags>
    ensures { result ≡ spec.flags_in (value_view value.now) }
{
    let source = flag(value, Part::Source)?;
    let person = flag(value, Part::Person)?;
    let nominated = flag(value, Part::Nominated)?;
    let addressed = flag(value, Part::Addressed)?;
    let client = flag(value, Part::Client)?;
    let community = flag(value, Part::Community)?;
    let peer = flag(value, Part::Peer)?;
    let connected = flag(value, Part::Connected)?;
    Ok(Flags {
        source,
        person,
        nominated,
        addressed,
        client,
        community,
        peer,
        connected,
    })
}

/// Fails with OutOfRange unless each active group is among the groups.
fn require_active(groups: &Numbers, active: &Numbers) -> Read<()>
    ensures { result ≡ spec.require_active groups.now active.now }
{
    for number in active.as_slice() {
        if !groups.contains(*number) {
            return at_member(Part::ActiveGroups, Err(Refusal::here(Fault::OutOfRange)));
        }
    }
    Ok(())
}

/// Returns the lists, unless an active group isn't among the groups.
fn with_active(lists: Lists) -> Read<Lists>
    ensures { result ≡ spec.with_active lists }
{
    match require_active(&lists.groups, &lists.active_groups) {
        Ok(()) => Ok(lists),
        Err(refusal) => Err(refusal),
    }
}

/// Returns the lists of a reader; each one that is missing is empty.
#[tactic(auto, unfolding(crate::specs::Described::lists_in))]
fn lists_in(alloc: Global, value: &Value<'_>) -> Result<Read<Lists>, AllocError>
    ensures { IfOk result (λ r. r ≡ spec.lists_in (value_view value.now)) }
{
    let groups = numbers_under(alloc, value, Part::Groups)?;
    let active_groups = numbers_under(alloc, value, Part::ActiveGroups)?;
    let communities = numbers_under(alloc, value, Part::Communities)?;
    match both(both(groups, active_groups), communities) {
        Ok(((groups, active_groups), communities)) => Ok(with_active(Lists {
            groups,
            active_groups,
            communities,
        })),
        Err(refusal) => Ok(Err(refusal)),
    }
}

/// Returns the handling with this name, or with this label of TLP. Returns `None` for any other text.
#[tactic(auto, unfolding(crate::specs::Described::handling_of_name))]
fn handling_of_name(text: &str) -> Option<Handling>
    ensures { result ≡ spec.handling_of_name text.now }
{
    if text == "CLEAR" {
        Some(Handling::Clear)
    } else if text == "GREEN" {
        Some(Handling::Green)
    } else if text == "AMBER" {
        Some(Handling::Amber)
    } else if text == "STRICT" {
        Some(Handling::Strict)
    } else if text == "RED" {
        Some(Handling::Red)
    } else if text == "TLP:CLEAR" {
        Some(Handling::Clear)
    } else if text == "TLP:WHITE" {
        Some(Handling::Clear)
    } else if text == "TLP:GREEN" {
        Some(Handling::Green)
    } else if text == "TLP:AMBER" {
        Some(Handling::Amber)
    } else if text == "TLP:AMBER+STRICT" {
        Some(Handling::Strict)
    } else if text == "TLP:RED" {
        Some(Handling::Red)
    } else {
        None
    }
}

/// Returns whether a text is the name of a clearance: `CLEAR`, `GREEN`, `AMBER`, `STRICT` or `RED`, or a label of TLP.
pub fn is_clearance(text: &str) -> bool
    ensures { result ≡ is_some (spec.handling_of_name text.now) }
{
    handling_of_name(text).is_some()
}

/// Returns the handling with this name.
fn handling_named(text: &str) -> Read<Handling>
    ensures { result ≡ spec.handling_named text.now }
{
    match handling_of_name(text) {
        Some(handling) => Ok(handling),
        None => Err(Refusal::here(Fault::OutOfRange)),
    }
}

/// Returns the handling that a value says.
#[tactic(auto, unfolding(crate::specs::Described::handling_in))]
fn handling_in(value: &Value<'_>) -> Read<Handling>
    ensures { result ≡ spec.handling_in (value_view value.now) }
{
    match value.as_str() {
        Some(text) => handling_named(text),
        None => Err(Refusal::here(Fault::WrongKind)),
    }
}

/// Returns the handling of a member, which has to be there.
pub(crate) fn wanted_handling(value: &Value<'_>, part: Part) -> Read<Handling>
    ensures { result ≡ values.wanted spec.handling_in part (value_view value.now) }
{
    at_member(
        part,
        match value.get(part.name()) {
            Some(value) => handling_in(value),
            None => Err(Refusal::here(Fault::MissingMember)),
        },
    )
}

/// Returns the handling that a value says, as one that is there.
fn some_handling(value: &Value<'_>) -> Read<Option<Handling>>
    ensures { result ≡ values.some_in spec.handling_in (value_view value.now) }
{
    Ok(Some(handling_in(value)?))
}

/// Returns the handling of a member, if it is there.
fn given_handling(value: &Value<'_>, part: Part) -> Read<Option<Handling>>
    ensures { result ≡ values.given spec.handling_in part (value_view value.now) }
{
    at_member(
        part,
        match value.get(part.name()) {
            Some(value) => some_handling(value),
            None => Ok(None),
        },
    )
}

/// Fails with UnknownMember at a member that a reader can't have.
fn only_known(value: &Value<'_>) -> Read<()>
    ensures { result ≡ values.only spec.reader_names (value_view value.now) }
{
    only(
        value,
        &[
            Part::Who,
            Part::Org,
            Part::Source,
            Part::Person,
            Part::Nominated,
            Part::Addressed,
            Part::Client,
            Part::Community,
            Part::Peer,
            Part::Connected,
            Part::Arrangement,
            Part::Groups,
            Part::ActiveGroups,
            Part::Communities,
        ],
    )
}

/// Returns the standing of a reader, at the beginning of 1970.
fn standing_of(
    flags: Flags,
    who: u32,
    org: u32,
    arrangement: Option<Handling>,
    lists: Lists,
) -> Standing
    ensures { result ≡ spec.standing_of flags who org arrangement lists }
{
    Standing {
        source: flags.source,
        person: flags.person,
        nominated: flags.nominated,
        addressed: flags.addressed,
        client: flags.client,
        community: flags.community,
        peer: flags.peer,
        connected: flags.connected,
        arrangement,
        who,
        org,
        groups: lists.groups,
        active_groups: lists.active_groups,
        communities: lists.communities,
        now: 0,
    }
}

/// Returns the reader that a value says, which is an object.
fn reader_in(alloc: Global, value: &Value<'_>) -> Result<Read<Standing>, AllocError>
    ensures { IfOk result (λ r. r ≡ spec.reader_in (value_view value.now)) }
{
    match object_in(value) {
        Ok(()) => reader_of(alloc, value),
        Err(refusal) => Ok(Err(refusal)),
    }
}

/// Returns the reader that the members of an object say.
#[tactic(auto, unfolding(crate::specs::Described::reader_of))]
fn reader_of(alloc: Global, value: &Value<'_>) -> Result<Read<Standing>, AllocError>
    ensures { IfOk result (λ r. r ≡ spec.reader_of (value_view value.now)) }
{
    let flags = both(only_known(value), flags_in(value));
    let numbers = both(
        wanted_number(value, Part::Who),
        wanted_number(value, Part::Org),
    );
    let lists = lists_in(alloc, value)?;
    let others = both(given_handling(value, Part::Arrangement), lists);
    match both(both(flags, numbers), others) {
        Ok(((((), flags), (who, org)), (arrangement, lists))) => {
            Ok(Ok(standing_of(flags, who, org, arrangement, lists)))
        }
        Err(refusal) => Ok(Err(refusal)),
    }
}

/// Returns the reader of a view, which has to be there.
pub(crate) fn wanted_reader(alloc: Global, value: &Value<'_>) -> Result<Read<Standing>, AllocError>
    ensures { IfOk result (λ r.
        r ≡ values.wanted spec.reader_in Part.Reader (value_view value.now)) }
{
    let reader = match value.get(Part::Reader.name()) {
        Some(value) => reader_in(alloc, value)?,
        None => Err(Refusal::here(Fault::MissingMember)),
    };
    Ok(at_member(Part::Reader, reader))
}

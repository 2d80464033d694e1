//! How a person stands to an incident, made of a shelf's look-ups.
ghost use Rattle.std.specs.Prelude.{◌≡◌, ◌==◌, ◌||◌, IfOk, option_map};
ghost use Rattle.std.specs.List.{list_any};
ghost use Rattle.circle.specs.declared.directory.Person.{Person};
ghost use Rattle.hub_state.specs.Handlings as handlings;
ghost use Rattle.hub_state.specs.inner.Questions as spec;
ghost use Rattle.hub_state.specs.Reads.{reader_with, shared_as, standing_of, standing_for, ties_of};
ghost use Rattle.hub_state.specs.Shelves.{Finds, Reads};
ghost use Rattle.hub_state.specs.State.{State};
ghost use Rattle.hub_state.specs.declared.request.Target.TheVariants as target;
ghost use Rattle.hub_state.specs.declared.state.Incident.{Incident};

use crate::handling::handling_in;
use crate::look_ups::{LookUps, Reader, Shared, Ties};
use crate::questions::is_target_among;
use crate::request::Target;
use crate::shelf::ShelfFault;
use circle::directory::Handling as Arranged;
use marking::Handling;
use policy::Standing;

pub(crate) fn arrangement_in(arranged: Option<Arranged>) -> Option<Handling>
    ensures { result ≡ option_map handlings.handling_in arranged }
{
    match arranged {
        None => None,
        Some(handling) => Some(handling_in(handling)),
    }
}

/// Whether an organisation is the source or a recipient.
fn is_reached(org: u32, source: u32, recipients: &[Target]) -> bool
    ensures { result ≡ (org == source || spec.is_target_among (target.Org org) recipients.now) }
{
    org == source || is_target_among(recipients, Target::Org(org))
}

/// Whether one of the organisations is the source or a recipient.
fn is_client(served: &[u32], source: u32, recipients: &[Target]) -> bool
    ensures { result ≡ list_any (λ org.
        org == source || spec.is_target_among (target.Org org) recipients.now) served.now }
{
    served
        .iter()
        .any(|org| is_reached(*org, source, recipients))
}

/// How a reader with these ties stands to an incident with this sharing, at a moment.
fn standing_in(reader: Reader, shared: &Shared, ties: Ties, now: i64) -> Standing
    ensures { (s : State) → (p : Person) → (i : Incident) → reader ≡ reader_with s p →
        shared.now ≡ shared_as s i.naming →
        ties ≡ ties_of p.org i.naming.source i.naming.community s →
        result ≡ standing_for s now p i }
{
    let targets = shared.recipients.as_slice();
    let source = shared.naming.source;
    let person = reader.person;
    Standing {
        source: person.org == source,
        person: is_target_among(targets, Target::Person(person.number)),
        nominated: person.nominated,
        addressed: is_target_among(targets, Target::Org(person.org)),
        client: is_client(reader.served.as_slice(), source, targets),
        community: ties.community,
        peer: ties.peer,
        connected: ties.connected,
        arrangement: arrangement_in(ties.arrangement),
        who: person.number,
        org: person.org,
        groups: reader.groups,
        active_groups: reader.active_groups,
        communities: reader.communities,
        now,
    }
}

/// How a person stands to an incident at a moment. None if either is missing.
fn find_standing<L: LookUps>(
    shelf: &mut L,
    person: u32,
    incident: u32,
    now: i64,
) -> Result<Option<Standing>, ShelfFault>
    ensures { Finds L.has L.doubts L.failed L.may_remain shelf.old shelf.new result (λ s.
        IfOk result (λ found. found ≡ standing_of person incident now s)) }
{
    let Some(reader) = shelf.reader_of(person)? else {
        return Ok(None);
    };
    let Some(shared) = shelf.sharing_of(incident)? else {
        return Ok(None);
    };
    let naming = &shared.naming;
    let ties = shelf.ties_of(reader.person.org, naming.source, naming.community)?;
    Ok(Some(standing_in(reader, &shared, ties, now)))
}

/// How a person stands to an incident at a moment, in seconds since the beginning of 1970 (UTC), made of a shelf's
/// look-ups. None if either is missing. Fails with `NoMemory` if the memory doesn't suffice, and with `Failed` if a
/// look-up does or if the count of failures is at its last value.
pub fn standing_by<L: LookUps>(
    shelf: &mut L,
    person: u32,
    incident: u32,
    now: i64,
) -> Result<Option<Standing>, ShelfFault>
    ensures { Reads L.has L.doubts L.failed L.may_remain shelf.old shelf.new (λ s found. found ≡
        standing_of person incident now s) result }
{
    // at the last value of the count every call fails
    if shelf.has_ended() {
        return Err(ShelfFault::Failed);
    }
    find_standing(shelf, person, incident, now)
}

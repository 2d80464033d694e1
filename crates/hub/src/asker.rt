//! The reads of the shelf by which requests are answered.
ghost use Rattle.std.specs.Prelude.{◌≡◌, false, IfOk, option_map};
ghost use Rattle.std.specs.Option.{option_map_or};
ghost use Rattle.hub_core.specs.State.{State, incident_of};
ghost use Rattle.redact.specs.Excerpts.{told_by};
ghost use Rattle.redact.specs.Wants.{meets};
ghost use Rattle.hub_core.specs.Sound.{IsSound};
ghost use Rattle.hub_core.specs.Reads.{case_for, served_of_incident};
ghost use Rattle.hub_state.specs.declared.state.Incident.{Incident};
ghost use Rattle.circle.specs.Reads.{person_of};
ghost use Rattle.hub.specs.Told.{standing_at};
ghost use Rattle.hub.specs.inner.Explaining.{standing_between};
ghost use Rattle.hub.specs.Replies.{caller_of};
ghost use Rattle.hub_core.specs.Shelves.{Finds};
ghost use Rattle.hub.specs.inner.Asking.{IsThere};

use crate::key::Key;
use circle::directory::Person;
use hub_core::{Shelf, ShelfFault};
use policy::{Case, Standing};
use redact::{Excerpt, Want};

/// The caller and the moment, in seconds since the beginning of 1970 (UTC).
#[derive(Clone, Copy)]
pub struct Asker<'a> {
    pub person: &'a Person,
    pub now: i64,
}

/// The active person with this key. None if there is none or the person is suspended.
pub fn caller_by<Sh: Shelf>(shelf: &mut Sh, key: &Key) -> Result<Option<Person>, ShelfFault>
    ensures { Finds Sh.has Sh.doubts Sh.failed Sh.may_remain shelf.old shelf.new result (λ s.
        IfOk result (λ found. found ≡ caller_of s key.now)) }
{
    let Key::Digest(digest) = key else {
        return Ok(None);
    };
    match shelf.person_by_key(digest)? {
        Some(person) if person.active => Ok(Some(person)),
        _ => Ok(None),
    }
}

/// How the caller stands to an incident at the moment. None if either is missing.
pub fn standing<Sh: Shelf>(
    shelf: &mut Sh,
    asker: Asker<'_>,
    incident: u32,
) -> Result<Option<Standing>, ShelfFault>
    ensures { Finds Sh.has Sh.doubts Sh.failed Sh.may_remain shelf.old shelf.new result (λ s.
        IsThere s asker.entry.person.now →
        IfOk result (λ found. found ≡
        option_map (λ (i : Incident).
        standing_at s asker.entry.now asker.entry.person.now i) (incident_of incident s))) }
{
    shelf.standing(asker.person.number, incident, asker.now)
}

/// How the person of a number stands to an incident at the moment. None if either is missing.
pub fn standing_of_person<Sh: Shelf>(
    shelf: &mut Sh,
    asker: Asker<'_>,
    person: u32,
    incident: u32,
) -> Result<Option<Standing>, ShelfFault>
    ensures { Finds Sh.has Sh.doubts Sh.failed Sh.may_remain shelf.old shelf.new result (λ s.
        IfOk result (λ found. found ≡
        standing_between s asker.entry.now (person_of person s.directory)
        (incident_of incident s))) }
{
    shelf.standing(person, incident, asker.now)
}

/// The case of an incident: what it is judged by, without its document. None if it is missing.
pub fn case_of<Sh: Shelf>(shelf: &mut Sh, incident: u32) -> Result<Option<Case>, ShelfFault>
    ensures { Finds Sh.has Sh.doubts Sh.failed Sh.may_remain shelf.old shelf.new result (λ s.
        IfOk result (λ found. found ≡ option_map (case_for s) (incident_of incident s))) }
{
    shelf.case(incident)
}

/// What a reader of this standing may see of an incident that is judged by this case. None if it is missing or no class
/// of it is visible.
pub fn excerpt_of<Sh: Shelf>(
    shelf: &mut Sh,
    incident: u32,
    case: Case,
    standing: Standing,
) -> Result<Option<Excerpt>, ShelfFault>
    ensures { Finds Sh.has Sh.doubts Sh.failed Sh.may_remain shelf.old shelf.new result (λ s.
        IfOk result (λ found.
        option_map told_by found ≡ served_of_incident incident case standing s)) }
{
    shelf.excerpt(incident, case, standing)
}

/// Whether an incident that is judged by this case meets a want, for a reader of this standing. False if it is missing
/// or its markings aren't accepted.
pub fn is_met<Sh: Shelf>(
    shelf: &mut Sh,
    incident: u32,
    case: Case,
    standing: Standing,
    want: Want,
) -> Result<bool, ShelfFault>
    ensures { Finds Sh.has Sh.doubts Sh.failed Sh.may_remain shelf.old shelf.new result (λ s.
        IsSound s → IfOk result (λ met. met ≡
        option_map_or (λ (i : Incident).
        meets want i.document case standing) (incident_of incident s) false)) }
{
    shelf.meets(incident, case, standing, want)
}

/// Whether an incident may meet a want for the caller, as far as the shelf knows without the document. False only if it
/// is missing or doesn't meet it.
pub fn may_meet<Sh: Shelf>(
    shelf: &mut Sh,
    asker: Asker<'_>,
    incident: u32,
    want: &Want,
) -> Result<bool, ShelfFault>
    ensures { Finds Sh.has Sh.doubts Sh.failed Sh.may_remain shelf.old shelf.new result (λ s.
        IsSound s → IsThere s asker.entry.person.now →
        IfOk result (λ may. may ≡ false →
        option_map_or (λ (i : Incident).
        meets want.now i.document (case_for s i)
        (standing_at s asker.entry.now asker.entry.person.now i)) (incident_of incident s) false
        ≡ false)) }
{
    shelf.may_meet(asker.person.number, incident, asker.now, want)
}

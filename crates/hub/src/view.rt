//! The excerpt of one incident.
ghost use Rattle.std.specs.Prelude.{◌≡◌, option_map, option_and_then, IfOk};
ghost use Rattle.redact.specs.Excerpts.{told_by};
ghost use Rattle.hub_core.specs.State.{State, incident_of};
ghost use Rattle.hub_core.specs.Sound.{IsSound};
ghost use Rattle.hub_core.specs.Reads.{entry_of};
ghost use Rattle.hub.specs.Told.{view_of};
ghost use Rattle.hub.specs.inner.Viewing.{first_being, view_made};
ghost use Rattle.hub_core.specs.Shelves.{Finds};
ghost use Rattle.hub.specs.inner.Asking.{IsThere};

use crate::asker::{Asker, case_of, excerpt_of, standing};
use crate::root_gate::is_shut;
use hub_core::{Entry, Shelf, ShelfFault, View, Withheld};
use redact::Excerpt;

/// The first of the entries, if it is that of this incident.
fn first_of(entries: &[Entry], incident: u32) -> Option<Entry>
    ensures { result ≡ first_being incident entries.now }
{
    match entries.first() {
        Some(entry) if entry.number == incident => Some(*entry),
        _ => None,
    }
}

/// How the incident is listed. None if it is missing.
fn entry<Sh: Shelf>(shelf: &mut Sh, incident: u32) -> Result<Option<Entry>, ShelfFault>
    ensures { Finds Sh.has Sh.doubts Sh.failed Sh.may_remain shelf.old shelf.new result (λ s.
        IsSound s → IfOk result (λ found. found ≡ option_map entry_of (incident_of incident s))) }
{
    let entries = shelf.incidents_after(incident.saturating_sub(1), 1)?;
    Ok(first_of(entries.as_slice(), incident))
}

fn view_by(entry: Entry, excerpt: Excerpt) -> View
    ensures { result ≡ view_made entry (told_by excerpt) }
{
    View {
        number: entry.number,
        revision: entry.revision,
        source: entry.source,
        classes: excerpt.classes,
        document: excerpt.document,
        withheld: Withheld::new(excerpt.withheld),
    }
}

/// What a person may see of an incident. None if that is nothing, or if the incident is missing. None of a View's
/// grounds needs facts, so they aren't looked up.
pub fn view<Sh: Shelf>(
    shelf: &mut Sh,
    asker: Asker<'_>,
    incident: u32,
) -> Result<Option<View>, ShelfFault>
    ensures { Finds Sh.has Sh.doubts Sh.failed Sh.may_remain shelf.old shelf.new result (λ s.
        IsSound s → IsThere s asker.entry.person.now →
        IfOk result (λ view. view ≡
        option_and_then (view_of s asker.entry.now asker.entry.person.now)
        (incident_of incident s))) }
{
    let Some(standing) = standing(shelf, asker, incident)? else {
        return Ok(None);
    };
    let Some(case) = case_of(shelf, incident)? else {
        return Ok(None);
    };
    // the lines aren't read if a gate at the root shuts the reader out, and the entry only if something is served
    if is_shut(&case, &standing) {
        return Ok(None);
    }
    let Some(excerpt) = excerpt_of(shelf, incident, case, standing)? else {
        return Ok(None);
    };
    let Some(entry) = entry(shelf, incident)? else {
        return Ok(None);
    };
    Ok(Some(view_by(entry, excerpt)))
}

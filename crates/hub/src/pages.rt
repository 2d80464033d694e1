//! Pages: the incidents that pass a test, in the order of their numbers.
ghost use Rattle.std.specs.Prelude.{◌≡◌, ◌≤◌, ◌++◌, false, not, IfOk, OnOk, filter, take, length};
ghost use Rattle.std.specs.Option.{option_map_or};
ghost use Rattle.hub_core.specs.State.{State, incident_of};
ghost use Rattle.hub_core.specs.Sound.{IsSound};
ghost use Rattle.hub_core.specs.Reads.{case_for};
ghost use Rattle.hub_state.specs.declared.state.Incident.{Incident};
ghost use Rattle.hub_state.specs.declared.reply.Entry.{Entry as TheEntry};
ghost use Rattle.hub.specs.Replies.{page_of};
ghost use Rattle.hub.specs.inner.PageFilter.{admits, passes_filter, is_wanted, is_wanted_at, number_at_end};
ghost use Rattle.hub_core.specs.Shelves.{Finds};
ghost use Rattle.hub.specs.inner.Asking.{IsThere};

use crate::PAGE_LIMIT;
use crate::asker::{Asker, case_of, is_met, may_meet, standing};
use crate::fault::ample;
use crate::page_filter::PageFilter;
use crate::root_gate::is_shut;
use hub_core::{Entry, Shelf, ShelfFault};
use policy::Standing;
use std::alloc::Global;

/// Whether a standing keeps an incident off the page, whatever its document.
fn is_ruled_out(wanted: PageFilter<'_>, standing: &Standing) -> bool
    ensures { result ≡ not (admits wanted.entry standing.entry.now) }
{
    wanted.addressed && !(standing.person || standing.addressed)
}

/// Whether a page lists an incident to which the person stands like this.
fn is_wanted_by<Sh: Shelf>(
    shelf: &mut Sh,
    wanted: PageFilter<'_>,
    standing: Standing,
    incident: u32,
) -> Result<bool, ShelfFault>
    ensures { Finds Sh.has Sh.doubts Sh.failed Sh.may_remain shelf.old shelf.new result (λ s.
        IsSound s → IfOk result (λ b. b ≡
        option_map_or (λ (i : Incident).
        passes_filter wanted.entry i.document (case_for s i) standing)
        (incident_of incident s) false)) }
{
    // an incident that the standing rules out needs neither its case nor its document
    if is_ruled_out(wanted, &standing) {
        return Ok(false);
    }
    let Some(case) = case_of(shelf, incident)? else {
        return Ok(false);
    };
    if is_shut(&case, &standing) {
        return Ok(false);
    }
    let want = ample(wanted.want.clone())?;
    is_met(shelf, incident, case, standing, want)
}

/// Whether a page lists the incident of this number for the caller.
fn lists<Sh: Shelf>(
    shelf: &mut Sh,
    asker: Asker<'_>,
    wanted: PageFilter<'_>,
    incident: u32,
) -> Result<bool, ShelfFault>
    ensures { Finds Sh.has Sh.doubts Sh.failed Sh.may_remain shelf.old shelf.new result (λ s.
        IsSound s → IsThere s asker.entry.person.now →
        IfOk result (λ b. b ≡
        is_wanted_at s asker.entry.now asker.entry.person.now wanted.entry incident)) }
{
    // most incidents can be passed over without their documents
    if !may_meet(shelf, asker, incident, wanted.want)? {
        return Ok(false);
    }
    match standing(shelf, asker, incident)? {
        None => Ok(false),
        Some(standing) => is_wanted_by(shelf, wanted, standing, incident),
    }
}

/// Pushes those of the entries that the page lists, until it is full.
fn pick<Sh: Shelf>(
    shelf: &mut Sh,
    asker: Asker<'_>,
    wanted: PageFilter<'_>,
    entries: &[Entry],
    listed: &mut Vec<Entry>,
) -> Result<(), ShelfFault>
    requires { length listed.old.items ≤ PAGE_LIMIT }
    ensures room { OnOk result (length listed.new.items ≤ PAGE_LIMIT) }
    ensures found { Finds Sh.has Sh.doubts Sh.failed Sh.may_remain shelf.old shelf.new result (λ s.
        IsSound s → IsThere s asker.entry.person.now →
        OnOk result (listed.new.items ≡
        take PAGE_LIMIT
        (listed.old.items ++ filter (λ (e : TheEntry).
        is_wanted_at s asker.entry.now asker.entry.person.now wanted.entry e.number)
        entries.now))) }
{
    for entry in entries {
        if listed.len() == PAGE_LIMIT {
            return Ok(());
        }
        if lists(shelf, asker, wanted, entry.number)? {
            if listed.push(*entry).is_err() {
                return Err(ShelfFault::NoMemory);
            }
        }
    }
    Ok(())
}

fn last_number(entries: &[Entry]) -> Option<u32>
    ensures { result ≡ number_at_end entries.now }
{
    match entries.last() {
        None => None,
        Some(last) => Some(last.number),
    }
}

/// Returns the first incidents above a number that a page lists, at most [`PAGE_LIMIT`](crate::PAGE_LIMIT).
pub fn page<Sh: Shelf>(
    shelf: &mut Sh,
    alloc: Global,
    asker: Asker<'_>,
    wanted: PageFilter<'_>,
    after: u32,
) -> Result<Vec<Entry>, ShelfFault>
    ensures { Finds Sh.has Sh.doubts Sh.failed Sh.may_remain shelf.old shelf.new result (λ s.
        IsSound s → IsThere s asker.entry.person.now →
        IfOk result (λ listed.
        listed.items ≡
        page_of (is_wanted s asker.entry.now asker.entry.person.now wanted.entry) after s)) }
{
    let mut listed = Vec::new(alloc);
    let mut above = after;
    // for the proof: the label names the loop there
    'pages: while listed.len() < PAGE_LIMIT {
        let entries = shelf.incidents_after(above, PAGE_LIMIT as u32)?;
        match last_number(entries.as_slice()) {
            None => break,
            Some(last) => {
                // A shelf that keeps its contract returns rising numbers; one that doesn't must not keep the loop
                // going.
                if last <= above {
                    break;
                }
                above = last;
            }
        }
        pick(shelf, asker, wanted, entries.as_slice(), &mut listed)?;
    }
    Ok(listed)
}

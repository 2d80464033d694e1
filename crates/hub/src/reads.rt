//! Requests that only read.
ghost use Rattle.std.specs.Prelude.{◌≡◌, ◌&&◌, ◌||◌, not, Some, IfOk, IfErr, option_map, string_bytes};
ghost use Rattle.hub_core.specs.State.{State};
ghost use Rattle.hub_core.specs.Sound.{IsSound};
ghost use Rattle.hub_core.specs.Refusals.{refusal_of};
ghost use Rattle.hub_state.specs.declared.reply.Reply.TheVariants.{Incidents, Refused};
ghost use Rattle.hub_core.specs.Reads as spec;
ghost use Rattle.hub_state.specs.declared.reply.Reply.TheVariants.{Communities, Groups, View};
ghost use Rattle.hub_core.specs.State.{incident_of};
ghost use Rattle.hub_state.specs.declared.state.Incident.{Incident};
ghost use Rattle.hub.specs.Told.{is_served, is_addressed};
ghost use Rattle.hub.specs.Replies.{page_of, viewed};
ghost use Rattle.hub.specs.inner.PageFilter.{is_wanted};
ghost use Rattle.hub.specs.Serving.{read_by, searched};
ghost use Rattle.hub_core.specs.Shelves.{Finds};
ghost use Rattle.hub.specs.inner.Asking.{IsThere};

use crate::asker::Asker;
use crate::explanations::explain_to;
use crate::fault::{ample, refuse};
use crate::page_filter::PageFilter;
use crate::pages::page;
use crate::sharing::sharing;
use crate::view::view;
use circle::text::Text;
use hub_core::{
    Code, Entries, JoinedCommunities, JoinedGroups, Refusal, Reply, Request, Search, Shelf,
    ShelfFault, judge,
};
use redact::Want;
use std::alloc::Global;

/// Lists the incidents above a number that pass the filter.
fn list<Sh: Shelf>(
    shelf: &mut Sh,
    alloc: Global,
    asker: Asker<'_>,
    wanted: PageFilter<'_>,
    after: u32,
) -> Result<Reply, ShelfFault>
    ensures { Finds Sh.has Sh.doubts Sh.failed Sh.may_remain shelf.old shelf.new result (λ s.
        IsSound s → IsThere s asker.entry.person.now →
        IfOk result (λ reply. reply ≡
        Incidents (page_of
        (is_wanted s asker.entry.now asker.entry.person.now wanted.entry) after s))) }
{
    let listed = page(shelf, alloc, asker, wanted, after)?;
    Ok(Reply::Incidents(Entries::new(listed)))
}

/// Lists the incidents above a number of which some class is visible; only those addressed to the person if
/// `addressed`.
fn list_shown<Sh: Shelf>(
    shelf: &mut Sh,
    alloc: Global,
    asker: Asker<'_>,
    addressed: bool,
    after: u32,
) -> Result<Reply, ShelfFault>
    ensures { Finds Sh.has Sh.doubts Sh.failed Sh.may_remain shelf.old shelf.new result (λ s.
        IsSound s → IsThere s asker.entry.person.now →
        IfOk result (λ reply. reply ≡
        Incidents (page_of (λ (i : Incident).
        (not addressed || is_addressed s asker.entry.now asker.entry.person.now i) &&
        is_served s asker.entry.now asker.entry.person.now i) after s))) }
{
    // without a needle the want is a visible class, and no excerpt is made for that
    let want = Want {
        needle: None,
        class: None,
    };
    let wanted = PageFilter {
        addressed,
        want: &want,
    };
    list(shelf, alloc, asker, wanted, after)
}

fn string_of(alloc: Global, text: &Option<Text>) -> Result<Option<String>, ShelfFault>
    ensures value { IfOk result (λ string. option_map string_bytes string ≡ text.now) }
    ensures fault { IfErr result (λ e. e ≡ ShelfFault.NoMemory) }
{
    match text {
        None => Ok(None),
        Some(text) => {
            let string = ample(String::from_str(alloc, text.as_str()))?;
            Ok(Some(string))
        }
    }
}

/// The want of a search.
fn want_of(alloc: Global, asked: &Search) -> Result<Want, ShelfFault>
    ensures needle { IfOk result (λ want.
        option_map string_bytes want.needle ≡ Some asked.now.needle) }
    ensures class { IfOk result (λ want. option_map string_bytes want.class ≡ asked.now.class) }
    ensures fault { IfErr result (λ e. e ≡ ShelfFault.NoMemory) }
{
    let needle = ample(String::from_str(alloc, asked.needle.as_str()))?;
    let class = string_of(alloc, &asked.class)?;
    Ok(Want {
        needle: Some(needle),
        class,
    })
}

/// Answers a search, or refuses it if an argument is bad.
fn search<Sh: Shelf>(
    shelf: &mut Sh,
    alloc: Global,
    asker: Asker<'_>,
    request: &Request,
    asked: &Search,
) -> Result<Reply, ShelfFault>
    ensures { Finds Sh.has Sh.doubts Sh.failed Sh.may_remain shelf.old shelf.new result (λ s.
        IsSound s → IsThere s asker.entry.person.now →
        IfOk result (λ reply. reply ≡
        searched (refusal_of s asker.entry.person.now request.now) s asker.entry.now
        asker.entry.person.now asked.now)) }
{
    let facts = shelf.facts(asker.person, request)?;
    match judge(alloc, asker.person, &facts, request) {
        Err(refusal) => refuse(refusal),
        Ok(_) => {
            let want = want_of(alloc, asked)?;
            let wanted = PageFilter {
                addressed: false,
                want: &want,
            };
            list(shelf, alloc, asker, wanted, asked.after)
        }
    }
}

/// Answers a View. An incident of which nothing is visible is refused like a missing one.
fn look<Sh: Shelf>(
    shelf: &mut Sh,
    alloc: Global,
    asker: Asker<'_>,
    incident: u32,
) -> Result<Reply, ShelfFault>
    ensures { Finds Sh.has Sh.doubts Sh.failed Sh.may_remain shelf.old shelf.new result (λ s.
        IsSound s → IsThere s asker.entry.person.now →
        IfOk result (λ reply. reply ≡
        viewed s asker.entry.now asker.entry.person.now (incident_of incident s))) }
{
    match view(shelf, asker, incident)? {
        Some(view) => Ok(Reply::View(view)),
        None => Ok(Reply::Refused(Refusal::bare(alloc, Code::N1))),
    }
}

fn groups<Sh: Shelf>(shelf: &mut Sh, asker: Asker<'_>) -> Result<Reply, ShelfFault>
    ensures { Finds Sh.has Sh.doubts Sh.failed Sh.may_remain shelf.old shelf.new result (λ s.
        IfOk result (λ reply. reply ≡ Groups (spec.groups_of asker.entry.person.now s))) }
{
    let groups = shelf.groups_of(asker.person)?;
    Ok(Reply::Groups(JoinedGroups::new(groups)))
}

fn communities<Sh: Shelf>(shelf: &mut Sh, asker: Asker<'_>) -> Result<Reply, ShelfFault>
    ensures { Finds Sh.has Sh.doubts Sh.failed Sh.may_remain shelf.old shelf.new result (λ s.
        IfOk result (λ reply. reply ≡
        Communities (spec.joined_communities asker.entry.person.now s))) }
{
    let communities = shelf.joined_communities(asker.person)?;
    Ok(Reply::Communities(JoinedCommunities::new(communities)))
}

/// Answers a request that only reads. None for one that changes something.
pub fn read<Sh: Shelf>(
    shelf: &mut Sh,
    alloc: Global,
    asker: Asker<'_>,
    request: &Request,
) -> Result<Option<Reply>, ShelfFault>
    ensures { Finds Sh.has Sh.doubts Sh.failed Sh.may_remain shelf.old shelf.new result (λ s.
        IsSound s → IsThere s asker.entry.person.now →
        IfOk result (λ reply. reply ≡
        read_by s asker.entry.now asker.entry.person.now request.now)) }
{
    let reply = match request {
        Request::View { incident } => look(shelf, alloc, asker, *incident)?,
        Request::List { after } => list_shown(shelf, alloc, asker, false, *after)?,
        Request::Search(asked) => search(shelf, alloc, asker, request, asked)?,
        Request::Addressed { after } => list_shown(shelf, alloc, asker, true, *after)?,
        Request::Explain(asked) => explain_to(shelf, alloc, asker, request, asked)?,
        Request::Sharing { incident } => sharing(shelf, alloc, asker, *incident)?,
        Request::MyGroups => groups(shelf, asker)?,
        Request::MyCommunities => communities(shelf, asker)?,
        Request::WhoAmI => Reply::Caller(ample(asker.person.clone())?),
        _ => return Ok(None),
    };
    Ok(Some(reply))
}

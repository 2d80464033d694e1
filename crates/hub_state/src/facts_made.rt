//! The facts of a request, made of a shelf's look-ups.
ghost use Rattle.std.specs.Prelude.{◌≡◌, IfOk, option_map};
ghost use Rattle.hub_state.specs.Facts.{plain_facts, exists_in, stands_in, count_in, circle_facts_of, facts_of};
ghost use Rattle.hub_state.specs.Requests.{incident_facts, looked_up};
ghost use Rattle.hub_state.specs.Requests as spec;
ghost use Rattle.hub_state.specs.inner.Shared.{path_asked, sharing_asked};
ghost use Rattle.hub_state.specs.Shelves.{Finds, Reads};
ghost use Rattle.hub_state.specs.State.{State};
ghost use Rattle.hub_state.specs.declared.state.Incident.{Incident};

use crate::counts_then::counts_then;
use crate::facts::{Facts, IncidentFacts};
use crate::look_ups::LookUps;
use crate::named_there::{
    has_joined_all, is_active, is_grantee, is_own_group, is_target, path_asked,
};
use crate::posted_earlier::find_posted;
use crate::request::{
    Address, Explain, Grant, Redistribute, Replace, Request, Unaddress, Withdraw,
};
use crate::sharing::{Sharing, find_sharing, stands};
use crate::shelf::ShelfFault;
use crate::state::Naming;
use circle::command::CircleFacts;
use circle::directory::Person;
use iodef_tree::{Document, Path};
use std::alloc::Global;

/// The number of the incident that a request names.
fn incident_asked(request: &Request) -> Option<u32>
    ensures { result ≡ spec.incident_asked request.now }
{
    match request {
        Request::Replace(Replace { incident, .. })
        | Request::Redistribute(Redistribute { incident, .. })
        | Request::Address(Address { incident, .. })
        | Request::Unaddress(Unaddress { incident, .. })
        | Request::Grant(Grant { incident, .. })
        | Request::Withdraw(Withdraw { incident, .. })
        | Request::View { incident }
        | Request::Sharing { incident }
        | Request::Explain(Explain { incident, .. }) => Some(*incident),
        _ => None,
    }
}

fn plain_facts(exists: bool, stands: bool, count: u32) -> CircleFacts
    ensures { result ≡ plain_facts exists stands count }
{
    CircleFacts {
        exists,
        may_extend: false,
        owner: false,
        target_is_owner: false,
        own_person: false,
        stands,
        count,
    }
}

/// Whether what a request names in the directory is there.
fn find_exists<L: LookUps>(
    shelf: &mut L,
    actor: &Person,
    request: &Request,
) -> Result<bool, ShelfFault>
    ensures { Finds L.has L.doubts L.failed L.may_remain shelf.old shelf.new result (λ s.
        IfOk result (λ b. b ≡ exists_in s actor.now request.now)) }
{
    match request {
        Request::Post(asked) => has_joined_all(shelf, actor, &asked.distribution),
        Request::Replace(asked) => has_joined_all(shelf, actor, &asked.distribution),
        Request::Redistribute(asked) => is_own_group(shelf, actor, asked.group),
        Request::Address(asked) => is_target(shelf, asked.target),
        Request::Grant(asked) => is_grantee(shelf, actor.org, asked.grantee),
        Request::Explain(asked) => is_active(shelf, asked.person),
        _ => Ok(true),
    }
}

/// How many incidents there are, for a Post; 0 for all other requests.
fn find_count<L: LookUps>(shelf: &mut L, request: &Request) -> Result<u32, ShelfFault>
    ensures { Finds L.has L.doubts L.failed L.may_remain shelf.old shelf.new result (λ s.
        IfOk result (λ n. n ≡ count_in s request.now)) }
{
    match request {
        Request::Post(_) => shelf.incident_count(),
        _ => Ok(0),
    }
}

/// The directory's facts of a request that isn't one of its commands.
fn find_plain_facts<L: LookUps>(
    shelf: &mut L,
    actor: &Person,
    request: &Request,
    path: &Option<Path>,
    sharing: &Sharing,
) -> Result<CircleFacts, ShelfFault>
    requires { path.now ≡ path_asked request.now }
    ensures { Finds L.has L.doubts L.failed L.may_remain shelf.old shelf.new result (λ s.
        sharing.now ≡ sharing_asked (spec.incident_asked request.now) s →
        IfOk result (λ facts. facts ≡
        plain_facts (exists_in s actor.now request.now) (stands_in s request.now)
        (count_in s request.now))) }
{
    let stands = stands(path, request, sharing);
    let exists = find_exists(shelf, actor, request)?;
    let count = find_count(shelf, request)?;
    Ok(plain_facts(exists, stands, count))
}

/// The directory's facts of a request.
fn find_circle_facts<L: LookUps>(
    shelf: &mut L,
    actor: &Person,
    request: &Request,
    path: &Option<Path>,
    sharing: &Sharing,
) -> Result<CircleFacts, ShelfFault>
    requires { path.now ≡ path_asked request.now }
    ensures { Finds L.has L.doubts L.failed L.may_remain shelf.old shelf.new result (λ s.
        sharing.now ≡ sharing_asked (spec.incident_asked request.now) s →
        IfOk result (λ facts. facts ≡ circle_facts_of s actor.now request.now)) }
{
    match request {
        Request::Circle(command) => shelf.circle_facts(actor, command),
        _ => find_plain_facts(shelf, actor, request, path, sharing),
    }
}

fn known_by_naming(naming: Naming) -> IncidentFacts
    ensures { result ≡
        record { source = naming.source; revision = naming.revision; ident = naming.ident } }
{
    IncidentFacts {
        source: naming.source,
        revision: naming.revision,
        ident: naming.ident,
    }
}

fn known_asked<L: LookUps>(
    shelf: &mut L,
    incident: Option<u32>,
) -> Result<Option<IncidentFacts>, ShelfFault>
    ensures { Finds L.has L.doubts L.failed L.may_remain shelf.old shelf.new result (λ s.
        IfOk result (λ found. found ≡ option_map incident_facts (looked_up s incident))) }
{
    let Some(number) = incident else {
        return Ok(None);
    };
    match shelf.naming(number)? {
        None => Ok(None),
        Some(naming) => Ok(Some(known_by_naming(naming))),
    }
}

fn document_asked<L: LookUps>(
    shelf: &mut L,
    incident: Option<u32>,
) -> Result<Option<Document>, ShelfFault>
    ensures { Finds L.has L.doubts L.failed L.may_remain shelf.old shelf.new result (λ s.
        IfOk result (λ found. found ≡
        option_map (λ (i : Incident). i.document) (looked_up s incident))) }
{
    match incident {
        None => Ok(None),
        Some(number) => shelf.stored_document(number),
    }
}

/// The facts of a request, made of the sharing of the incident that it names.
fn find_facts<L: LookUps>(
    shelf: &mut L,
    alloc: Global,
    actor: &Person,
    request: &Request,
    sharing: &Sharing,
) -> Result<Facts, ShelfFault>
    ensures { Finds L.has L.doubts L.failed L.may_remain shelf.old shelf.new result (λ s.
        sharing.now ≡ sharing_asked (spec.incident_asked request.now) s →
        IfOk result (λ facts. facts ≡ facts_of s actor.now request.now)) }
{
    let asked = incident_asked(request);
    let path = path_asked(alloc, request)?;
    let circle = find_circle_facts(shelf, actor, request, &path, sharing)?;
    let incident = known_asked(shelf, asked)?;
    let document = document_asked(shelf, asked)?;
    let posted = find_posted(shelf, alloc, actor, request)?;
    let counts = counts_then(&path, request, sharing, incident.is_some());
    Ok(Facts {
        circle,
        incident,
        document,
        posted,
        gates: counts.gates,
        recipients: counts.recipients,
        permissions: counts.permissions,
    })
}

fn find_facts_asked<L: LookUps>(
    shelf: &mut L,
    alloc: Global,
    actor: &Person,
    request: &Request,
) -> Result<Facts, ShelfFault>
    ensures { Finds L.has L.doubts L.failed L.may_remain shelf.old shelf.new result (λ s.
        IfOk result (λ facts. facts ≡ facts_of s actor.now request.now)) }
{
    let sharing = find_sharing(shelf, alloc, incident_asked(request))?;
    find_facts(shelf, alloc, actor, request, &sharing)
}

/// The facts of a person's request, made of a shelf's look-ups. Fails with `NoMemory` if the memory doesn't suffice,
/// and with `Failed` if a look-up does or if the count of failures is at its last value.
pub fn facts_by<L: LookUps>(
    shelf: &mut L,
    alloc: Global,
    actor: &Person,
    request: &Request,
) -> Result<Facts, ShelfFault>
    ensures { Reads L.has L.doubts L.failed L.may_remain shelf.old shelf.new (λ s facts. facts ≡
        facts_of s actor.now request.now) result }
{
    // at the last value of the count every call fails, and some requests look nothing up
    if shelf.has_ended() {
        return Err(ShelfFault::Failed);
    }
    find_facts_asked(shelf, alloc, actor, request)
}

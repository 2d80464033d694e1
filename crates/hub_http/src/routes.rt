//! The route of a method and a target.
ghost use Rattle.std.specs.Prelude.{◌≡◌, ℕ, List, [], map, fold, Ok, IfOk, IfErr, OnOk, option_copied, true};
ghost use Rattle.std.specs.List.{before_first, after_first};
ghost use Rattle.matchit.specs.Route.{parse_route};
ghost use Rattle.matchit.specs.declared.error.InsertError.TheVariants.{OutOfMemory};
ghost use Rattle.hub_http.specs.Outcome.{Yields, YieldsAs};
ghost use Rattle.hub_http.specs.inner.Texts.{entry_view};
ghost use Rattle.hub_http.specs.Routes as spec;

use crate::request_fault::RequestFault;
use crate::spelling::read_number;
use matchit::{InsertError, Router};
use std::alloc::Global;

#[derive(Clone, Copy, Drop)]
pub(crate) enum Verb {
    Get,
    Post,
    Put,
    Other,
}

/// A change of the circle whose path has no number.
#[derive(Clone, Copy, Drop)]
pub(crate) enum CircleChange {
    AddOrg,
    AddPerson,
    AddCommunity,
    NewGroup,
    Arrange,
    CancelArrange,
    NewKey,
}

/// A change at the organisation, person, community or group of a number.
#[derive(Clone, Copy, Drop)]
pub(crate) enum PartChange {
    AddClient,
    RemoveClient,
    SuspendPerson,
    Nominate,
    Unnominate,
    Join,
    Leave,
    Link,
    Unlink,
    GroupAdd,
    GroupRemove,
    GroupActive,
}

/// A change at the incident of a number, which has only parameters.
#[derive(Clone, Copy, Drop)]
pub(crate) enum IncidentChange {
    Redistribute,
    Address,
    Unaddress,
    Grant,
    Withdraw,
}

/// What a path names.
#[derive(Clone, Copy, Drop)]
pub(crate) enum Resource {
    Me,
    MyGroups,
    MyCommunities,
    MyAddressed,
    Incidents,
    Incident,
    Sharing,
    Search,
    Explain,
    OfCircle(CircleChange),
    OfPart(PartChange),
    OfIncident(IncidentChange),
}

/// A request before its parameters are read, with the number in its path.
#[derive(Clone, Copy, Drop)]
pub(crate) enum Route {
    WhoAmI,
    MyGroups,
    MyCommunities,
    Addressed,
    List,
    View(u32),
    Sharing(u32),
    Search,
    Explain,
    Post,
    Replace(u32),
    OfCircle(CircleChange),
    OfPart(PartChange, u32),
    OfIncident(IncidentChange, u32),
}

/// The patterns of the paths, each with the resource that it names.
const ENTRIES: [(&str, Resource); 33] = [
    ("/me", Resource::Me),
    ("/me/groups", Resource::MyGroups),
    ("/me/communities", Resource::MyCommunities),
    ("/me/addressed", Resource::MyAddressed),
    ("/me/key", Resource::OfCircle(CircleChange::NewKey)),
    ("/incidents", Resource::Incidents),
    ("/incidents/{n}", Resource::Incident),
    ("/incidents/{n}/sharing", Resource::Sharing),
    (
        "/incidents/{n}/gate",
        Resource::OfIncident(IncidentChange::Redistribute),
    ),
    (
        "/incidents/{n}/address",
        Resource::OfIncident(IncidentChange::Address),
    ),
    (
        "/incidents/{n}/unaddress",
        Resource::OfIncident(IncidentChange::Unaddress),
    ),
    (
        "/incidents/{n}/grant",
        Resource::OfIncident(IncidentChange::Grant),
    ),
    (
        "/incidents/{n}/withdraw",
        Resource::OfIncident(IncidentChange::Withdraw),
    ),
    ("/search", Resource::Search),
    ("/explain", Resource::Explain),
    ("/orgs", Resource::OfCircle(CircleChange::AddOrg)),
    ("/orgs/{n}/clients", Resource::OfPart(PartChange::AddClient)),
    (
        "/orgs/{n}/clients/remove",
        Resource::OfPart(PartChange::RemoveClient),
    ),
    ("/persons", Resource::OfCircle(CircleChange::AddPerson)),
    (
        "/persons/{n}/suspend",
        Resource::OfPart(PartChange::SuspendPerson),
    ),
    (
        "/persons/{n}/nominate",
        Resource::OfPart(PartChange::Nominate),
    ),
    (
        "/persons/{n}/unnominate",
        Resource::OfPart(PartChange::Unnominate),
    ),
    (
        "/communities",
        Resource::OfCircle(CircleChange::AddCommunity),
    ),
    ("/communities/{n}/join", Resource::OfPart(PartChange::Join)),
    (
        "/communities/{n}/leave",
        Resource::OfPart(PartChange::Leave),
    ),
    ("/communities/{n}/link", Resource::OfPart(PartChange::Link)),
    (
        "/communities/{n}/unlink",
        Resource::OfPart(PartChange::Unlink),
    ),
    ("/groups", Resource::OfCircle(CircleChange::NewGroup)),
    ("/groups/{n}/add", Resource::OfPart(PartChange::GroupAdd)),
    (
        "/groups/{n}/remove",
        Resource::OfPart(PartChange::GroupRemove),
    ),
    (
        "/groups/{n}/active",
        Resource::OfPart(PartChange::GroupActive),
    ),
    ("/arrangements", Resource::OfCircle(CircleChange::Arrange)),
    (
        "/arrangements/cancel",
        Resource::OfCircle(CircleChange::CancelArrange),
    ),
];

/// Adds one pattern.
fn add(router: &mut Router<Resource>, pattern: &str, resource: Resource) -> Result<(), InsertError>
    ensures added { OnOk result (router.new ≡ spec.with_entry router.old (pattern.now, resource)) }
    ensures fault { spec.has_room (parse_route pattern.now) router.old ≡ true →
        IfErr result (λ e. e ≡ OutOfMemory) }
{
    router.insert(pattern, resource)
}

/// Makes the router of these patterns.
fn router_of(alloc: Global, entries: &[(&str, Resource)]) -> Result<Router<Resource>, InsertError>
    ensures all { IfOk result (λ r. r ≡ fold spec.with_entry [] (map entry_view entries.now)) }
    ensures fault { spec.take_all [] (map entry_view entries.now) ≡ true →
        IfErr result (λ e. e ≡ OutOfMemory) }
{
    let mut router = Router::new(alloc);
    for entry in entries {
        add(&mut router, entry.0, entry.1)?;
    }
    Ok(router)
}

/// Makes the router of all paths. Fails only for want of memory: that the patterns are well formed and don't conflict
/// is computed in its proof.
#[tactic(auto, unfolding(crate::specs::Routes::table))]
fn router(alloc: Global) -> Result<Router<Resource>, InsertError>
    ensures all { IfOk result (λ r. r ≡ spec.table) }
    ensures fault { IfErr result (λ e. e ≡ OutOfMemory) }
{
    router_of(alloc, &ENTRIES)
}

/// Returns the resource that a path names. The path is compared as it came: no percent escape in it is decoded.
fn read_resource(alloc: Global, path: &str) -> Result<Option<Resource>, RequestFault>
    ensures { Yields result (Ok (spec.resource_at path.now)) }
{
    // made for each whole head, which costs some 32 µs, as nothing is kept between two requests
    let Ok(router) = router(alloc) else {
        return Err(RequestFault::NoMemory);
    };
    match router.at(path) {
        Ok(found) => Ok(Some(*found.value)),
        Err(_) => Ok(None),
    }
}

#[tactic(auto, unfolding(crate::specs::Routes::verb_of))]
fn read_verb(name: &str) -> Verb
    ensures { result ≡ spec.verb_of name.now }
{
    if name == "GET" {
        Verb::Get
    } else if name == "POST" {
        Verb::Post
    } else if name == "PUT" {
        Verb::Put
    } else {
        Verb::Other
    }
}

/// The text after its first slash.
fn behind_slash(text: &str) -> &str
    ensures { result.now ≡ after_first spec.is_slash text.now }
{
    match text.split_once('/') {
        Some((_, rest)) => rest,
        None => "",
    }
}

/// The text before its first slash.
fn before_slash(text: &str) -> &str
    ensures { result.now ≡ before_first spec.is_slash text.now }
{
    match text.split_once('/') {
        Some((part, _)) => part,
        None => text,
    }
}

/// The part of a path between its second slash and its third. Each pattern with a number has it there; the router
/// promises its own parameter only if all parts are text.
fn part_of(path: &str) -> &str
    ensures { result.now ≡ spec.second_part path.now }
{
    before_slash(behind_slash(behind_slash(path)))
}

/// The number in a path, from 1.
#[tactic(auto, unfolding(crate::specs::Routes::number_in))]
fn read_path_number(path: &str) -> Result<u32, RequestFault>
    ensures { Yields result (spec.number_in path.now) }
{
    match read_number(part_of(path)) {
        Ok(n) if n != 0 => Ok(n),
        Err(RequestFault::NoMemory) => Err(RequestFault::NoMemory),
        _ => Err(RequestFault::NoRoute),
    }
}

#[tactic(auto, unfolding(crate::specs::Routes::read_at))]
fn read_at(resource: Resource, path: &str) -> Result<Route, RequestFault>
    ensures { Yields result (spec.read_at resource path.now) }
{
    match resource {
        Resource::Me => Ok(Route::WhoAmI),
        Resource::MyGroups => Ok(Route::MyGroups),
        Resource::MyCommunities => Ok(Route::MyCommunities),
        Resource::MyAddressed => Ok(Route::Addressed),
        Resource::Incidents => Ok(Route::List),
        Resource::Incident => Ok(Route::View(read_path_number(path)?)),
        Resource::Sharing => Ok(Route::Sharing(read_path_number(path)?)),
        Resource::Search => Ok(Route::Search),
        Resource::Explain => Ok(Route::Explain),
        Resource::OfCircle(_) | Resource::OfPart(_) | Resource::OfIncident(_) => {
            Err(RequestFault::NoRoute)
        }
    }
}

#[tactic(auto, unfolding(crate::specs::Routes::post_at))]
fn post_at(resource: Resource, path: &str) -> Result<Route, RequestFault>
    ensures { Yields result (spec.post_at resource path.now) }
{
    match resource {
        Resource::Incidents => Ok(Route::Post),
        Resource::OfCircle(change) => Ok(Route::OfCircle(change)),
        Resource::OfPart(change) => Ok(Route::OfPart(change, read_path_number(path)?)),
        Resource::OfIncident(change) => Ok(Route::OfIncident(change, read_path_number(path)?)),
        _ => Err(RequestFault::NoRoute),
    }
}

#[tactic(auto, unfolding(crate::specs::Routes::put_at))]
fn put_at(resource: Resource, path: &str) -> Result<Route, RequestFault>
    ensures { Yields result (spec.put_at resource path.now) }
{
    match resource {
        Resource::Incident => Ok(Route::Replace(read_path_number(path)?)),
        _ => Err(RequestFault::NoRoute),
    }
}

#[tactic(auto, unfolding(crate::specs::Routes::route_at))]
fn route_at(verb: Verb, resource: Option<Resource>, path: &str) -> Result<Route, RequestFault>
    ensures { Yields result (spec.route_at verb resource path.now) }
{
    let Some(resource) = resource else {
        return Err(RequestFault::NoRoute);
    };
    match verb {
        Verb::Get => read_at(resource, path),
        Verb::Post => post_at(resource, path),
        Verb::Put => put_at(resource, path),
        Verb::Other => Err(RequestFault::NoRoute),
    }
}

/// Returns the route of a method at a path.
pub(crate) fn read_route(alloc: Global, method: &str, path: &str) -> Result<Route, RequestFault>
    ensures { Yields result
        (spec.route_at (spec.verb_of method.now) (spec.resource_at path.now) path.now) }
{
    let resource = read_resource(alloc, path)?;
    route_at(read_verb(method), resource, path)
}

/// The parts of a target before and after its first question mark.
pub(crate) fn target_parts(target: &str) -> (&str, Option<&str>)
    ensures path { result.0.now ≡ spec.path_of target.now }
    ensures query { option_copied result.1 ≡ spec.query_of target.now }
{
    match target.split_once('?') {
        Some((path, query)) => (path, Some(query)),
        None => (target, None),
    }
}

//! The request of a route, from its parameters and its body.
ghost use Rattle.std.specs.Prelude.{◌≡◌, ℕ, List, [], option_copied, unwrap_or, codes};
ghost use Rattle.hub_http.specs.Outcome.{Yields, YieldsAs};
ghost use Rattle.hub_http.specs.Requests as spec;

use crate::parameters::{Parameters, read_parameters};
use crate::request_fault::RequestFault;
use crate::routes::{CircleChange, IncidentChange, PartChange, Route, read_route, target_parts};
use crate::spelling::{read_digest, read_flag, read_handling, read_role};
use circle::command::CircleCommand;
use circle::text::Text;
use hub_core::{
    Address, Bytes, Distribution, Explain, Grant, Post, Redistribute, Replace, Request, Search,
    Unaddress, Withdraw,
};
use std::alloc::Global;

/// Where the parameters of a route are.
#[derive(Clone, Copy, Drop)]
pub(crate) enum Place {
    Query,
    QueryBesideDocument,
    Body,
}

#[tactic(auto, unfolding(crate::specs::Requests::place_of))]
fn place_of(route: Route) -> Place
    ensures { result ≡ spec.place_of route }
{
    match route {
        Route::Post | Route::Replace(_) => Place::QueryBesideDocument,
        Route::OfCircle(_) | Route::OfPart(_, _) | Route::OfIncident(_, _) => Place::Body,
        _ => Place::Query,
    }
}

fn query_bytes(query: Option<&str>) -> &[u8]
    ensures { result.now ≡ unwrap_or (option_copied query.entry) [] }
{
    match query {
        Some(text) => text.as_bytes(),
        None => &[],
    }
}

/// Returns the form with the parameters. Fails with `BadBody` if a body is there that isn't allowed, or a query (`?`
/// alone is one).
#[tactic(auto, unfolding(crate::specs::Requests::form_at))]
fn form_at<'a>(
    place: Place,
    query: Option<&'a str>,
    body: &'a [u8],
) -> Result<&'a [u8], RequestFault>
    ensures { YieldsAs (λ f. f.now) result
        (spec.form_at place (option_copied query.entry) body.now) }
{
    match place {
        Place::Query => {
            if body.is_empty() {
                Ok(query_bytes(query))
            } else {
                Err(RequestFault::BadBody)
            }
        }
        Place::QueryBesideDocument => Ok(query_bytes(query)),
        Place::Body => match query {
            None => Ok(body),
            Some(_) => Err(RequestFault::BadBody),
        },
    }
}

/// The number after which a page begins, with no parameter beside it.
#[tactic(auto, unfolding(crate::specs::Requests::after_alone))]
fn read_after(pairs: &Parameters<'_>) -> Result<u32, RequestFault>
    ensures { Yields result (spec.after_alone pairs.now) }
{
    pairs.only(&["after"])?;
    pairs.number_or_zero("after")
}

#[tactic(auto, unfolding(crate::specs::Requests::search_in))]
fn read_search(alloc: Global, pairs: &Parameters<'_>) -> Result<Request, RequestFault>
    ensures { Yields result (spec.search_in pairs.now) }
{
    pairs.only(&["needle", "class", "after"])?;
    let needle = pairs.mandatory_text(alloc, "needle")?;
    let class = pairs.optional_text(alloc, "class")?;
    let after = pairs.number_or_zero("after")?;
    Ok(Request::Search(Search {
        needle,
        class,
        after,
    }))
}

#[tactic(auto, unfolding(crate::specs::Requests::explain_in))]
fn read_explain(alloc: Global, pairs: &Parameters<'_>) -> Result<Request, RequestFault>
    ensures { Yields result (spec.explain_in pairs.now) }
{
    pairs.only(&["person", "incident", "path"])?;
    let person = pairs.mandatory_number("person")?;
    let incident = pairs.mandatory_number("incident")?;
    let path = pairs.mandatory_text(alloc, "path")?;
    Ok(Request::Explain(Explain {
        person,
        incident,
        path,
    }))
}

/// The distribution of a Post or a Replace, which have other parameters too.
#[tactic(auto, unfolding(crate::specs::Requests::distribution_in))]
fn read_distribution(alloc: Global, pairs: &Parameters<'_>) -> Result<Distribution, RequestFault>
    ensures { Yields result (spec.distribution_in pairs.now) }
{
    let community = pairs.optional_number("community")?;
    let level = pairs.mandatory_number("level")?;
    let group = pairs.optional_number("group")?;
    let gates = pairs.gates(alloc)?;
    Ok(Distribution {
        community,
        level,
        group,
        gates,
    })
}

#[tactic(auto, unfolding(crate::specs::Requests::post_in))]
fn read_post(alloc: Global, pairs: &Parameters<'_>, body: &[u8]) -> Result<Request, RequestFault>
    ensures { Yields result (spec.post_in pairs.now body.now) }
{
    pairs.only(&["community", "level", "group", "gate"])?;
    let distribution = read_distribution(alloc, pairs)?;
    let document = Bytes::new(Vec::from_slice(alloc, body)?);
    Ok(Request::Post(Post {
        distribution,
        document,
    }))
}

#[tactic(auto, unfolding(crate::specs::Requests::replace_in))]
fn read_replace(
    alloc: Global,
    incident: u32,
    pairs: &Parameters<'_>,
    body: &[u8],
) -> Result<Request, RequestFault>
    ensures { Yields result (spec.replace_in incident pairs.now body.now) }
{
    pairs.only(&["revision", "community", "level", "group", "gate"])?;
    let revision = pairs.mandatory_number("revision")?;
    let distribution = read_distribution(alloc, pairs)?;
    let document = Bytes::new(Vec::from_slice(alloc, body)?);
    Ok(Request::Replace(Replace {
        incident,
        revision,
        distribution,
        document,
    }))
}

#[tactic(auto, unfolding(crate::specs::Requests::redistribute_in))]
fn read_redistribute(
    alloc: Global,
    incident: u32,
    pairs: &Parameters<'_>,
) -> Result<Request, RequestFault>
    ensures { Yields result (spec.redistribute_in incident pairs.now) }
{
    pairs.only(&["revision", "path", "level", "group"])?;
    let revision = pairs.mandatory_number("revision")?;
    let path = pairs.mandatory_text(alloc, "path")?;
    let level = pairs.mandatory_number("level")?;
    let group = pairs.optional_number("group")?;
    Ok(Request::Redistribute(Redistribute {
        incident,
        revision,
        path,
        level,
        group,
    }))
}

#[tactic(auto, unfolding(crate::specs::Requests::grant_in))]
fn read_grant(alloc: Global, incident: u32, pairs: &Parameters<'_>) -> Result<Request, RequestFault>
    ensures { Yields result (spec.grant_in incident pairs.now) }
{
    pairs.only(&[
        "revision",
        "path",
        "person",
        "org",
        "community",
        "group",
        "until",
    ])?;
    let revision = pairs.mandatory_number("revision")?;
    let path = pairs.mandatory_text(alloc, "path")?;
    let grantee = pairs.grantee()?;
    let until = pairs.optional_moment("until")?;
    Ok(Request::Grant(Grant {
        incident,
        revision,
        path,
        grantee,
        until,
    }))
}

#[tactic(auto, unfolding(crate::specs::Requests::withdraw_in))]
fn read_withdraw(
    alloc: Global,
    incident: u32,
    pairs: &Parameters<'_>,
) -> Result<Request, RequestFault>
    ensures { Yields result (spec.withdraw_in incident pairs.now) }
{
    pairs.only(&["path", "person", "org", "community", "group"])?;
    let path = pairs.mandatory_text(alloc, "path")?;
    let grantee = pairs.grantee()?;
    Ok(Request::Withdraw(Withdraw {
        incident,
        path,
        grantee,
    }))
}

/// The request of a POST to a part of the incident of this number.
#[tactic(auto, unfolding(crate::specs::Requests::incident_request))]
fn read_incident_request(
    alloc: Global,
    change: IncidentChange,
    incident: u32,
    pairs: &Parameters<'_>,
) -> Result<Request, RequestFault>
    ensures { Yields result (spec.incident_request change incident pairs.now) }
{
    match change {
        IncidentChange::Redistribute => read_redistribute(alloc, incident, pairs),
        IncidentChange::Address => {
            let target = pairs.target_alone()?;
            Ok(Request::Address(Address { incident, target }))
        }
        IncidentChange::Unaddress => {
            let target = pairs.target_alone()?;
            Ok(Request::Unaddress(Unaddress { incident, target }))
        }
        IncidentChange::Grant => read_grant(alloc, incident, pairs),
        IncidentChange::Withdraw => read_withdraw(alloc, incident, pairs),
    }
}

#[tactic(auto, unfolding(crate::specs::Requests::person_in))]
fn read_person(alloc: Global, pairs: &Parameters<'_>) -> Result<CircleCommand, RequestFault>
    ensures { Yields result (spec.person_in pairs.now) }
{
    pairs.only(&["org", "name", "role", "key"])?;
    let org = pairs.mandatory_number("org")?;
    let name = pairs.mandatory_text(alloc, "name")?;
    let role = read_role(pairs.mandatory("role")?)?;
    let key = read_digest(pairs.mandatory("key")?)?;
    Ok(CircleCommand::AddPerson {
        org,
        name,
        role,
        key,
    })
}

#[tactic(auto, unfolding(crate::specs::Requests::group_in))]
fn read_group(alloc: Global, pairs: &Parameters<'_>) -> Result<CircleCommand, RequestFault>
    ensures { Yields result (spec.group_in pairs.now) }
{
    pairs.only(&["name", "releasability"])?;
    let name = pairs.mandatory_text(alloc, "name")?;
    let releasability = pairs.mandatory_text(alloc, "releasability")?;
    Ok(CircleCommand::NewGroup {
        name,
        releasability,
    })
}

#[tactic(auto, unfolding(crate::specs::Requests::arrangement_in))]
fn read_arrangement(pairs: &Parameters<'_>) -> Result<CircleCommand, RequestFault>
    ensures { Yields result (spec.arrangement_in pairs.now) }
{
    pairs.only(&["org", "handling"])?;
    let org = pairs.mandatory_number("org")?;
    let handling = read_handling(pairs.mandatory("handling")?)?;
    Ok(CircleCommand::Arrange { org, handling })
}

/// The name, with no parameter beside it.
#[tactic(auto, unfolding(crate::specs::Requests::name_alone))]
fn read_name(alloc: Global, pairs: &Parameters<'_>) -> Result<Text, RequestFault>
    ensures { Yields result (spec.name_alone pairs.now) }
{
    pairs.only(&["name"])?;
    pairs.mandatory_text(alloc, "name")
}

/// The digest of a key, with no parameter beside it.
#[tactic(auto, unfolding(crate::specs::Requests::key_alone))]
fn read_key(pairs: &Parameters<'_>) -> Result<[u8; 32], RequestFault>
    ensures { Yields result (spec.key_alone pairs.now) }
{
    pairs.only(&["key"])?;
    read_digest(pairs.mandatory("key")?)
}

/// The command of a POST to a collection, or to the own key.
#[tactic(auto, unfolding(crate::specs::Requests::circle_command))]
fn read_circle_command(
    alloc: Global,
    change: CircleChange,
    pairs: &Parameters<'_>,
) -> Result<CircleCommand, RequestFault>
    ensures { Yields result (spec.circle_command change pairs.now) }
{
    match change {
        CircleChange::AddOrg => {
            let name = read_name(alloc, pairs)?;
            Ok(CircleCommand::AddOrg { name })
        }
        CircleChange::AddPerson => read_person(alloc, pairs),
        CircleChange::AddCommunity => {
            let name = read_name(alloc, pairs)?;
            Ok(CircleCommand::AddCommunity { name })
        }
        CircleChange::NewGroup => read_group(alloc, pairs),
        CircleChange::Arrange => read_arrangement(pairs),
        CircleChange::CancelArrange => {
            let org = pairs.number_alone("org")?;
            Ok(CircleCommand::CancelArrange { org })
        }
        CircleChange::NewKey => {
            let key = read_key(pairs)?;
            Ok(CircleCommand::NewKey { key })
        }
    }
}

#[tactic(auto, unfolding(crate::specs::Requests::member_in))]
fn read_member(group: u32, pairs: &Parameters<'_>) -> Result<CircleCommand, RequestFault>
    ensures { Yields result (spec.member_in group pairs.now) }
{
    pairs.only(&["org", "extend"])?;
    let org = pairs.mandatory_number("org")?;
    let extend = read_flag(pairs.mandatory("extend")?)?;
    Ok(CircleCommand::GroupAdd { group, org, extend })
}

#[tactic(auto, unfolding(crate::specs::Requests::active_in))]
fn read_active(group: u32, pairs: &Parameters<'_>) -> Result<CircleCommand, RequestFault>
    ensures { Yields result (spec.active_in group pairs.now) }
{
    pairs.only(&["active"])?;
    let active = read_flag(pairs.mandatory("active")?)?;
    Ok(CircleCommand::GroupActive { group, active })
}

/// The command, if there is no parameter. The body may be empty or `&`; any pair is BadBody, also `=`.
fn without_parameter(
    pairs: &Parameters<'_>,
    command: CircleCommand,
) -> Result<CircleCommand, RequestFault>
    ensures { Yields result (spec.nothing_beside pairs.now command) }
{
    pairs.only(&[])?;
    Ok(command)
}

/// The command of a POST to a part of the organisation, person, community or group of this number.
#[tactic(auto, unfolding(crate::specs::Requests::part_command))]
fn read_part_command(
    change: PartChange,
    number: u32,
    pairs: &Parameters<'_>,
) -> Result<CircleCommand, RequestFault>
    ensures { Yields result (spec.part_command change number pairs.now) }
{
    match change {
        PartChange::AddClient => {
            let (org, client) = (number, pairs.number_alone("client")?);
            Ok(CircleCommand::AddClient { org, client })
        }
        PartChange::RemoveClient => {
            let (org, client) = (number, pairs.number_alone("client")?);
            Ok(CircleCommand::RemoveClient { org, client })
        }
        PartChange::SuspendPerson => {
            without_parameter(pairs, CircleCommand::SuspendPerson { person: number })
        }
        PartChange::Nominate => {
            without_parameter(pairs, CircleCommand::Nominate { person: number })
        }
        PartChange::Unnominate => {
            without_parameter(pairs, CircleCommand::Unnominate { person: number })
        }
        PartChange::Join => {
            let (community, org) = (number, pairs.number_alone("org")?);
            Ok(CircleCommand::Join { community, org })
        }
        PartChange::Leave => {
            let (community, org) = (number, pairs.number_alone("org")?);
            Ok(CircleCommand::Leave { community, org })
        }
        PartChange::Link => {
            let (community, other) = (number, pairs.number_alone("other")?);
            Ok(CircleCommand::Link { community, other })
        }
        PartChange::Unlink => {
            let (community, other) = (number, pairs.number_alone("other")?);
            Ok(CircleCommand::Unlink { community, other })
        }
        PartChange::GroupAdd => read_member(number, pairs),
        PartChange::GroupRemove => {
            let org = pairs.number_alone("org")?;
            Ok(CircleCommand::GroupRemove { group: number, org })
        }
        PartChange::GroupActive => read_active(number, pairs),
    }
}

/// The request of a route, from its parameters and its body.
#[tactic(auto, unfolding(crate::specs::Requests::request_in))]
fn read_request_in(
    alloc: Global,
    route: Route,
    pairs: &Parameters<'_>,
    body: &[u8],
) -> Result<Request, RequestFault>
    ensures { Yields result (spec.request_in route pairs.now body.now) }
{
    match route {
        Route::WhoAmI => {
            pairs.only(&[])?;
            Ok(Request::WhoAmI)
        }
        Route::MyGroups => {
            pairs.only(&[])?;
            Ok(Request::MyGroups)
        }
        Route::MyCommunities => {
            pairs.only(&[])?;
            Ok(Request::MyCommunities)
        }
        Route::Addressed => {
            let after = read_after(pairs)?;
            Ok(Request::Addressed { after })
        }
        Route::List => {
            let after = read_after(pairs)?;
            Ok(Request::List { after })
        }
        Route::View(incident) => {
            pairs.only(&[])?;
            Ok(Request::View { incident })
        }
        Route::Sharing(incident) => {
            pairs.only(&[])?;
            Ok(Request::Sharing { incident })
        }
        Route::Search => read_search(alloc, pairs),
        Route::Explain => read_explain(alloc, pairs),
        Route::Post => read_post(alloc, pairs, body),
        Route::Replace(incident) => read_replace(alloc, incident, pairs, body),
        Route::OfCircle(change) => Ok(Request::Circle(read_circle_command(alloc, change, pairs)?)),
        Route::OfPart(change, number) => Ok(Request::Circle(read_part_command(
            change, number, pairs,
        )?)),
        Route::OfIncident(change, incident) => {
            read_incident_request(alloc, change, incident, pairs)
        }
    }
}

/// The request of a method, a target and a body.
#[tactic(auto, unfolding(crate::specs::Requests::request_by))]
pub(crate) fn read_request(
    alloc: Global,
    method: &str,
    target: &str,
    body: &[u8],
) -> Result<Request, RequestFault>
    ensures { Yields result (spec.request_by method.now target.now body.now) }
{
    let (path, query) = target_parts(target);
    let route = read_route(alloc, method, path)?;
    let form = form_at(place_of(route), query, body)?;
    let pairs = read_parameters(alloc, form)?;
    read_request_in(alloc, route, &pairs, body)
}

//! Whether what a request names is there, by a shelf's look-ups.
ghost use Rattle.std.specs.Prelude.{◌≡◌, IfOk};
ghost use Rattle.std.specs.List.{list_all};
ghost use Rattle.iodef_tree.specs.Pointer.{pointer_tokens};
ghost use Rattle.hub_state.specs.Requests.{is_own_community, is_own_group, are_own_groups, has_joined_all, is_target, is_grantee, is_active};
ghost use Rattle.hub_state.specs.inner.Shared.{path_asked};
ghost use Rattle.hub_state.specs.Shelves.{Finds};
ghost use Rattle.hub_state.specs.State.{State};

use crate::look_ups::LookUps;
use crate::request::{Distribution, Grant, Redistribute, Request, Target, WantedGate, Withdraw};
use crate::shelf::ShelfFault;
use circle::directory::Person;
use circle::text::Text;
use iodef_tree::{Path, PathFault};
use policy::Grantee;
use std::alloc::{AllocError, Global};

/// The path that the text is the JSON pointer of (RFC 6901); none if it is no pointer.
fn path_of(alloc: Global, text: &Text) -> Result<Option<Path>, AllocError>
    ensures { IfOk result (λ path. path ≡ pointer_tokens text.now) }
{
    match Path::parse(alloc, text.as_str()) {
        Ok(path) => Ok(Some(path)),
        Err(PathFault::BadPath) => Ok(None),
        Err(PathFault::NoMemory) => Err(AllocError),
    }
}

/// The path of the row that a request would put or take; none if its text is no pointer.
pub(crate) fn path_asked(alloc: Global, request: &Request) -> Result<Option<Path>, AllocError>
    ensures { IfOk result (λ path. path ≡ path_asked request.now) }
{
    match request {
        Request::Redistribute(Redistribute { path, .. })
        | Request::Grant(Grant { path, .. })
        | Request::Withdraw(Withdraw { path, .. }) => path_of(alloc, path),
        _ => Ok(None),
    }
}

fn is_own_community<L: LookUps>(
    shelf: &mut L,
    actor: &Person,
    community: Option<u32>,
) -> Result<bool, ShelfFault>
    ensures { Finds L.has L.doubts L.failed L.may_remain shelf.old shelf.new result (λ s.
        IfOk result (λ b. b ≡ is_own_community s actor.now community)) }
{
    match community {
        None => Ok(true),
        Some(community) => shelf.has_membership(community, actor.org),
    }
}

pub(crate) fn is_own_group<L: LookUps>(
    shelf: &mut L,
    actor: &Person,
    group: Option<u32>,
) -> Result<bool, ShelfFault>
    ensures { Finds L.has L.doubts L.failed L.may_remain shelf.old shelf.new result (λ s.
        IfOk result (λ b. b ≡ is_own_group s actor.now group)) }
{
    match group {
        None => Ok(true),
        Some(group) => shelf.has_group_member(group, actor.org),
    }
}

fn are_all_own<L: LookUps>(
    shelf: &mut L,
    actor: &Person,
    gates: &[WantedGate],
) -> Result<bool, ShelfFault>
    ensures { Finds L.has L.doubts L.failed L.may_remain shelf.old shelf.new result (λ s.
        IfOk result (λ b. b ≡ list_all (λ g. is_own_group s actor.now g.group) gates.now)) }
{
    for gate in gates {
        if !is_own_group(shelf, actor, gate.group)? {
            return Ok(false);
        }
    }
    Ok(true)
}

fn are_own_groups<L: LookUps>(
    shelf: &mut L,
    actor: &Person,
    distribution: &Distribution,
) -> Result<bool, ShelfFault>
    ensures { Finds L.has L.doubts L.failed L.may_remain shelf.old shelf.new result (λ s.
        IfOk result (λ b. b ≡ are_own_groups s actor.now distribution.now)) }
{
    if is_own_group(shelf, actor, distribution.group)? {
        are_all_own(shelf, actor, distribution.gates.as_slice())
    } else {
        Ok(false)
    }
}

/// Whether the actor's organisation is a member of the community that is named, and of each group.
pub(crate) fn has_joined_all<L: LookUps>(
    shelf: &mut L,
    actor: &Person,
    distribution: &Distribution,
) -> Result<bool, ShelfFault>
    ensures { Finds L.has L.doubts L.failed L.may_remain shelf.old shelf.new result (λ s.
        IfOk result (λ b. b ≡ has_joined_all s actor.now distribution.now)) }
{
    if is_own_community(shelf, actor, distribution.community)? {
        are_own_groups(shelf, actor, distribution)
    } else {
        Ok(false)
    }
}

pub(crate) fn is_target<L: LookUps>(shelf: &mut L, target: Target) -> Result<bool, ShelfFault>
    ensures { Finds L.has L.doubts L.failed L.may_remain shelf.old shelf.new result (λ s.
        IfOk result (λ b. b ≡ is_target s.directory target)) }
{
    match target {
        Target::Person(number) => shelf.has_person(number),
        Target::Org(number) => shelf.has_org(number),
    }
}

pub(crate) fn is_grantee<L: LookUps>(
    shelf: &mut L,
    org: u32,
    grantee: Grantee,
) -> Result<bool, ShelfFault>
    ensures { Finds L.has L.doubts L.failed L.may_remain shelf.old shelf.new result (λ s.
        IfOk result (λ b. b ≡ is_grantee s.directory org grantee)) }
{
    match grantee {
        Grantee::Person(number) => shelf.has_person(number),
        Grantee::Org(number) => shelf.has_org(number),
        Grantee::Community(number) => shelf.has_community(number),
        Grantee::Group(number) => shelf.has_group_member(number, org),
    }
}

/// Whether the person is there and active.
pub(crate) fn is_active<L: LookUps>(shelf: &mut L, person: u32) -> Result<bool, ShelfFault>
    ensures { Finds L.has L.doubts L.failed L.may_remain shelf.old shelf.new result (λ s.
        IfOk result (λ b. b ≡ is_active s.directory person)) }
{
    match shelf.person_of(person)? {
        None => Ok(false),
        Some(person) => Ok(person.active),
    }
}

//! The permissions of a view's case.
ghost use Rattle.std.specs.Prelude.{◌≡◌, [], IfOk, nat_le};
ghost use Rattle.std.specs.List.{list_any};
ghost use Rattle.json.specs.Value.{value_view, items_view};
ghost use Rattle.redaction.specs.Readings.{require};
ghost use Rattle.redaction.specs.Values as values;
ghost use Rattle.redaction.specs.Described as spec;

use crate::PERMISSION_LIMIT;
use crate::both::{Read, at, at_member, both, collect, unless};
use crate::fault::Fault;
use crate::place::{Part, Refusal, Step};
use crate::value::{count_of, given_moment, given_number, object_in, only, wanted_path};
use json::Value;
use policy::{Grantee, Permission, Permissions};
use std::alloc::{AllocError, Global};

/// Returns the grantee that is named: one of the four, and no more than one.
#[tactic(auto, unfolding(crate::specs::Described::one_grantee))]
fn one_grantee(
    person: Option<u32>,
    org: Option<u32>,
    community: Option<u32>,
    group: Option<u32>,
) -> Read<Grantee>
    ensures { result ≡ spec.one_grantee person org community group }
{
    match (person, org, community, group) {
        (Some(n), None, None, None) => Ok(Grantee::Person(n)),
        (None, Some(n), None, None) => Ok(Grantee::Org(n)),
        (None, None, Some(n), None) => Ok(Grantee::Community(n)),
        (None, None, None, Some(n)) => Ok(Grantee::Group(n)),
        (None, None, None, None) => Err(Refusal::here(Fault::MissingMember)),
        _ => Err(Refusal::here(Fault::OutOfRange)),
    }
}

/// Returns the grantee of a permission.
#[tactic(auto, unfolding(crate::specs::Described::grantee_in))]
fn grantee_in(value: &Value<'_>) -> Read<Grantee>
    ensures { result ≡ spec.grantee_in (value_view value.now) }
{
    let one = both(
        given_number(value, Part::Person),
        given_number(value, Part::Org),
    );
    let many = both(
        given_number(value, Part::Community),
        given_number(value, Part::Group),
    );
    match both(one, many) {
        Ok(((person, org), (community, group))) => one_grantee(person, org, community, group),
        Err(refusal) => Err(refusal),
    }
}

/// Returns the permission that a value says.
#[tactic(auto, unfolding(crate::specs::Described::permission_in))]
fn permission_in(alloc: Global, value: &Value<'_>) -> Result<Read<Permission>, AllocError>
    ensures { IfOk result (λ r. r ≡ spec.permission_in (value_view value.now)) }
{
    if let Err(refusal) = object_in(value) {
        return Ok(Err(refusal));
    }
    let names = only(
        value,
        &[
            Part::Path,
            Part::Person,
            Part::Org,
            Part::Community,
            Part::Group,
            Part::Until,
        ],
    );
    let path = wanted_path(alloc, value, Part::Path)?;
    let to = both(grantee_in(value), given_moment(value, Part::Until));
    match both(both(names, path), to) {
        Ok((((), path), (grantee, until))) => Ok(Ok(Permission {
            path,
            grantee,
            until,
        })),
        Err(refusal) => Ok(Err(refusal)),
    }
}

/// Returns the permissions of an array.
fn each_permission(alloc: Global, items: &Vec<Value<'_>>) -> Result<Read<Permissions>, AllocError>
    ensures { IfOk result (λ r.
        r ≡ values.each spec.permission_in (items_view items.now.items)) }
{
    let mut found = Vec::new(alloc);
    let mut first = None;
    let mut place = 0;
    for item in items {
        let permission = at(Step::Item(place), permission_in(alloc, item)?);
        collect(&mut first, &mut found, permission)?;
        place += 1;
    }
    Ok(unless(first, Permissions::new(found)))
}

/// Fails with OutOfRange above [`PERMISSION_LIMIT`].
fn are_permissions(items: &Vec<Value<'_>>) -> Read<()>
    ensures { result ≡
        require (nat_le (values.count_of (items_view items.now.items)) PERMISSION_LIMIT) Fault.OutOfRange }
{
    if count_of(items) <= PERMISSION_LIMIT {
        Ok(())
    } else {
        Err(Refusal::here(Fault::OutOfRange))
    }
}

/// Returns whether two permissions are at one class and for one grantee.
fn are_alike(one: &Permission, other: &Permission) -> bool
    ensures { result ≡ spec.same_permission one.now other.now }
{
    one.path == other.path && one.grantee == other.grantee
}

/// Returns whether one of the others is like it.
fn is_among(one: &Permission, others: &[Permission]) -> bool
    ensures { result ≡ list_any (spec.same_permission one.now) others.now }
{
    others.iter().any(|other| are_alike(one, other))
}

/// Returns whether two of the permissions are at one class and for one grantee.
fn has_alike(permissions: &[Permission]) -> bool
    ensures { result ≡ spec.has_alike spec.same_permission permissions.now }
{
    let mut rest = permissions;
    for permission in permissions {
        rest = &rest[1..];
        if is_among(permission, rest) {
            return true;
        }
    }
    false
}

/// Returns the permissions. Fails with OutOfRange if two of them are at one class and for one grantee.
fn apart(permissions: Permissions) -> Read<Permissions>
    ensures { result ≡ spec.permissions_apart permissions }
{
    if has_alike(permissions.as_slice()) {
        return Err(Refusal::here(Fault::OutOfRange));
    }
    Ok(permissions)
}

/// Returns the permissions that a value says.
#[tactic(auto, unfolding(crate::specs::Described::permissions_in))]
fn permissions_in(alloc: Global, value: &Value<'_>) -> Result<Read<Permissions>, AllocError>
    ensures { IfOk result (λ r. r ≡ spec.permissions_in (value_view value.now)) }
{
    let Value::Array(items) = value else {
        return Ok(Err(Refusal::here(Fault::WrongKind)));
    };
    let permissions = each_permission(alloc, items)?;
    match both(are_permissions(items), permissions) {
        Ok(((), permissions)) => Ok(apart(permissions)),
        Err(refusal) => Ok(Err(refusal)),
    }
}

/// Returns the permissions of a case; none if they are missing.
pub(crate) fn given_permissions(
    alloc: Global,
    value: &Value<'_>,
) -> Result<Read<Permissions>, AllocError>
    ensures { IfOk result (λ r.
        r ≡ values.given_or [] spec.permissions_in Part.Permissions (value_view value.now)) }
{
    let permissions = match value.get(Part::Permissions.name()) {
        Some(value) => permissions_in(alloc, value)?,
        None => Ok(Permissions::new(Vec::new(alloc))),
    };
    Ok(at_member(Part::Permissions, permissions))
}

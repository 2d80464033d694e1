//! Comparisons of two replies.

use hub_core::{JoinedCommunity, JoinedGroup, Naming, Reply, SharedPermission, Sharing, View};
use iodef_tree::{Document, Path};
use policy::{Gate, Permission, Rule};
use redact::Excerpt;
use std::alloc::{AllocError, Global};

/// Returns whether they have the same compact JSON.
pub fn same_document(alloc: Global, one: &Document, other: &Document) -> Result<bool, AllocError> {
    Ok(one.text(alloc)?.as_str() == other.text(alloc)?.as_str())
}

fn same_withheld(one: &[(Path, Rule)], other: &[(Path, Rule)]) -> bool {
    one.len() == other.len()
        && one
            .iter()
            .zip(other.iter())
            .all(|(a, b)| a.0 == b.0 && a.1.name() == b.1.name())
}

fn same_view(alloc: Global, one: &View, other: &View) -> Result<bool, AllocError> {
    Ok(
        one.number == other.number
            && one.revision == other.revision
            && one.source == other.source
            && one.classes == other.classes
            && same_withheld(one.withheld.as_slice(), other.withheld.as_slice())
            && same_document(alloc, &one.document, &other.document)?,
    )
}

/// Returns whether both are none, or equal in each field; documents by their JSON.
pub fn same_excerpt(
    alloc: Global,
    one: &Option<Excerpt>,
    other: &Option<Excerpt>,
) -> Result<bool, AllocError> {
    match (one, other) {
        (None, None) => Ok(true),
        (Some(a), Some(b)) => Ok(
            a.classes == b.classes
                && same_withheld(a.withheld.as_slice(), b.withheld.as_slice())
                && same_document(alloc, &a.document, &b.document)?,
        ),
        _ => Ok(false),
    }
}

fn same_group(one: &JoinedGroup, other: &JoinedGroup) -> bool {
    one.number == other.number
        && one.owner == other.owner
        && one.name == other.name
        && one.releasability == other.releasability
        && one.active == other.active
        && one.extend == other.extend
}

/// Returns whether they are the same groups in the same order, each field equal.
pub fn same_groups(one: &[JoinedGroup], other: &[JoinedGroup]) -> bool {
    one.len() == other.len() && one.iter().zip(other.iter()).all(|(a, b)| same_group(a, b))
}

fn same_community(one: &JoinedCommunity, other: &JoinedCommunity) -> bool {
    one.number == other.number
        && one.name == other.name
        && one.members.as_slice() == other.members.as_slice()
        && one.connected.as_slice() == other.connected.as_slice()
}

/// Returns whether they are the same communities in the same order, each field equal.
pub fn same_communities(one: &[JoinedCommunity], other: &[JoinedCommunity]) -> bool {
    one.len() == other.len()
        && one
            .iter()
            .zip(other.iter())
            .all(|(a, b)| same_community(a, b))
}

pub fn same_gates(one: &[Gate], other: &[Gate]) -> bool {
    one.len() == other.len()
        && one.iter().zip(other.iter()).all(|(a, b)| a.path == b.path
            && a.level == b.level
            && a.group == b.group)
}

fn same_permission(one: &Permission, other: &Permission) -> bool {
    one.path == other.path && one.grantee == other.grantee && one.until == other.until
}

pub fn same_permissions(one: &[Permission], other: &[Permission]) -> bool {
    one.len() == other.len()
        && one
            .iter()
            .zip(other.iter())
            .all(|(a, b)| same_permission(a, b))
}

/// Returns whether all is equal that an incident is known by.
pub fn same_naming(one: &Naming, other: &Naming) -> bool {
    one.number == other.number
        && one.source == other.source
        && one.ident == other.ident
        && one.revision == other.revision
        && one.community == other.community
}

fn same_ends(one: &[SharedPermission], other: &[SharedPermission]) -> bool {
    one.len() == other.len()
        && one.iter().zip(other.iter()).all(|(a, b)| same_permission(&a.permission, &b.permission)
            && a.ended == b.ended)
}

fn same_sharing(one: &Sharing, other: &Sharing) -> bool {
    same_naming(&one.naming, &other.naming)
        && same_gates(one.gates.as_slice(), other.gates.as_slice())
        && one.recipients.as_slice() == other.recipients.as_slice()
        && same_ends(one.permissions.as_slice(), other.permissions.as_slice())
}

/// Returns whether they are of one kind and equal in each field; documents by their JSON.
pub fn same_reply(alloc: Global, one: &Reply, other: &Reply) -> Result<bool, AllocError> {
    match (one, other) {
        (Reply::Done, Reply::Done) => Ok(true),
        (Reply::Numbers(a), Reply::Numbers(b)) => Ok(a.as_slice() == b.as_slice()),
        (Reply::Revision(a), Reply::Revision(b)) => Ok(*a == *b),
        (Reply::View(a), Reply::View(b)) => same_view(alloc, a, b),
        (Reply::Incidents(a), Reply::Incidents(b)) => Ok(a.as_slice() == b.as_slice()),
        (Reply::Groups(a), Reply::Groups(b)) => Ok(same_groups(a.as_slice(), b.as_slice())),
        (Reply::Communities(a), Reply::Communities(b)) => {
            Ok(same_communities(a.as_slice(), b.as_slice()))
        }
        (Reply::Sharing(a), Reply::Sharing(b)) => Ok(same_sharing(a, b)),
        (Reply::Caller(a), Reply::Caller(b)) => Ok(*a == *b),
        (Reply::Trace(a), Reply::Trace(b)) => Ok(*a == *b),
        (Reply::Refused(a), Reply::Refused(b)) => Ok(a.code == b.code && a.detail == b.detail),
        _ => Ok(false),
    }
}

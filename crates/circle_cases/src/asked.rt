//! ask|QUESTION|ONE|OTHER: the answers of the small directory.
use crate::told;
use crate::world::world;
use circle_rows::DirectoryRows;
use std::alloc::{AllocError, Global};
use trying::number_of;

/// Returns the answer to a test of a number, or of two.
fn is_so(rows: &DirectoryRows, question: &str, one: u32, other: u32) -> Option<bool> {
    match question {
        "has_org" => Some(rows.has_org(one)),
        "has_person" => Some(rows.has_person(one)),
        "has_suspended" => Some(rows.has_suspended(one)),
        "has_nominated" => Some(rows.has_nominated(one)),
        "has_person_of" => Some(rows.has_person_of(one, other)),
        "has_client" => Some(rows.has_client(one, other)),
        "has_community" => Some(rows.has_community(one)),
        "has_membership" => Some(rows.has_membership(one, other)),
        "has_connection" => Some(rows.has_connection(one, other)),
        "has_group" => Some(rows.has_group(one)),
        "has_group_of" => Some(rows.has_group_of(one, other)),
        "has_active_group" => Some(rows.has_group_being(one, true)),
        "has_inactive_group" => Some(rows.has_group_being(one, false)),
        "has_group_member" => Some(rows.has_group_member(one, other)),
        "has_extender" => Some(rows.has_extender(one, other)),
        "has_arrangement" => Some(rows.has_arrangement(one, other)),
        "share_community" => Some(rows.share_community(one, other)),
        "are_connected" => Some(rows.are_connected(one, other)),
        "has_key" => Some(rows.has_key(&[u8::try_from(one).unwrap_or(0); 32])),
        _ => None,
    }
}

/// Returns the answer to a test of a name; for a group's name, among its owner's.
fn is_named(rows: &DirectoryRows, question: &str, name: &str, owner: u32) -> Option<bool> {
    match question {
        "has_org_named" => Some(rows.has_org_named(name)),
        "has_community_named" => Some(rows.has_community_named(name)),
        "has_group_named" => Some(rows.has_group_named(owner, name)),
        _ => None,
    }
}

/// Returns the numbers of the accounts.
fn accounts(alloc: Global, rows: &DirectoryRows) -> Result<String, AllocError> {
    let mut numbers = Vec::new(alloc);
    for account in rows.accounts() {
        numbers.push(account.person.number)?;
    }
    told::rows(alloc, numbers.as_slice())
}

/// Returns the rows of a set, if it is one of pairs.
fn pairs(alloc: Global, rows: &DirectoryRows, name: &str) -> Option<Result<String, AllocError>> {
    match name {
        "clients" => Some(told::rows(alloc, rows.clients())),
        "memberships" => Some(told::rows(alloc, rows.memberships())),
        "connections" => Some(told::rows(alloc, rows.connections())),
        "group_members" => Some(told::rows(alloc, rows.group_members())),
        "arrangements" => Some(told::rows(alloc, rows.arrangements())),
        _ => None,
    }
}

/// Returns the rows of a set, if it is one of numbered rows.
fn numbered(alloc: Global, rows: &DirectoryRows, name: &str) -> Option<Result<String, AllocError>> {
    match name {
        "orgs" => Some(told::rows(alloc, rows.orgs())),
        "communities" => Some(told::rows(alloc, rows.communities())),
        "groups" => Some(told::rows(alloc, rows.groups())),
        "accounts" => Some(accounts(alloc, rows)),
        _ => None,
    }
}

fn numbers(alloc: Global, found: Result<Vec<u32>, AllocError>) -> Result<String, AllocError> {
    told::rows(alloc, found?.as_slice())
}

fn memberships(alloc: Global, rows: &DirectoryRows, org: u32) -> Result<String, AllocError> {
    told::rows(alloc, rows.memberships_in_groups(alloc, org)?.as_slice())
}

/// Returns the communities, groups, sponsors or memberships of an organisation, or what a community is made of.
fn parts_of(
    alloc: Global,
    rows: &DirectoryRows,
    question: &str,
    org: u32,
) -> Option<Result<String, AllocError>> {
    match question {
        "communities_of" => Some(numbers(alloc, rows.communities_of(alloc, org))),
        "groups_joined" => Some(numbers(alloc, rows.groups_joined(alloc, org))),
        "active_groups_joined" => Some(numbers(alloc, rows.active_groups_joined(alloc, org))),
        "orgs_whose_client" => Some(numbers(alloc, rows.orgs_whose_client(alloc, org))),
        "memberships_in_groups" => Some(memberships(alloc, rows, org)),
        "members_of" => Some(numbers(alloc, rows.members_of(alloc, org))),
        "connected_to" => Some(numbers(alloc, rows.connected_to(alloc, org))),
        _ => None,
    }
}

/// Returns a row that may be there.
fn row(
    alloc: Global,
    rows: &DirectoryRows,
    question: &str,
    one: u32,
    other: u32,
) -> Result<String, AllocError> {
    let key = [u8::try_from(one).unwrap_or(0); 32];
    match question {
        "arranged" => told::row_if_any(alloc, rows.arranged(one, other).as_ref()),
        "person_of" => told::row_if_any(alloc, rows.person_of(one)),
        "person_of_key" => told::row_if_any(alloc, rows.person_of_key(&key)),
        "group_of" => told::row_if_any(alloc, rows.group_of(one)),
        "community_of" => told::row_if_any(alloc, rows.community_of(one)),
        _ => String::from_str(alloc, "no question"),
    }
}

/// Returns the answer to a question that isn't one of the sets.
fn answer_of(
    alloc: Global,
    rows: &DirectoryRows,
    question: &str,
    first: &str,
    second: &str,
) -> Result<String, AllocError> {
    let one = number_of(first);
    let other = number_of(second);
    if let Some(told) = parts_of(alloc, rows, question, one) {
        return told;
    }
    match is_so(rows, question, one, other).or(is_named(rows, question, first, other)) {
        Some(true) => String::from_str(alloc, "yes"),
        Some(false) => String::from_str(alloc, "no"),
        None => row(alloc, rows, question, one, other),
    }
}

/// Returns the directory's answer to QUESTION|ONE|OTHER.
fn answer_in(alloc: Global, rows: &DirectoryRows, line: &str) -> Result<String, AllocError> {
    let (question, rest) = line.split_once('|').unwrap_or((line, ""));
    let (first, second) = rest.split_once('|').unwrap_or((rest, ""));
    if let Some(told) = pairs(alloc, rows, question) {
        return told;
    }
    match numbered(alloc, rows, question) {
        Some(told) => told,
        None => answer_of(alloc, rows, question, first, second),
    }
}

/// Returns the answer to QUESTION|ONE|OTHER.
pub fn answer(alloc: Global, line: &str) -> Result<String, AllocError> {
    let rows = world(alloc)?;
    answer_in(alloc, &rows, line)
}

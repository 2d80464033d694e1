//! Groups and their members.

ghost use Rattle.std.specs.Prelude.{◌≡◌, ◌++◌, [], map, filter, option_map, IfOk, OnOk, false};
ghost use Rattle.std.specs.List.{cons_option};
ghost use Rattle.sqlite.specs.Held.{state};
ghost use Rattle.circle.specs.Directory.{has_group_member as is_group_member};
ghost use Rattle.circle.specs.Reads.{group_of, memberships_in_groups};
ghost use Rattle.circle.specs.Reads as circle_reads;
ghost use Rattle.hub_state.specs.Reads.{groups_of};
ghost use Rattle.hub_store.specs.inner.Queries.{IsReadInside, IsReadOutside};
ghost use Rattle.hub_store.specs.inner.ShownPairs.{joined_of, groups_in};
ghost use Rattle.hub_store.specs.inner.ShownPairs as spec;

use crate::ask_pairs::ask_to;
use crate::from_row::{all, first};
use crate::joined_rows::Joined;
use crate::pair_kind::PairKind;
use crate::query::ask;
use crate::read_pairs::read_has_pair;
use circle::directory::{Group, Person};
use hub_state::JoinedGroup;
use policy::Numbers;
use sqlite::{Alter, Connection, Error, Transaction, params};
use std::alloc::{AllocError, Global};

/// The groups of which an organisation is a member, in the order of their numbers, and those that are active.
#[derive(Drop)]
pub(crate) struct GroupsJoined {
    pub(crate) all: Numbers,
    pub(crate) active: Numbers,
}

pub(crate) fn read_has_group_member<S: Alter>(
    tx: &mut Transaction<'_, S>,
    group: u32,
    org: u32,
) -> Result<bool, Error>
    ensures same_reference { tx.new.conn.ghost_name ≡ tx.old.conn.ghost_name }
    ensures read { IsReadInside (state S.Store tx.old.conn.now)
        (state S.Store tx.new.conn.now) (λ s found. found ≡
        is_group_member group org s.directory) result }
{
    read_has_pair(tx, PairKind::GroupMember, group, org)
}

/// The organisation's rows in the set of members of groups.
fn read_memberships<S: Alter>(
    tx: &mut Transaction<'_, S>,
    alloc: Global,
    org: u32,
) -> Result<Vec<Joined>, Error>
    ensures same_reference { tx.new.conn.ghost_name ≡ tx.old.conn.ghost_name }
    ensures read { IsReadInside (state S.Store tx.old.conn.now)
        (state S.Store tx.new.conn.now) (λ s found.
        found.items ≡ map joined_of (memberships_in_groups org s.directory)) result }
{
    let rows = ask_to(tx, PairKind::GroupMember, org)?;
    all(alloc, &rows)
}

pub(crate) fn read_group<S: Alter>(
    tx: &mut Transaction<'_, S>,
    alloc: Global,
    number: u32,
) -> Result<Option<Group>, Error>
    ensures same_reference { tx.new.conn.ghost_name ≡ tx.old.conn.ghost_name }
    ensures read { IsReadInside (state S.Store tx.old.conn.now)
        (state S.Store tx.new.conn.now) (λ s found. found ≡ group_of number s.directory) result }
{
    let rows = ask(
        tx,
        "SELECT number, owner, name, releasability, active FROM grp WHERE number = ?1",
        params![number],
    )?;
    first(alloc, &rows)
}

fn joined_group(member: Joined, group: Group) -> JoinedGroup
    ensures { result ≡ spec.joined_group member group }
{
    JoinedGroup {
        number: group.number,
        owner: group.owner,
        name: group.name,
        releasability: group.releasability,
        active: group.active,
        extend: member.extend,
    }
}

fn push_joined(
    groups: &mut Vec<JoinedGroup>,
    member: Joined,
    group: Option<Group>,
) -> Result<(), AllocError>
    ensures { OnOk result (groups.new.items ≡
        groups.old.items ++ cons_option (option_map (spec.joined_group member) group) []) }
{
    if let Some(group) = group {
        groups.push(joined_group(member, group))?;
    }
    Ok(())
}

/// The groups of which the organisation is a member, in the order of their numbers.
fn read_groups<S: Alter>(
    tx: &mut Transaction<'_, S>,
    alloc: Global,
    org: u32,
) -> Result<Vec<JoinedGroup>, Error>
    ensures same_reference { tx.new.conn.ghost_name ≡ tx.old.conn.ghost_name }
    ensures read { IsReadInside (state S.Store tx.old.conn.now)
        (state S.Store tx.new.conn.now) (λ s found. found.items ≡
        groups_in org s.directory) result }
{
    let members = read_memberships(tx, alloc, org)?;
    let mut groups = Vec::new(alloc);
    for member in &members {
        let group = read_group(tx, alloc, member.group)?;
        push_joined(&mut groups, *member, group)?;
    }
    Ok(groups)
}

fn all_numbers(alloc: Global, groups: &[JoinedGroup]) -> Result<Vec<u32>, AllocError>
    ensures { IfOk result (λ found. found.items ≡ map (λ g. g.number) groups.now) }
{
    groups.iter().map(|group| group.number).collect(alloc)
}

fn active_numbers(alloc: Global, groups: &[JoinedGroup]) -> Result<Vec<u32>, AllocError>
    ensures { IfOk result (λ found.
        found.items ≡ map (λ g. g.number) (filter (λ g. g.active) groups.now)) }
{
    groups
        .iter()
        .filter(|group| group.active)
        .map(|group| group.number)
        .collect(alloc)
}

/// The groups of which the organisation is a member, and those that are active, in a transaction.
pub(crate) fn read_groups_joined<S: Alter>(
    tx: &mut Transaction<'_, S>,
    alloc: Global,
    org: u32,
) -> Result<GroupsJoined, Error>
    ensures same_reference { tx.new.conn.ghost_name ≡ tx.old.conn.ghost_name }
    ensures read { IsReadInside (state S.Store tx.old.conn.now)
        (state S.Store tx.new.conn.now) (λ s found. found ≡
        record {
          all = circle_reads.groups_joined org s.directory;
          active = circle_reads.active_groups_joined org s.directory;
        }) result }
{
    let groups = read_groups(tx, alloc, org)?;
    let all = all_numbers(alloc, &groups)?;
    let active = active_numbers(alloc, &groups)?;
    Ok(GroupsJoined {
        all: Numbers::new(all),
        active: Numbers::new(active),
    })
}

/// Whether the organisation is a member of the group.
pub(crate) fn has_group_member<S: Alter>(
    conn: &mut Connection<S>,
    group: u32,
    org: u32,
) -> Result<bool, Error>
    requires { conn.old.in_transaction ≡ false }
    ensures idle { conn.new.in_transaction ≡ false }
    ensures answers { IsReadOutside (state S.Store conn.old)
        (state S.Store conn.new) (λ s found. found ≡ is_group_member group org s.directory) result }
{
    let mut tx = conn.transaction();
    let found = read_has_group_member(&mut tx, group, org);
    tx.rollback();
    found
}

/// The groups of which the person's organisation is a member, in the order of their numbers.
pub(crate) fn find_groups<S: Alter>(
    conn: &mut Connection<S>,
    alloc: Global,
    person: &Person,
) -> Result<Vec<JoinedGroup>, Error>
    requires { conn.old.in_transaction ≡ false }
    ensures idle { conn.new.in_transaction ≡ false }
    ensures answers { IsReadOutside (state S.Store conn.old) (state S.Store conn.new) (λ s found.
        found.items ≡ groups_of person.now s) result }
{
    let mut tx = conn.transaction();
    let found = read_groups(&mut tx, alloc, person.org);
    tx.rollback();
    found
}

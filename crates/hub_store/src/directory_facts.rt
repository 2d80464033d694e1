//! The facts of the directory's own commands, over the tables. `circle_rows` has them over rows in memory; all other
//! facts are made of look-ups, once for both.

ghost use Rattle.std.specs.Prelude.{◌≡◌, ◌&&◌, false};
ghost use Rattle.sqlite.specs.Held.{state};
ghost use Rattle.circle.specs.Directory.{has_org, has_community, has_group_member};
ghost use Rattle.circle.specs.Facts.{exists_in, may_extend_in, owns_in, target_owns_in, is_own_person, stands_in, count_in, facts_of};
ghost use Rattle.hub_store.specs.inner.Queries.{IsReadInside, IsReadOutside};
ghost use Rattle.hub_store.specs.inner.Looks.{IsLook};

use crate::counts::{count_communities, count_groups, count_orgs, count_persons};
use crate::find_groups::read_has_group_member;
use crate::find_numbered::{read_has_community, read_has_org, read_has_person};
use crate::has_pair::{
    read_has_arrangement, read_has_client, read_has_connection, read_has_extender,
    read_has_membership,
};
use crate::has_row::{
    read_has_community_named, read_has_group_being, read_has_group_named, read_has_group_of,
    read_has_key, read_has_nominated, read_has_org_named, read_has_person_of, read_has_suspended,
};
use circle::command::{CircleCommand, CircleFacts};
use circle::directory::Person;
use sqlite::{Alter, Connection, Error, Transaction};
use std::alloc::Global;

fn has_both_orgs<S: Alter>(tx: &mut Transaction<'_, S>, org: u32, other: u32) -> Result<bool, Error>
    ensures same_reference { tx.new.conn.ghost_name ≡ tx.old.conn.ghost_name }
    ensures read { IsReadInside (state S.Store tx.old.conn.now)
        (state S.Store tx.new.conn.now) (λ s found. found ≡
        (has_org org s.directory && has_org other s.directory)) result }
{
    let first = read_has_org(tx, org)?;
    if !first {
        return Ok(false);
    }
    read_has_org(tx, other)
}

fn has_both_communities<S: Alter>(
    tx: &mut Transaction<'_, S>,
    community: u32,
    other: u32,
) -> Result<bool, Error>
    ensures same_reference { tx.new.conn.ghost_name ≡ tx.old.conn.ghost_name }
    ensures read { IsReadInside (state S.Store tx.old.conn.now)
        (state S.Store tx.new.conn.now) (λ s found. found ≡
        (has_community community s.directory && has_community other s.directory)) result }
{
    let first = read_has_community(tx, community)?;
    if !first {
        return Ok(false);
    }
    read_has_community(tx, other)
}

fn has_community_and_org<S: Alter>(
    tx: &mut Transaction<'_, S>,
    community: u32,
    org: u32,
) -> Result<bool, Error>
    ensures same_reference { tx.new.conn.ghost_name ≡ tx.old.conn.ghost_name }
    ensures read { IsReadInside (state S.Store tx.old.conn.now)
        (state S.Store tx.new.conn.now) (λ s found. found ≡
        (has_community community s.directory && has_org org s.directory)) result }
{
    let first = read_has_community(tx, community)?;
    if !first {
        return Ok(false);
    }
    read_has_org(tx, org)
}

fn has_member_and_org<S: Alter>(
    tx: &mut Transaction<'_, S>,
    group: u32,
    member: u32,
    org: u32,
) -> Result<bool, Error>
    ensures same_reference { tx.new.conn.ghost_name ≡ tx.old.conn.ghost_name }
    ensures read { IsReadInside (state S.Store tx.old.conn.now)
        (state S.Store tx.new.conn.now) (λ s found. found ≡
        (has_group_member group member s.directory && has_org org s.directory)) result }
{
    let first = read_has_group_member(tx, group, member)?;
    if !first {
        return Ok(false);
    }
    read_has_org(tx, org)
}

fn knows<S: Alter>(
    tx: &mut Transaction<'_, S>,
    alloc: Global,
    actor: &Person,
    command: &CircleCommand,
) -> Result<bool, Error>
    ensures same_reference { tx.new.conn.ghost_name ≡ tx.old.conn.ghost_name }
    ensures look { IsLook (state S.Store tx.old.conn.now)
        (state S.Store tx.new.conn.now) (λ s known. known ≡
        exists_in s.directory actor.now command.now) result }
{
    match command {
        CircleCommand::AddPerson { org, .. }
        | CircleCommand::Arrange { org, .. }
        | CircleCommand::CancelArrange { org } => read_has_org(tx, *org),
        CircleCommand::SuspendPerson { person }
        | CircleCommand::Nominate { person }
        | CircleCommand::Unnominate { person } => read_has_person(tx, alloc, *person),
        CircleCommand::AddClient { org, client } | CircleCommand::RemoveClient { org, client } => {
            has_both_orgs(tx, *org, *client)
        }
        CircleCommand::Join { community, org } | CircleCommand::Leave { community, org } => {
            has_community_and_org(tx, *community, *org)
        }
        CircleCommand::Link { community, other } | CircleCommand::Unlink { community, other } => {
            has_both_communities(tx, *community, *other)
        }
        CircleCommand::GroupAdd { group, org, .. } | CircleCommand::GroupRemove { group, org } => {
            has_member_and_org(tx, *group, actor.org, *org)
        }
        CircleCommand::GroupActive { group, .. } => read_has_group_member(tx, *group, actor.org),
        CircleCommand::AddOrg { .. }
        | CircleCommand::AddCommunity { .. }
        | CircleCommand::NewGroup { .. }
        | CircleCommand::NewKey { .. } => Ok(true),
    }
}

fn lets_extend<S: Alter>(
    tx: &mut Transaction<'_, S>,
    actor: &Person,
    command: &CircleCommand,
) -> Result<bool, Error>
    ensures same_reference { tx.new.conn.ghost_name ≡ tx.old.conn.ghost_name }
    ensures look { IsLook (state S.Store tx.old.conn.now)
        (state S.Store tx.new.conn.now) (λ s may. may ≡
        may_extend_in s.directory actor.now command.now) result }
{
    match command {
        CircleCommand::GroupAdd { group, .. }
        | CircleCommand::GroupRemove { group, .. }
        | CircleCommand::GroupActive { group, .. } => read_has_extender(tx, *group, actor.org),
        _ => Ok(false),
    }
}

fn is_owned<S: Alter>(
    tx: &mut Transaction<'_, S>,
    alloc: Global,
    actor: &Person,
    command: &CircleCommand,
) -> Result<bool, Error>
    ensures same_reference { tx.new.conn.ghost_name ≡ tx.old.conn.ghost_name }
    ensures look { IsLook (state S.Store tx.old.conn.now)
        (state S.Store tx.new.conn.now) (λ s owned. owned ≡
        owns_in s.directory actor.now command.now) result }
{
    match command {
        CircleCommand::GroupAdd { group, .. }
        | CircleCommand::GroupRemove { group, .. }
        | CircleCommand::GroupActive { group, .. } => {
            read_has_group_of(tx, alloc, *group, actor.org)
        }
        _ => Ok(false),
    }
}

fn is_targets<S: Alter>(
    tx: &mut Transaction<'_, S>,
    alloc: Global,
    command: &CircleCommand,
) -> Result<bool, Error>
    ensures same_reference { tx.new.conn.ghost_name ≡ tx.old.conn.ghost_name }
    ensures look { IsLook (state S.Store tx.old.conn.now)
        (state S.Store tx.new.conn.now) (λ s owned. owned ≡
        target_owns_in s.directory command.now) result }
{
    match command {
        CircleCommand::GroupRemove { group, org } => read_has_group_of(tx, alloc, *group, *org),
        _ => Ok(false),
    }
}

fn is_persons_own<S: Alter>(
    tx: &mut Transaction<'_, S>,
    alloc: Global,
    actor: &Person,
    command: &CircleCommand,
) -> Result<bool, Error>
    ensures same_reference { tx.new.conn.ghost_name ≡ tx.old.conn.ghost_name }
    ensures look { IsLook (state S.Store tx.old.conn.now)
        (state S.Store tx.new.conn.now) (λ s own. own ≡
        is_own_person s.directory actor.now command.now) result }
{
    match command {
        CircleCommand::Nominate { person } | CircleCommand::Unnominate { person } => {
            read_has_person_of(tx, alloc, *person, actor.org)
        }
        _ => Ok(false),
    }
}

fn stands<S: Alter>(
    tx: &mut Transaction<'_, S>,
    alloc: Global,
    actor: &Person,
    command: &CircleCommand,
) -> Result<bool, Error>
    ensures same_reference { tx.new.conn.ghost_name ≡ tx.old.conn.ghost_name }
    ensures read { IsReadInside (state S.Store tx.old.conn.now)
        (state S.Store tx.new.conn.now) (λ s stands. stands ≡
        stands_in s.directory actor.now command.now) result }
{
    match command {
        CircleCommand::AddOrg { name } => read_has_org_named(tx, name.as_str()),
        CircleCommand::AddPerson { key, .. } | CircleCommand::NewKey { key } => {
            read_has_key(tx, alloc, key)
        }
        CircleCommand::SuspendPerson { person } => read_has_suspended(tx, alloc, *person),
        CircleCommand::AddClient { org, client } | CircleCommand::RemoveClient { org, client } => {
            read_has_client(tx, *org, *client)
        }
        CircleCommand::AddCommunity { name } => read_has_community_named(tx, name.as_str()),
        CircleCommand::Join { community, org } | CircleCommand::Leave { community, org } => {
            read_has_membership(tx, *community, *org)
        }
        CircleCommand::Link { community, other } | CircleCommand::Unlink { community, other } => {
            read_has_connection(tx, (*community).min(*other), (*community).max(*other))
        }
        CircleCommand::NewGroup { name, .. } => {
            read_has_group_named(tx, actor.org, name.as_str())
        }
        CircleCommand::GroupAdd { group, org, .. } | CircleCommand::GroupRemove { group, org } => {
            read_has_group_member(tx, *group, *org)
        }
        CircleCommand::GroupActive { group, active } => {
            read_has_group_being(tx, alloc, *group, *active)
        }
        CircleCommand::Arrange { org, .. } | CircleCommand::CancelArrange { org } => {
            read_has_arrangement(tx, actor.org, *org)
        }
        CircleCommand::Nominate { person } | CircleCommand::Unnominate { person } => {
            read_has_nominated(tx, alloc, *person)
        }
    }
}

fn count<S: Alter>(tx: &mut Transaction<'_, S>, command: &CircleCommand) -> Result<u32, Error>
    ensures same_reference { tx.new.conn.ghost_name ≡ tx.old.conn.ghost_name }
    ensures look { IsLook (state S.Store tx.old.conn.now)
        (state S.Store tx.new.conn.now) (λ s count. count ≡
        count_in s.directory command.now) result }
{
    match command {
        CircleCommand::AddOrg { .. } => count_orgs(tx),
        CircleCommand::AddPerson { .. } => count_persons(tx),
        CircleCommand::AddCommunity { .. } => count_communities(tx),
        CircleCommand::NewGroup { .. } => count_groups(tx),
        _ => Ok(0),
    }
}

// What `stands` asks comes first: each command asks it, so Ok means that the store is open.
fn read_facts<S: Alter>(
    tx: &mut Transaction<'_, S>,
    alloc: Global,
    actor: &Person,
    command: &CircleCommand,
) -> Result<CircleFacts, Error>
    ensures same_reference { tx.new.conn.ghost_name ≡ tx.old.conn.ghost_name }
    ensures read { IsReadInside (state S.Store tx.old.conn.now)
        (state S.Store tx.new.conn.now) (λ s facts. facts ≡
        facts_of s.directory actor.now command.now) result }
{
    let stands = stands(tx, alloc, actor, command)?;
    let exists = knows(tx, alloc, actor, command)?;
    let may_extend = lets_extend(tx, actor, command)?;
    let owner = is_owned(tx, alloc, actor, command)?;
    let target_is_owner = is_targets(tx, alloc, command)?;
    let own_person = is_persons_own(tx, alloc, actor, command)?;
    let count = count(tx, command)?;
    Ok(CircleFacts {
        exists,
        may_extend,
        owner,
        target_is_owner,
        own_person,
        stands,
        count,
    })
}

/// The facts of the actor's command.
pub(crate) fn find_circle_facts<S: Alter>(
    conn: &mut Connection<S>,
    alloc: Global,
    actor: &Person,
    command: &CircleCommand,
) -> Result<CircleFacts, Error>
    requires { conn.old.in_transaction ≡ false }
    ensures idle { conn.new.in_transaction ≡ false }
    ensures answers { IsReadOutside (state S.Store conn.old)
        (state S.Store conn.new) (λ s facts. facts ≡
        facts_of s.directory actor.now command.now) result }
{
    let mut tx = conn.transaction();
    let found = read_facts(&mut tx, alloc, actor, command);
    tx.rollback();
    found
}

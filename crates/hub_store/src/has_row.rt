//! Whether the directory has a row, in a transaction.

ghost use Rattle.std.specs.Prelude.{◌≡◌, ◌==◌, not, false};
ghost use Rattle.std.specs.Option.{option_map_or};
ghost use Rattle.sqlite.specs.Held.{state};
ghost use Rattle.circle.specs.Directory.{has_org_named, has_community_named, has_group_named, has_key, has_suspended, has_nominated, has_person_of};
ghost use Rattle.circle.specs.Directory.{has_group_of, has_group_being, same_flag};
ghost use Rattle.hub_store.specs.inner.Queries.{IsReadInside};

use crate::any_row::is_any;
use crate::find_groups::read_group;
use crate::find_numbered::read_person_of;
use crate::find_person::read_person;
use crate::query::ask;
use circle::directory::{Group, Person};
use sqlite::{Alter, Error, Transaction, params};
use std::alloc::Global;

pub(crate) fn read_has_org_named<S: Alter>(
    tx: &mut Transaction<'_, S>,
    name: &str,
) -> Result<bool, Error>
    ensures same_reference { tx.new.conn.ghost_name ≡ tx.old.conn.ghost_name }
    ensures read { IsReadInside (state S.Store tx.old.conn.now)
        (state S.Store tx.new.conn.now) (λ s found. found ≡
        has_org_named name.now s.directory) result }
{
    let rows = ask(tx, "SELECT number FROM org WHERE name = ?1", params![name])?;
    Ok(is_any(&rows))
}

pub(crate) fn read_has_community_named<S: Alter>(
    tx: &mut Transaction<'_, S>,
    name: &str,
) -> Result<bool, Error>
    ensures same_reference { tx.new.conn.ghost_name ≡ tx.old.conn.ghost_name }
    ensures read { IsReadInside (state S.Store tx.old.conn.now)
        (state S.Store tx.new.conn.now) (λ s found. found ≡
        has_community_named name.now s.directory) result }
{
    let rows = ask(
        tx,
        "SELECT number FROM community WHERE name = ?1",
        params![name],
    )?;
    Ok(is_any(&rows))
}

pub(crate) fn read_has_group_named<S: Alter>(
    tx: &mut Transaction<'_, S>,
    owner: u32,
    name: &str,
) -> Result<bool, Error>
    ensures same_reference { tx.new.conn.ghost_name ≡ tx.old.conn.ghost_name }
    ensures read { IsReadInside (state S.Store tx.old.conn.now)
        (state S.Store tx.new.conn.now) (λ s found. found ≡
        has_group_named owner name.now s.directory) result }
{
    let rows = ask(
        tx,
        "SELECT number FROM grp WHERE owner = ?1 AND name = ?2",
        params![owner, name],
    )?;
    Ok(is_any(&rows))
}

pub(crate) fn read_has_key<S: Alter>(
    tx: &mut Transaction<'_, S>,
    alloc: Global,
    key: &[u8; 32],
) -> Result<bool, Error>
    ensures same_reference { tx.new.conn.ghost_name ≡ tx.old.conn.ghost_name }
    ensures read { IsReadInside (state S.Store tx.old.conn.now)
        (state S.Store tx.new.conn.now) (λ s found. found ≡ has_key key.now s.directory) result }
{
    let found = read_person(tx, alloc, key)?;
    Ok(found.is_some())
}

fn is_suspended(found: &Option<Person>) -> bool
    ensures { result ≡ option_map_or (λ person. not person.active) found.now false }
{
    match found {
        None => false,
        Some(person) => !person.active,
    }
}

pub(crate) fn read_has_suspended<S: Alter>(
    tx: &mut Transaction<'_, S>,
    alloc: Global,
    person: u32,
) -> Result<bool, Error>
    ensures same_reference { tx.new.conn.ghost_name ≡ tx.old.conn.ghost_name }
    ensures read { IsReadInside (state S.Store tx.old.conn.now)
        (state S.Store tx.new.conn.now) (λ s found. found ≡
        has_suspended person s.directory) result }
{
    let found = read_person_of(tx, alloc, person)?;
    Ok(is_suspended(&found))
}

fn is_nominated(found: &Option<Person>) -> bool
    ensures { result ≡ option_map_or (λ person. person.nominated) found.now false }
{
    match found {
        None => false,
        Some(person) => person.nominated,
    }
}

pub(crate) fn read_has_nominated<S: Alter>(
    tx: &mut Transaction<'_, S>,
    alloc: Global,
    person: u32,
) -> Result<bool, Error>
    ensures same_reference { tx.new.conn.ghost_name ≡ tx.old.conn.ghost_name }
    ensures read { IsReadInside (state S.Store tx.old.conn.now)
        (state S.Store tx.new.conn.now) (λ s found. found ≡
        has_nominated person s.directory) result }
{
    let found = read_person_of(tx, alloc, person)?;
    Ok(is_nominated(&found))
}

fn is_of(found: &Option<Person>, org: u32) -> bool
    ensures { result ≡ option_map_or (λ person. person.org == org) found.now false }
{
    match found {
        None => false,
        Some(person) => person.org == org,
    }
}

pub(crate) fn read_has_person_of<S: Alter>(
    tx: &mut Transaction<'_, S>,
    alloc: Global,
    person: u32,
    org: u32,
) -> Result<bool, Error>
    ensures same_reference { tx.new.conn.ghost_name ≡ tx.old.conn.ghost_name }
    ensures read { IsReadInside (state S.Store tx.old.conn.now)
        (state S.Store tx.new.conn.now) (λ s found. found ≡
        has_person_of person org s.directory) result }
{
    let found = read_person_of(tx, alloc, person)?;
    Ok(is_of(&found, org))
}

fn is_owned(found: &Option<Group>, owner: u32) -> bool
    ensures { result ≡ option_map_or (λ group. group.owner == owner) found.now false }
{
    match found {
        None => false,
        Some(group) => group.owner == owner,
    }
}

pub(crate) fn read_has_group_of<S: Alter>(
    tx: &mut Transaction<'_, S>,
    alloc: Global,
    group: u32,
    owner: u32,
) -> Result<bool, Error>
    ensures same_reference { tx.new.conn.ghost_name ≡ tx.old.conn.ghost_name }
    ensures read { IsReadInside (state S.Store tx.old.conn.now)
        (state S.Store tx.new.conn.now) (λ s found. found ≡
        has_group_of group owner s.directory) result }
{
    let found = read_group(tx, alloc, group)?;
    Ok(is_owned(&found, owner))
}

fn is_being(found: &Option<Group>, active: bool) -> bool
    ensures { result ≡ option_map_or (λ group. same_flag active group.active) found.now false }
{
    match found {
        None => false,
        Some(group) => group.active == active,
    }
}

pub(crate) fn read_has_group_being<S: Alter>(
    tx: &mut Transaction<'_, S>,
    alloc: Global,
    group: u32,
    active: bool,
) -> Result<bool, Error>
    ensures same_reference { tx.new.conn.ghost_name ≡ tx.old.conn.ghost_name }
    ensures read { IsReadInside (state S.Store tx.old.conn.now)
        (state S.Store tx.new.conn.now) (λ s found. found ≡
        has_group_being group active s.directory) result }
{
    let found = read_group(tx, alloc, group)?;
    Ok(is_being(&found, active))
}

//! Organisations, communities and persons by their numbers.

ghost use Rattle.std.specs.Prelude.{◌≡◌, false};
ghost use Rattle.sqlite.specs.Held.{state};
ghost use Rattle.circle.specs.Directory as spec;
ghost use Rattle.circle.specs.Reads.{community_of, person_of as person_numbered};
ghost use Rattle.hub_store.specs.inner.Queries.{IsReadInside, IsReadOutside};

use crate::any_row::is_any;
use crate::from_row::first;
use crate::query::ask;
use circle::directory::{Community, Person};
use sqlite::{Alter, Connection, Error, Transaction, params};
use std::alloc::Global;

pub(crate) fn read_has_org<S: Alter>(
    tx: &mut Transaction<'_, S>,
    number: u32,
) -> Result<bool, Error>
    ensures same_reference { tx.new.conn.ghost_name ≡ tx.old.conn.ghost_name }
    ensures read { IsReadInside (state S.Store tx.old.conn.now)
        (state S.Store tx.new.conn.now) (λ s found. found ≡
        spec.has_org number s.directory) result }
{
    let rows = ask(
        tx,
        "SELECT number FROM org WHERE number = ?1",
        params![number],
    )?;
    Ok(is_any(&rows))
}

pub(crate) fn read_has_community<S: Alter>(
    tx: &mut Transaction<'_, S>,
    number: u32,
) -> Result<bool, Error>
    ensures same_reference { tx.new.conn.ghost_name ≡ tx.old.conn.ghost_name }
    ensures read { IsReadInside (state S.Store tx.old.conn.now)
        (state S.Store tx.new.conn.now) (λ s found. found ≡
        spec.has_community number s.directory) result }
{
    let rows = ask(
        tx,
        "SELECT number FROM community WHERE number = ?1",
        params![number],
    )?;
    Ok(is_any(&rows))
}

pub(crate) fn read_community<S: Alter>(
    tx: &mut Transaction<'_, S>,
    alloc: Global,
    number: u32,
) -> Result<Option<Community>, Error>
    ensures same_reference { tx.new.conn.ghost_name ≡ tx.old.conn.ghost_name }
    ensures read { IsReadInside (state S.Store tx.old.conn.now)
        (state S.Store tx.new.conn.now) (λ s found. found ≡
        community_of number s.directory) result }
{
    let rows = ask(
        tx,
        "SELECT number, name FROM community WHERE number = ?1",
        params![number],
    )?;
    first(alloc, &rows)
}

pub(crate) fn read_person_of<S: Alter>(
    tx: &mut Transaction<'_, S>,
    alloc: Global,
    number: u32,
) -> Result<Option<Person>, Error>
    ensures same_reference { tx.new.conn.ghost_name ≡ tx.old.conn.ghost_name }
    ensures read { IsReadInside (state S.Store tx.old.conn.now)
        (state S.Store tx.new.conn.now) (λ s found. found ≡
        person_numbered number s.directory) result }
{
    let rows = ask(
        tx,
        "SELECT number, org, name, role, active, nominated FROM person WHERE number = ?1",
        params![number],
    )?;
    first(alloc, &rows)
}

pub(crate) fn read_has_person<S: Alter>(
    tx: &mut Transaction<'_, S>,
    alloc: Global,
    number: u32,
) -> Result<bool, Error>
    ensures same_reference { tx.new.conn.ghost_name ≡ tx.old.conn.ghost_name }
    ensures read { IsReadInside (state S.Store tx.old.conn.now)
        (state S.Store tx.new.conn.now) (λ s found. found ≡
        spec.has_person number s.directory) result }
{
    let found = read_person_of(tx, alloc, number)?;
    Ok(found.is_some())
}

/// Whether there is an organisation of this number.
pub(crate) fn has_org<S: Alter>(conn: &mut Connection<S>, number: u32) -> Result<bool, Error>
    requires { conn.old.in_transaction ≡ false }
    ensures idle { conn.new.in_transaction ≡ false }
    ensures answers { IsReadOutside (state S.Store conn.old)
        (state S.Store conn.new) (λ s found. found ≡ spec.has_org number s.directory) result }
{
    let mut tx = conn.transaction();
    let found = read_has_org(&mut tx, number);
    tx.rollback();
    found
}

/// Whether there is a community of this number.
pub(crate) fn has_community<S: Alter>(conn: &mut Connection<S>, number: u32) -> Result<bool, Error>
    requires { conn.old.in_transaction ≡ false }
    ensures idle { conn.new.in_transaction ≡ false }
    ensures answers { IsReadOutside (state S.Store conn.old)
        (state S.Store conn.new) (λ s found. found ≡ spec.has_community number s.directory) result }
{
    let mut tx = conn.transaction();
    let found = read_has_community(&mut tx, number);
    tx.rollback();
    found
}

/// The person of this number.
pub(crate) fn person_of<S: Alter>(
    conn: &mut Connection<S>,
    alloc: Global,
    number: u32,
) -> Result<Option<Person>, Error>
    requires { conn.old.in_transaction ≡ false }
    ensures idle { conn.new.in_transaction ≡ false }
    ensures answers { IsReadOutside (state S.Store conn.old)
        (state S.Store conn.new) (λ s found. found ≡ person_numbered number s.directory) result }
{
    let mut tx = conn.transaction();
    let found = read_person_of(&mut tx, alloc, number);
    tx.rollback();
    found
}

/// Whether there is a person of this number.
pub(crate) fn has_person<S: Alter>(
    conn: &mut Connection<S>,
    alloc: Global,
    number: u32,
) -> Result<bool, Error>
    requires { conn.old.in_transaction ≡ false }
    ensures idle { conn.new.in_transaction ≡ false }
    ensures answers { IsReadOutside (state S.Store conn.old)
        (state S.Store conn.new) (λ s found. found ≡ spec.has_person number s.directory) result }
{
    let mut tx = conn.transaction();
    let found = read_has_person(&mut tx, alloc, number);
    tx.rollback();
    found
}

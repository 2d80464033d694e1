//! The part of a standing that doesn't depend on the incident.

ghost use Rattle.std.specs.Prelude.{◌≡◌, false};
ghost use Rattle.sqlite.specs.Held.{state};
ghost use Rattle.hub_state.specs.Reads.{reader_of, reader_with};
ghost use Rattle.hub_store.specs.inner.Queries.{IsReadInside, IsReadOutside};

use crate::find_arranged::read_orgs_whose_client;
use crate::find_communities::read_communities;
use crate::find_groups::read_groups_joined;
use crate::find_numbered::read_person_of;
use circle::directory::Person;
use hub_state::Reader;
use policy::Numbers;
use sqlite::{Alter, Connection, Error, Transaction};
use std::alloc::Global;

fn read_own<S: Alter>(
    tx: &mut Transaction<'_, S>,
    alloc: Global,
    person: Person,
) -> Result<Reader, Error>
    ensures same_reference { tx.new.conn.ghost_name ≡ tx.old.conn.ghost_name }
    ensures read { IsReadInside (state S.Store tx.old.conn.now)
        (state S.Store tx.new.conn.now) (λ s found. found ≡ reader_with s person) result }
{
    let served = read_orgs_whose_client(tx, alloc, person.org)?;
    let groups = read_groups_joined(tx, alloc, person.org)?;
    let communities = read_communities(tx, alloc, person.org)?;
    Ok(Reader {
        person,
        served: Numbers::new(served),
        groups: groups.all,
        active_groups: groups.active,
        communities: Numbers::new(communities),
    })
}

fn read_reader<S: Alter>(
    tx: &mut Transaction<'_, S>,
    alloc: Global,
    number: u32,
) -> Result<Option<Reader>, Error>
    ensures same_reference { tx.new.conn.ghost_name ≡ tx.old.conn.ghost_name }
    ensures read { IsReadInside (state S.Store tx.old.conn.now)
        (state S.Store tx.new.conn.now) (λ s found. found ≡ reader_of number s) result }
{
    let found = read_person_of(tx, alloc, number)?;
    match found {
        None => Ok(None),
        Some(person) => {
            let reader = read_own(tx, alloc, person)?;
            Ok(Some(reader))
        }
    }
}

/// The reader's own part of a standing, for the person of this number. None if it is missing.
pub(crate) fn find_reader<S: Alter>(
    conn: &mut Connection<S>,
    alloc: Global,
    number: u32,
) -> Result<Option<Reader>, Error>
    requires { conn.old.in_transaction ≡ false }
    ensures idle { conn.new.in_transaction ≡ false }
    ensures answers { IsReadOutside (state S.Store conn.old)
        (state S.Store conn.new) (λ s found. found ≡ reader_of number s) result }
{
    let mut tx = conn.transaction();
    let found = read_reader(&mut tx, alloc, number);
    tx.rollback();
    found
}

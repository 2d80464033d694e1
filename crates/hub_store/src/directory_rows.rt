//! The elements of the directory's sets as rows.

ghost use Rattle.std.specs.Prelude.{◌≡◌, IfOk};
ghost use Rattle.hub_store.specs.inner.Adds.{org_shown, account_shown, community_shown, client_shown, membership_shown, connection_shown, group_member_shown};
ghost use Rattle.hub_store.specs.inner.Adds.{arrangement_shown};
ghost use Rattle.hub_store.specs.inner.Shown.{IsShownBy};

use crate::from_row::{FromRow, STRANGE};
use crate::joined_rows::handling_of;
use crate::person_rows::{name_of, role_of};
use circle::directory::{
    Account, Arrangement, Client, Community, Connection, GroupMember, Membership, Org, Person,
};
use sqlite::{Error, Row};
use std::alloc::Global;

fn digest_of(key: Vec<u8>) -> Result<[u8; 32], Error>
    ensures { IfOk result (λ digest. digest ≡ key.items) }
{
    match <[u8; 32]>::try_from(key) {
        Ok(digest) => Ok(digest),
        Err(_) => Err(STRANGE),
    }
}

impl FromRow for Org {
    ghost shows = { IsShownBy org_shown };

    fn from_row(alloc: Global, row: &Row) -> Result<Org, Error> {
        let name: String = row.get(1)?;
        Ok(Org {
            number: row.get(0)?,
            name: name_of(alloc, name.as_str())?,
        })
    }
}

impl FromRow for Account {
    ghost shows = { IsShownBy account_shown };

    fn from_row(alloc: Global, row: &Row) -> Result<Account, Error> {
        let name: String = row.get(2)?;
        let person = Person {
            number: row.get(0)?,
            org: row.get(1)?,
            name: name_of(alloc, name.as_str())?,
            role: role_of(row.get(3)?)?,
            active: row.get(4)?,
            nominated: row.get(5)?,
        };
        Ok(Account {
            person,
            key: digest_of(row.get(6)?)?,
        })
    }
}

impl FromRow for Community {
    ghost shows = { IsShownBy community_shown };

    fn from_row(alloc: Global, row: &Row) -> Result<Community, Error> {
        let name: String = row.get(1)?;
        Ok(Community {
            number: row.get(0)?,
            name: name_of(alloc, name.as_str())?,
        })
    }
}

impl FromRow for Client {
    ghost shows = { IsShownBy client_shown };

    fn from_row(_alloc: Global, row: &Row) -> Result<Client, Error> {
        Ok(Client {
            org: row.get(0)?,
            client: row.get(1)?,
        })
    }
}

impl FromRow for Membership {
    ghost shows = { IsShownBy membership_shown };

    fn from_row(_alloc: Global, row: &Row) -> Result<Membership, Error> {
        Ok(Membership {
            community: row.get(0)?,
            org: row.get(1)?,
        })
    }
}

impl FromRow for Connection {
    ghost shows = { IsShownBy connection_shown };

    fn from_row(_alloc: Global, row: &Row) -> Result<Connection, Error> {
        Ok(Connection {
            low: row.get(0)?,
            high: row.get(1)?,
        })
    }
}

impl FromRow for GroupMember {
    ghost shows = { IsShownBy group_member_shown };

    fn from_row(_alloc: Global, row: &Row) -> Result<GroupMember, Error> {
        Ok(GroupMember {
            group: row.get(0)?,
            org: row.get(1)?,
            extend: row.get(2)?,
        })
    }
}

impl FromRow for Arrangement {
    ghost shows = { IsShownBy arrangement_shown };

    fn from_row(_alloc: Global, row: &Row) -> Result<Arrangement, Error> {
        Ok(Arrangement {
            source: row.get(0)?,
            org: row.get(1)?,
            handling: handling_of(row.get(2)?)?,
        })
    }
}

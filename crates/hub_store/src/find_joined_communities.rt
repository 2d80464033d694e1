//! The communities of an organisation, with their members and the communities that are connected to them.

ghost use Rattle.std.specs.Prelude.{◌≡◌, ◌++◌, [], OnOk, false};
ghost use Rattle.std.specs.List.{cons_option};
ghost use Rattle.sqlite.specs.Held.{state};
ghost use Rattle.circle.specs.Reads.{connected_to, members_of};
ghost use Rattle.hub_state.specs.Reads.{joined_communities, joined_community};
ghost use Rattle.hub_store.specs.inner.Queries.{IsReadInside, IsReadOutside};
ghost use Rattle.hub_store.specs.inner.ShownPairs.{communities_in, community_if_any};

use crate::find_communities::read_communities;
use crate::find_numbered::read_community;
use crate::pair_kind::PairKind;
use crate::read_pairs::{read_firsts, read_seconds};
use circle::directory::{Community, Person};
use hub_state::JoinedCommunity;
use policy::Numbers;
use sqlite::{Alter, Connection, Error, Transaction};
use std::alloc::{AllocError, Global};

/// The members of a community, by number.
fn read_members<S: Alter>(
    tx: &mut Transaction<'_, S>,
    alloc: Global,
    community: u32,
) -> Result<Vec<u32>, Error>
    ensures same_reference { tx.new.conn.ghost_name ≡ tx.old.conn.ghost_name }
    ensures read { IsReadInside (state S.Store tx.old.conn.now)
        (state S.Store tx.new.conn.now) (λ s found.
        found.items ≡ members_of community s.directory) result }
{
    read_seconds(tx, alloc, PairKind::Membership, community)
}

/// The communities that are connected to this one, by number.
fn read_connected<S: Alter>(
    tx: &mut Transaction<'_, S>,
    alloc: Global,
    community: u32,
) -> Result<Vec<u32>, Error>
    ensures same_reference { tx.new.conn.ghost_name ≡ tx.old.conn.ghost_name }
    ensures read { IsReadInside (state S.Store tx.old.conn.now)
        (state S.Store tx.new.conn.now) (λ s found.
        found.items ≡ connected_to community s.directory) result }
{
    let mut found = read_firsts(tx, alloc, PairKind::Connection, community)?;
    let above = read_seconds(tx, alloc, PairKind::Connection, community)?;
    found.extend_from_slice(above.as_slice())?;
    Ok(found)
}

/// The community as it is listed for one of its members.
fn read_joined<S: Alter>(
    tx: &mut Transaction<'_, S>,
    alloc: Global,
    community: Community,
) -> Result<JoinedCommunity, Error>
    ensures same_reference { tx.new.conn.ghost_name ≡ tx.old.conn.ghost_name }
    ensures read { IsReadInside (state S.Store tx.old.conn.now)
        (state S.Store tx.new.conn.now) (λ s found.
        found ≡ joined_community s.directory community) result }
{
    let members = read_members(tx, alloc, community.number)?;
    let connected = read_connected(tx, alloc, community.number)?;
    Ok(JoinedCommunity {
        number: community.number,
        name: community.name,
        members: Numbers::new(members),
        connected: Numbers::new(connected),
    })
}

/// The community of this number as it is listed for one of its members. None if it is missing.
fn read_numbered<S: Alter>(
    tx: &mut Transaction<'_, S>,
    alloc: Global,
    number: u32,
) -> Result<Option<JoinedCommunity>, Error>
    ensures same_reference { tx.new.conn.ghost_name ≡ tx.old.conn.ghost_name }
    ensures read { IsReadInside (state S.Store tx.old.conn.now)
        (state S.Store tx.new.conn.now) (λ s found.
        found ≡ community_if_any s.directory number) result }
{
    let found = read_community(tx, alloc, number)?;
    match found {
        None => Ok(None),
        Some(community) => {
            let joined = read_joined(tx, alloc, community)?;
            Ok(Some(joined))
        }
    }
}

fn push_joined(
    communities: &mut Vec<JoinedCommunity>,
    community: Option<JoinedCommunity>,
) -> Result<(), AllocError>
    ensures { OnOk result
        (communities.new.items ≡ communities.old.items ++ cons_option community []) }
{
    if let Some(community) = community {
        communities.push(community)?;
    }
    Ok(())
}

fn read_joined_communities<S: Alter>(
    tx: &mut Transaction<'_, S>,
    alloc: Global,
    org: u32,
) -> Result<Vec<JoinedCommunity>, Error>
    ensures same_reference { tx.new.conn.ghost_name ≡ tx.old.conn.ghost_name }
    ensures read { IsReadInside (state S.Store tx.old.conn.now)
        (state S.Store tx.new.conn.now) (λ s found.
        found.items ≡ communities_in org s.directory) result }
{
    let numbers = read_communities(tx, alloc, org)?;
    let mut communities = Vec::new(alloc);
    for number in &numbers {
        let community = read_numbered(tx, alloc, *number)?;
        push_joined(&mut communities, community)?;
    }
    Ok(communities)
}

/// The communities of which the person's organisation is a member, in the order of their numbers.
pub(crate) fn find_joined_communities<S: Alter>(
    conn: &mut Connection<S>,
    alloc: Global,
    person: &Person,
) -> Result<Vec<JoinedCommunity>, Error>
    requires { conn.old.in_transaction ≡ false }
    ensures idle { conn.new.in_transaction ≡ false }
    ensures answers { IsReadOutside (state S.Store conn.old) (state S.Store conn.new) (λ s found.
        found.items ≡ joined_communities person.now s) result }
{
    let mut tx = conn.transaction();
    let found = read_joined_communities(&mut tx, alloc, person.org);
    tx.rollback();
    found
}

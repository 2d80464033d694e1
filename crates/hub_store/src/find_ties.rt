//! How an organisation stands to a source.

ghost use Rattle.std.specs.Prelude.{◌≡◌, false};
ghost use Rattle.std.specs.List.{list_any};
ghost use Rattle.sqlite.specs.Held.{state};
ghost use Rattle.circle.specs.Reads.{communities_of};
ghost use Rattle.hub_state.specs.Reads.{ties_of};
ghost use Rattle.hub_store.specs.inner.Queries.{IsReadInside, IsReadOutside};
ghost use Rattle.hub_store.specs.inner.ShownPairs.{AreRising, is_one_of, linked_with, are_linked};
ghost use Rattle.hub_store.specs.inner.ShownPairs as spec;

use crate::common_numbers::{have_common, is_among};
use crate::find_arranged::read_arranged;
use crate::find_communities::read_communities;
use crate::pair_kind::PairKind;
use crate::read_pairs::{read_firsts, read_seconds};
use circle::directory::Handling;
use hub_state::Ties;
use sqlite::{Alter, Connection, Error, Transaction};
use std::alloc::Global;

/// Whether the community is connected with one of these, which rise.
fn read_linked<S: Alter>(
    tx: &mut Transaction<'_, S>,
    alloc: Global,
    community: u32,
    others: &[u32],
) -> Result<bool, Error>
    ensures same_reference { tx.new.conn.ghost_name ≡ tx.old.conn.ghost_name }
    ensures read { IsReadInside (state S.Store tx.old.conn.now)
        (state S.Store tx.new.conn.now) (λ s found.
        AreRising others.now →
        found ≡ list_any (is_one_of others.now) (linked_with community s.directory)) result }
{
    let above = read_seconds(tx, alloc, PairKind::Connection, community)?;
    if have_common(&above, others) {
        return Ok(true);
    }
    let below = read_firsts(tx, alloc, PairKind::Connection, community)?;
    Ok(have_common(&below, others))
}

/// The communities of a source, and whether one of them is connected with one of an organisation's.
#[derive(Drop)]
struct Others {
    communities: Vec<u32>,
    connected: bool,
}

fn read_others<S: Alter>(
    tx: &mut Transaction<'_, S>,
    alloc: Global,
    own: &[u32],
    source: u32,
) -> Result<Others, Error>
    ensures same_reference { tx.new.conn.ghost_name ≡ tx.old.conn.ghost_name }
    ensures read { IsReadInside (state S.Store tx.old.conn.now)
        (state S.Store tx.new.conn.now) (λ s found.
        (found.communities.items ≡ communities_of source s.directory)
        × (found.connected ≡ are_linked own.now (communities_of source s.directory) s.directory)) result }
{
    let communities = read_communities(tx, alloc, source)?;
    for community in own {
        if read_linked(tx, alloc, *community, &communities)? {
            return Ok(Others {
                communities,
                connected: true,
            });
        }
    }
    Ok(Others {
        communities,
        connected: false,
    })
}

/// Whether the community that is named is one of the organisation's, which rise. If none is named, whether it shares
/// one.
fn is_peer(own: &[u32], named: Option<u32>, shares: bool) -> bool
    ensures { AreRising own.now → result ≡ spec.is_peer own.now named shares }
{
    match named {
        None => shares,
        Some(named) => is_among(named, own),
    }
}

/// How an organisation with these communities, which rise, stands to a source.
fn ties_with(
    own: &[u32],
    others: &Others,
    named: Option<u32>,
    arrangement: Option<Handling>,
) -> Ties
    ensures { AreRising own.now → AreRising others.now.communities.items →
        result ≡ spec.ties_between own.now others.now.communities.items named
        others.now.connected arrangement }
{
    let community = have_common(own, &others.communities);
    Ties {
        community,
        peer: is_peer(own, named, community),
        connected: others.connected,
        arrangement,
    }
}

fn read_ties<S: Alter>(
    tx: &mut Transaction<'_, S>,
    alloc: Global,
    org: u32,
    source: u32,
    named: Option<u32>,
) -> Result<Ties, Error>
    ensures same_reference { tx.new.conn.ghost_name ≡ tx.old.conn.ghost_name }
    ensures read { IsReadInside (state S.Store tx.old.conn.now)
        (state S.Store tx.new.conn.now) (λ s found. found ≡ ties_of org source named s) result }
{
    let own = read_communities(tx, alloc, org)?;
    let others = read_others(tx, alloc, &own, source)?;
    let arrangement = read_arranged(tx, alloc, source, org)?;
    Ok(ties_with(&own, &others, named, arrangement))
}

/// How an organisation stands to a source and to the community that is named.
pub(crate) fn find_ties<S: Alter>(
    conn: &mut Connection<S>,
    alloc: Global,
    org: u32,
    source: u32,
    named: Option<u32>,
) -> Result<Ties, Error>
    requires { conn.old.in_transaction ≡ false }
    ensures idle { conn.new.in_transaction ≡ false }
    ensures answers { IsReadOutside (state S.Store conn.old)
        (state S.Store conn.new) (λ s found. found ≡ ties_of org source named s) result }
{
    let mut tx = conn.transaction();
    let found = read_ties(&mut tx, alloc, org, source, named);
    tx.rollback();
    found
}

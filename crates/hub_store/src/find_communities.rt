//! The communities of organisations.

ghost use Rattle.std.specs.Prelude.{◌≡◌, false};
ghost use Rattle.sqlite.specs.Held.{state};
ghost use Rattle.circle.specs.Directory.{has_membership as is_membership};
ghost use Rattle.circle.specs.Reads as spec;
ghost use Rattle.hub_store.specs.inner.Queries.{IsReadInside, IsReadOutside};

use crate::has_pair::read_has_membership;
use crate::pair_kind::PairKind;
use crate::read_pairs::read_firsts;
use sqlite::{Alter, Connection, Error, Transaction};
use std::alloc::Global;

/// The communities of the organisation, in the order of their numbers, in a transaction.
pub(crate) fn read_communities<S: Alter>(
    tx: &mut Transaction<'_, S>,
    alloc: Global,
    org: u32,
) -> Result<Vec<u32>, Error>
    ensures same_reference { tx.new.conn.ghost_name ≡ tx.old.conn.ghost_name }
    ensures read { IsReadInside (state S.Store tx.old.conn.now)
        (state S.Store tx.new.conn.now) (λ s found.
        found.items ≡ spec.communities_of org s.directory) result }
{
    read_firsts(tx, alloc, PairKind::Membership, org)
}

/// Whether the organisation is a member of the community.
pub(crate) fn has_membership<S: Alter>(
    conn: &mut Connection<S>,
    community: u32,
    org: u32,
) -> Result<bool, Error>
    requires { conn.old.in_transaction ≡ false }
    ensures idle { conn.new.in_transaction ≡ false }
    ensures answers { IsReadOutside (state S.Store conn.old)
        (state S.Store conn.new) (λ s found. found ≡
        is_membership community org s.directory) result }
{
    let mut tx = conn.transaction();
    let found = read_has_membership(&mut tx, community, org);
    tx.rollback();
    found
}

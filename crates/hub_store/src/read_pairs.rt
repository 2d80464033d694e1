//! Numbers in the pairs of one set.

ghost use Rattle.std.specs.Prelude.{◌≡◌, map, is_some};
ghost use Rattle.sqlite.specs.Held.{state};
ghost use Rattle.hub_store.specs.inner.Queries.{IsReadInside};
ghost use Rattle.hub_store.specs.inner.PairKinds.{pair_between, pairs_from, pairs_to};

use crate::any_row::is_any;
use crate::ask_pairs::{ask_between, ask_from, ask_to};
use crate::from_row::all;
use crate::pair_kind::PairKind;
use sqlite::{Alter, Error, Transaction};
use std::alloc::Global;

/// Whether the set has the pair of these two numbers.
pub(crate) fn read_has_pair<S: Alter>(
    tx: &mut Transaction<'_, S>,
    kind: PairKind,
    a: u32,
    b: u32,
) -> Result<bool, Error>
    ensures same_reference { tx.new.conn.ghost_name ≡ tx.old.conn.ghost_name }
    ensures read { IsReadInside (state S.Store tx.old.conn.now)
        (state S.Store tx.new.conn.now) (λ s found. found ≡
        is_some (pair_between kind a b s.directory)) result }
{
    let rows = ask_between(tx, kind, a, b)?;
    Ok(is_any(&rows))
}

/// The second numbers of the pairs with this first number, in their order.
pub(crate) fn read_seconds<S: Alter>(
    tx: &mut Transaction<'_, S>,
    alloc: Global,
    kind: PairKind,
    a: u32,
) -> Result<Vec<u32>, Error>
    ensures same_reference { tx.new.conn.ghost_name ≡ tx.old.conn.ghost_name }
    ensures read { IsReadInside (state S.Store tx.old.conn.now)
        (state S.Store tx.new.conn.now) (λ s found.
        found.items ≡ map (λ p. p.0.1) (pairs_from kind a s.directory)) result }
{
    let rows = ask_from(tx, kind, a)?;
    all(alloc, &rows)
}

/// The first numbers of the pairs with this second number, in their order.
pub(crate) fn read_firsts<S: Alter>(
    tx: &mut Transaction<'_, S>,
    alloc: Global,
    kind: PairKind,
    b: u32,
) -> Result<Vec<u32>, Error>
    ensures same_reference { tx.new.conn.ghost_name ≡ tx.old.conn.ghost_name }
    ensures read { IsReadInside (state S.Store tx.old.conn.now)
        (state S.Store tx.new.conn.now) (λ s found.
        found.items ≡ map (λ p. p.0.0) (pairs_to kind b s.directory)) result }
{
    let rows = ask_to(tx, kind, b)?;
    all(alloc, &rows)
}

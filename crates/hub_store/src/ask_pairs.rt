//! Queries of one set in the table of pairs.

ghost use Rattle.std.specs.Prelude.{◌≡◌, map};
ghost use Rattle.std.specs.Option.{option_to_list};
ghost use Rattle.sqlite.specs.Held.{state};
ghost use Rattle.hub_store.specs.inner.Queries.{IsReadInside};
ghost use Rattle.hub_store.specs.inner.PairKinds.{pair_between, pairs_from, pairs_to, value_shown, first_shown, second_shown};

use crate::pair_kind::PairKind;
use crate::query::ask;
use sqlite::{Alter, Error, Row, Transaction, params};

/// The third value of the pair of these two numbers.
pub(crate) fn ask_between<S: Alter>(
    tx: &mut Transaction<'_, S>,
    kind: PairKind,
    a: u32,
    b: u32,
) -> Result<Vec<Row>, Error>
    ensures same_reference { tx.new.conn.ghost_name ≡ tx.old.conn.ghost_name }
    ensures read { IsReadInside (state S.Store tx.old.conn.now)
        (state S.Store tx.new.conn.now) (λ s rows.
        rows.items ≡ map value_shown (option_to_list (pair_between kind a b s.directory))) result }
{
    let rows = ask(
        tx,
        "SELECT value FROM pair WHERE kind = ?1 AND a = ?2 AND b = ?3",
        params![kind.name(), a, b],
    )?;
    Ok(rows)
}

/// The second number and the third value of each pair with this first number, in the order of the second.
pub(crate) fn ask_from<S: Alter>(
    tx: &mut Transaction<'_, S>,
    kind: PairKind,
    a: u32,
) -> Result<Vec<Row>, Error>
    ensures same_reference { tx.new.conn.ghost_name ≡ tx.old.conn.ghost_name }
    ensures read { IsReadInside (state S.Store tx.old.conn.now)
        (state S.Store tx.new.conn.now) (λ s rows.
        rows.items ≡ map second_shown (pairs_from kind a s.directory)) result }
{
    let rows = ask(
        tx,
        "SELECT b, value FROM pair WHERE kind = ?1 AND a = ?2 ORDER BY b",
        params![kind.name(), a],
    )?;
    Ok(rows)
}

/// The first number and the third value of each pair with this second number, in the order of the first.
pub(crate) fn ask_to<S: Alter>(
    tx: &mut Transaction<'_, S>,
    kind: PairKind,
    b: u32,
) -> Result<Vec<Row>, Error>
    ensures same_reference { tx.new.conn.ghost_name ≡ tx.old.conn.ghost_name }
    ensures read { IsReadInside (state S.Store tx.old.conn.now)
        (state S.Store tx.new.conn.now) (λ s rows.
        rows.items ≡ map first_shown (pairs_to kind b s.directory)) result }
{
    let rows = ask(
        tx,
        "SELECT a, value FROM pair WHERE kind = ?1 AND b = ?2 ORDER BY a",
        params![kind.name(), b],
    )?;
    Ok(rows)
}

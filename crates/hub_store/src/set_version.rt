//! The version of a store, whatever tables come after the one that holds it.

ghost use Rattle.std.specs.Prelude.{◌≡◌, ℕ, List, [], ◌∷◌, IsTrue};
ghost use Rattle.sqlite.specs.Held.{state};
ghost use Rattle.hub_store.specs.Layout.{hub_part, under};
ghost use Rattle.hub_store.specs.Parts.{Part, are_beside, HoldsParts};
ghost use Rattle.hub_store.specs.inner.Makes.{Makes, FailsOnly};

use crate::statement::run;
use sqlite::{Alter, Error, Transaction, params};

fn take_version<S: Alter>(tx: &mut Transaction<'_, S>) -> Result<(), Error>
    ensures same_reference { tx.new.conn.ghost_name ≡ tx.old.conn.ghost_name }
    ensures made { (before : ℕ) → (ps : List Part) → IsTrue (are_beside 0 ps) →
        Makes (state S.Store tx.old.conn.now) (state S.Store tx.new.conn.now)
        (HoldsParts (under before ps)) (HoldsParts (hub_part [] ∷ ps)) result }
    ensures cause { (before : ℕ) → (ps : List Part) → IsTrue (are_beside 0 ps) →
        FailsOnly (state S.Store tx.old.conn.now) (state S.Store tx.new.conn.now)
        (HoldsParts (under before ps)) result }
{
    run(tx, "DELETE FROM hub", &[])
}

/// Puts the version if there is none.
pub(crate) fn put_version<S: Alter>(tx: &mut Transaction<'_, S>, version: u32) -> Result<(), Error>
    ensures same_reference { tx.new.conn.ghost_name ≡ tx.old.conn.ghost_name }
    ensures made { (ps : List Part) → IsTrue (are_beside 0 ps) →
        Makes (state S.Store tx.old.conn.now) (state S.Store tx.new.conn.now)
        (HoldsParts (hub_part [] ∷ ps)) (HoldsParts (under version ps)) result }
    ensures cause { (ps : List Part) → IsTrue (are_beside 0 ps) →
        FailsOnly (state S.Store tx.old.conn.now) (state S.Store tx.new.conn.now)
        (HoldsParts (hub_part [] ∷ ps)) result }
{
    run(
        tx,
        "INSERT INTO hub (version) VALUES (?1)",
        params![version],
    )
}

/// Sets the version. It is taken and put, as its row has no number by which to exchange it.
pub(crate) fn set_version<S: Alter>(tx: &mut Transaction<'_, S>, version: u32) -> Result<(), Error>
    ensures same_reference { tx.new.conn.ghost_name ≡ tx.old.conn.ghost_name }
    ensures made { (before : ℕ) → (ps : List Part) → IsTrue (are_beside 0 ps) →
        Makes (state S.Store tx.old.conn.now) (state S.Store tx.new.conn.now)
        (HoldsParts (under before ps)) (HoldsParts (under version ps)) result }
    ensures cause { (before : ℕ) → (ps : List Part) → IsTrue (are_beside 0 ps) →
        FailsOnly (state S.Store tx.old.conn.now) (state S.Store tx.new.conn.now)
        (HoldsParts (under before ps)) result }
{
    take_version(tx)?;
    put_version(tx, version)
}

//! Putting an incident's row, without its lines.

ghost use Rattle.std.specs.Prelude.{◌≡◌, ◌∷◌, List, IsPermutation};
ghost use Rattle.sqlite_value.specs.Order.{Row};
ghost use Rattle.sqlite.specs.Held.{state};
ghost use Rattle.hub_state.specs.State.{State};
ghost use Rattle.hub_store.specs.Rows.{naming_row_2, naming_row};
ghost use Rattle.hub_store.specs.inner.Beside.{CanName};
ghost use Rattle.hub_store.specs.Layout.{tables_2};
ghost use Rattle.hub_store.specs.Parts.{HoldsParts};
ghost use Rattle.hub_store.specs.Means.{HoldsBetween};
ghost use Rattle.hub_store.specs.inner.Makes.{Makes, FailsOnly};

use crate::statement::run;
use hub_state::Naming;
use sqlite::{Alter, Error, Transaction, params};

/// Puts the row, in an edit.
pub(crate) fn put_naming<S: Alter>(
    tx: &mut Transaction<'_, S>,
    naming: &Naming,
) -> Result<(), Error>
    ensures same_reference { tx.new.conn.ghost_name ≡ tx.old.conn.ghost_name }
    ensures edited { (s : State) → (items incidents more : List Row) →
        IsPermutation (naming_row naming.now ∷ incidents) more →
        Makes (state S.Store tx.old.conn.now) (state S.Store tx.new.conn.now) (λ db.
        HoldsBetween items incidents db s) (λ db. HoldsBetween items more db s) result }
{
    run(
        tx,
        "INSERT INTO incident (number, source, ident, revision, community) VALUES (?1, ?2, ?3, ?4, ?5)",
        params![
            naming.number,
            naming.source,
            naming.ident.as_str(),
            naming.revision,
            naming.community,
        ],
    )
}

/// Puts the row of version 2, while the store still has the version before.
pub(crate) fn put_naming_2<S: Alter>(
    tx: &mut Transaction<'_, S>,
    naming: &Naming,
) -> Result<(), Error>
    ensures same_reference { tx.new.conn.ghost_name ≡ tx.old.conn.ghost_name }
    ensures moved { (s : State) → (items incidents more : List Row) →
        IsPermutation (naming_row_2 naming.now ∷ incidents) more →
        Makes (state S.Store tx.old.conn.now) (state S.Store tx.new.conn.now)
        (HoldsParts (tables_2 1 items incidents s)) (HoldsParts (tables_2 1 items more s)) result }
    ensures cause { (s : State) → (items incidents : List Row) →
        CanName naming_row_2 (naming_row_2 naming.now ∷ incidents) →
        FailsOnly (state S.Store tx.old.conn.now) (state S.Store tx.new.conn.now)
        (HoldsParts (tables_2 1 items incidents s)) result }
{
    run(
        tx,
        "INSERT INTO incident (number, source, ident, revision) VALUES (?1, ?2, ?3, ?4)",
        params![
            naming.number,
            naming.source,
            naming.ident.as_str(),
            naming.revision,
        ],
    )
}

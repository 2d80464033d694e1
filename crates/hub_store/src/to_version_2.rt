//! From version 1 of the tables to version 2: the lines of the documents get a table of their own, and the incidents
//! lose their texts. An excerpt is made of lines that come one at a time. A new table gets a tree above all others, so
//! the same statements bring a new store and an old one there.

ghost use Rattle.std.specs.Prelude.{◌≡◌, List, []};
ghost use Rattle.sqlite_value.specs.Order.{Row};
ghost use Rattle.sqlite.specs.Held.{state};
ghost use Rattle.hub_state.specs.State.{State};
ghost use Rattle.hub_store.specs.Tables.{schema_by, beside_item, without_incident};
ghost use Rattle.hub_store.specs.Layout.{parts_1, with_items, without_incidents, tables_2};
ghost use Rattle.hub_store.specs.Parts.{HoldsParts};
ghost use Rattle.hub_store.specs.inner.Beside.{HoldsBeside};
ghost use Rattle.hub_store.specs.inner.Makes.{Makes, FailsOnly, Creates, HasEmpty};

use crate::statement::run;
use sqlite::{Alter, Error, Transaction};

pub(crate) fn create_item<S: Alter>(tx: &mut Transaction<'_, S>) -> Result<(), Error>
    ensures same_reference { tx.new.conn.ghost_name ≡ tx.old.conn.ghost_name }
    ensures empty { Creates (state S.Store tx.old.conn.now) (state S.Store tx.new.conn.now)
        (HasEmpty (schema_by 1)) (HasEmpty beside_item) result }
    ensures made { (s : State) →
        Makes (state S.Store tx.old.conn.now) (state S.Store tx.new.conn.now)
        (HoldsParts (parts_1 s)) (HoldsBeside [] s) result }
    ensures cause { (s : State) →
        FailsOnly (state S.Store tx.old.conn.now) (state S.Store tx.new.conn.now)
        (HoldsParts (parts_1 s)) result }
{
    run(
        tx,
        // unique by incident and place; the rowids mean nothing, as another tool's VACUUM may number the rows anew
        "CREATE TABLE item (incident INTEGER NOT NULL, place INTEGER NOT NULL, depth INTEGER NOT NULL, name TEXT NOT NULL, in_array INTEGER NOT NULL, kind INTEGER NOT NULL, text TEXT NOT NULL, UNIQUE (incident, place)) STRICT",
        &[],
    )
}

/// Drops the table. The rows of the other tables stay.
pub(crate) fn drop_incident<S: Alter>(tx: &mut Transaction<'_, S>) -> Result<(), Error>
    ensures same_reference { tx.new.conn.ghost_name ≡ tx.old.conn.ghost_name }
    ensures empty { Creates (state S.Store tx.old.conn.now) (state S.Store tx.new.conn.now)
        (HasEmpty beside_item) (HasEmpty without_incident) result }
    ensures made { (s : State) → (items : List Row) →
        Makes (state S.Store tx.old.conn.now) (state S.Store tx.new.conn.now) (HoldsBeside items s)
        (HoldsParts (without_incidents items s)) result }
    ensures cause { (s : State) → (items : List Row) →
        FailsOnly (state S.Store tx.old.conn.now) (state S.Store tx.new.conn.now)
        (HoldsBeside items s) result }
{
    run(tx, "DROP TABLE incident", &[])
}

pub(crate) fn create_incident<S: Alter>(tx: &mut Transaction<'_, S>) -> Result<(), Error>
    ensures same_reference { tx.new.conn.ghost_name ≡ tx.old.conn.ghost_name }
    ensures empty { Creates (state S.Store tx.old.conn.now) (state S.Store tx.new.conn.now)
        (HasEmpty without_incident) (HasEmpty (schema_by 2)) result }
    ensures made { (s : State) → (items : List Row) →
        Makes (state S.Store tx.old.conn.now) (state S.Store tx.new.conn.now)
        (HoldsParts (without_incidents items s)) (HoldsParts (tables_2 1 items [] s)) result }
    ensures cause { (s : State) → (items : List Row) →
        FailsOnly (state S.Store tx.old.conn.now) (state S.Store tx.new.conn.now)
        (HoldsParts (without_incidents items s)) result }
{
    run(
        tx,
        "CREATE TABLE incident (number INTEGER PRIMARY KEY, source INTEGER NOT NULL, ident TEXT NOT NULL, revision INTEGER NOT NULL, UNIQUE (source, ident)) STRICT",
        &[],
    )
}

/// Makes the tables of version 2, if those of version 1 have no row.
pub(crate) fn make_tables_2<S: Alter>(tx: &mut Transaction<'_, S>) -> Result<(), Error>
    ensures same_reference { tx.new.conn.ghost_name ≡ tx.old.conn.ghost_name }
    ensures made { Creates (state S.Store tx.old.conn.now) (state S.Store tx.new.conn.now)
        (HasEmpty (schema_by 1)) (HasEmpty (schema_by 2)) result }
{
    create_item(tx)?;
    drop_incident(tx)?;
    create_incident(tx)
}

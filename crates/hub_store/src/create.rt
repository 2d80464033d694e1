//! Making a new store.

ghost use Rattle.std.specs.Prelude.{◌≡◌, ◌≢◌, false, OnOk, OnErr, IfErr};
ghost use Rattle.sqlite.specs.State.{HasCleanDisk, Survives};
ghost use Rattle.sqlite.specs.Held.{state};
ghost use Rattle.hub_state.specs.State.{empty};
ghost use Rattle.hub_store.specs.Layout.{newest, bare_by};
ghost use Rattle.hub_store.specs.Parts.{HoldsParts};
ghost use Rattle.hub_store.specs.Tables.{no_schema, schema_by};
ghost use Rattle.hub_store.specs.inner.Makes.{Creates, HasEmpty};
ghost use Rattle.hub_store.specs.Means.{Holds, TreesHold};
ghost use Rattle.hub_store.specs.Content.{CommitsState};
ghost use Rattle.hub_store.specs.Keeps.{KeepsCommitted};
ghost use Rattle.hub_store.specs.Failing.{HasReason};

use crate::next_version::make_next;
use crate::set_version::put_version;
use crate::tables::make_tables;
use crate::to_version_2::make_tables_2;
use crate::version::NEWEST;
use sqlite::{Alter, Connection, Error, ErrorCode, Transaction};

/// Makes the tables of each version from those of the version before. A new table gets a tree above all others, so a
/// table that a version makes anew has another tree than one CREATE would give it. By the same steps a new store and a
/// migrated one have one schema.
fn make_newest<S: Alter>(tx: &mut Transaction<'_, S>) -> Result<(), Error>
    ensures same_reference { tx.new.conn.ghost_name ≡ tx.old.conn.ghost_name }
    ensures made { Creates (state S.Store tx.old.conn.now) (state S.Store tx.new.conn.now)
        (HasEmpty (schema_by 2)) (HoldsParts (bare_by newest)) result }
{
    for from in 2..NEWEST {
        make_next(tx, from)?;
    }
    Ok(())
}

fn make_in<S: Alter>(tx: &mut Transaction<'_, S>) -> Result<(), Error>
    ensures same_reference { tx.new.conn.ghost_name ≡ tx.old.conn.ghost_name }
    ensures made { Creates (state S.Store tx.old.conn.now) (state S.Store tx.new.conn.now)
        (HasEmpty no_schema) (λ db. Holds db empty) result }
{
    make_tables(tx)?;
    make_tables_2(tx)?;
    make_newest(tx)?;
    // at the end, so that a store that was cut off has no version
    put_version(tx, NEWEST)
}

/// Makes the tables and the version in one transaction, if there is no table yet.
pub(crate) fn make_store<S: Alter>(conn: &mut Connection<S>) -> Result<(), Error>
    requires { conn.old.in_transaction ≡ false }
    ensures idle { conn.new.in_transaction ≡ false }
    ensures made { HasCleanDisk (state S.Store conn.new) →
        (state S.Store conn.old).now.schema ≡ no_schema →
        OnOk result (CommitsState (state S.Store conn.new) empty) }
    ensures none { HasCleanDisk (state S.Store conn.new) →
        OnErr result (KeepsCommitted (state S.Store conn.old) (state S.Store conn.new)) }
    ensures cause { HasCleanDisk (state S.Store conn.new) →
        (state S.Store conn.old).now.schema ≡ no_schema →
        IfErr result (λ e.
        e ≢ Error.SqliteFailure ErrorCode.OutOfMemory →
        HasReason (state S.Store conn.old) (state S.Store conn.new)) }
    ensures survives { (state S.Store conn.old).now.schema ≡ no_schema →
        Survives (state S.Store conn.old) (state S.Store conn.new) (λ left. TreesHold left empty) }
{
    let mut tx = conn.transaction();
    make_in(&mut tx)?;
    tx.commit()
}

//! Queries in a transaction.

ghost use Rattle.std.specs.Prelude.{◌≡◌, ◌≢◌, is_some, IfOk, IfErr, OnOk, OnErr, IsTrue};
ghost use Rattle.sqlite.specs.State.{HasCleanDisk, IsLive, KeepsCommit, IsUnchanged, Survives};
ghost use Rattle.sqlite.specs.Held.{state};
ghost use Rattle.sqlite.specs.Values.{bound};
ghost use Rattle.hub_store.specs.inner.Queries.{HasShown, HasRefused};
ghost use Rattle.hub_store.specs.Versions.{version_column};
ghost use Rattle.hub_store.specs.Failing.{HasReason};

use sqlite::types::ValueRef;
use sqlite::{Alter, Error, ErrorCode, Row, Transaction};

/// Asks the store only whether it answers.
pub(crate) fn probe<S: Alter>(tx: &mut Transaction<'_, S>) -> Result<(), Error>
    ensures same_reference { tx.new.conn.ghost_name ≡ tx.old.conn.ghost_name }
    ensures same { HasCleanDisk (state S.Store tx.new.conn.now) →
        OnOk result (IsTrue (state S.Store tx.old.conn.now).is_open ×
        IsUnchanged (state S.Store tx.old.conn.now) (state S.Store tx.new.conn.now)) }
    ensures kept { HasCleanDisk (state S.Store tx.new.conn.now) →
        KeepsCommit (state S.Store tx.old.conn.now) (state S.Store tx.new.conn.now) }
    ensures survives { Survives (state S.Store tx.old.conn.now)
        (state S.Store tx.new.conn.now) (λ _. ⊥) }
    ensures cause { HasCleanDisk (state S.Store tx.new.conn.now) →
        IsTrue (is_some (version_column (state S.Store tx.old.conn.now).now.schema)) →
        IsLive (state S.Store tx.old.conn.now) →
        IfErr result (λ e.
        e ≢ Error.SqliteFailure ErrorCode.OutOfMemory →
        HasReason (state S.Store tx.old.conn.now) (state S.Store tx.new.conn.now)) }
{
    tx.query_all("SELECT version FROM hub LIMIT 2", &[])?;
    Ok(())
}

/// Prepares the query, and returns the rows that it shows.
pub(crate) fn ask<S: Alter>(
    tx: &mut Transaction<'_, S>,
    text: &str,
    params: &[ValueRef<'_>],
) -> Result<Vec<Row>, Error>
    ensures same_reference { tx.new.conn.ghost_name ≡ tx.old.conn.ghost_name }
    ensures survives { Survives (state S.Store tx.old.conn.now)
        (state S.Store tx.new.conn.now) (λ _. ⊥) }
    ensures shown { HasCleanDisk (state S.Store tx.new.conn.now) →
        IfOk result (λ rows.
        HasShown S.Store text.now (bound params.now) tx.old.conn.now tx.new.conn.now rows.items) }
    ensures failed { HasCleanDisk (state S.Store tx.new.conn.now) →
        OnErr result (KeepsCommit (state S.Store tx.old.conn.now) (state S.Store tx.new.conn.now)) }
    ensures refused { HasCleanDisk (state S.Store tx.new.conn.now) →
        IfErr result
        (HasRefused S.Store text.now (bound params.now) tx.old.conn.now tx.new.conn.now) }
{
    // The connection keeps the 64 texts compiled last, and a hub that serves uses some 50.
    let statement = tx.prepare(text)?;
    let rows = tx.query_all_prepared(&statement, params)?;
    Ok(rows)
}

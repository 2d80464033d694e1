//! Preparing a text and running it.

ghost use Rattle.std.specs.Prelude.{◌≡◌, IsTrue, OnOk, IfErr};
ghost use Rattle.sqlite.specs.State.{HasCleanDisk};
ghost use Rattle.sqlite.specs.Held.{state};
ghost use Rattle.sqlite.specs.Values.{bound};
ghost use Rattle.hub_store.specs.Keeps.{Goes, HasRun, HasFailed};

use sqlite::types::ValueRef;
use sqlite::{Alter, Error, Transaction};

/// Prepares the text, and runs it with the parameters.
pub(crate) fn run<S: Alter>(
    tx: &mut Transaction<'_, S>,
    text: &str,
    params: &[ValueRef<'_>],
) -> Result<(), Error>
    ensures same_reference { tx.new.conn.ghost_name ≡ tx.old.conn.ghost_name }
    ensures goes { Goes (state S.Store tx.old.conn.now) (state S.Store tx.new.conn.now) result }
    ensures ran { HasCleanDisk (state S.Store tx.new.conn.now) →
        IsTrue (state S.Store tx.old.conn.now).in_transaction →
        OnOk result (HasRun S.Store text.now (bound params.now) tx.old.conn.now tx.new.conn.now) }
    ensures failed { HasCleanDisk (state S.Store tx.new.conn.now) →
        IsTrue (state S.Store tx.old.conn.now).in_transaction →
        IfErr result (HasFailed S.Store text.now
        (bound params.now) tx.old.conn.now tx.new.conn.now) }
{
    let statement = tx.prepare(text)?;
    tx.execute_prepared(&statement, params)?;
    Ok(())
}

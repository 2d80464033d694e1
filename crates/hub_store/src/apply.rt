//! Making edits, all in one transaction.

ghost use Rattle.std.specs.Prelude.{◌≡◌, false, OnOk, OnErr};
ghost use Rattle.sqlite.specs.State.{HasCleanDisk, Survives};
ghost use Rattle.sqlite.specs.Held.{state};
ghost use Rattle.hub_state.specs.State.{State};
ghost use Rattle.hub_state.specs.Edits.{with_edits};
ghost use Rattle.hub_store.specs.Content.{Has, CommitsState};
ghost use Rattle.hub_store.specs.Keeps.{Goes, KeepsCommitted};
ghost use Rattle.hub_store.specs.inner.Makes.{Makes};
ghost use Rattle.hub_store.specs.Means.{Holds, TreesHold};

use crate::incident_edits::make_edit;
use crate::query::probe;
use hub_state::Edit;
use sqlite::{Alter, Connection, Error, Transaction};
use std::alloc::Global;

fn make_all<S: Alter>(
    tx: &mut Transaction<'_, S>,
    alloc: Global,
    edits: &[Edit],
) -> Result<(), Error>
    ensures same_reference { tx.new.conn.ghost_name ≡ tx.old.conn.ghost_name }
    ensures goes { Goes (state S.Store tx.old.conn.now) (state S.Store tx.new.conn.now) result }
    ensures made { (s : State) →
        Makes (state S.Store tx.old.conn.now) (state S.Store tx.new.conn.now) (λ db.
        Holds db s) (λ db. Holds db (with_edits edits.now s)) result }
{
    for edit in edits {
        make_edit(tx, alloc, edit)?;
    }
    Ok(())
}

/// Makes all edits in one transaction, or none. The store isn't asked anything after the commit.
pub(crate) fn apply<S: Alter>(
    conn: &mut Connection<S>,
    alloc: Global,
    edits: &[Edit],
) -> Result<(), Error>
    requires { conn.old.in_transaction ≡ false }
    ensures idle { conn.new.in_transaction ≡ false }
    ensures made { HasCleanDisk (state S.Store conn.new) → (s : State) →
        Has (state S.Store conn.old) s →
        OnOk result (CommitsState (state S.Store conn.new) (with_edits edits.now s)) }
    ensures none { HasCleanDisk (state S.Store conn.new) →
        OnErr result (KeepsCommitted (state S.Store conn.old) (state S.Store conn.new)) }
    ensures survives { Survives (state S.Store conn.old) (state S.Store conn.new) (λ left.
        (s : State) → Has (state S.Store conn.old) s → TreesHold left (with_edits edits.now s)) }
{
    let mut tx = conn.transaction();
    // a shut store must not be asked to commit
    probe(&mut tx)?;
    make_all(&mut tx, alloc, edits)?;
    tx.commit()
}

//! All rows but the documents.

ghost use Rattle.std.specs.Prelude.{◌≡◌, false};
ghost use Rattle.sqlite.specs.Held.{state};
ghost use Rattle.hub_state.specs.Bare.{bare};
ghost use Rattle.hub_store.specs.inner.Queries.{IsReadInside, IsReadOutside};

use crate::add_incidents::add_incidents;
use crate::add_numbered::add_numbered;
use crate::add_pairs::add_pairs;
use hub_state::StateRows;
use sqlite::{Alter, Connection, Error, Transaction};
use std::alloc::Global;

fn read_rows<S: Alter>(tx: &mut Transaction<'_, S>, alloc: Global) -> Result<StateRows, Error>
    ensures same_reference { tx.new.conn.ghost_name ≡ tx.old.conn.ghost_name }
    ensures read { IsReadInside (state S.Store tx.old.conn.now) (state S.Store tx.new.conn.now)
        (λ s rows. rows ≡ bare s) result }
{
    let rows = add_numbered(tx, alloc, StateRows::new(alloc))?;
    let rows = add_pairs(tx, alloc, rows)?;
    add_incidents(tx, alloc, rows)
}

/// All rows of the state but the documents: one query for each set.
pub(crate) fn find_rows<S: Alter>(
    conn: &mut Connection<S>,
    alloc: Global,
) -> Result<StateRows, Error>
    requires { conn.old.in_transaction ≡ false }
    ensures idle { conn.new.in_transaction ≡ false }
    ensures answers { IsReadOutside (state S.Store conn.old) (state S.Store conn.new)
        (λ s rows. rows ≡ bare s) result }
{
    let mut tx = conn.transaction();
    let found = read_rows(&mut tx, alloc);
    tx.rollback();
    found
}

//! Feeding a pass with the lines of an incident, one at a time.

ghost use Rattle.std.specs.Prelude.{◌≡◌, false, IsTrue, None, OnOk};
ghost use Rattle.sqlite.specs.Held.{state};
ghost use Rattle.hub_store.specs.inner.FeedsRows.{IsUnfed, HasTaken, TakesRow, lines_of};
ghost use Rattle.hub_store.specs.inner.Queries.{IsReadOutside};

use crate::from_row::STRANGE;
use crate::item_rows::{error_of, line_at};
use redact::RowPass;
use sqlite::{Alter, Connection, Error, Row, params};
use std::alloc::Global;

/// Fails with `STRANGE` if the row shows no line or has another place, or if the line may not come there.
fn feed_row(alloc: Global, pass: &mut RowPass, place: u64, row: &Row) -> Result<(), Error>
    requires { pass.old.fed.fault ≡ None }
    ensures { OnOk result (TakesRow pass.old place row.now pass.new) }
{
    let line = line_at(alloc, place, row)?;
    match pass.feed(line) {
        Ok(()) => Ok(()),
        Err(fault) => Err(error_of(fault)),
    }
}

/// Feeds a pass with the lines of an incident, one at a time, in the order of their places. It asks outside a
/// transaction, since in one nothing is known of what an error leaves.
pub(crate) fn feed_rows<S: Alter>(
    conn: &mut Connection<S>,
    alloc: Global,
    incident: u32,
    pass: &mut RowPass,
) -> Result<(), Error>
    requires idle { conn.old.in_transaction ≡ false }
    requires settled { IsTrue (state S.Store conn.old).is_open →
        (state S.Store conn.old).now ≡ (state S.Store conn.old).committed }
    requires unfed { IsUnfed pass.old }
    ensures idle { conn.new.in_transaction ≡ false }
    ensures fed { OnOk result (HasTaken pass.old pass.new) }
    ensures answers { IsReadOutside (state S.Store conn.old) (state S.Store conn.new) (λ s _.
        pass.new.fed.lines ≡ lines_of incident s) result }
{
    let mut rows = conn.query(
        "SELECT place, depth, name, in_array, kind, text FROM item WHERE incident = ?1 ORDER BY place",
        params![incident],
    )?;
    // for the proof: the label names the loop there
    'rows: for place in 1..u64::MAX {
        let Some(row) = rows.next()? else {
            return Ok(());
        };
        feed_row(alloc, pass, place, row)?;
    }
    Err(STRANGE)
}

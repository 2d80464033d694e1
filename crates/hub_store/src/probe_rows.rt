//! Feeding a search with the lines of an incident, one at a time, until its result is sure.

ghost use Rattle.std.specs.Prelude.{◌≡◌, false, IsTrue, None, IfOk, OnOk};
ghost use Rattle.sqlite.specs.Held.{state};
ghost use Rattle.hub_store.specs.inner.ProbesRows.{IsUnprobed, HasProbed, ProbesRow, AreFirst};
ghost use Rattle.hub_store.specs.inner.Queries.{IsReadOutside};

use crate::from_row::STRANGE;
use crate::item_rows::{error_of, line_at};
use redact::Probe;
use sqlite::{Alter, Connection, Error, Row, params};
use std::alloc::Global;

/// Returns whether the result is sure with one more line. Fails with `STRANGE` if the row shows no line or has another
/// place, or if the line may not come there.
fn probe_row(alloc: Global, probe: &mut Probe, place: u64, row: &Row) -> Result<bool, Error>
    requires { probe.old.fed.fault ≡ None }
    ensures { IfOk result (λ answer. ProbesRow probe.old place row.now answer probe.new) }
{
    let line = line_at(alloc, place, row)?;
    match probe.feed(line) {
        Ok(answer) => Ok(answer),
        Err(fault) => Err(error_of(fault)),
    }
}

/// Feeds a search with the lines of an incident, one at a time, in the order of their places. As soon as its result is
/// sure, the rest of the rows is dropped. It asks outside a transaction, since in one nothing is known of what an error
/// leaves.
pub(crate) fn probe_rows<S: Alter>(
    conn: &mut Connection<S>,
    alloc: Global,
    incident: u32,
    probe: &mut Probe,
) -> Result<(), Error>
    requires idle { conn.old.in_transaction ≡ false }
    requires settled { IsTrue (state S.Store conn.old).is_open →
        (state S.Store conn.old).now ≡ (state S.Store conn.old).committed }
    requires unprobed { IsUnprobed probe.old }
    ensures idle { conn.new.in_transaction ≡ false }
    ensures probed { OnOk result (HasProbed probe.old probe.new) }
    ensures answers { IsReadOutside (state S.Store conn.old) (state S.Store conn.new) (λ s _.
        AreFirst incident s probe.new) result }
{
    let mut rows = conn.query(
        "SELECT place, depth, name, in_array, kind, text FROM item WHERE incident = ?1 ORDER BY place",
        params![incident],
    )?;
    // for the proof: the label names the loop there
    'rows: for place in 1..u64::MAX {
        let Some(row) = rows.next()? else {
            return Ok(());
        };
        if probe_row(alloc, probe, place, row)? {
            return Ok(());
        }
    }
    Err(STRANGE)
}

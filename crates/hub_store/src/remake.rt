//! Making a table anew, as the step from one version of the tables to the next does.

ghost use Rattle.std.specs.Prelude.{◌≡◌, ◌≢◌, ℕ, List, [], map, IsTrue, IfOk, IfErr, OnOk};
ghost use Rattle.sqlite_value.specs.Order.{Row as Columns};
ghost use Rattle.sqlite.specs.State.{HasCleanDisk};
ghost use Rattle.sqlite.specs.Held.{state};
ghost use Rattle.sqlite.specs.Values.{bound, bound_value};
ghost use Rattle.hub_store.specs.Failing.{IsUnheld};
ghost use Rattle.hub_store.specs.Layout.{Step, made_anew, under};
ghost use Rattle.hub_store.specs.Parts.{Part, HoldsParts};
ghost use Rattle.hub_store.specs.Keeps.{Goes, HasRun, HasFailed};
ghost use Rattle.hub_store.specs.inner.Makes.{Makes, FailsOnly};
ghost use Rattle.hub_store.specs.inner.Remakes.{told, HoldsAnew, MakeAnew, PutsEach, TakesEach, Remakes};

use crate::query::ask;
use crate::set_version::set_version;
use crate::statement::run;
use sqlite::types::ValueRef;
use sqlite::{Alter, Error, ErrorCode, Row, Transaction};
use std::alloc::Global;

/// The texts of a step. A table can't be given a column, so it is dropped and made anew. A new table gets a tree above
/// all others, so the same statements bring a new store and an old one there.
pub(crate) struct Texts {
    /// Shows the rows of the old table.
    pub(crate) read: &'static str,
    /// Drops the old table.
    pub(crate) drop: &'static str,
    /// Makes the new table.
    pub(crate) create: &'static str,
    /// Puts a row that was read into the new table.
    pub(crate) put: &'static str,
}

/// The columns of a row as parameters of a statement.
fn params_of(alloc: Global, row: &Row) -> Result<Vec<ValueRef<'_>>, Error>
    ensures value { IfOk result (λ params. bound params.items ≡ map bound_value row.now) }
    ensures memory { IfErr result IsUnheld }
{
    let mut params = Vec::new(alloc);
    for at in 0..row.column_count() {
        params.push(row.get_ref(at)?)?;
    }
    Ok(params)
}

/// Puts a row that was read, as the text keeps it.
fn put_row<S: Alter>(
    tx: &mut Transaction<'_, S>,
    alloc: Global,
    text: &str,
    row: &Row,
) -> Result<(), Error>
    ensures same_reference { tx.new.conn.ghost_name ≡ tx.old.conn.ghost_name }
    ensures goes { Goes (state S.Store tx.old.conn.now) (state S.Store tx.new.conn.now) result }
    ensures ran { HasCleanDisk (state S.Store tx.new.conn.now) →
        IsTrue (state S.Store tx.old.conn.now).in_transaction →
        OnOk result (HasRun S.Store text.now
        (map bound_value row.now) tx.old.conn.now tx.new.conn.now) }
    ensures failed { HasCleanDisk (state S.Store tx.new.conn.now) →
        IsTrue (state S.Store tx.old.conn.now).in_transaction →
        IfErr result (λ e. e ≢ Error.SqliteFailure ErrorCode.OutOfMemory →
        HasFailed S.Store text.now (map bound_value row.now) tx.old.conn.now tx.new.conn.now e) }
{
    let params = params_of(alloc, row)?;
    run(tx, text, params.as_slice())
}

fn put_rows<S: Alter>(
    tx: &mut Transaction<'_, S>,
    alloc: Global,
    text: &str,
    rows: &[Row],
) -> Result<(), Error>
    ensures same_reference { tx.new.conn.ghost_name ≡ tx.old.conn.ghost_name }
    ensures goes { Goes (state S.Store tx.old.conn.now) (state S.Store tx.new.conn.now) result }
    ensures made { (step : Step) → (ps : List Part) → PutsEach S.Store text.now step rows.now ps →
        Makes (state S.Store tx.old.conn.now) (state S.Store tx.new.conn.now)
        (HoldsAnew step [] ps) (HoldsAnew step (map step.row rows.now) ps) result }
    ensures cause { (step : Step) → (ps : List Part) → PutsEach S.Store text.now step rows.now ps →
        TakesEach S.Store text.now step rows.now ps →
        FailsOnly (state S.Store tx.old.conn.now) (state S.Store tx.new.conn.now)
        (HoldsAnew step [] ps) result }
{
    for row in rows {
        put_row(tx, alloc, text, row)?;
    }
    Ok(())
}

/// Drops the old table and makes the new one without a row. The rows of the other tables stay.
pub(crate) fn make_anew<S: Alter>(tx: &mut Transaction<'_, S>, texts: &Texts) -> Result<(), Error>
    ensures same_reference { tx.new.conn.ghost_name ≡ tx.old.conn.ghost_name }
    ensures goes { Goes (state S.Store tx.old.conn.now) (state S.Store tx.new.conn.now) result }
    ensures made { (step : Step) → (ps : List Part) → MakeAnew S.Store (told texts.now) step ps →
        Makes (state S.Store tx.old.conn.now) (state S.Store tx.new.conn.now) (HoldsParts ps)
        (HoldsAnew step [] ps) result }
    ensures cause { (step : Step) → (ps : List Part) → MakeAnew S.Store (told texts.now) step ps →
        FailsOnly (state S.Store tx.old.conn.now) (state S.Store tx.new.conn.now)
        (HoldsParts ps) result }
{
    run(tx, texts.drop, &[])?;
    run(tx, texts.create, &[])
}

/// Brings the tables to a version by these texts.
pub(crate) fn remake<S: Alter>(
    tx: &mut Transaction<'_, S>,
    alloc: Global,
    texts: &Texts,
    version: u32,
) -> Result<(), Error>
    ensures same_reference { tx.new.conn.ghost_name ≡ tx.old.conn.ghost_name }
    ensures goes { Goes (state S.Store tx.old.conn.now) (state S.Store tx.new.conn.now) result }
    ensures made { (step : Step) → (before : ℕ) → (ps : List Part) → (rows : List Columns) →
        Remakes S.Store (told texts.now) step before version ps rows →
        Makes (state S.Store tx.old.conn.now) (state S.Store tx.new.conn.now)
        (HoldsParts (under before ps))
        (HoldsParts (made_anew step (map step.row rows) (under version ps))) result }
    ensures cause { (step : Step) → (before : ℕ) → (ps : List Part) → (rows : List Columns) →
        Remakes S.Store (told texts.now) step before version ps rows →
        TakesEach S.Store texts.now.put.now step rows (under version ps) →
        FailsOnly (state S.Store tx.old.conn.now) (state S.Store tx.new.conn.now)
        (HoldsParts (under before ps)) result }
{
    let rows = ask(tx, texts.read, &[])?;
    // before the table is dropped, while all tables are those of the version before
    set_version(tx, version)?;
    make_anew(tx, texts)?;
    put_rows(tx, alloc, texts.put, &rows)
}

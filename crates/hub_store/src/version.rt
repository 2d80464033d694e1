//! The version of the tables.

ghost use Rattle.std.specs.Prelude.{◌≡◌, ◌≢◌, ◌==◌, false, map, is_some, IfOk, IfErr, IfSome, IsTrue};
ghost use Rattle.sqlite_value.specs.Order.{column};
ghost use Rattle.sqlite.specs.State.{HasCleanDisk, IsLive, KeepsCommit, Survives};
ghost use Rattle.sqlite.specs.Held.{state};
ghost use Rattle.hub_store.specs.Keeps.{KeepsCommitted};
ghost use Rattle.hub_store.specs.Versions.{tables_at, version_column, only_u32, version_of};
ghost use Rattle.hub_store.specs.Failing.{HasReason};

use crate::failures::fault_of;
use hub_state::ShelfFault;
use sqlite::{Alter, Connection, Error, ErrorCode, Row, Transaction};
use sqlite_schema::schema::Schema;

/// The newest version of the tables.
pub const NEWEST: u32 = 4;

/// Whether exactly one table has this tree.
fn has_one_table(schema: &Schema, tree: u32) -> bool
    ensures { result ≡ (tables_at schema.now tree == 1) }
{
    let tables = schema.tables.as_slice();
    tables.iter().filter(|table| table.tree == tree).count() == 1
}

/// Whether there is a table `hub` with a tree of its own and with a column `version`.
fn has_version_column(schema: &Schema) -> bool
    ensures { result ≡ is_some (version_column schema.now) }
{
    match schema.table_named(b"hub") {
        None => false,
        Some(at) => match schema.tables.as_slice().get(at) {
            None => false,
            Some(table) => {
                has_one_table(schema, table.tree) && table.column_named(b"version").is_some()
            }
        },
    }
}

/// The u32 in the first column, if there is one row.
fn only_number(rows: &[Row]) -> Result<Option<u32>, Error>
    ensures value { IfOk result (λ found. found ≡ only_u32 (map (λ r. column r 0) rows.now)) }
    ensures memory { IfErr result (λ e. e ≡ Error.SqliteFailure ErrorCode.OutOfMemory) }
{
    match rows {
        [row] => match row.get(0) {
            Ok(number) => Ok(Some(number)),
            Err(Error::SqliteFailure(ErrorCode::OutOfMemory)) => {
                Err(Error::SqliteFailure(ErrorCode::OutOfMemory))
            }
            Err(_) => Ok(None),
        },
        _ => Ok(None),
    }
}

/// Reads the version, if there is the column. A view `hub` is no table, so it isn't asked.
fn read_version<S: Alter>(
    tx: &mut Transaction<'_, S>,
    has_column: bool,
) -> Result<Option<u32>, Error>
    ensures same_reference { tx.new.conn.ghost_name ≡ tx.old.conn.ghost_name }
    ensures kept { HasCleanDisk (state S.Store tx.new.conn.now) →
        KeepsCommit (state S.Store tx.old.conn.now) (state S.Store tx.new.conn.now) }
    ensures survives { Survives (state S.Store tx.old.conn.now)
        (state S.Store tx.new.conn.now) (λ _. ⊥) }
    ensures exact { HasCleanDisk (state S.Store tx.new.conn.now) →
        has_column ≡ is_some (version_column (state S.Store tx.old.conn.now).now.schema) →
        IfOk result (λ found. found ≡ version_of (state S.Store tx.old.conn.now).now) }
    ensures asked { HasCleanDisk (state S.Store tx.new.conn.now) →
        IfOk result (λ found. IfSome found (λ _. IsTrue (state S.Store tx.old.conn.now).is_open)) }
    ensures cause { HasCleanDisk (state S.Store tx.new.conn.now) →
        has_column ≡ is_some (version_column (state S.Store tx.old.conn.now).now.schema) →
        IsLive (state S.Store tx.old.conn.now) →
        IfErr result (λ e.
        e ≢ Error.SqliteFailure ErrorCode.OutOfMemory →
        HasReason (state S.Store tx.old.conn.now) (state S.Store tx.new.conn.now)) }
{
    // SQL finds a table's types by its tree. Were there two tables at one tree, it could refuse the text, so nothing is
    // asked then.
    if !has_column {
        return Ok(None);
    }
    // two rows show that there are several, without reading a table of many
    match tx.query_all("SELECT version FROM hub LIMIT 2", &[]) {
        Ok(rows) => only_number(&rows),
        Err(error) => Err(error),
    }
}

/// Asks for the version in a transaction that is rolled back.
fn ask_version<S: Alter>(conn: &mut Connection<S>) -> Result<Option<u32>, Error>
    requires { conn.old.in_transaction ≡ false }
    ensures idle { conn.new.in_transaction ≡ false }
    ensures kept { HasCleanDisk (state S.Store conn.new) →
        KeepsCommitted (state S.Store conn.old) (state S.Store conn.new) }
    ensures survives { Survives (state S.Store conn.old) (state S.Store conn.new) (λ _. ⊥) }
    ensures exact { HasCleanDisk (state S.Store conn.new) →
        IfOk result (λ found. found ≡ version_of (state S.Store conn.old).now) }
    ensures asked { HasCleanDisk (state S.Store conn.new) →
        IfOk result (λ found. IfSome found (λ _. IsTrue (state S.Store conn.old).is_open)) }
    ensures cause { HasCleanDisk (state S.Store conn.new) →
        IfErr result (λ e.
        e ≢ Error.SqliteFailure ErrorCode.OutOfMemory →
        HasReason (state S.Store conn.old) (state S.Store conn.new)) }
{
    let has_column = has_version_column(conn.schema());
    let mut tx = conn.transaction();
    let found = read_version(&mut tx, has_column);
    tx.rollback();
    found
}

/// Returns the version in the one row of the table `hub`. None if there is no such table, row or number, or if another
/// table has its tree.
pub(crate) fn version<S: Alter>(conn: &mut Connection<S>) -> Result<Option<u32>, ShelfFault>
    requires { conn.old.in_transaction ≡ false }
    ensures idle { conn.new.in_transaction ≡ false }
    ensures kept { HasCleanDisk (state S.Store conn.new) →
        KeepsCommitted (state S.Store conn.old) (state S.Store conn.new) }
    ensures survives { Survives (state S.Store conn.old) (state S.Store conn.new) (λ _. ⊥) }
    ensures exact { HasCleanDisk (state S.Store conn.new) →
        IfOk result (λ found. found ≡ version_of (state S.Store conn.old).now) }
    ensures asked { HasCleanDisk (state S.Store conn.new) →
        IfOk result (λ found. IfSome found (λ _. IsTrue (state S.Store conn.old).is_open)) }
    ensures cause { HasCleanDisk (state S.Store conn.new) →
        IfErr result (λ fault. fault ≡ ShelfFault.Failed →
        HasReason (state S.Store conn.old) (state S.Store conn.new)) }
{
    match ask_version(conn) {
        Ok(found) => Ok(found),
        Err(error) => Err(fault_of(error)),
    }
}

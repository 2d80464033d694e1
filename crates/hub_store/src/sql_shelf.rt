//! The shelf over a connection.

ghost use Rattle.std.specs.Prelude.{◌≡◌, ◌≢◌, ◌<◌, ◌↔◌, Option, Some, false, IfOk, IfErr, IsTrue, OnOk};
ghost use Rattle.hub_state.specs.Shelves.{last_count};
ghost use Rattle.hub_store.specs.Tables.{no_schema};
ghost use Rattle.hub_store.specs.Opening.{opened_as};

mod look_ups;
mod migrated;
mod shelf;
mod whole_rows;

use crate::create::make_store;
use crate::failures::fault_of;
use crate::version::{NEWEST, version};
use hub_state::ShelfFault;
use sqlite::{Alter, Connection};
use sqlite_schema::schema::Schema;
use std::alloc::Global;
use std::marker::Model;

/// Why a store wasn't opened.
#[derive(Clone, Copy, Debug, PartialEq, Eq)]
pub enum OpenFault {
    /// There is no table `hub` of one row whose column `version` holds a `u32`, or another table has its tree.
    NotOurs,
    /// The tables are of this version.
    WrongVersion(u32),
    /// The store failed.
    Failed,
    NoMemory,
}

/// The hub's tables in a connection, which is in no transaction between two calls. Each look-up is one transaction that
/// is rolled back, as a read changes nothing and nobody else writes the store. Contracts see the connection and the
/// count of failures.
#[derive(Drop)]
pub struct SqlShelf<S: Alter> {
    alloc: Global,
    conn: Connection<S>,
    failures: u64,
}

impl<S: Alter> Model for SqlShelf<S> {
    ghost use Rattle.std.specs.Prelude.{◌≡◌, false};
    ghost use Rattle.hub_store.specs.Shelved.{Shelved, shelved_code};

    ghost Value = { Shelved S };

    ghost coded = { shelved_code S.code };

    ghost view = { λ shelf. record { conn = shelf.conn; failures = shelf.failures } };

    ghost invariant = { λ shelf. shelf.conn.in_transaction ≡ false };
}

fn open_fault(fault: ShelfFault) -> OpenFault
    ensures { result ≡ opened_as fault }
{
    match fault {
        ShelfFault::NoMemory => OpenFault::NoMemory,
        ShelfFault::Failed => OpenFault::Failed,
    }
}

fn is_blank(schema: &Schema) -> bool
    ensures { IsTrue result ↔ (schema.now ≡ no_schema) }
{
    schema.tables.is_empty() && schema.indexes.is_empty() && schema.views.is_empty()
}

impl<S: Alter> SqlShelf<S> {
    ghost use Rattle.sqlite.specs.State.{HasCleanDisk, Survives};
    ghost use Rattle.sqlite.specs.Held.{state};
    ghost use Rattle.hub_state.specs.State.{State, empty};
    ghost use Rattle.hub_store.specs.Content.{Has, MayLeave};
    ghost use Rattle.hub_store.specs.Means.{TreesHold};
    ghost use Rattle.hub_store.specs.Keeps.{KeepsCommitted};
    ghost use Rattle.hub_store.specs.Failing.{HasReason, limit_of};
    ghost use Rattle.hub_store.specs.Opening.{IsOpened, IsRefused};

    fn over(alloc: Global, conn: Connection<S>) -> SqlShelf<S>
        requires { conn.in_transaction ≡ false }
        ensures same { result.conn ≡ conn }
        ensures begun { result.failures ≡ 0 }
    {
        SqlShelf {
            alloc,
            conn,
            failures: 0,
        }
    }

    /// Fails if the count of failures is at its last value: it can't rise, so the store isn't asked anything more.
    fn may_ask(&self) -> Result<(), ShelfFault>
        ensures asked { OnOk result (self.now.failures < last_count) }
        ensures ended { IfErr result (λ fault.
            (fault ≡ ShelfFault.Failed) × (self.now.failures ≡ last_count)) }
    {
        if self.failures == u64::MAX {
            return Err(ShelfFault::Failed);
        }
        Ok(())
    }

    /// Makes the tables, without any row but the version. Fails with `Failed` if there are tables already, and changes
    /// nothing. If it fails, the connection comes back with its content.
    pub fn create(
        alloc: Global,
        mut conn: Connection<S>,
    ) -> Result<SqlShelf<S>, (ShelfFault, Connection<S>)>
        requires { conn.in_transaction ≡ false }
        ensures made { IfOk result (λ shelf.
            HasCleanDisk (state S.Store shelf.conn) → Has (state S.Store shelf.conn) empty) }
        ensures begun { IfOk result (λ shelf. shelf.failures ≡ 0) }
        ensures taken { (state S.Store conn).now.schema ≢ no_schema →
            result ≡ Err (ShelfFault.Failed, conn) }
        ensures cause { (state S.Store conn).now.schema ≡ no_schema →
            IfErr result (λ e.
            HasCleanDisk (state S.Store e.1) → e.0 ≡ ShelfFault.Failed →
            HasReason (state S.Store conn) (state S.Store e.1)) }
        ensures kept { IfErr result (λ e.
            HasCleanDisk (state S.Store e.1) →
            KeepsCommitted (state S.Store conn) (state S.Store e.1)) }
        ensures back { IfErr result (λ e.
            HasCleanDisk (state S.Store e.1) → (s : State) → Has (state S.Store conn) s →
            Has (state S.Store e.1) s) }
        ensures idle { IfErr result (λ e. e.1.in_transaction ≡ false) }
        // After Ok a crash may leave only the empty state. Otherwise it may leave what it could have left before, or
        // that state.
        ensures durable { IfOk result (λ shelf.
            HasCleanDisk (state S.Store shelf.conn) → (left : Option State) →
            MayLeave (state S.Store shelf.conn) left ↔ (left ≡ Some empty)) }
        ensures survives { IfOk result (λ shelf.
            Survives (state S.Store conn) (state S.Store shelf.conn) (λ left.
            TreesHold left empty)) }
        ensures crash { IfErr result (λ e.
            Survives (state S.Store conn) (state S.Store e.1) (λ left. TreesHold left empty)) }
    {
        // for the proof: outside a transaction the rows seen are the committed ones
        prove!(conn.is_autocommit());
        if !is_blank(conn.schema()) {
            return Err((ShelfFault::Failed, conn));
        }
        match make_store(&mut conn) {
            Ok(()) => Ok(SqlShelf::over(alloc, conn)),
            Err(error) => Err((fault_of(error), conn)),
        }
    }

    /// Takes a connection whose store has the hub's tables of the newest version. If it fails, the connection comes
    /// back with its content, whatever store it is.
    pub fn open(
        alloc: Global,
        mut conn: Connection<S>,
    ) -> Result<SqlShelf<S>, (OpenFault, Connection<S>)>
        requires { conn.in_transaction ≡ false }
        ensures opened { IfOk result (λ shelf.
            IsOpened (state S.Store conn) (state S.Store shelf.conn) shelf.failures) }
        ensures refused { IfErr result (λ e.
            IsRefused (state S.Store conn) (state S.Store e.1) e.0) }
        ensures idle { IfErr result (λ e. e.1.in_transaction ≡ false) }
    {
        match version(&mut conn) {
            Ok(Some(NEWEST)) => Ok(SqlShelf::over(alloc, conn)),
            Ok(Some(other)) => Err((OpenFault::WrongVersion(other), conn)),
            Ok(None) => Err((OpenFault::NotOurs, conn)),
            Err(ShelfFault::NoMemory) => Err((OpenFault::NoMemory, conn)),
            Err(ShelfFault::Failed) => Err((OpenFault::Failed, conn)),
        }
    }

    /// Sets the connection's limit on the steps of a statement; 0 is no limit. Takes no memory. A statement that would
    /// take more steps fails as a failure of the store, and changes nothing.
    pub fn limit_steps(&mut self, steps: u64)
        ensures limited { self.new.conn ≡ record self.old.conn { step_limit = limit_of steps } }
        ensures content { (s : State) → Has (state S.Store self.old.conn) s →
            Has (state S.Store self.new.conn) s }
        ensures crash { (left : Option State) →
            MayLeave (state S.Store self.new.conn) left ↔ MayLeave
            (state S.Store self.old.conn) left }
        ensures failures { self.new.failures ≡ self.old.failures }
    {
        let limit = if steps == 0 { None } else { Some(steps) };
        self.conn.set_step_limit(limit);
    }

    /// Returns the connection, with the content as it was. Takes no memory.
    pub fn release(self) -> Connection<S>
        ensures same { result ≡ self.conn }
        ensures idle { result.in_transaction ≡ false }
    {
        let SqlShelf {
            alloc: _,
            conn,
            failures: _,
        } = self;
        conn
    }
}

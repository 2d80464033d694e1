//! Bringing a store of an older version to the newest in one transaction. There is no way back.

ghost use Rattle.std.specs.Prelude.{◌≡◌, ◌≢◌, ◌<◌, ◌≤◌, ◌&&◌, List, [], map, false, OnOk, OnErr, IfOk, IfErr, IsTrue};
ghost use Rattle.sqlite_value.specs.Order.{Row};
ghost use Rattle.sqlite.specs.State.{HasCleanDisk, Survives};
ghost use Rattle.sqlite.specs.Held.{state};
ghost use Rattle.hub_state.specs.State.{State};
ghost use Rattle.hub_state.specs.Sound.{IsSound};
ghost use Rattle.hub_store.specs.Fit.{AreTaken};
ghost use Rattle.hub_store.specs.Items.{items_of, item_row};
ghost use Rattle.hub_store.specs.Layout.{newest, parts_1, without_incidents, tables_2};
ghost use Rattle.hub_store.specs.Rows.{naming_row_2};
ghost use Rattle.hub_store.specs.Parts.{HoldsParts};
ghost use Rattle.hub_store.specs.inner.Beside.{HoldsBeside, CanName};
ghost use Rattle.hub_store.specs.Means.{HoldsAs, Holds, TreesHold};
ghost use Rattle.hub_store.specs.Content.{HasAs, CommitsState};
ghost use Rattle.hub_store.specs.Failing.{HasReason};
ghost use Rattle.hub_store.specs.Keeps.{Goes, KeepsCommitted};
ghost use Rattle.hub_store.specs.inner.Makes.{Makes, FailsOnly};
ghost use Rattle.hub_store.specs.inner.Moving.{HasTexts, HoldsMoved, HoldsNext, incident_above, naming_in};
ghost use Rattle.hub_store.specs.Opening as spec;

use crate::from_row::STRANGE;
use crate::next_version::go_next;
use crate::old_rows::first_incident;
use crate::put_lines::put_lines;
use crate::put_naming::put_naming_2;
use crate::query::{ask, probe};
use crate::set_version::set_version;
use crate::to_version_2::{create_incident, create_item, drop_incident};
use crate::version::NEWEST;
use hub_state::{Incident, Naming};
use sqlite::{Alter, Connection, Error, ErrorCode, Transaction, params};
use std::alloc::Global;

/// Whether a migration brings this version to the newest.
pub(crate) fn is_older(version: u32) -> bool
    ensures { result ≡ spec.is_older version }
{
    0 < version && version < NEWEST
}

/// The first incident above a number, as version 1 keeps it.
fn read_next<S: Alter>(
    tx: &mut Transaction<'_, S>,
    alloc: Global,
    number: u32,
) -> Result<Option<Incident>, Error>
    ensures same_reference { tx.new.conn.ghost_name ≡ tx.old.conn.ghost_name }
    ensures goes { Goes (state S.Store tx.old.conn.now) (state S.Store tx.new.conn.now) result }
    ensures same { (s : State) → (items : List Row) →
        Makes (state S.Store tx.old.conn.now) (state S.Store tx.new.conn.now) (HoldsBeside items s)
        (HoldsBeside items s) result }
    ensures read { HasCleanDisk (state S.Store tx.new.conn.now) → (s : State) → (items : List Row) →
        HasTexts s → HoldsBeside items s (state S.Store tx.old.conn.now).now →
        IfOk result (λ found. found ≡ incident_above number s) }
    ensures cause { (s : State) → (items : List Row) → HasTexts s → AreTaken s →
        FailsOnly (state S.Store tx.old.conn.now) (state S.Store tx.new.conn.now)
        (HoldsBeside items s) result }
{
    let rows = ask(
        tx,
        "SELECT number, source, ident, revision, text FROM incident WHERE number > ?1 ORDER BY number LIMIT 1",
        params![number],
    )?;
    first_incident(alloc, &rows)
}

/// Puts the lines of the next document, if there is one. Keeps the rest of its row, and returns its number. Only one
/// document at a time is in memory.
fn move_next<S: Alter>(
    tx: &mut Transaction<'_, S>,
    alloc: Global,
    number: u32,
    kept: &mut Vec<Naming>,
) -> Result<Option<u32>, Error>
    ensures same_reference { tx.new.conn.ghost_name ≡ tx.old.conn.ghost_name }
    ensures goes { Goes (state S.Store tx.old.conn.now) (state S.Store tx.new.conn.now) result }
    ensures moved { HasCleanDisk (state S.Store tx.new.conn.now) →
        IsTrue (state S.Store tx.old.conn.now).in_transaction → (s : State) → HasTexts s →
        HoldsMoved number kept.old.items (state S.Store tx.old.conn.now).now s →
        IfOk result (λ found.
        HoldsNext number kept.new.items found (state S.Store tx.new.conn.now).now s) }
    ensures cause { (s : State) → HasTexts s → AreTaken s →
        FailsOnly (state S.Store tx.old.conn.now) (state S.Store tx.new.conn.now) (λ db.
        HoldsMoved number kept.old.items db s) result }
{
    let Some(incident) = read_next(tx, alloc, number)? else {
        return Ok(None);
    };
    let lines = incident.document.outline(alloc)?;
    let found = incident.naming.number;
    put_lines(tx, alloc, found, &lines)?;
    kept.push(incident.naming)?;
    Ok(Some(found))
}

/// Puts the lines of all documents beside the table of their texts, and returns the rest of its rows, which is some
/// hundred bytes an incident.
fn move_documents<S: Alter>(
    tx: &mut Transaction<'_, S>,
    alloc: Global,
) -> Result<Vec<Naming>, Error>
    ensures same_reference { tx.new.conn.ghost_name ≡ tx.old.conn.ghost_name }
    ensures goes { Goes (state S.Store tx.old.conn.now) (state S.Store tx.new.conn.now) result }
    ensures moved { HasCleanDisk (state S.Store tx.new.conn.now) →
        IsTrue (state S.Store tx.old.conn.now).in_transaction → (s : State) → HasTexts s →
        HoldsBeside [] s (state S.Store tx.old.conn.now).now →
        IfOk result (λ kept.
        HoldsBeside (map item_row (items_of s)) s (state S.Store tx.new.conn.now).now ×
        (kept.items ≡ naming_in s.incidents)) }
    ensures cause { (s : State) → HasTexts s → AreTaken s →
        FailsOnly (state S.Store tx.old.conn.now) (state S.Store tx.new.conn.now)
        (HoldsBeside [] s) result }
{
    let mut kept = Vec::new(alloc);
    let mut number = 0;
    for _ in 0..u64::MAX {
        match move_next(tx, alloc, number, &mut kept)? {
            None => return Ok(kept),
            Some(found) => number = found,
        }
    }
    Err(STRANGE)
}

/// Moves the lines of all documents, and drops the table of their texts.
fn move_lines<S: Alter>(tx: &mut Transaction<'_, S>, alloc: Global) -> Result<Vec<Naming>, Error>
    ensures same_reference { tx.new.conn.ghost_name ≡ tx.old.conn.ghost_name }
    ensures goes { Goes (state S.Store tx.old.conn.now) (state S.Store tx.new.conn.now) result }
    ensures moved { HasCleanDisk (state S.Store tx.new.conn.now) →
        IsTrue (state S.Store tx.old.conn.now).in_transaction → (s : State) → HasTexts s →
        HoldsParts (parts_1 s) (state S.Store tx.old.conn.now).now →
        IfOk result (λ kept.
        HoldsParts (without_incidents (map item_row (items_of s)) s)
        (state S.Store tx.new.conn.now).now × (kept.items ≡ naming_in s.incidents)) }
    ensures cause { (s : State) → HasTexts s → AreTaken s →
        FailsOnly (state S.Store tx.old.conn.now) (state S.Store tx.new.conn.now)
        (HoldsParts (parts_1 s)) result }
{
    create_item(tx)?;
    let kept = move_documents(tx, alloc)?;
    drop_incident(tx)?;
    Ok(kept)
}

fn put_back<S: Alter>(tx: &mut Transaction<'_, S>, kept: &[Naming]) -> Result<(), Error>
    ensures same_reference { tx.new.conn.ghost_name ≡ tx.old.conn.ghost_name }
    ensures goes { Goes (state S.Store tx.old.conn.now) (state S.Store tx.new.conn.now) result }
    ensures made { (s : State) → (items : List Row) →
        Makes (state S.Store tx.old.conn.now) (state S.Store tx.new.conn.now)
        (HoldsParts (tables_2 1 items [] s))
        (HoldsParts (tables_2 1 items (map naming_row_2 kept.now) s)) result }
    ensures cause { (s : State) → (items : List Row) →
        CanName naming_row_2 (map naming_row_2 kept.now) →
        FailsOnly (state S.Store tx.old.conn.now) (state S.Store tx.new.conn.now)
        (HoldsParts (tables_2 1 items [] s)) result }
{
    for naming in kept {
        put_naming_2(tx, naming)?;
    }
    Ok(())
}

/// Makes the table of the incidents without their texts.
fn move_incidents<S: Alter>(tx: &mut Transaction<'_, S>, kept: &[Naming]) -> Result<(), Error>
    ensures same_reference { tx.new.conn.ghost_name ≡ tx.old.conn.ghost_name }
    ensures goes { Goes (state S.Store tx.old.conn.now) (state S.Store tx.new.conn.now) result }
    ensures made { (s : State) → (items : List Row) →
        Makes (state S.Store tx.old.conn.now) (state S.Store tx.new.conn.now)
        (HoldsParts (without_incidents items s))
        (HoldsParts (tables_2 1 items (map naming_row_2 kept.now) s)) result }
    ensures cause { (s : State) → (items : List Row) →
        CanName naming_row_2 (map naming_row_2 kept.now) →
        FailsOnly (state S.Store tx.old.conn.now) (state S.Store tx.new.conn.now)
        (HoldsParts (without_incidents items s)) result }
{
    create_incident(tx)?;
    put_back(tx, kept)
}

/// Brings version 1 to version 2.
fn to_version_2<S: Alter>(tx: &mut Transaction<'_, S>, alloc: Global) -> Result<(), Error>
    ensures same_reference { tx.new.conn.ghost_name ≡ tx.old.conn.ghost_name }
    ensures goes { Goes (state S.Store tx.old.conn.now) (state S.Store tx.new.conn.now) result }
    ensures made { (s : State) → IsSound s →
        Makes (state S.Store tx.old.conn.now) (state S.Store tx.new.conn.now) (λ db.
        HoldsAs 1 db s) (λ db. HoldsAs 2 db s) result }
    ensures cause { (s : State) → IsSound s → AreTaken s →
        FailsOnly (state S.Store tx.old.conn.now) (state S.Store tx.new.conn.now) (λ db.
        HoldsAs 1 db s) result }
{
    let kept = move_lines(tx, alloc)?;
    move_incidents(tx, &kept)?;
    set_version(tx, 2)
}

/// Brings version 2 or a later one to the newest, step by step.
fn go_on<S: Alter>(tx: &mut Transaction<'_, S>, alloc: Global, version: u32) -> Result<(), Error>
    ensures same_reference { tx.new.conn.ghost_name ≡ tx.old.conn.ghost_name }
    ensures goes { Goes (state S.Store tx.old.conn.now) (state S.Store tx.new.conn.now) result }
    ensures made { 2 ≤ version → version ≤ newest → (s : State) →
        Makes (state S.Store tx.old.conn.now) (state S.Store tx.new.conn.now) (λ db.
        HoldsAs version db s) (λ db. Holds db s) result }
    ensures cause { 2 ≤ version → version ≤ newest → (s : State) → IsSound s → AreTaken s →
        FailsOnly (state S.Store tx.old.conn.now) (state S.Store tx.new.conn.now) (λ db.
        HoldsAs version db s) result }
{
    for from in version..NEWEST {
        go_next(tx, alloc, from)?;
    }
    Ok(())
}

/// Goes all steps to the newest version. Each leads from one version to the next.
fn go_steps<S: Alter>(tx: &mut Transaction<'_, S>, alloc: Global, version: u32) -> Result<(), Error>
    ensures same_reference { tx.new.conn.ghost_name ≡ tx.old.conn.ghost_name }
    ensures goes { Goes (state S.Store tx.old.conn.now) (state S.Store tx.new.conn.now) result }
    ensures made { IsTrue (spec.is_older version) → (s : State) → IsSound s →
        Makes (state S.Store tx.old.conn.now) (state S.Store tx.new.conn.now) (λ db.
        HoldsAs version db s) (λ db. Holds db s) result }
    ensures cause { IsTrue (spec.is_older version) → (s : State) → IsSound s → AreTaken s →
        FailsOnly (state S.Store tx.old.conn.now) (state S.Store tx.new.conn.now) (λ db.
        HoldsAs version db s) result }
{
    if version < 2 {
        to_version_2(tx, alloc)?;
        go_on(tx, alloc, 2)
    } else {
        go_on(tx, alloc, version)
    }
}

/// Brings a store from an older version to the newest in one transaction, or leaves it as it is. The store isn't asked
/// anything after the commit.
pub(crate) fn renew<S: Alter>(
    conn: &mut Connection<S>,
    alloc: Global,
    version: u32,
) -> Result<(), Error>
    requires { conn.old.in_transaction ≡ false }
    ensures idle { conn.new.in_transaction ≡ false }
    ensures asked { HasCleanDisk (state S.Store conn.new) →
        OnOk result (IsTrue (state S.Store conn.old).is_open) }
    ensures made { HasCleanDisk (state S.Store conn.new) → IsTrue (spec.is_older version) →
        (s : State) → HasAs version (state S.Store conn.old) s →
        OnOk result (CommitsState (state S.Store conn.new) s) }
    ensures none { HasCleanDisk (state S.Store conn.new) →
        OnErr result (KeepsCommitted (state S.Store conn.old) (state S.Store conn.new)) }
    ensures survives { IsTrue (spec.is_older version) →
        Survives (state S.Store conn.old) (state S.Store conn.new) (λ left.
        (s : State) → HasAs version (state S.Store conn.old) s → TreesHold left s) }
    ensures cause { HasCleanDisk (state S.Store conn.new) → IsTrue (spec.is_older version) →
        (s : State) → HasAs version (state S.Store conn.old) s → AreTaken s →
        IfErr result (λ e.
        e ≢ Error.SqliteFailure ErrorCode.OutOfMemory →
        HasReason (state S.Store conn.old) (state S.Store conn.new)) }
{
    let mut tx = conn.transaction();
    // a shut store must not be asked to commit
    probe(&mut tx)?;
    go_steps(&mut tx, alloc, version)?;
    tx.commit()
}

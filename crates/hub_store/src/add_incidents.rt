//! The incidents without their documents, their gates, recipients and permissions, each set read by one query.

ghost use Rattle.std.specs.Prelude.{◌≡◌};
ghost use Rattle.sqlite.specs.Held.{state};
ghost use Rattle.hub_store.specs.inner.Adds as spec;
ghost use Rattle.hub_store.specs.inner.Adds.{Adds};
ghost use Rattle.hub_store.specs.inner.Queries.{IsReadInside};

use crate::into_edit::put_shown;
use crate::query::ask;
use hub_state::{Gate, Naming, Permission, Recipient, StateRows};
use sqlite::{Alter, Error, Transaction};
use std::alloc::Global;

/// Adds the incidents without their documents.
fn add_namings<S: Alter>(
    tx: &mut Transaction<'_, S>,
    alloc: Global,
    rows: StateRows,
) -> Result<StateRows, Error>
    ensures same_reference { tx.new.conn.ghost_name ≡ tx.old.conn.ghost_name }
    ensures read { IsReadInside (state S.Store tx.old.conn.now) (state S.Store tx.new.conn.now)
        (Adds spec.naming_edits rows) result }
{
    let shown = ask(
        tx,
        "SELECT number, source, ident, revision, community FROM incident ORDER BY number",
        &[],
    )?;
    put_shown::<Naming>(alloc, &shown, rows)
}

/// Adds the gates.
fn add_gates<S: Alter>(
    tx: &mut Transaction<'_, S>,
    alloc: Global,
    rows: StateRows,
) -> Result<StateRows, Error>
    ensures same_reference { tx.new.conn.ghost_name ≡ tx.old.conn.ghost_name }
    ensures read { IsReadInside (state S.Store tx.old.conn.now) (state S.Store tx.new.conn.now)
        (Adds spec.gate_edits rows) result }
{
    let shown = ask(
        tx,
        "SELECT incident, path, level, grp FROM gate ORDER BY incident, path",
        &[],
    )?;
    put_shown::<Gate>(alloc, &shown, rows)
}

/// Adds the recipients.
fn add_recipients<S: Alter>(
    tx: &mut Transaction<'_, S>,
    alloc: Global,
    rows: StateRows,
) -> Result<StateRows, Error>
    ensures same_reference { tx.new.conn.ghost_name ≡ tx.old.conn.ghost_name }
    ensures read { IsReadInside (state S.Store tx.old.conn.now) (state S.Store tx.new.conn.now)
        (Adds spec.recipient_edits rows) result }
{
    let shown = ask(
        tx,
        "SELECT incident, kind, target FROM recipient ORDER BY incident, kind, target",
        &[],
    )?;
    put_shown::<Recipient>(alloc, &shown, rows)
}

/// Adds the permissions.
fn add_permissions<S: Alter>(
    tx: &mut Transaction<'_, S>,
    alloc: Global,
    rows: StateRows,
) -> Result<StateRows, Error>
    ensures same_reference { tx.new.conn.ghost_name ≡ tx.old.conn.ghost_name }
    ensures read { IsReadInside (state S.Store tx.old.conn.now) (state S.Store tx.new.conn.now)
        (Adds spec.permission_edits rows) result }
{
    let shown = ask(
        tx,
        "SELECT incident, path, kind, target, until FROM permission ORDER BY incident, path, kind, target",
        &[],
    )?;
    put_shown::<Permission>(alloc, &shown, rows)
}

/// Adds the four sets.
pub(crate) fn add_incidents<S: Alter>(
    tx: &mut Transaction<'_, S>,
    alloc: Global,
    rows: StateRows,
) -> Result<StateRows, Error>
    ensures same_reference { tx.new.conn.ghost_name ≡ tx.old.conn.ghost_name }
    ensures read { IsReadInside (state S.Store tx.old.conn.now) (state S.Store tx.new.conn.now)
        (Adds spec.incident_edits rows) result }
{
    let rows = add_namings(tx, alloc, rows)?;
    let rows = add_gates(tx, alloc, rows)?;
    let rows = add_recipients(tx, alloc, rows)?;
    add_permissions(tx, alloc, rows)
}

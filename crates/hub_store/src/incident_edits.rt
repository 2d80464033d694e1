//! Edits of incidents and of their gates, recipients and permissions. Most are one statement.

ghost use Rattle.std.specs.Prelude.{◌≡◌, ◌==◌, not, map, filter};
ghost use Rattle.sqlite.specs.Held.{state};
ghost use Rattle.iodef_tree.specs.Pointer.{pointer_text};
ghost use Rattle.hub_state.specs.State.{State};
ghost use Rattle.hub_state.specs.Edits.{edited};
ghost use Rattle.hub_state.specs.declared.edit.Edit.TheVariants.{PutIncident, TakeIncident, TakePolicy, PutGate, TakeGate, PutRecipient, TakeRecipient};
ghost use Rattle.hub_state.specs.declared.edit.Edit.TheVariants.{PutPermission, TakePermission};
ghost use Rattle.hub_store.specs.Items.{Item, items_of, item_row};
ghost use Rattle.hub_store.specs.Rows.{named_row};
ghost use Rattle.hub_store.specs.inner.Partly.{without_gates};
ghost use Rattle.hub_store.specs.Means.{Holds, HoldsBetween};
ghost use Rattle.hub_store.specs.inner.Makes.{Makes};

use crate::directory_edits::make_row;
use crate::put_lines::put_lines;
use crate::put_naming::put_naming;
use crate::statement::run;
use hub_state::{
    Edit, Gate, GateKey, Incident, Permission, PermissionKey, Recipient, grantee_key, target_key,
};
use sqlite::{Alter, Error, Transaction, params};
use std::alloc::Global;

/// Puts the row of an incident without its lines.
fn insert_incident<S: Alter>(tx: &mut Transaction<'_, S>, incident: &Incident) -> Result<(), Error>
    ensures same_reference { tx.new.conn.ghost_name ≡ tx.old.conn.ghost_name }
    ensures made { (s : State) →
        Makes (state S.Store tx.old.conn.now) (state S.Store tx.new.conn.now) (λ db.
        Holds db s) (λ db.
        HoldsBetween (map item_row (items_of s))
        (map named_row (edited (PutIncident incident.now) s).incidents) db s) result }
{
    put_naming(tx, &incident.naming)
}

fn put_incident<S: Alter>(
    tx: &mut Transaction<'_, S>,
    alloc: Global,
    incident: &Incident,
) -> Result<(), Error>
    ensures same_reference { tx.new.conn.ghost_name ≡ tx.old.conn.ghost_name }
    ensures made { (s : State) →
        Makes (state S.Store tx.old.conn.now) (state S.Store tx.new.conn.now) (λ db.
        Holds db s) (λ db. Holds db (edited (PutIncident incident.now) s)) result }
{
    let lines = incident.document.outline(alloc)?;
    insert_incident(tx, incident)?;
    put_lines(tx, alloc, incident.naming.number, &lines)
}

fn take_lines<S: Alter>(tx: &mut Transaction<'_, S>, incident: u32) -> Result<(), Error>
    ensures same_reference { tx.new.conn.ghost_name ≡ tx.old.conn.ghost_name }
    ensures made { (s : State) →
        Makes (state S.Store tx.old.conn.now) (state S.Store tx.new.conn.now) (λ db.
        Holds db s) (λ db.
        HoldsBetween
        (map item_row (filter (λ (x : Item). not (x.incident == incident)) (items_of s)))
        (map named_row s.incidents) db s) result }
{
    run(
        tx,
        "DELETE FROM item WHERE incident = ?1",
        params![incident],
    )
}

/// Takes the row of an incident out, whose lines are gone.
fn remove_incident<S: Alter>(tx: &mut Transaction<'_, S>, number: u32) -> Result<(), Error>
    ensures same_reference { tx.new.conn.ghost_name ≡ tx.old.conn.ghost_name }
    ensures made { (s : State) →
        Makes (state S.Store tx.old.conn.now) (state S.Store tx.new.conn.now) (λ db.
        HoldsBetween (map item_row (filter (λ (x : Item). not (x.incident == number)) (items_of s)))
        (map named_row s.incidents) db s) (λ db. Holds db (edited (TakeIncident number) s)) result }
{
    run(
        tx,
        "DELETE FROM incident WHERE number = ?1",
        params![number],
    )
}

fn take_incident<S: Alter>(tx: &mut Transaction<'_, S>, number: u32) -> Result<(), Error>
    ensures same_reference { tx.new.conn.ghost_name ≡ tx.old.conn.ghost_name }
    ensures made { (s : State) →
        Makes (state S.Store tx.old.conn.now) (state S.Store tx.new.conn.now) (λ db.
        Holds db s) (λ db. Holds db (edited (TakeIncident number) s)) result }
{
    take_lines(tx, number)?;
    remove_incident(tx, number)
}

fn take_gates<S: Alter>(tx: &mut Transaction<'_, S>, incident: u32) -> Result<(), Error>
    ensures same_reference { tx.new.conn.ghost_name ≡ tx.old.conn.ghost_name }
    ensures made { (s : State) →
        Makes (state S.Store tx.old.conn.now) (state S.Store tx.new.conn.now) (λ db.
        Holds db s) (λ db. Holds db (without_gates incident s)) result }
{
    run(
        tx,
        "DELETE FROM gate WHERE incident = ?1",
        params![incident],
    )
}

fn take_permissions<S: Alter>(tx: &mut Transaction<'_, S>, incident: u32) -> Result<(), Error>
    ensures same_reference { tx.new.conn.ghost_name ≡ tx.old.conn.ghost_name }
    ensures made { (s : State) →
        Makes (state S.Store tx.old.conn.now) (state S.Store tx.new.conn.now) (λ db.
        Holds db (without_gates incident s)) (λ db.
        Holds db (edited (TakePolicy incident) s)) result }
{
    run(
        tx,
        "DELETE FROM permission WHERE incident = ?1",
        params![incident],
    )
}

fn take_policy<S: Alter>(tx: &mut Transaction<'_, S>, incident: u32) -> Result<(), Error>
    ensures same_reference { tx.new.conn.ghost_name ≡ tx.old.conn.ghost_name }
    ensures made { (s : State) →
        Makes (state S.Store tx.old.conn.now) (state S.Store tx.new.conn.now) (λ db.
        Holds db s) (λ db. Holds db (edited (TakePolicy incident) s)) result }
{
    take_gates(tx, incident)?;
    take_permissions(tx, incident)
}

fn insert_gate<S: Alter>(tx: &mut Transaction<'_, S>, gate: &Gate, path: &str) -> Result<(), Error>
    ensures same_reference { tx.new.conn.ghost_name ≡ tx.old.conn.ghost_name }
    ensures made { path.now ≡ pointer_text gate.now.gate.path → (s : State) →
        Makes (state S.Store tx.old.conn.now) (state S.Store tx.new.conn.now) (λ db.
        Holds db s) (λ db. Holds db (edited (PutGate gate.now) s)) result }
{
    run(
        tx,
        "INSERT INTO gate (incident, path, level, grp) VALUES (?1, ?2, ?3, ?4)",
        params![
            gate.incident,
            path,
            u32::from(gate.gate.level),
            gate.gate.group,
        ],
    )
}

fn put_gate<S: Alter>(tx: &mut Transaction<'_, S>, alloc: Global, gate: &Gate) -> Result<(), Error>
    ensures same_reference { tx.new.conn.ghost_name ≡ tx.old.conn.ghost_name }
    ensures made { (s : State) →
        Makes (state S.Store tx.old.conn.now) (state S.Store tx.new.conn.now) (λ db.
        Holds db s) (λ db. Holds db (edited (PutGate gate.now) s)) result }
{
    let path = gate.gate.path.print(alloc)?;
    insert_gate(tx, gate, &path)
}

fn remove_gate<S: Alter>(
    tx: &mut Transaction<'_, S>,
    key: &GateKey,
    path: &str,
) -> Result<(), Error>
    ensures same_reference { tx.new.conn.ghost_name ≡ tx.old.conn.ghost_name }
    ensures made { path.now ≡ pointer_text key.now.path → (s : State) →
        Makes (state S.Store tx.old.conn.now) (state S.Store tx.new.conn.now) (λ db.
        Holds db s) (λ db. Holds db (edited (TakeGate key.now) s)) result }
{
    run(
        tx,
        "DELETE FROM gate WHERE incident = ?1 AND path = ?2",
        params![key.incident, path],
    )
}

fn take_gate<S: Alter>(
    tx: &mut Transaction<'_, S>,
    alloc: Global,
    key: &GateKey,
) -> Result<(), Error>
    ensures same_reference { tx.new.conn.ghost_name ≡ tx.old.conn.ghost_name }
    ensures made { (s : State) →
        Makes (state S.Store tx.old.conn.now) (state S.Store tx.new.conn.now) (λ db.
        Holds db s) (λ db. Holds db (edited (TakeGate key.now) s)) result }
{
    let path = key.path.print(alloc)?;
    remove_gate(tx, key, &path)
}

fn put_recipient<S: Alter>(tx: &mut Transaction<'_, S>, recipient: &Recipient) -> Result<(), Error>
    ensures same_reference { tx.new.conn.ghost_name ≡ tx.old.conn.ghost_name }
    ensures made { (s : State) →
        Makes (state S.Store tx.old.conn.now) (state S.Store tx.new.conn.now) (λ db.
        Holds db s) (λ db. Holds db (edited (PutRecipient recipient.now) s)) result }
{
    let (kind, target) = target_key(recipient.target);
    run(
        tx,
        "INSERT INTO recipient (incident, kind, target) VALUES (?1, ?2, ?3)",
        params![recipient.incident, kind, target],
    )
}

fn take_recipient<S: Alter>(tx: &mut Transaction<'_, S>, recipient: &Recipient) -> Result<(), Error>
    ensures same_reference { tx.new.conn.ghost_name ≡ tx.old.conn.ghost_name }
    ensures made { (s : State) →
        Makes (state S.Store tx.old.conn.now) (state S.Store tx.new.conn.now) (λ db.
        Holds db s) (λ db. Holds db (edited (TakeRecipient recipient.now) s)) result }
{
    let (kind, target) = target_key(recipient.target);
    run(
        tx,
        "DELETE FROM recipient WHERE incident = ?1 AND kind = ?2 AND target = ?3",
        params![recipient.incident, kind, target],
    )
}

fn insert_permission<S: Alter>(
    tx: &mut Transaction<'_, S>,
    permission: &Permission,
    path: &str,
) -> Result<(), Error>
    ensures same_reference { tx.new.conn.ghost_name ≡ tx.old.conn.ghost_name }
    ensures made { path.now ≡ pointer_text permission.now.permission.path → (s : State) →
        Makes (state S.Store tx.old.conn.now) (state S.Store tx.new.conn.now) (λ db.
        Holds db s) (λ db. Holds db (edited (PutPermission permission.now) s)) result }
{
    let (kind, target) = grantee_key(permission.permission.grantee);
    run(
        tx,
        "INSERT INTO permission (incident, path, kind, target, until) VALUES (?1, ?2, ?3, ?4, ?5)",
        params![
            permission.incident,
            path,
            kind,
            target,
            permission.permission.until,
        ],
    )
}

fn put_permission<S: Alter>(
    tx: &mut Transaction<'_, S>,
    alloc: Global,
    permission: &Permission,
) -> Result<(), Error>
    ensures same_reference { tx.new.conn.ghost_name ≡ tx.old.conn.ghost_name }
    ensures made { (s : State) →
        Makes (state S.Store tx.old.conn.now) (state S.Store tx.new.conn.now) (λ db.
        Holds db s) (λ db. Holds db (edited (PutPermission permission.now) s)) result }
{
    let path = permission.permission.path.print(alloc)?;
    insert_permission(tx, permission, &path)
}

fn remove_permission<S: Alter>(
    tx: &mut Transaction<'_, S>,
    key: &PermissionKey,
    path: &str,
) -> Result<(), Error>
    ensures same_reference { tx.new.conn.ghost_name ≡ tx.old.conn.ghost_name }
    ensures made { path.now ≡ pointer_text key.now.path → (s : State) →
        Makes (state S.Store tx.old.conn.now) (state S.Store tx.new.conn.now) (λ db.
        Holds db s) (λ db. Holds db (edited (TakePermission key.now) s)) result }
{
    let (kind, target) = grantee_key(key.grantee);
    run(
        tx,
        "DELETE FROM permission WHERE incident = ?1 AND path = ?2 AND kind = ?3 AND target = ?4",
        params![key.incident, path, kind, target],
    )
}

fn take_permission<S: Alter>(
    tx: &mut Transaction<'_, S>,
    alloc: Global,
    key: &PermissionKey,
) -> Result<(), Error>
    ensures same_reference { tx.new.conn.ghost_name ≡ tx.old.conn.ghost_name }
    ensures made { (s : State) →
        Makes (state S.Store tx.old.conn.now) (state S.Store tx.new.conn.now) (λ db.
        Holds db s) (λ db. Holds db (edited (TakePermission key.now) s)) result }
{
    let path = key.path.print(alloc)?;
    remove_permission(tx, key, &path)
}

/// Makes one edit.
pub(crate) fn make_edit<S: Alter>(
    tx: &mut Transaction<'_, S>,
    alloc: Global,
    edit: &Edit,
) -> Result<(), Error>
    ensures same_reference { tx.new.conn.ghost_name ≡ tx.old.conn.ghost_name }
    ensures made { (s : State) →
        Makes (state S.Store tx.old.conn.now) (state S.Store tx.new.conn.now) (λ db.
        Holds db s) (λ db. Holds db (edited edit.now s)) result }
{
    match edit {
        Edit::Directory(row) => make_row(tx, row),
        Edit::PutIncident(incident) => put_incident(tx, alloc, incident),
        Edit::TakeIncident(number) => take_incident(tx, *number),
        Edit::TakePolicy(incident) => take_policy(tx, *incident),
        Edit::PutGate(gate) => put_gate(tx, alloc, gate),
        Edit::TakeGate(key) => take_gate(tx, alloc, key),
        Edit::PutRecipient(recipient) => put_recipient(tx, recipient),
        Edit::TakeRecipient(recipient) => take_recipient(tx, recipient),
        Edit::PutPermission(permission) => put_permission(tx, alloc, permission),
        Edit::TakePermission(key) => take_permission(tx, alloc, key),
    }
}

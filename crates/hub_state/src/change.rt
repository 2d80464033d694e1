//! Edits whose memory was taken before.
ghost use Rattle.std.specs.Prelude.{◌≡◌, if◌then◌else◌, IfOk, map, []};
ghost use Rattle.hub_state.specs.Bare.{bare_incident, kept_edit};
ghost use Rattle.hub_state.specs.inner.Changes.{edit_in, row_edit, directory_edits, row_edits};

use crate::copies::{copy_of_gate, copy_of_gate_key, copy_of_permission, copy_of_permission_key};
use crate::edit::Edit;
use crate::rows::{Indexed, PlacedGate, PlacedPermission};
use crate::state::{Gate, GateKey, Incident, Permission, PermissionKey, Recipient};
use circle::command::RowEdit;
use iodef_tree::{Document, Object};
use std::alloc::{AllocError, Global};

/// An edit whose memory was taken before.
#[derive(Drop)]
pub(crate) enum Change {
    Directory(RowEdit),
    Row(RowChange),
}

/// An edit of a row that isn't the directory's.
#[derive(Drop)]
pub(crate) enum RowChange {
    PutIncident(Indexed),
    TakeIncident(u32),
    TakePolicy(u32),
    PutGate(PlacedGate),
    TakeGate(GateKey),
    PutRecipient(Recipient),
    TakeRecipient(Recipient),
    PutPermission(PlacedPermission),
    TakePermission(PermissionKey),
}

/// Edits of the directory, and edits of the other rows.
#[derive(Drop)]
pub(crate) struct Changes {
    pub(crate) directory: Vec<RowEdit>,
    pub(crate) rows: Vec<RowChange>,
}

/// Copies all edits, with the documents that they put or without them. Fails if the memory doesn't suffice.
pub(crate) fn changes_of(
    alloc: Global,
    edits: &[Edit],
    documents: bool,
) -> Result<Changes, AllocError>
    ensures directory { IfOk result (λ v. v.directory.items ≡
        directory_edits (map (kept_edit documents) edits.now)) }
    ensures rows { IfOk result (λ v. map row_edit v.rows.items ≡
        row_edits (map (kept_edit documents) edits.now)) }
{
    let mut directory = Vec::new(alloc);
    let mut rows = Vec::new(alloc);
    for edit in edits {
        match change_of(alloc, edit, documents)? {
            Change::Directory(row) => directory.push(row)?,
            Change::Row(row) => rows.push(row)?,
        }
    }
    Ok(Changes { directory, rows })
}

fn change_of(alloc: Global, edit: &Edit, documents: bool) -> Result<Change, AllocError>
    ensures { IfOk result (λ c. edit_in c ≡ kept_edit documents edit.now) }
{
    let row = match edit {
        Edit::Directory(row) => return Ok(Change::Directory(row.clone()?)),
        Edit::PutIncident(incident) => {
            RowChange::PutIncident(Indexed::new(copy_incident(alloc, incident, documents)?)?)
        }
        Edit::TakeIncident(number) => RowChange::TakeIncident(*number),
        Edit::TakePolicy(number) => RowChange::TakePolicy(*number),
        Edit::PutGate(gate) => RowChange::PutGate(copy_gate(alloc, gate)?),
        Edit::TakeGate(key) => RowChange::TakeGate(copy_of_gate_key(key)?),
        Edit::PutRecipient(recipient) => RowChange::PutRecipient(*recipient),
        Edit::TakeRecipient(recipient) => RowChange::TakeRecipient(*recipient),
        Edit::PutPermission(permission) => {
            RowChange::PutPermission(copy_permission(alloc, permission)?)
        }
        Edit::TakePermission(key) => RowChange::TakePermission(copy_of_permission_key(key)?),
    };
    Ok(Change::Row(row))
}

fn copy_incident(
    alloc: Global,
    incident: &Incident,
    documents: bool,
) -> Result<Incident, AllocError>
    ensures { IfOk result (λ i. i ≡
        (if documents then incident.now else bare_incident incident.now)) }
{
    let naming = incident.naming.clone()?;
    let document = if documents {
        incident.document.copy(alloc)?
    } else {
        no_document(alloc)
    };
    Ok(Incident { naming, document })
}

/// Returns the document without a line. Takes no memory.
fn no_document(alloc: Global) -> Document
    ensures { result ≡ [] }
{
    Document::new(Object {
        members: Vec::new(alloc),
    })
}

fn copy_gate(alloc: Global, gate: &Gate) -> Result<PlacedGate, AllocError>
    ensures { IfOk result (λ g. g ≡ gate.now) }
{
    let copy = Gate {
        incident: gate.incident,
        gate: copy_of_gate(&gate.gate)?,
    };
    PlacedGate::new(alloc, copy)
}

fn copy_permission(alloc: Global, permission: &Permission) -> Result<PlacedPermission, AllocError>
    ensures { IfOk result (λ x. x ≡ permission.now) }
{
    let copy = Permission {
        incident: permission.incident,
        permission: copy_of_permission(&permission.permission)?,
    };
    PlacedPermission::new(alloc, copy)
}

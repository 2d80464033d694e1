//! How an incident is shared, as a shelf looks it up, and whether the row that a request would put or take is there.
ghost use Rattle.std.specs.Prelude.{◌≡◌, [], IfOk};
ghost use Rattle.iodef_tree.specs.Pointer.{pointer_tokens};
ghost use Rattle.hub_state.specs.Documents.{at_pointer};
ghost use Rattle.hub_state.specs.Facts.{stands_in};
ghost use Rattle.hub_state.specs.inner.Questions as spec;
ghost use Rattle.hub_state.specs.Requests.{incident_asked};
ghost use Rattle.hub_state.specs.inner.Shared.{path_asked, sharing_asked, sharing_named};
ghost use Rattle.hub_state.specs.Shelves.{Finds};
ghost use Rattle.hub_state.specs.State.{State};

use crate::look_ups::LookUps;
use crate::questions::{
    is_gate_among, is_permission_among, is_permission_among_until, is_target_among,
};
use crate::recipients::Recipients;
use crate::request::{Grant, Redistribute, Request, Withdraw};
use crate::shelf::ShelfFault;
use iodef_tree::Path;
use policy::{Gate, Gates, Permission, Permissions};
use std::alloc::Global;

/// The gates, recipients and permissions of an incident.
#[derive(Drop)]
pub(crate) struct Sharing {
    pub(crate) gates: Gates,
    pub(crate) recipients: Recipients,
    pub(crate) permissions: Permissions,
}

fn nothing_shared(alloc: Global) -> Sharing
    ensures { result ≡ record { gates = []; recipients = []; permissions = [] } }
{
    Sharing {
        gates: Gates::new(Vec::new(alloc)),
        recipients: Recipients::new(Vec::new(alloc)),
        permissions: Permissions::new(Vec::new(alloc)),
    }
}

/// The gates, recipients and permissions of an incident.
pub(crate) fn find_sharing_named<L: LookUps>(
    shelf: &mut L,
    incident: u32,
) -> Result<Sharing, ShelfFault>
    ensures { Finds L.has L.doubts L.failed L.may_remain shelf.old shelf.new result (λ s.
        IfOk result (λ found. found ≡ sharing_named incident s)) }
{
    let gates = shelf.gates_of(incident)?;
    let recipients = shelf.recipients_of(incident)?;
    let permissions = shelf.permissions_of(incident)?;
    Ok(Sharing {
        gates,
        recipients,
        permissions,
    })
}

/// The sharing of the incident that a request names; empty if it names none.
pub(crate) fn find_sharing<L: LookUps>(
    shelf: &mut L,
    alloc: Global,
    incident: Option<u32>,
) -> Result<Sharing, ShelfFault>
    ensures { Finds L.has L.doubts L.failed L.may_remain shelf.old shelf.new result (λ s.
        IfOk result (λ found. found ≡ sharing_asked incident s)) }
{
    match incident {
        None => Ok(nothing_shared(alloc)),
        Some(incident) => find_sharing_named(shelf, incident),
    }
}

fn stands_gate(path: &Option<Path>, asked: &Redistribute, gates: &[Gate]) -> bool
    requires { path.now ≡ pointer_tokens asked.now.path }
    ensures { result ≡
        at_pointer (λ p.
        spec.is_gate_among p asked.now.level asked.now.group gates.now) asked.now.path }
{
    match path {
        None => false,
        Some(path) => is_gate_among(gates, path, asked.level, asked.group),
    }
}

/// Whether the permission asked for is there with the end asked for.
fn stands_granted(path: &Option<Path>, asked: &Grant, permissions: &[Permission]) -> bool
    requires { path.now ≡ pointer_tokens asked.now.path }
    ensures { result ≡
        at_pointer (λ p.
        spec.is_permission_among_until p asked.now.grantee asked.now.until permissions.now)
        asked.now.path }
{
    match path {
        None => false,
        Some(path) => is_permission_among_until(permissions, path, asked.grantee, asked.until),
    }
}

/// Whether the permission named is there, ended or not.
fn stands_permission(path: &Option<Path>, asked: &Withdraw, permissions: &[Permission]) -> bool
    requires { path.now ≡ pointer_tokens asked.now.path }
    ensures { result ≡
        at_pointer (λ p.
        spec.is_permission_among p asked.now.grantee permissions.now) asked.now.path }
{
    match path {
        None => false,
        Some(path) => is_permission_among(permissions, path, asked.grantee),
    }
}

/// Whether the row that a request would put or take, at this path if at any, is among those of the incident that it
/// names.
pub(crate) fn stands(path: &Option<Path>, request: &Request, sharing: &Sharing) -> bool
    requires { path.now ≡ path_asked request.now }
    ensures { (s : State) → sharing.now ≡ sharing_asked (incident_asked request.now) s →
        result ≡ stands_in s request.now }
{
    let targets = sharing.recipients.as_slice();
    let permissions = sharing.permissions.as_slice();
    match request {
        Request::Redistribute(asked) => stands_gate(path, asked, sharing.gates.as_slice()),
        Request::Address(asked) => is_target_among(targets, asked.target),
        Request::Unaddress(asked) => is_target_among(targets, asked.target),
        Request::Grant(asked) => stands_granted(path, asked, permissions),
        Request::Withdraw(asked) => stands_permission(path, asked, permissions),
        _ => false,
    }
}

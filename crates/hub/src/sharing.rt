//! How an incident is shared, for its source.
ghost use Rattle.std.specs.Prelude.{◌≡◌, ◌==◌, IfOk, map, not};
ghost use Rattle.policy.specs.Permissions.{is_before};
ghost use Rattle.hub_core.specs.State.{State};
ghost use Rattle.hub_core.specs.Shelves.{Finds};
ghost use Rattle.hub.specs.Serving.{due_to};
ghost use Rattle.hub.specs.Told as spec;
ghost use Rattle.hub_state.specs.declared.request.Request.TheVariants as ask;

use crate::asker::Asker;
use crate::fault::ample;
use circle::directory::Person;
use hub_core::{
    Code, IncidentSharing, Refusal, Reply, SharedPermission, SharedPermissions, Sharing, Shelf,
    ShelfFault,
};
use policy::Permission;
use std::alloc::{AllocError, Global};

/// Whether the end of a permission isn't after the moment.
fn has_ended(now: i64, until: Option<i64>) -> bool
    ensures { result ≡ not (is_before now until) }
{
    match until {
        None => false,
        Some(end) => now >= end,
    }
}

fn permission_at(now: i64, permission: Permission) -> SharedPermission
    ensures { result ≡ spec.permission_at now permission }
{
    let ended = has_ended(now, permission.until);
    SharedPermission { permission, ended }
}

/// The permissions, each with whether it has ended.
fn permissions_at(
    alloc: Global,
    now: i64,
    permissions: Vec<Permission>,
) -> Result<Vec<SharedPermission>, AllocError>
    ensures { IfOk result (λ judged.
        judged.items ≡ map (spec.permission_at now) permissions.items) }
{
    let mut judged = Vec::with_capacity(alloc, permissions.len())?;
    for permission in permissions {
        judged.push(permission_at(now, permission))?;
    }
    Ok(judged)
}

/// How an incident is shared at a moment, made of what the shelf has of it.
fn sharing_at(alloc: Global, now: i64, found: IncidentSharing) -> Result<Sharing, AllocError>
    ensures { IfOk result (λ told. told ≡ spec.sharing_made now found) }
{
    let permissions = permissions_at(alloc, now, found.permissions.into_vec())?;
    Ok(Sharing {
        naming: found.naming,
        gates: found.gates,
        recipients: found.recipients,
        permissions: SharedPermissions::new(permissions),
    })
}

/// Whether the person's organisation posted the incident.
fn is_own(found: &IncidentSharing, person: &Person) -> bool
    ensures { result ≡ (found.now.naming.source == person.now.org) }
{
    found.naming.source == person.org
}

/// Answers how an incident is shared: `N1` if it is missing or the caller's organisation didn't post it. The ground
/// needs no facts but those that the reply has, so no others are looked up, and the document isn't read.
pub fn sharing<Sh: Shelf>(
    shelf: &mut Sh,
    alloc: Global,
    asker: Asker<'_>,
    incident: u32,
) -> Result<Reply, ShelfFault>
    ensures { Finds Sh.has Sh.doubts Sh.failed Sh.may_remain shelf.old shelf.new result (λ s.
        IfOk result (λ reply. reply ≡
        due_to s asker.entry.now asker.entry.person.now (ask.Sharing incident))) }
{
    match shelf.incident_sharing(incident)? {
        Some(found) if is_own(&found, asker.person) => {
            let told = ample(sharing_at(alloc, asker.now, found))?;
            Ok(Reply::Sharing(told))
        }
        _ => Ok(Reply::Refused(Refusal::bare(alloc, Code::N1))),
    }
}

//! How an incident is shared, made of a shelf's look-ups.
ghost use Rattle.std.specs.Prelude.{◌≡◌, IfOk};
ghost use Rattle.hub_state.specs.Reads.{incident_sharing, sharing_for};
ghost use Rattle.hub_state.specs.Shelves.{Finds, Reads};
ghost use Rattle.hub_state.specs.State.{State};
ghost use Rattle.hub_state.specs.declared.state.Incident.{Incident};
ghost use Rattle.hub_state.specs.inner.Shared.{sharing_named};

use crate::look_ups::{IncidentSharing, LookUps};
use crate::sharing::{Sharing, find_sharing_named};
use crate::shelf::ShelfFault;
use crate::state::Naming;

fn sharing_with(naming: Naming, sharing: Sharing) -> IncidentSharing
    ensures { (s : State) → (i : Incident) → naming ≡ i.naming →
        sharing ≡ sharing_named i.naming.number s → result ≡ sharing_for s i }
{
    IncidentSharing {
        naming,
        gates: sharing.gates,
        recipients: sharing.recipients,
        permissions: sharing.permissions,
    }
}

fn find_incident_sharing<L: LookUps>(
    shelf: &mut L,
    incident: u32,
) -> Result<Option<IncidentSharing>, ShelfFault>
    ensures { Finds L.has L.doubts L.failed L.may_remain shelf.old shelf.new result (λ s.
        IfOk result (λ found. found ≡ incident_sharing incident s)) }
{
    let Some(naming) = shelf.naming(incident)? else {
        return Ok(None);
    };
    let sharing = find_sharing_named(shelf, naming.number)?;
    Ok(Some(sharing_with(naming, sharing)))
}

/// How an incident is shared, made of a shelf's look-ups. None if it is missing. Fails with `NoMemory` if the memory
/// doesn't suffice, and with `Failed` if a look-up does or if the count of failures is at its last value.
pub fn incident_sharing_by<L: LookUps>(
    shelf: &mut L,
    incident: u32,
) -> Result<Option<IncidentSharing>, ShelfFault>
    ensures { Reads L.has L.doubts L.failed L.may_remain shelf.old shelf.new (λ s found. found ≡
        incident_sharing incident s) result }
{
    // at the last value of the count every call fails
    if shelf.has_ended() {
        return Err(ShelfFault::Failed);
    }
    find_incident_sharing(shelf, incident)
}

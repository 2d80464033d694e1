//! Reads of the lists: an incident by its number or its name, its gates, recipients and permissions, and the entries of
//! the incidents above a number. Rows are found by binary search, as those of one incident are next to each other.
ghost use Rattle.std.specs.Prelude.{◌≡◌, ℕ, List, ◌==◌, filter, map, take, option_map, option_copied, IfOk};
ghost use Rattle.circle.specs.Directory.{Directory};
ghost use Rattle.hub_state.specs.Lists.{AreInOrder, with_directory};
ghost use Rattle.circle.specs.Sound.{Differ};
ghost use Rattle.hub_state.specs.State.{incident_in, incident_named, incident_number};
ghost use Rattle.hub_state.specs.declared.state.Incident.{Incident};
ghost use Rattle.hub_state.specs.declared.state.Gate.{Gate};
ghost use Rattle.hub_state.specs.declared.state.Permission.{Permission};
ghost use Rattle.hub_state.specs.declared.state.Recipient.{Recipient};
ghost use Rattle.hub_state.specs.Reads.{its_gates, its_permissions, its_recipients, entries_after, entry_of, incidents_above};

use crate::copies::{copy_of_gate, copy_of_permission};
use crate::lists::Lists;
use crate::recipients::Recipients;
use crate::reply::Entry;
use crate::rows::{Named, PlacedGate, PlacedPermission};
use crate::sorted_rows::{rows_alike, rows_of};
use crate::state::{Incident, Recipient};
use policy::{Gates, Permissions};
use std::alloc::{AllocError, Global};

impl Lists {
    pub(crate) fn incident(&self, number: u32) -> Option<&Incident>
        requires { AreInOrder self.now }
        ensures { option_copied result ≡ incident_in number self.now.incidents.items }
    {
        rows_of(&self.incidents, number).first()
    }

    pub(crate) fn gates_of(&self, incident: u32) -> &[PlacedGate]
        requires { AreInOrder self.now }
        ensures { result.now ≡ filter (λ g. g.incident == incident) self.now.gates.items }
    {
        rows_of(&self.gates, incident)
    }

    pub(crate) fn recipients_of(&self, incident: u32) -> &[Recipient]
        requires { AreInOrder self.now }
        ensures { result.now ≡ filter (λ r. r.incident == incident) self.now.recipients.items }
    {
        rows_of(&self.recipients, incident)
    }

    pub(crate) fn permissions_of(&self, incident: u32) -> &[PlacedPermission]
        requires { AreInOrder self.now }
        ensures { result.now ≡ filter (λ x. x.incident == incident) self.now.permissions.items }
    {
        rows_of(&self.permissions, incident)
    }

    /// The number of the incident that a source has posted under an ident. If the source has posted several, the
    /// contract doesn't say which.
    pub(crate) fn number_of(&self, name: &Named) -> Option<u32>
        requires { AreInOrder self.now }
        ensures { (d : Directory) →
            Differ {K = ℕ × List ℕ} (λ (i : Incident).
            (i.naming.source, i.naming.ident)) self.now.incidents.items →
            result ≡ option_map incident_number
            (incident_named name.now.source name.now.ident (with_directory d self.now)) }
    {
        match rows_alike(&self.names, name).first() {
            None => None,
            Some(found) => Some(found.number),
        }
    }

    /// The gates of an incident, as policy has them.
    pub(crate) fn case_gates(&self, alloc: Global, incident: u32) -> Result<Gates, AllocError>
        requires { AreInOrder self.now }
        ensures { IfOk result (λ v. v ≡ its_gates incident self.now.gates.items) }
    {
        copy_gates(alloc, self.gates_of(incident))
    }

    /// The recipients of an incident.
    pub(crate) fn copied_recipients(
        &self,
        alloc: Global,
        incident: u32,
    ) -> Result<Recipients, AllocError>
        requires { AreInOrder self.now }
        ensures { IfOk result (λ v. v ≡ its_recipients incident self.now.recipients.items) }
    {
        copy_targets(alloc, self.recipients_of(incident))
    }

    /// The permissions of an incident, as policy has them.
    pub(crate) fn case_permissions(
        &self,
        alloc: Global,
        incident: u32,
    ) -> Result<Permissions, AllocError>
        requires { AreInOrder self.now }
        ensures { IfOk result (λ v. v ≡ its_permissions incident self.now.permissions.items) }
    {
        copy_permissions(alloc, self.permissions_of(incident))
    }

    /// The incidents above a number, in the order of their numbers.
    fn incidents_above(&self, number: u32) -> &[Incident]
        requires { AreInOrder self.now }
        ensures { (d : Directory) →
            result.now ≡ incidents_above number (with_directory d self.now) }
    {
        let from = self
            .incidents
            .partition_point(|i| i.naming.number <= number);
        let (_, above) = self.incidents.split_at(from);
        above
    }

    /// The first `most` incidents above a number, as they are listed.
    pub(crate) fn entries_after(
        &self,
        alloc: Global,
        number: u32,
        most: u32,
    ) -> Result<Vec<Entry>, AllocError>
        requires { AreInOrder self.now }
        ensures { IfOk result (λ v.
            (d : Directory) → v.items ≡ entries_after number most (with_directory d self.now)) }
    {
        entries_of(alloc, first_of(self.incidents_above(number), most))
    }
}

/// The first `most`, or all if there are fewer.
fn first_of(incidents: &[Incident], most: u32) -> &[Incident]
    ensures { result.now ≡ take most incidents.now }
{
    let count = incidents.len().min(most as usize);
    let (page, _) = incidents.split_at(count);
    page
}

fn copy_gates(alloc: Global, gates: &[PlacedGate]) -> Result<Gates, AllocError>
    ensures { IfOk result (λ v. v ≡ map (λ (g : Gate). g.gate) gates.now) }
{
    let mut copies = Vec::with_capacity(alloc, gates.len())?;
    for gate in gates {
        copies.push(copy_of_gate(&gate.row().gate)?)?;
    }
    Ok(Gates::new(copies))
}

fn copy_targets(alloc: Global, recipients: &[Recipient]) -> Result<Recipients, AllocError>
    ensures { IfOk result (λ v. v ≡ map (λ (r : Recipient). r.target) recipients.now) }
{
    let mut targets = Vec::with_capacity(alloc, recipients.len())?;
    for recipient in recipients {
        targets.push(recipient.target)?;
    }
    Ok(Recipients::new(targets))
}

fn copy_permissions(
    alloc: Global,
    permissions: &[PlacedPermission],
) -> Result<Permissions, AllocError>
    ensures { IfOk result (λ v. v ≡ map (λ (x : Permission). x.permission) permissions.now) }
{
    let mut copies = Vec::with_capacity(alloc, permissions.len())?;
    for permission in permissions {
        copies.push(copy_of_permission(&permission.row().permission)?)?;
    }
    Ok(Permissions::new(copies))
}

fn entries_of(alloc: Global, incidents: &[Incident]) -> Result<Vec<Entry>, AllocError>
    ensures { IfOk result (λ v. v.items ≡ map entry_of incidents.now) }
{
    let mut entries = Vec::with_capacity(alloc, incidents.len())?;
    for incident in incidents {
        entries.push(Entry {
            number: incident.naming.number,
            revision: incident.naming.revision,
            source: incident.naming.source,
        })?;
    }
    Ok(entries)
}

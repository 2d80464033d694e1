//! The incidents, their gates, recipients and permissions in memory, each list in the order of its keys.
ghost use Rattle.std.specs.Prelude.{◌≡◌, length, map, OnOk};
ghost use Rattle.circle.specs.Directory.{Directory};
ghost use Rattle.hub_state.specs.State.{empty};
ghost use Rattle.hub_state.specs.Edits.{with_edits};
ghost use Rattle.hub_state.specs.inner.Changes.{row_edit};
ghost use Rattle.hub_state.specs.Lists.{AreInOrder, HasRoom, IsMade, with_directory};
ghost use Rattle.hub_state.specs.declared.edit.Edit.TheVariants as edit;

use crate::change::RowChange;
use crate::row_keys::{is_gate_at, is_permission_being};
use crate::rows::{Indexed, Named, PlacedGate, PlacedPermission};
use crate::sorted_rows::{put, take, take_all};
use crate::state::{GateKey, Incident, PermissionKey, Recipient};
use std::alloc::{AllocError, Global};

/// The rows but those of the directory. The names are an index of the incidents by source and ident, by which a Post
/// asks.
#[derive(Drop)]
pub(crate) struct Lists {
    pub(crate) incidents: Vec<Incident>,
    pub(crate) names: Vec<Named>,
    pub(crate) gates: Vec<PlacedGate>,
    pub(crate) recipients: Vec<Recipient>,
    pub(crate) permissions: Vec<PlacedPermission>,
}

impl Lists {
    /// Returns empty lists. Takes no memory.
    pub(crate) fn new(alloc: Global) -> Lists
        ensures rows { (d : Directory) → with_directory d result ≡ record empty { directory = d } }
        ensures in_order { AreInOrder result }
    {
        Lists {
            incidents: Vec::new(alloc),
            names: Vec::new(alloc),
            gates: Vec::new(alloc),
            recipients: Vec::new(alloc),
            permissions: Vec::new(alloc),
        }
    }

    /// Takes the memory for `more` rows in each list.
    pub(crate) fn reserve(&mut self, more: usize) -> Result<(), AllocError>
        ensures same { (d : Directory) → with_directory d self.new ≡ with_directory d self.old }
        ensures in_order { AreInOrder self.old → AreInOrder self.new }
        ensures room { OnOk result (HasRoom more self.new) }
    {
        self.incidents.reserve(more)?;
        self.names.reserve(more)?;
        self.gates.reserve(more)?;
        self.recipients.reserve(more)?;
        self.permissions.reserve(more)
    }

    /// Makes the changes one after another.
    pub(crate) fn make_all(&mut self, changes: Vec<RowChange>)
        requires in_order { AreInOrder self.old }
        requires room { HasRoom (length changes.items) self.old }
        ensures made { (d : Directory) →
            with_directory d self.new ≡
            with_edits (map row_edit changes.items) (with_directory d self.old) }
        ensures in_order { AreInOrder self.new }
    {
        for change in changes {
            self.make(change);
        }
    }

    fn make(&mut self, change: RowChange)
        requires in_order { AreInOrder self.old }
        requires room { HasRoom 1 self.old }
        ensures { IsMade (row_edit change) self.old self.new }
    {
        match change {
            RowChange::PutIncident(incident) => self.put_incident(incident),
            RowChange::TakeIncident(number) => self.take_incident(number),
            RowChange::TakePolicy(number) => self.take_policy(number),
            RowChange::PutGate(gate) => self.put_gate(gate),
            RowChange::TakeGate(key) => self.take_gate(&key),
            RowChange::PutRecipient(recipient) => self.put_recipient(recipient),
            RowChange::TakeRecipient(recipient) => self.take_recipient(&recipient),
            RowChange::PutPermission(permission) => self.put_permission(permission),
            RowChange::TakePermission(key) => self.take_permission(&key),
        }
    }

    fn put_incident(&mut self, incident: Indexed)
        requires in_order { AreInOrder self.old }
        requires room { HasRoom 1 self.old }
        ensures { IsMade (edit.PutIncident incident) self.old self.new }
    {
        let (incident, name) = incident.into_parts();
        put(&mut self.incidents, incident);
        put(&mut self.names, name);
    }

    fn take_incident(&mut self, number: u32)
        requires { AreInOrder self.old }
        ensures { IsMade (edit.TakeIncident number) self.old self.new }
    {
        take_all(&mut self.incidents, number);
        // A scan over all names: a binary search would need the incident's ident first.
        self.names.retain(|name| name.number != number);
    }

    fn take_policy(&mut self, incident: u32)
        requires { AreInOrder self.old }
        ensures { IsMade (edit.TakePolicy incident) self.old self.new }
    {
        take_all(&mut self.gates, incident);
        take_all(&mut self.permissions, incident);
    }

    fn put_gate(&mut self, gate: PlacedGate)
        requires in_order { AreInOrder self.old }
        requires room { HasRoom 1 self.old }
        ensures { IsMade (edit.PutGate gate) self.old self.new }
    {
        put(&mut self.gates, gate);
    }

    // Takes out the gate of the key in one pass, as closing the gap moves as many rows.
    fn take_gate(&mut self, key: &GateKey)
        requires { AreInOrder self.old }
        ensures { IsMade (edit.TakeGate key.now) self.old self.new }
    {
        self.gates.retain(|gate| !is_gate_at(gate.row(), key));
    }

    fn put_recipient(&mut self, recipient: Recipient)
        requires in_order { AreInOrder self.old }
        requires room { HasRoom 1 self.old }
        ensures { IsMade (edit.PutRecipient recipient) self.old self.new }
    {
        put(&mut self.recipients, recipient);
    }

    fn take_recipient(&mut self, recipient: &Recipient)
        requires { AreInOrder self.old }
        ensures { IsMade (edit.TakeRecipient recipient.now) self.old self.new }
    {
        take(&mut self.recipients, recipient);
    }

    fn put_permission(&mut self, permission: PlacedPermission)
        requires in_order { AreInOrder self.old }
        requires room { HasRoom 1 self.old }
        ensures { IsMade (edit.PutPermission permission) self.old self.new }
    {
        put(&mut self.permissions, permission);
    }

    // Takes out the permission of the key, in one pass too.
    fn take_permission(&mut self, key: &PermissionKey)
        requires { AreInOrder self.old }
        ensures { IsMade (edit.TakePermission key.now) self.old self.new }
    {
        self.permissions
            .retain(|permission| !is_permission_being(permission.row(), key));
    }
}

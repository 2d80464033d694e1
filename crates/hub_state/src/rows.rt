//! The rows in memory: a row with a path has its JSON pointer beside it, by whose bytes rows are ordered.
ghost use Rattle.std.specs.Prelude.{◌≡◌, IfOk, string_bytes};
ghost use Rattle.iodef_tree.specs.Pointer.{pointer_text};
ghost use Rattle.circle.specs.Ordered.{pair_cmp};
ghost use Rattle.hub_state.specs.State as spec;
ghost use Rattle.hub_state.specs.Orders.{named};

use crate::request::Target;
use crate::row_keys::{grantee_key, target_key};
use crate::sorted_rows::Row;
use crate::state::{Gate, Incident, Permission, Recipient};
use circle::text::Text;
use policy::Grantee;
use std::alloc::{AllocError, Global};
use std::cmp::Ordering;
use std::marker::Model;

/// A gate with the pointer of its path; contracts see the gate.
#[derive(Drop)]
pub(crate) struct PlacedGate {
    row: Gate,
    pointer: String,
}

impl Model for PlacedGate {
    ghost use Rattle.std.specs.Prelude.{◌≡◌, string_bytes};
    ghost use Rattle.iodef_tree.specs.Pointer.{pointer_text};
    ghost use Rattle.hub_state.specs.declared.state.Gate.{Gate};

    ghost Value = { Gate };

    ghost view = { λ p. p.row };

    ghost invariant = { λ p. string_bytes p.pointer ≡ pointer_text p.row.gate.path };
}

impl PlacedGate {
    pub(crate) fn new(alloc: Global, row: Gate) -> Result<PlacedGate, AllocError>
        ensures { IfOk result (λ p. p ≡ row) }
    {
        let pointer = row.gate.path.print(alloc)?;
        Ok(PlacedGate { row, pointer })
    }

    pub(crate) fn row(&self) -> &Gate
        ensures { result.now ≡ self.now }
    {
        &self.row
    }

    pub(crate) fn pointer(&self) -> &[u8]
        ensures { result.now ≡ pointer_text self.now.gate.path }
    {
        self.pointer.as_bytes()
    }
}

impl Row for PlacedGate {
    ghost use Rattle.hub_state.specs.declared.state.Gate.{Gate};
    ghost use Rattle.hub_state.specs.State.{gate_cmp};
    ghost use Rattle.hub_state.specs.Orders.{gate_total, gates_together};

    ghost order = { gate_cmp };

    ghost owner = { λ (g : Gate). g.incident };

    ghost total = { gate_total };

    ghost together = { gates_together };

    fn compare(&self, other: &PlacedGate) -> Ordering {
        let ours = self.row().incident;
        let theirs = other.row().incident;
        match ours.cmp(&theirs) {
            Ordering::Less => Ordering::Less,
            Ordering::Equal => self.pointer().cmp(other.pointer()),
            Ordering::Greater => Ordering::Greater,
        }
    }

    fn owned_by(&self) -> u32 {
        self.row().incident
    }
}

/// A permission with the pointer of its path; contracts see the permission.
#[derive(Drop)]
pub(crate) struct PlacedPermission {
    row: Permission,
    pointer: String,
}

impl Model for PlacedPermission {
    ghost use Rattle.std.specs.Prelude.{◌≡◌, string_bytes};
    ghost use Rattle.iodef_tree.specs.Pointer.{pointer_text};
    ghost use Rattle.hub_state.specs.declared.state.Permission.{Permission};

    ghost Value = { Permission };

    ghost view = { λ p. p.row };

    ghost invariant = { λ p. string_bytes p.pointer ≡ pointer_text p.row.permission.path };
}

impl PlacedPermission {
    pub(crate) fn new(alloc: Global, row: Permission) -> Result<PlacedPermission, AllocError>
        ensures { IfOk result (λ p. p ≡ row) }
    {
        let pointer = row.permission.path.print(alloc)?;
        Ok(PlacedPermission { row, pointer })
    }

    pub(crate) fn row(&self) -> &Permission
        ensures { result.now ≡ self.now }
    {
        &self.row
    }

    pub(crate) fn grantee(&self) -> Grantee
        ensures { result ≡ self.now.permission.grantee }
    {
        self.row.permission.grantee
    }

    pub(crate) fn pointer(&self) -> &[u8]
        ensures { result.now ≡ pointer_text self.now.permission.path }
    {
        self.pointer.as_bytes()
    }
}

impl Row for PlacedPermission {
    ghost use Rattle.hub_state.specs.declared.state.Permission.{Permission};
    ghost use Rattle.hub_state.specs.State.{permission_cmp};
    ghost use Rattle.hub_state.specs.Orders.{permission_total, permissions_together};

    ghost order = { permission_cmp };

    ghost owner = { λ (x : Permission). x.incident };

    ghost total = { permission_total };

    ghost together = { permissions_together };

    fn compare(&self, other: &PlacedPermission) -> Ordering {
        let ours = self.row().incident;
        let theirs = other.row().incident;
        match ours.cmp(&theirs) {
            Ordering::Less => Ordering::Less,
            Ordering::Equal => match self.pointer().cmp(other.pointer()) {
                Ordering::Less => Ordering::Less,
                Ordering::Equal => compare_grantees(self.grantee(), other.grantee()),
                Ordering::Greater => Ordering::Greater,
            },
            Ordering::Greater => Ordering::Greater,
        }
    }

    fn owned_by(&self) -> u32 {
        self.row().incident
    }
}

fn compare_pairs(ours: (u32, u32), theirs: (u32, u32)) -> Ordering
    ensures { result ≡ pair_cmp (ours.0, ours.1) (theirs.0, theirs.1) }
{
    match ours.0.cmp(&theirs.0) {
        Ordering::Less => Ordering::Less,
        Ordering::Equal => ours.1.cmp(&theirs.1),
        Ordering::Greater => Ordering::Greater,
    }
}

fn compare_grantees(ours: Grantee, theirs: Grantee) -> Ordering
    ensures { result ≡ pair_cmp (spec.grantee_key ours) (spec.grantee_key theirs) }
{
    compare_pairs(grantee_key(ours), grantee_key(theirs))
}

impl Row for Recipient {
    ghost use Rattle.hub_state.specs.declared.state.Recipient.{Recipient};
    ghost use Rattle.hub_state.specs.State.{recipient_cmp};
    ghost use Rattle.hub_state.specs.Orders.{recipient_total, recipients_together};

    ghost order = { recipient_cmp };

    ghost owner = { λ (r : Recipient). r.incident };

    ghost total = { recipient_total };

    ghost together = { recipients_together };

    fn compare(&self, other: &Recipient) -> Ordering {
        match self.incident.cmp(&other.incident) {
            Ordering::Less => Ordering::Less,
            Ordering::Equal => { compare_pairs(target_key(self.target), target_key(other.target)) }
            Ordering::Greater => Ordering::Greater,
        }
    }

    fn owned_by(&self) -> u32 {
        self.incident
    }
}

impl Row for Incident {
    ghost use Rattle.hub_state.specs.declared.state.Incident.{Incident};
    ghost use Rattle.hub_state.specs.Orders.{incident_cmp, incident_total, incidents_together};

    ghost order = { incident_cmp };

    ghost owner = { λ (i : Incident). i.naming.number };

    ghost total = { incident_total };

    ghost together = { incidents_together };

    fn compare(&self, other: &Incident) -> Ordering {
        self.naming.number.cmp(&other.naming.number)
    }

    fn owned_by(&self) -> u32 {
        self.naming.number
    }
}

/// The name of an incident: its source, its ident and its number.
#[derive(Drop)]
pub(crate) struct Named {
    pub(crate) source: u32,
    pub(crate) ident: Text,
    pub(crate) number: u32,
}

/// An incident with its name; contracts see the incident.
#[derive(Drop)]
pub(crate) struct Indexed {
    incident: Incident,
    name: Named,
}

impl Model for Indexed {
    ghost use Rattle.std.specs.Prelude.{◌≡◌};
    ghost use Rattle.hub_state.specs.Orders.{named};
    ghost use Rattle.hub_state.specs.declared.state.Incident.{Incident};

    ghost Value = { Incident };

    ghost view = { λ x. x.incident };

    ghost invariant = { λ x. x.name ≡ named x.incident };
}

impl Indexed {
    pub(crate) fn new(incident: Incident) -> Result<Indexed, AllocError>
        ensures { IfOk result (λ x. x ≡ incident) }
    {
        let name = Named {
            source: incident.naming.source,
            ident: incident.naming.ident.clone()?,
            number: incident.naming.number,
        };
        Ok(Indexed { incident, name })
    }

    pub(crate) fn into_parts(self) -> (Incident, Named)
        ensures incident { result.0 ≡ self }
        ensures name { result.1 ≡ named self }
    {
        (self.incident, self.name)
    }
}

impl Row for Named {
    ghost use Rattle.hub_state.specs.declared.rows.Named.{Named};
    ghost use Rattle.hub_state.specs.Orders.{named_cmp, named_total, named_together};

    ghost order = { named_cmp };

    ghost owner = { λ (e : Named). e.source };

    ghost total = { named_total };

    ghost together = { named_together };

    fn compare(&self, other: &Named) -> Ordering {
        match self.source.cmp(&other.source) {
            Ordering::Less => Ordering::Less,
            Ordering::Equal => {
                let ours = self.ident.as_str().as_bytes();
                let theirs = other.ident.as_str().as_bytes();
                ours.cmp(theirs)
            }
            Ordering::Greater => Ordering::Greater,
        }
    }

    fn owned_by(&self) -> u32 {
        self.source
    }
}

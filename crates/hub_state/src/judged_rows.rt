//! How the rows of an incident stand to a reader, judged where they lie.
ghost use Rattle.std.specs.Prelude.{◌≡◌};
ghost use Rattle.std.specs.List.{list_any};
ghost use Rattle.circle.specs.Directory.{Directory};
ghost use Rattle.policy.specs.Permissions as permissions;
ghost use Rattle.policy.specs.Reach.{is_refusing, is_shutting, reach_of};
ghost use Rattle.hub_state.specs.Lists.{AreInOrder, with_directory};
ghost use Rattle.hub_state.specs.Reads.{its_gates, its_permissions};
ghost use Rattle.hub_state.specs.State.{has_recipient, same_target};
ghost use Rattle.hub_state.specs.declared.state.Gate.{Gate};
ghost use Rattle.hub_state.specs.declared.state.Permission.{Permission};
ghost use Rattle.hub_state.specs.declared.state.Recipient.{Recipient as TheRecipient};

use crate::lists::Lists;
use crate::request::Target;
use crate::rows::{PlacedGate, PlacedPermission};
use crate::state::Recipient;
use policy::{Reach, Standing, holds_for, refuses, shuts};

impl Lists {
    /// Whether a target is a recipient of an incident.
    pub(crate) fn is_addressed(&self, incident: u32, target: Target) -> bool
        requires { AreInOrder self.now }
        ensures { (d : Directory) →
            result ≡ has_recipient incident target (with_directory d self.now) }
    {
        is_target_in(self.recipients_of(incident), target)
    }

    /// How the gates and the permissions of an incident stand to a reader.
    pub(crate) fn reach(&self, incident: u32, standing: &Standing) -> Reach
        requires { AreInOrder self.now }
        ensures { result ≡ reach_of (its_gates incident self.now.gates.items)
            (its_permissions incident self.now.permissions.items) standing.entry.now }
    {
        let gates = self.gates_of(incident);
        Reach {
            shut: some_shuts(standing, gates),
            refused: some_refuses(standing, gates),
            permitted: some_permits(standing, self.permissions_of(incident)),
        }
    }
}

fn is_target_in(recipients: &[Recipient], target: Target) -> bool
    ensures { result ≡ list_any (λ (r : TheRecipient). same_target r.target target) recipients.now }
{
    recipients.iter().any(|row| row.target == target)
}

fn some_shuts(standing: &Standing, gates: &[PlacedGate]) -> bool
    ensures { result ≡ list_any (λ (g : Gate). is_shutting standing.entry.now g.gate) gates.now }
{
    gates.iter().any(|gate| shuts(standing, &gate.row().gate))
}

fn some_refuses(standing: &Standing, gates: &[PlacedGate]) -> bool
    ensures { result ≡ list_any (λ (g : Gate). is_refusing standing.entry.now g.gate) gates.now }
{
    gates.iter().any(|gate| refuses(standing, &gate.row().gate))
}

fn some_permits(standing: &Standing, rows: &[PlacedPermission]) -> bool
    ensures { result ≡ list_any (λ (x : Permission).
        permissions.holds_for standing.entry.now x.permission) rows.now }
{
    rows.iter()
        .any(|row| holds_for(standing, &row.row().permission))
}

//! How rows are compared: the keys of targets and grantees, and whether a gate or permission is that of a key.
ghost use Rattle.std.specs.Prelude.{◌≡◌};
ghost use Rattle.hub_state.specs.State as spec;

use crate::request::Target;
use crate::state::{Gate, GateKey, Permission, PermissionKey};
use policy::Grantee;

/// Returns the kind (0 for a person, 1 for an organisation) and the number.
pub fn target_key(target: Target) -> (u32, u32)
    ensures { result ≡ spec.target_key target }
{
    match target {
        Target::Person(number) => (0, number),
        Target::Org(number) => (1, number),
    }
}

/// Returns the kind (0 to 3 for a person, an organisation, a community, a group) and the number.
pub fn grantee_key(grantee: Grantee) -> (u32, u32)
    ensures { result ≡ spec.grantee_key grantee }
{
    match grantee {
        Grantee::Person(number) => (0, number),
        Grantee::Org(number) => (1, number),
        Grantee::Community(number) => (2, number),
        Grantee::Group(number) => (3, number),
    }
}

/// Whether the gate is at the place of the key.
pub(crate) fn is_gate_at(gate: &Gate, key: &GateKey) -> bool
    ensures { result ≡ spec.is_gate_at key.now gate.now }
{
    gate.incident == key.incident && gate.gate.path == key.path
}

/// Whether the permission is at the class of the key, for its grantee.
pub(crate) fn is_permission_being(permission: &Permission, key: &PermissionKey) -> bool
    ensures { result ≡ spec.is_permission_being key.now permission.now }
{
    permission.incident == key.incident
        && (permission.permission.path == key.path && permission.permission.grantee == key.grantee)
}

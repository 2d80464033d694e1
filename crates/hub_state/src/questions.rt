//! Tests and counts on the gates, recipients and permissions of one incident.
ghost use Rattle.std.specs.Prelude.{◌≡◌, ◌≤◌, ◌&&◌, not, length, count_by};
ghost use Rattle.iodef_tree.specs.Text.{is_root, same_path};
ghost use Rattle.hub_state.specs.inner.Questions as spec;

use crate::request::Target;
use iodef_tree::Path;
use policy::{Gate, Grantee, Permission};

/// Whether a gate of this path, level and group is among them.
pub(crate) fn is_gate_among(gates: &[Gate], path: &Path, level: u32, group: Option<u32>) -> bool
    ensures { result ≡ spec.is_gate_among path.now level group gates.now }
{
    gates.iter().any(|gate| {
        gate.path == *path && u32::from(gate.level) == level && gate.group == group
    })
}

pub(crate) fn is_target_among(targets: &[Target], target: Target) -> bool
    ensures { result ≡ spec.is_target_among target targets.now }
{
    targets.iter().any(|other| *other == target)
}

fn is_permission_of(permission: &Permission, path: &Path, grantee: Grantee) -> bool
    ensures { result ≡ spec.is_permission_of path.now grantee permission.now }
{
    permission.path == *path && permission.grantee == grantee
}

/// Whether a permission of this path and grantee is among them, whatever its end.
pub(crate) fn is_permission_among(permissions: &[Permission], path: &Path, grantee: Grantee) -> bool
    ensures { result ≡ spec.is_permission_among path.now grantee permissions.now }
{
    permissions
        .iter()
        .any(|permission| is_permission_of(permission, path, grantee))
}

/// Whether a permission of this path, grantee and end is among them.
pub(crate) fn is_permission_among_until(
    permissions: &[Permission],
    path: &Path,
    grantee: Grantee,
    until: Option<i64>,
) -> bool
    ensures { result ≡ spec.is_permission_among_until path.now grantee until permissions.now }
{
    permissions.iter().any(|permission| {
        is_permission_of(permission, path, grantee) && permission.until == until
    })
}

fn is_at_class(gate: &Gate) -> bool
    ensures { result ≡ not (is_root gate.now.path) }
{
    !gate.path.tokens().is_empty()
}

/// How many of the gates are at a class.
pub(crate) fn count_class_gates(gates: &[Gate]) -> usize
    ensures { result ≡ spec.class_gates_among gates.now }
{
    gates.iter().filter(|gate| is_at_class(gate)).count()
}

fn is_at_other_class(gate: &Gate, path: &Path) -> bool
    ensures { result ≡ (not (same_path gate.now.path path.now) && not (is_root gate.now.path)) }
{
    gate.path != *path && is_at_class(gate)
}

fn count_class_gates_beside(gates: &[Gate], path: &Path) -> usize
    ensures count { result ≡ count_by (λ g.
        not (same_path g.path path.now) && not (is_root g.path)) gates.now }
    ensures fits { result ≤ length gates.now }
{
    gates
        .iter()
        .filter(|gate| is_at_other_class(gate, path))
        .count()
}

/// How many gates at a class there would be with one at this path, in place of the one there.
pub(crate) fn count_class_gates_with(gates: &[Gate], path: &Path) -> usize
    ensures { result ≡ spec.class_gates_with path.now gates.now }
{
    let beside = count_class_gates_beside(gates, path);
    if path.tokens().is_empty() {
        beside
    } else {
        beside + 1
    }
}

/// How many recipients there are without this one.
pub(crate) fn count_targets_beside(targets: &[Target], target: Target) -> usize
    ensures { result ≡ spec.targets_beside target targets.now }
{
    targets.iter().filter(|other| **other != target).count()
}

/// How many permissions there are without the one at this path for this grantee.
pub(crate) fn count_permissions_beside(
    permissions: &[Permission],
    path: &Path,
    grantee: Grantee,
) -> usize
    ensures { result ≡ spec.permissions_beside path.now grantee permissions.now }
{
    permissions
        .iter()
        .filter(|permission| !is_permission_of(permission, path, grantee))
        .count()
}

//! Copies of a gate and of a permission, as policy has them, and of their keys.
ghost use Rattle.std.specs.Prelude.{◌≡◌, IfOk};

use crate::state::{GateKey, PermissionKey};
use policy::{Gate, Permission};
use std::alloc::AllocError;

/// Copies a gate. Fails if the memory doesn't suffice.
pub fn copy_of_gate(gate: &Gate) -> Result<Gate, AllocError>
    ensures { IfOk result (λ g. g ≡ gate.now) }
{
    Ok(Gate {
        path: gate.path.clone()?,
        level: gate.level,
        group: gate.group,
    })
}

pub(crate) fn copy_of_permission(permission: &Permission) -> Result<Permission, AllocError>
    ensures { IfOk result (λ x. x ≡ permission.now) }
{
    Ok(Permission {
        path: permission.path.clone()?,
        grantee: permission.grantee,
        until: permission.until,
    })
}

pub(crate) fn copy_of_gate_key(key: &GateKey) -> Result<GateKey, AllocError>
    ensures { IfOk result (λ k. k ≡ key.now) }
{
    Ok(GateKey {
        incident: key.incident,
        path: key.path.clone()?,
    })
}

pub(crate) fn copy_of_permission_key(key: &PermissionKey) -> Result<PermissionKey, AllocError>
    ensures { IfOk result (λ k. k ≡ key.now) }
{
    Ok(PermissionKey {
        incident: key.incident,
        path: key.path.clone()?,
        grantee: key.grantee,
    })
}

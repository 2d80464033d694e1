//! Copies of what a shelf takes by value, for a call that is made once more.
ghost use Rattle.std.specs.Prelude.{◌≡◌, IfOk};
ghost use Rattle.redact.specs.Wants.{HasSameWords};

use hub_state::copy_of_gate;
use policy::{Case, Gate, Gates, Numbers, Permission, Permissions, Standing};
use redact::Want;
use std::alloc::{AllocError, Global};

fn copy_gates(alloc: Global, gates: &[Gate]) -> Result<Gates, AllocError>
    ensures { IfOk result (λ v. v ≡ gates.now) }
{
    let mut copies = Vec::with_capacity(alloc, gates.len())?;
    for gate in gates {
        copies.push(copy_of_gate(gate)?)?;
    }
    Ok(Gates::new(copies))
}

fn copy_permission(permission: &Permission) -> Result<Permission, AllocError>
    ensures { IfOk result (λ x. x ≡ permission.now) }
{
    Ok(Permission {
        path: permission.path.clone()?,
        grantee: permission.grantee,
        until: permission.until,
    })
}

fn copy_permissions(alloc: Global, permissions: &[Permission]) -> Result<Permissions, AllocError>
    ensures { IfOk result (λ v. v ≡ permissions.now) }
{
    let mut copies = Vec::with_capacity(alloc, permissions.len())?;
    for permission in permissions {
        copies.push(copy_permission(permission)?)?;
    }
    Ok(Permissions::new(copies))
}

fn copy_numbers(alloc: Global, numbers: &Numbers) -> Result<Numbers, AllocError>
    ensures { IfOk result (λ copy. copy ≡ numbers.now) }
{
    let copy = numbers.as_slice().to_vec(alloc)?;
    Ok(Numbers::new(copy))
}

fn copy_case(alloc: Global, case: &Case) -> Result<Case, AllocError>
    ensures { IfOk result (λ copy. copy ≡ case.now) }
{
    Ok(Case {
        source: case.source,
        community: case.community,
        gates: copy_gates(alloc, case.gates.as_slice())?,
        permissions: copy_permissions(alloc, case.permissions.as_slice())?,
    })
}

fn copy_standing(alloc: Global, standing: &Standing) -> Result<Standing, AllocError>
    ensures { IfOk result (λ copy. copy ≡ standing.entry.now) }
{
    Ok(Standing {
        source: standing.source,
        person: standing.person,
        nominated: standing.nominated,
        addressed: standing.addressed,
        client: standing.client,
        community: standing.community,
        peer: standing.peer,
        connected: standing.connected,
        arrangement: standing.arrangement,
        who: standing.who,
        org: standing.org,
        groups: copy_numbers(alloc, &standing.groups)?,
        active_groups: copy_numbers(alloc, &standing.active_groups)?,
        communities: copy_numbers(alloc, &standing.communities)?,
        now: standing.now,
    })
}

/// Returns copies of what an incident and a reader are judged by.
pub(crate) fn copies_of(
    alloc: Global,
    case: &Case,
    standing: &Standing,
) -> Result<(Case, Standing), AllocError>
    ensures { IfOk result (λ copies. copies ≡ (case.now, standing.entry.now)) }
{
    Ok((copy_case(alloc, case)?, copy_standing(alloc, standing)?))
}

/// The same, with a copy of what is looked for.
pub(crate) fn copies_for_search(
    alloc: Global,
    case: &Case,
    standing: &Standing,
    want: &Want,
) -> Result<(Case, Standing, Want), AllocError>
    ensures { IfOk result (λ copies. (copies.0 ≡ case.now) × (copies.1 ≡ standing.entry.now) ×
        HasSameWords copies.2 want.now) }
{
    let case = copy_case(alloc, case)?;
    let standing = copy_standing(alloc, standing)?;
    Ok((case, standing, want.clone()?))
}

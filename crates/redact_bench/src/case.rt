//! The case by which a report is judged.

use crate::asked::{Asked, Call};
use iodef_tree::Path;
use policy::{Case, Gate, Gates, Grantee, Permission, Permissions};
use std::alloc::{AllocError, Global};

/// The number of the reader and of the reader's organisation.
pub const READER: u32 = 2;

/// Returns the path of an element of the array.
fn element(alloc: Global, array: &Path, place: u32) -> Result<Path, AllocError> {
    let place = format!(in alloc; "{place}")?;
    array.member(alloc, place.as_str())
}

/// Returns gates that only the source passes, at the first elements of the array.
fn gates_at(alloc: Global, array: &Path, count: u32) -> Result<Vec<Gate>, AllocError> {
    let mut gates = Vec::new(alloc);
    for place in 0..count {
        let path = element(alloc, array, place)?;
        gates.push(Gate {
            path,
            level: 0,
            group: None,
        })?;
    }
    Ok(gates)
}

/// Returns permissions for the reader, at the elements behind the first ones.
fn permissions_behind(
    alloc: Global,
    array: &Path,
    first: u32,
    count: u32,
) -> Result<Vec<Permission>, AllocError> {
    let mut permissions = Vec::new(alloc);
    for place in 0..count {
        let path = element(alloc, array, first.saturating_add(place))?;
        permissions.push(Permission {
            path,
            grantee: Grantee::Org(READER),
            until: None,
        })?;
    }
    Ok(permissions)
}

/// Returns the case that is asked for. For a text a gate at the root lets everybody pass.
pub fn case_of(alloc: Global, array: &Path, asked: Asked) -> Result<Case, AllocError> {
    let mut gates = gates_at(alloc, array, asked.gates)?;
    if asked.call == Call::Text {
        gates.push(Gate {
            path: Path::root(alloc),
            level: 3,
            group: None,
        })?;
    }
    let permissions = permissions_behind(alloc, array, asked.gates, asked.permissions)?;
    Ok(Case {
        source: 1,
        community: None,
        gates: Gates::new(gates),
        permissions: Permissions::new(permissions),
    })
}

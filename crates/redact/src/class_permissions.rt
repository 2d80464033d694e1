//! Permissions that show a reader the class where they are, whatever is written in that class.

ghost use Rattle.std.specs.Prelude.{◌≡◌};
ghost use Rattle.std.specs.List.{list_any};
ghost use Rattle.policy.specs.Laws.{refuses_on as is_refusing_on};
ghost use Rattle.redact.specs.Sifted.{way};
ghost use Rattle.redact.specs.inner.Seeking as spec;

use crate::gate_refusals::is_at;
use crate::steps::Step;
use iodef_tree::Path;
use policy::{Case, Gate, Permission, Standing, holds_for, passes};

/// Returns whether the gate is at the path or above it and refuses the reader.
fn refuses_on(standing: &Standing, path: &Path, gate: &Gate) -> bool
    ensures { result ≡ is_refusing_on standing.entry.now path.now gate.now }
{
    gate.path.is_prefix_of(path) && passes(standing, gate).is_err()
}

/// Returns whether some gate of the case is at the path or above it and refuses the reader.
fn is_refused(case: &Case, standing: &Standing, path: &Path) -> bool
    ensures { result ≡ list_any (is_refusing_on standing.entry.now path.now) case.now.gates }
{
    case.gates
        .as_slice()
        .iter()
        .any(|gate| refuses_on(standing, path, gate))
}

/// Returns whether the permission holds for the reader, and no gate at its path or above refuses the reader.
fn permits(case: &Case, standing: &Standing, permission: &Permission) -> bool
    ensures { result ≡ spec.permits case.now standing.entry.now permission.now }
{
    holds_for(standing, permission) && !is_refused(case, standing, &permission.path)
}

/// Returns whether the case has such a permission.
pub(crate) fn some_permits(case: &Case, standing: &Standing) -> bool
    ensures { result ≡ spec.some_permits case.now standing.entry.now }
{
    case.permissions
        .as_slice()
        .iter()
        .any(|permission| permits(case, standing, permission))
}

/// Returns whether such a permission is at the path of the steps.
pub(crate) fn is_permitted(case: &Case, standing: &Standing, steps: &[Step]) -> bool
    ensures { result ≡ spec.is_permitted case.now standing.entry.now (way steps.now) }
{
    case.permissions.as_slice().iter().any(|permission| {
        // The path first: it mostly differs.
        is_at(permission.path.tokens(), steps) && permits(case, standing, permission)
    })
}

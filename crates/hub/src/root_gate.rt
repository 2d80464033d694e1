//! The gate at the root of an incident, which is asked before a line is read.
ghost use Rattle.std.specs.Prelude.{◌≡◌};
ghost use Rattle.std.specs.List.{list_any};
ghost use Rattle.hub.specs.inner.PageFilter.{shuts_out, is_shut_out};

use policy::{Case, Gate, Standing, passes};

/// Whether the gate is at the root and refuses the reader.
fn shuts(standing: &Standing, gate: &Gate) -> bool
    ensures { result ≡ shuts_out standing.entry.now gate.now }
{
    gate.path.tokens().is_empty() && passes(standing, gate).is_err()
}

fn one_shuts(case: &Case, standing: &Standing) -> bool
    ensures { result ≡ list_any (shuts_out standing.entry.now) case.now.gates }
{
    case.gates
        .as_slice()
        .iter()
        .any(|gate| shuts(standing, gate))
}

/// Whether a gate at the root refuses a reader who isn't of the source. Then nothing of the incident is visible, so no
/// line of it needs to be read.
pub fn is_shut(case: &Case, standing: &Standing) -> bool
    ensures { result ≡ is_shut_out case.now standing.entry.now }
{
    !standing.source && one_shuts(case, standing)
}

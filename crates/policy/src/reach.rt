//! How the gates and the permissions of a case stand to a reader, each list as a whole.

ghost use Rattle.std.specs.Prelude.{◌≡◌};
ghost use Rattle.std.specs.List.{list_any};
ghost use Rattle.policy.specs.Permissions as permissions;
ghost use Rattle.policy.specs.Reach.{is_refusing, is_shutting, reach_of};

use crate::case::Case;
use crate::gate::{Gate, passes};
use crate::permission::{Permission, holds_for};
use crate::standing::Standing;

/// How the gates and the permissions of a case stand to a reader, without a class.
#[derive(Clone, Copy)]
pub struct Reach {
    /// A gate at the root refuses the reader.
    pub shut: bool,
    /// A gate, at the root or at a class, refuses the reader.
    pub refused: bool,
    /// A permission holds for the reader.
    pub permitted: bool,
}

impl Reach {
    /// Returns how a case stands to a reader. Allocates nothing.
    pub fn of(case: &Case, standing: &Standing) -> Reach
        ensures { result ≡ reach_of case.now.gates case.now.permissions standing.entry.now }
    {
        let gates = case.gates.as_slice();
        Reach {
            shut: some_shuts(standing, gates),
            refused: some_refuses(standing, gates),
            permitted: some_permits(standing, case.permissions.as_slice()),
        }
    }
}

/// Returns whether the gate refuses the reader. Allocates nothing.
pub fn refuses(standing: &Standing, gate: &Gate) -> bool
    ensures { result ≡ is_refusing standing.entry.now gate.now }
{
    passes(standing, gate).is_err()
}

/// Returns whether the gate is at the root and refuses the reader. Allocates nothing.
pub fn shuts(standing: &Standing, gate: &Gate) -> bool
    ensures { result ≡ is_shutting standing.entry.now gate.now }
{
    gate.path.tokens().is_empty() && refuses(standing, gate)
}

fn some_shuts(standing: &Standing, gates: &[Gate]) -> bool
    ensures { result ≡ list_any (is_shutting standing.entry.now) gates.now }
{
    gates.iter().any(|gate| shuts(standing, gate))
}

fn some_refuses(standing: &Standing, gates: &[Gate]) -> bool
    ensures { result ≡ list_any (is_refusing standing.entry.now) gates.now }
{
    gates.iter().any(|gate| refuses(standing, gate))
}

fn some_permits(standing: &Standing, rows: &[Permission]) -> bool
    ensures { result ≡ list_any (permissions.holds_for standing.entry.now) rows.now }
{
    rows.iter()
        .any(|permission| holds_for(standing, permission))
}

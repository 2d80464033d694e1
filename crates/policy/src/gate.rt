//! Gates: which readers see a class and what is below it, by the MISP book's distribution levels.

ghost use Rattle.std.specs.Prelude.{◌≡◌};
ghost use Rattle.std.specs.Result.{result_err};
ghost use Rattle.policy.specs.Gates.{refusal_of_gate, group_passage, refused_unless};

use crate::rule::Rule;
use crate::standing::Standing;
use iodef_tree::Path;
use std::marker::Model;

/// A gate at the root or at a class.
#[derive(Drop)]
pub struct Gate {
    /// The path of the class, or the root's.
    pub path: Path,
    /// 0 the source alone, 1 its communities, 2 those connected to them too, 3 everybody, 4 a group, 5 as the gates
    /// above say. Any other level counts as 0.
    pub level: u8,
    /// The group of a gate of level 4.
    pub group: Option<u32>,
}

/// The gates of an incident. Contracts see a list, so that definitions can make and compare cases.
#[derive(Drop)]
pub struct Gates {
    gates: Vec<Gate>,
}

impl Model for Gates {
    ghost use Rattle.std.specs.Prelude.{List};
    ghost use Rattle.policy.specs.declared.gate.Gate.{Gate};

    ghost Value = { List Gate };

    ghost view = { λ g. g.gates.items };
}

impl Gates {
    /// Returns the gates of a vector. Allocates nothing.
    pub fn new(gates: Vec<Gate>) -> Gates
        ensures { result ≡ gates.items }
    {
        Gates { gates }
    }

    /// Returns the gates, in order.
    pub fn as_slice(&self) -> &[Gate]
        ensures { result.now ≡ self.now }
    {
        self.gates.as_slice()
    }

    /// Returns the gates as a vector. Allocates nothing.
    pub fn into_vec(self) -> Vec<Gate>
        ensures { result.items ≡ self }
    {
        self.gates
    }
}

/// Checks whether the reader passes the gate; fails with the rule by which the gate refuses it. Levels 3 and 5 let
/// everybody pass. Level 4 asks for membership of the group first, then whether the group is active; without a group
/// it fails with G4. A level above 5 counts as 0. Allocates nothing.
pub fn passes(standing: &Standing, gate: &Gate) -> Result<(), Rule>
    ensures { result_err result ≡ refusal_of_gate standing.entry.now gate.now }
{
    match gate.level {
        1 => unless(Rule::G1, standing.community),
        2 => unless(Rule::G2, standing.community || standing.connected),
        3 | 5 => Ok(()),
        4 => passes_group(standing, gate.group),
        _ => unless(Rule::G0, standing.source),
    }
}

/// Fails with this rule unless the reader may pass.
fn unless(rule: Rule, may_pass: bool) -> Result<(), Rule>
    ensures { result_err result ≡ refused_unless rule may_pass }
{
    if may_pass { Ok(()) } else { Err(rule) }
}

/// Checks level 4.
fn passes_group(standing: &Standing, group: Option<u32>) -> Result<(), Rule>
    ensures { result_err result ≡ group_passage standing.entry.now group }
{
    match group {
        None => Err(Rule::G4),
        Some(number) => {
            if !standing.groups.contains(number) {
                Err(Rule::G4)
            } else if !standing.active_groups.contains(number) {
                Err(Rule::G4X)
            } else {
                Ok(())
            }
        }
    }
}

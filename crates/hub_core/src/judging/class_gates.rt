//! The gates at classes that a posted document has: their paths, and the edits that put them.
ghost use Rattle.std.specs.Prelude.{◌≡◌, [], ◌∷◌, ◌++◌, map, None, IfOk, OnOk, codes};
ghost use Rattle.std.specs.List.{list_any, list_all};
ghost use Rattle.std.specs.Str.{bytes_eq};
ghost use Rattle.circle.specs.Refusals.{bad};
ghost use Rattle.policy.specs.declared.gate.Gate.{Gate};
ghost use Rattle.hub_state.specs.Documents.{Lines, is_class_in};
ghost use Rattle.hub_state.specs.Aftermath.{put_gates};
ghost use Rattle.hub_core.specs.Refusals.{is_bad_gate, are_bad_gates, stands_twice, stand_at_classes};
ghost use Rattle.hub_core.specs.inner.Asked.{Asks};
ghost use Rattle.hub_core.specs.inner.Wanted.{asked_as, put_at};
ghost use Rattle.hub_state.specs.declared.request.WantedGate.{WantedGate};

use crate::judging::gate::{is_bad_group, is_bad_level, is_root};
use crate::judging::posted::Posted;
use crate::judging::stop::{Stop, bad_if, path_of};
use circle::text::Text;
use hub_state::{Edit, WantedGate, copy_of_gate};
use iodef_tree::{Document, Path};
use policy::Gate;
use std::alloc::{AllocError, Global};
use std::marker::Model;

/// Gates at classes, each with its path. Contracts see them as the request asks for them.
#[derive(Drop)]
pub struct ClassGates {
    gates: Vec<Gate>,
}

impl Model for ClassGates {
    ghost use Rattle.std.specs.Prelude.{List, map};
    ghost use Rattle.hub_core.specs.inner.Wanted.{asked_as};
    ghost use Rattle.hub_state.specs.declared.request.WantedGate.{WantedGate};

    ghost Value = { List WantedGate };

    ghost view = { λ c. map asked_as c.gates.items };
}

impl ClassGates {
    /// Makes it of the gates of a request. Refuses them with `B1` if one is bad or two have the same pointer.
    pub fn new(alloc: Global, wanted: &[WantedGate]) -> Result<ClassGates, Stop>
        ensures asked { Asks (bad (codes "gates") (are_bad_gates wanted.now) ∷ []) result }
        ensures gates { IfOk result (λ gates. gates ≡ wanted.now) }
    {
        let mut gates = Vec::with_capacity(alloc, wanted.len())?;
        for gate in wanted {
            gates.push(class_gate(alloc, gate)?)?;
        }
        bad_if(alloc, have_twins(wanted), "gates")?;
        Ok(ClassGates { gates })
    }

    /// Whether each gate's path is a class of each document.
    pub fn stand_at_classes(&self, documents: &[Posted]) -> bool
        ensures { result ≡ stand_at_classes self.now documents.now }
    {
        stand_in_each(&self.gates, documents)
    }

    /// Pushes the edits that put the gate at the root of an incident, and these.
    pub fn put(
        &self,
        alloc: Global,
        edits: &mut Vec<Edit>,
        incident: u32,
        level: u8,
        group: Option<u32>,
    ) -> Result<(), AllocError>
        ensures { OnOk result (edits.new.items ≡
            edits.old.items ++ put_gates incident
            (record { community = None; level = level; group = group; gates = self.now })) }
    {
        let gate = Gate {
            path: Path::root(alloc),
            level,
            group,
        };
        edits.push(Edit::PutGate(hub_state::Gate { incident, gate }))?;
        put_each(edits, incident, &self.gates)?;
        Ok(())
    }
}

fn put_each(edits: &mut Vec<Edit>, incident: u32, gates: &[Gate]) -> Result<(), AllocError>
    ensures { OnOk result (edits.new.items ≡ edits.old.items ++ map (put_at incident) gates.now) }
{
    for gate in gates {
        edits.push(Edit::PutGate(hub_state::Gate {
            incident,
            gate: copy_of_gate(gate)?,
        }))?;
    }
    Ok(())
}

fn class_gate(alloc: Global, wanted: &WantedGate) -> Result<Gate, Stop>
    ensures asked { Asks (bad (codes "gates") (is_bad_gate wanted.now) ∷ []) result }
    ensures gate { IfOk result (λ gate. asked_as gate ≡ wanted.now) }
{
    let path = path_of(alloc, wanted.path.as_str(), "gates")?;
    let (level, group) = (wanted.level, wanted.group);
    let is_bad = is_root(&path) || is_bad_level(false, level) || is_bad_group(level, group);
    bad_if(alloc, is_bad, "gates")?;
    Ok(Gate {
        path,
        level: level as u8,
        group,
    })
}

/// Whether two gates have the same pointer.
fn have_twins(wanted: &[WantedGate]) -> bool
    ensures { result ≡ stands_twice (map (λ (g : WantedGate). g.path) wanted.now) }
{
    for (place, gate) in wanted.iter().enumerate() {
        if is_among(&gate.path, &wanted[place + 1..]) {
            return true;
        }
    }
    false
}

fn is_among(path: &Text, wanted: &[WantedGate]) -> bool
    ensures { result ≡ list_any (λ (g : WantedGate). bytes_eq path.now g.path) wanted.now }
{
    wanted.iter().any(|gate| *path == gate.path)
}

fn stand_in_each(gates: &[Gate], documents: &[Posted]) -> bool
    ensures { result ≡ list_all (λ (doc : Lines).
        list_all (λ (g : Gate). is_class_in doc g.path) gates.now) documents.now }
{
    documents
        .iter()
        .all(|document| stand_in(gates, document.document()))
}

fn stand_in(gates: &[Gate], document: &Document) -> bool
    ensures { result ≡ list_all (λ (g : Gate). is_class_in document.now g.path) gates.now }
{
    gates.iter().all(|gate| document.has_class(&gate.path))
}

//! The sketches by the incidents' numbers.
ghost use Rattle.std.specs.Prelude.{◌≡◌, ℕ, None, OnOk, true, false, is_none, option_copied};
ghost use Rattle.policy.specs.Reach.{reach_of};
ghost use Rattle.policy.specs.declared.case.Case.{Case as TheCase};
ghost use Rattle.hub_state.specs.State.{State};
ghost use Rattle.hub_state.specs.Sound.{IsSound};
ghost use Rattle.hub_state.specs.Reads as spec;
ghost use Rattle.hub_state.specs.Edits.{edited, with_edits};
ghost use Rattle.kept_rows.specs.Drawn.{AreDrawn, DrawsOnly, LetsGo, kept};

use hub_state::{Edit, Incident};
use iodef_tree::Document;
use policy::{Reach, Standing};
use redact::Want;
use sketch::{Judged, Sketch};
use std::alloc::{AllocError, Global};
use std::collections::HashMap;
use std::hash::{BuildHasherDefault, FoldHasher};

/// The sketches by the incidents' numbers.
#[derive(Drop)]
pub(crate) struct Sketches {
    alloc: Global,
    drawn: HashMap<u32, Sketch, BuildHasherDefault<FoldHasher>, Global>,
}

impl Sketches {
    /// Returns no sketch. Takes no memory.
    pub(crate) fn new(alloc: Global) -> Sketches
        ensures { (n : ℕ) → kept result n ≡ None }
    {
        Sketches {
            alloc,
            drawn: HashMap::new(alloc),
        }
    }

    /// Returns the sketch of an incident's document, if it is kept.
    pub(crate) fn of(&self, incident: u32) -> Option<&Sketch>
        ensures { option_copied result ≡ kept self.now incident }
    {
        self.drawn.get(&incident)
    }

    /// What the sketch of an incident's document says of a want, by how the incident's case stands to a reader.
    pub(crate) fn judge(
        &self,
        incident: u32,
        reach: Reach,
        standing: &Standing,
        want: &Want,
    ) -> Judged
        ensures met { (s : State) (c : TheCase) → AreDrawn self.now s → IsSound s →
            reach ≡ reach_of c.gates c.permissions standing.entry.now → result ≡ Judged.Met →
            spec.met_by_incident incident c standing.entry.now want.now s ≡ true }
        ensures unmet { (s : State) (c : TheCase) → AreDrawn self.now s → IsSound s →
            reach ≡ reach_of c.gates c.permissions standing.entry.now → result ≡ Judged.Unmet →
            spec.met_by_incident incident c standing.entry.now want.now s ≡ false }
    {
        match self.of(incident) {
            None => Judged::Unsure,
            Some(sketch) => sketch.judge(reach, standing, want),
        }
    }

    /// Keeps the sketch of an incident's document. Fails if the memory doesn't suffice.
    pub(crate) fn draw(&mut self, incident: u32, document: &Document) -> Result<(), AllocError>
        ensures only { DrawsOnly incident document.now self.old self.new }
        ensures drawn { OnOk result (is_none (kept self.new incident) ≡ false) }
    {
        let sketch = Sketch::of(self.alloc, document)?;
        self.drawn.insert(incident, sketch)?;
        Ok(())
    }

    /// Drops the sketch of an incident's document.
    pub(crate) fn let_go(&mut self, incident: u32)
        ensures { LetsGo incident self.old self.new }
    {
        let _gone = self.drawn.remove(&incident);
    }

    /// Makes of the sketches what an edit makes of the documents.
    pub(crate) fn follow(&mut self, edit: &Edit)
        ensures { (s : State) → AreDrawn self.old s → AreDrawn self.new (edited edit.now s) }
    {
        match edit {
            Edit::PutIncident(incident) => self.redraw(incident),
            Edit::TakeIncident(number) => self.let_go(*number),
            Edit::Directory(_)
            | Edit::TakePolicy(_)
            | Edit::PutGate(_)
            | Edit::TakeGate(_)
            | Edit::PutRecipient(_)
            | Edit::TakeRecipient(_)
            | Edit::PutPermission(_)
            | Edit::TakePermission(_) => {}
        }
    }

    /// Keeps the sketch of an incident that is put, in the place of another one under its number.
    fn redraw(&mut self, incident: &Incident)
        ensures { DrawsOnly incident.now.naming.number incident.now.document self.old self.new }
    {
        self.let_go(incident.naming.number);
        // without memory for it the document is asked
        let _ = self.draw(incident.naming.number, &incident.document);
    }

    /// Makes of the sketches what edits make of the documents.
    pub(crate) fn follow_all(&mut self, edits: &[Edit])
        ensures { (s : State) → AreDrawn self.old s → AreDrawn self.new (with_edits edits.now s) }
    {
        for edit in edits {
            self.follow(edit);
        }
    }
}

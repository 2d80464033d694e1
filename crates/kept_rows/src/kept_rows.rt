//! The shelf.
ghost use Rattle.std.specs.Prelude.{◌≡◌, ◌≢◌, true, false, None, Ok, Err, is_none, IfOk, IfErr, IfSome, OnOk};
ghost use Rattle.hub_state.specs.Shelves.{HasCause, IsKept, IsRead, Reads, last_count};
ghost use Rattle.hub_state.specs.State.{State};
ghost use Rattle.hub_state.specs.Sound.{IsSound};
ghost use Rattle.hub_state.specs.Reads as spec;
ghost use Rattle.hub_state.specs.Bare.{bare};
ghost use Rattle.kept_rows.specs.Drawn.{AreDrawn, Keeps, kept};
ghost use Rattle.kept_rows.specs.Seen.{IsSeen};
ghost use Rattle.circle.specs.Reads.{person_of};

use crate::seen::Seen;
use crate::sketches::Sketches;
use circle::directory::Person;
use hub_state::{
    Edit, Entry, Facts, IncidentSharing, JoinedCommunity, JoinedGroup, Request, Shelf, ShelfFault,
    StateRows, WholeRows, facts_by, incident_sharing_by, standing_by,
};
use iodef_tree::Document;
use policy::{Case, Reach, Standing};
use redact::{Excerpt, Want};
use sketch::Judged;
use std::alloc::{AllocError, Global};
use std::mem;

/// Whether no gate of a case is at the root. The others would let everybody pass, and a sound state has one there; so
/// the shelf below, which may fail, judges such a case.
fn is_unrooted(found: &Option<Case>) -> bool {
    match found {
        None => false,
        Some(case) => !case
            .gates
            .as_slice()
            .iter()
            .any(|gate| gate.path.tokens().is_empty()),
    }
}

/// A shelf that keeps all rows but the documents in memory, and asks the shelf below for a document, an excerpt or a
/// search. A sketch of each document tells which incidents a page may pass over.
///
/// The rows are read once, when the shelf is made. An edit is made below first, with the memory for it here taken
/// before; so after a failure both are as they were. A person's key is asked below, so a store that a failure has shut
/// answers nothing.
#[derive(Drop)]
pub struct KeptRows<Sh: Shelf> {
    pub(crate) alloc: Global,
    pub(crate) shelf: Sh,
    pub(crate) rows: StateRows,
    pub(crate) sketches: Sketches,
    /// The person whose page is made. An edit drops it.
    pub(crate) seen: Option<Seen>,
}

impl<Sh: WholeRows> KeptRows<Sh> {
    /// Reads the rows of a shelf and keeps them, with no sketch. Fails as a read of the shelf does. The shelf comes back
    /// then, with its content.
    pub fn new(alloc: Global, mut shelf: Sh) -> Result<KeptRows<Sh>, (ShelfFault, Sh)>
        ensures kept { IfOk result (λ k. Sh.doubts k.shelf ≡ 0 → (s : State) →
            Sh.has shelf s → IsSound s → Sh.has k.shelf s × Keeps k.rows k.sketches k.seen s) }
        ensures read { IfOk result (λ k.
            IsRead Sh.has Sh.doubts Sh.failed Sh.may_remain shelf k.shelf (Ok k.rows)) }
        ensures lost { IfErr result (λ lost.
            IsRead Sh.has Sh.doubts Sh.failed Sh.may_remain shelf lost.1 {T = State} (Err lost.0)) }
    {
        match shelf.rows() {
            Ok(rows) => Ok(KeptRows {
                alloc,
                shelf,
                rows,
                sketches: Sketches::new(alloc),
                seen: None,
            }),
            Err(fault) => Err((fault, shelf)),
        }
    }
}

impl<Sh: Shelf> KeptRows<Sh> {
    /// Returns the shelf below.
    pub fn into_shelf(self) -> Sh
        ensures { result ≡ self.shelf }
    {
        let KeptRows { shelf, .. } = self;
        shelf
    }

    /// Fails if the count of failures is at its last value. Each call fails from then on.
    pub(crate) fn may_ask(&self) -> Result<(), ShelfFault>
        ensures asked { OnOk result (Sh.failed self.now.shelf ≢ last_count) }
        ensures ended { IfErr result (λ fault.
            (fault ≡ ShelfFault.Failed) × (Sh.failed self.now.shelf ≡ last_count)) }
    {
        if self.shelf.failures() == u64::MAX {
            return Err(ShelfFault::Failed);
        }
        Ok(())
    }

    /// Reads the document of an incident, if there is one, and keeps its sketch. Fails if the document can't be read, or
    /// if the memory doesn't suffice.
    pub fn draw(&mut self, incident: u32) -> Result<(), ShelfFault>
        ensures cause { HasCause (Sh.failed self.old.shelf) (Sh.failed self.new.shelf) result }
        ensures drawn { Sh.doubts self.new.shelf ≡ 0 → (s : State) → Sh.has self.old.shelf s →
            OnOk result (is_none (spec.document_of incident s) ≡ false →
            is_none (kept self.new.sketches incident) ≡ false) }
        ensures reads { IsKept (λ k s. Sh.has k.shelf s × Keeps k.rows k.sketches k.seen s)
            (λ k. Sh.doubts k.shelf) (λ k. Sh.failed k.shelf)
            (λ k left. Sh.may_remain k.shelf left) self.old self.new }
    {
        if let Some(document) = self.shelf.document(incident)? {
            self.sketches.draw(incident, &document)?;
        }
        Ok(())
    }

    /// Keeps the person with this number, if it isn't the one that is kept. Fails if the memory doesn't suffice.
    fn see(&mut self, person: u32) -> Result<(), AllocError>
        ensures shelf { self.new.shelf ≡ self.old.shelf }
        ensures rows { self.new.rows ≡ self.old.rows }
        ensures sketches { self.new.sketches ≡ self.old.sketches }
        ensures stays { IfSome self.old.seen (λ k. IsSeen k self.old.rows) →
            IfSome self.new.seen (λ k. IsSeen k self.old.rows) }
        ensures found { OnOk result (IfSome self.new.seen (λ k. k.number ≡ person)) }
        ensures missing { OnOk result (is_none self.new.seen ≡ true →
            person_of person self.old.rows.directory ≡ None) }
    {
        if let Some(seen) = &self.seen {
            if seen.is_of(person) {
                return Ok(());
            }
        }
        self.seen = Seen::of(self.alloc, &self.rows, person)?;
        Ok(())
    }

    /// Whether an incident may meet a want for a person at a moment, by the rows and the sketch.
    fn judged(
        &mut self,
        person: u32,
        incident: u32,
        now: i64,
        want: &Want,
    ) -> Result<bool, ShelfFault>
        requires { Sh.failed self.old.shelf ≢ last_count }
        ensures { Reads (λ k s. Sh.has k.shelf s × Keeps k.rows k.sketches k.seen s)
            (λ k. Sh.doubts k.shelf) (λ k. Sh.failed k.shelf)
            (λ k left. Sh.may_remain k.shelf left) self.old self.new (λ s may.
            may ≡ false → spec.met_for person incident now want.now s ≡ false) result }
    {
        self.see(person)?;
        match &mut self.seen {
            None => Ok(false),
            Some(seen) => Ok(may_meet_by(&self.rows, &self.sketches, seen, incident, now, want)),
        }
    }
}

/// Whether an incident may meet a want for a person at a moment, by the rows and the sketch. Copies nothing of a row.
fn may_meet_by(
    rows: &StateRows,
    sketches: &Sketches,
    seen: &mut Seen,
    incident: u32,
    now: i64,
    want: &Want,
) -> bool
    ensures number { seen.new.number ≡ seen.old.number }
    ensures stays { IsSeen seen.old rows.now → IsSeen seen.new rows.now }
    ensures unmet { (s : State) → rows.now ≡ bare s → AreDrawn sketches.now s → IsSound s →
        IsSeen seen.old rows.now → result ≡ false →
        spec.met_for seen.old.number incident now want.now s ≡ false }
{
    let Some(naming) = rows.naming_at(incident) else {
        return false;
    };
    seen.set_for(rows, naming, now);
    let reach = rows.reach(naming.number, seen.standing());
    match sketches.judge(incident, reach, seen.standing(), want) {
        Judged::Unmet => false,
        Judged::Met | Judged::Unsure => true,
    }
}

impl<Sh: Shelf> Shelf for KeptRows<Sh> {
    ghost use Rattle.std.specs.Prelude.{◌≡◌};
    ghost use Rattle.hub_state.specs.Bare.{bare};
    ghost use Rattle.kept_rows.specs.Drawn.{AreDrawn, Keeps};

    ghost has = { λ k s. Sh.has k.shelf s × Keeps k.rows k.sketches k.seen s };

    ghost holds = { λ k s. Sh.holds k.shelf s × (k.rows ≡ bare s) × AreDrawn k.sketches s };

    ghost doubts = { λ k. Sh.doubts k.shelf };

    ghost failed = { λ k. Sh.failed k.shelf };

    ghost may_remain = { λ k left. Sh.may_remain k.shelf left };

    fn failures(&self) -> u64 {
        self.shelf.failures()
    }

    fn person_by_key(&mut self, key: &[u8; 32]) -> Result<Option<Person>, ShelfFault>
        ensures reads { Reads (λ k s. Sh.has k.shelf s × Keeps k.rows k.sketches k.seen s)
            (λ k. Sh.doubts k.shelf) (λ k. Sh.failed k.shelf)
            (λ k left. Sh.may_remain k.shelf left) self.old self.new (λ s found. found ≡
            spec.person_by_key key.now s) result }
        ensures below { Reads Sh.has Sh.doubts Sh.failed Sh.may_remain self.old.shelf self.new.shelf
            (λ s found. found ≡ spec.person_by_key key.now s) result }
    {
        self.shelf.person_by_key(key)
    }

    fn standing(
        &mut self,
        person: u32,
        incident: u32,
        now: i64,
    ) -> Result<Option<Standing>, ShelfFault> {
        standing_by(self, person, incident, now)
    }

    fn case(&mut self, incident: u32) -> Result<Option<Case>, ShelfFault> {
        self.may_ask()?;
        let found = self.rows.find_case(incident)?;
        if is_unrooted(&found) {
            return self.shelf.case(incident);
        }
        Ok(found)
    }

    fn incident_sharing(&mut self, incident: u32) -> Result<Option<IncidentSharing>, ShelfFault> {
        incident_sharing_by(self, incident)
    }

    fn document(&mut self, incident: u32) -> Result<Option<Document>, ShelfFault> {
        self.shelf.document(incident)
    }

    fn excerpt(
        &mut self,
        incident: u32,
        case: Case,
        standing: Standing,
    ) -> Result<Option<Excerpt>, ShelfFault> {
        self.shelf.excerpt(incident, case, standing)
    }

    fn meets(
        &mut self,
        incident: u32,
        case: Case,
        standing: Standing,
        want: Want,
    ) -> Result<bool, ShelfFault> {
        self.may_ask()?;
        let reach = Reach::of(&case, &standing);
        match self.sketches.judge(incident, reach, &standing, &want) {
            Judged::Met => Ok(true),
            Judged::Unmet => Ok(false),
            Judged::Unsure => self.shelf.meets(incident, case, standing, want),
        }
    }

    fn may_meet(
        &mut self,
        person: u32,
        incident: u32,
        now: i64,
        want: &Want,
    ) -> Result<bool, ShelfFault> {
        self.may_ask()?;
        if let Some(sketch) = self.sketches.of(incident) {
            if !sketch.may_hold(want) {
                return Ok(false);
            }
        }
        self.judged(person, incident, now, want)
    }

    fn incidents_after(&mut self, number: u32, most: u32) -> Result<Vec<Entry>, ShelfFault> {
        self.may_ask()?;
        Ok(self.rows.list_after(number, most)?)
    }

    fn groups_of(&mut self, person: &Person) -> Result<Vec<JoinedGroup>, ShelfFault> {
        self.may_ask()?;
        Ok(self.rows.joined_groups(person)?)
    }

    fn joined_communities(&mut self, person: &Person) -> Result<Vec<JoinedCommunity>, ShelfFault> {
        self.may_ask()?;
        Ok(self.rows.joined_communities(person)?)
    }

    fn facts(&mut self, actor: &Person, request: &Request) -> Result<Facts, ShelfFault> {
        let alloc = self.alloc;
        facts_by(self, alloc, actor, request)
    }

    fn apply(&mut self, edits: &[Edit]) -> Result<(), ShelfFault> {
        self.may_ask()?;
        self.seen = None;
        let rows = mem::replace(&mut self.rows, StateRows::new(self.alloc));
        let ready = match rows.ready(edits) {
            Ok(ready) => ready,
            Err((_, rows)) => {
                self.rows = rows;
                return Err(ShelfFault::NoMemory);
            }
        };
        match self.shelf.apply(edits) {
            Ok(()) => {
                self.rows = ready.make();
                self.sketches.follow_all(edits);
                Ok(())
            }
            Err(fault) => {
                self.rows = ready.into_rows();
                Err(fault)
            }
        }
    }
}

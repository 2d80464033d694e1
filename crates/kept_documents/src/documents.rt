//! The kept documents.
ghost use Rattle.std.specs.Prelude.{◌≡◌, nat_eq, false, ◌⊎◌, ◌≤◌, [], Err, IfSome, IfOk, IsTrue, Contains};
ghost use Rattle.iodef_tree.specs.Paths.{located};
ghost use Rattle.marking.specs.Marks.{first_bad_marking};
ghost use Rattle.hub_state.specs.declared.shelf.ShelfFault.TheVariants.{NoMemory};
ghost use Rattle.kept_documents.specs.Kept.{Entry, weight_in, AreLight, AreAmong, AreSpared, is_of};

use crate::kept::Kept;
use crate::{DOCUMENT_LIMIT, NOTED_LIMIT, PATIENCE, REQUEST_ROOM};
use hub_state::{Edit, ShelfFault};
use iodef_tree::Document;
use lru::LruCache;
use std::alloc::{AllocError, Global};
use std::marker::Model;
use std::num::NonZeroUsize;

/// The kept documents by their incidents' numbers, which weigh at most `MOST`. Contracts see the list of the pairs.
#[derive(Drop)]
pub(crate) struct Documents<const MOST: usize> {
    alloc: Global,
    kept: LruCache<u32, Kept>,
    /// The incidents that were asked for lately.
    noted: LruCache<u32, ()>,
    /// The weight of the kept documents.
    weight: usize,
    /// How many questions there were since a document was kept.
    waited: u32,
}

impl<const MOST: usize> Model for Documents<MOST> {
    ghost use Rattle.std.specs.Prelude.{◌≤◌, List};
    ghost use Rattle.kept_documents.specs.Kept.{Entry, weight_in, AreLight};

    ghost Value = { List Entry };

    ghost view = { λ d. d.kept.entries };

    ghost invariant = { λ d.
        (weight_in d.kept.entries ≤ d.weight) × (d.weight ≤ MOST) × AreLight d.kept.entries };
}

/// Returns whether a request may take its memory beside all that is held. Touches none of that memory.
fn has_room(alloc: Global) -> bool {
    Vec::<u8>::with_capacity(alloc, REQUEST_ROOM).is_ok()
}

/// Drops the documents read longest ago until the rest weighs at most `most`. Returns the weight of the rest.
#[tactic(auto, using(crate::proofs::Weights::none_left))]
fn shrink(kept: &mut LruCache<u32, Kept>, weight: usize, most: usize) -> usize
    requires { weight_in kept.old.entries ≤ weight }
    ensures counted { weight_in kept.new.entries ≤ result }
    ensures most { result ≤ most }
    ensures among { AreAmong kept.new.entries kept.old.entries }
{
    let mut left = weight;
    while left > most {
        match kept.pop_lru() {
            None => return 0,
            Some((_, gone)) => left = left - gone.weight(),
        }
    }
    left
}

impl<const MOST: usize> Documents<MOST> {
    /// Returns an empty list. Fails if the memory doesn't suffice.
    pub(crate) fn new(alloc: Global) -> Result<Documents<MOST>, AllocError>
        ensures { IfOk result (λ d. d ≡ []) }
    {
        Ok(Documents {
            alloc,
            kept: LruCache::unbounded(alloc)?,
            noted: LruCache::sparse(alloc, NonZeroUsize::new(NOTED_LIMIT).unwrap())?,
            weight: 0,
            waited: 0,
        })
    }

    /// Returns a bound on the weight of the kept documents.
    pub(crate) fn weight(&self) -> usize
        ensures counted { weight_in self.now ≤ result }
        ensures most { result ≤ MOST }
        ensures each { AreLight self.now }
    {
        self.weight
    }

    /// Returns whether no document is kept.
    pub(crate) fn is_empty(&self) -> bool {
        self.kept.is_empty()
    }

    #[tactic(auto, using(crate::proofs::Going::found))]
    pub(crate) fn find(&self, incident: u32) -> Option<&Document>
        ensures kept { IfSome result (λ d. Contains self.now (incident, d.now)) }
        ensures marked { IfSome result (λ d. first_bad_marking (located d.now) ≡ None) }
    {
        match self.kept.peek(&incident) {
            None => None,
            Some(kept) => Some(kept.document()),
        }
    }

    /// Notes that an incident is asked for. Returns whether its document should be read and kept.
    pub(crate) fn is_wanted(&mut self, incident: u32) -> bool
        ensures { AreAmong self.new self.old }
    {
        self.waited = self.waited.saturating_add(1);
        if self.kept.promote(&incident) {
            return false;
        }
        // A list reads most incidents only up to their first lines, so a document is read whole only when its incident
        // is asked for again.
        if !self.noted.promote(&incident) {
            // if the memory doesn't suffice, the next question counts as the first
            let _ = self.noted.put(incident, ());
            return false;
        }
        // While an eighth of the room is free, each wanted document is kept. After that one document in 64 questions
        // may replace others: a list over more documents than fit would read each whole and drop it before its next
        // use.
        let may_be_kept = self.weight <= MOST - MOST / 8 || self.waited >= PATIENCE;
        may_be_kept && has_room(self.alloc)
    }

    /// Keeps a copy of a document if possible; drops those read longest ago to make room. A document above 1 MiB isn't
    /// kept.
    pub(crate) fn keep(&mut self, incident: u32, document: &Document)
        ensures { (e : Entry) → Contains self.new e →
            Contains self.old e ⊎ (e ≡ (incident, document.now)) }
    {
        self.waited = 0;
        let Some(kept) = Kept::within(self.alloc, document, MOST.min(DOCUMENT_LIMIT)) else {
            return;
        };
        let weight = kept.weight();
        self.weight = shrink(&mut self.kept, self.weight, MOST - weight);
        match self.kept.put(incident, kept) {
            Ok(_) => self.weight += weight,
            Err(_) => {}
        }
    }

    /// Drops all documents. Returns whether there was one.
    pub(crate) fn clear(&mut self) -> bool
        ensures { self.new ≡ [] }
    {
        let were_kept = !self.is_empty();
        self.kept.clear();
        self.weight = 0;
        were_kept
    }

    /// Drops all documents if a read failed for want of memory. Returns whether there was one, so that the read is to be
    /// made once more.
    pub(crate) fn give_way<T>(&mut self, found: &Result<T, ShelfFault>) -> bool
        ensures among { AreAmong self.new self.old }
        ensures memory { IsTrue result → found.now ≡ Err NoMemory }
    {
        match found {
            Err(ShelfFault::NoMemory) => self.clear(),
            _ => false,
        }
    }

    /// Drops all documents if a request couldn't take its memory beside them.
    pub(crate) fn leave_room(&mut self)
        ensures { AreAmong self.new self.old }
    {
        if !self.is_empty() && !has_room(self.alloc) {
            self.clear();
        }
    }

    #[tactic(auto, using(crate::proofs::Weights::gone))]
    fn let_go_of(&mut self, incident: u32)
        ensures { (e : Entry) → Contains self.new e →
            Contains self.old e × (nat_eq incident e.0 ≡ false) }
    {
        // for the proof: the contract of `len` says that no number is there twice
        let _count = self.kept.len();
        if let Some((_, gone)) = self.kept.pop_entry(&incident) {
            self.weight -= gone.weight();
        }
    }

    /// Drops the document of the incident whose row the edit puts or takes.
    fn let_go_by(&mut self, edit: &Edit)
        ensures { (e : Entry) → Contains self.new e →
            Contains self.old e × (is_of e.0 edit.now ≡ false) }
    {
        match edit {
            Edit::PutIncident(incident) => self.let_go_of(incident.naming.number),
            Edit::TakeIncident(number) => self.let_go_of(*number),
            Edit::Directory(_)
            | Edit::TakePolicy(_)
            | Edit::PutGate(_)
            | Edit::TakeGate(_)
            | Edit::PutRecipient(_)
            | Edit::TakeRecipient(_)
            | Edit::PutPermission(_)
            | Edit::TakePermission(_) => {}
        }
    }

    /// Drops the documents of the incidents whose rows the edits put or take.
    pub(crate) fn let_go(&mut self, edits: &[Edit])
        ensures { AreSpared edits.now self.new self.old }
    {
        for edit in edits {
            self.let_go_by(edit);
        }
    }
}

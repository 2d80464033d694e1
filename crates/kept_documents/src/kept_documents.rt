//! The shelf.
ghost use Rattle.std.specs.Prelude.{◌≡◌, ◌≤◌, [], IfOk, IfErr, option_map};
ghost use Rattle.redact.specs.Excerpts.{told_by};
ghost use Rattle.hub_state.specs.Reads.{served_of_incident, met_by_incident};
ghost use Rattle.hub_state.specs.State.{State};
ghost use Rattle.hub_state.specs.Shelves.{IsRead, Reads};
ghost use Rattle.kept_documents.specs.Kept.{AreAmong, AreDocuments, AreLight, weight_in};

use crate::copies::{copies_for_search, copies_of};
use crate::documents::Documents;
use circle::directory::Person;
use hub_state::{
    Edit, Entry, Facts, IncidentSharing, JoinedCommunity, JoinedGroup, Request, Shelf, ShelfFault,
    StateRows, WholeRows,
};
use iodef_tree::Document;
use policy::{Case, Standing};
use redact::{Excerpt, Want, excerpt, meets};
use std::alloc::{AllocError, Global};

/// A shelf that answers excerpts and searches from the documents that it keeps, and asks the shelf below for all else.
/// The kept documents weigh at most `MOST` together. Only documents are kept: they are dear to read, and only two kinds
/// of edit change one.
///
/// The kept documents go before a request is refused for want of memory. If a read fails with `NoMemory`, they are
/// dropped, and it is made once more. An edit isn't made again, since a crash may leave what it began; a request begins
/// with the memory for an ordinary one free, or with no document kept.
#[derive(Drop)]
pub struct KeptDocuments<Sh: Shelf, const MOST: usize> {
    alloc: Global,
    shelf: Sh,
    documents: Documents<MOST>,
}

impl<Sh: Shelf, const MOST: usize> KeptDocuments<Sh, MOST> {
    /// Returns a shelf over another one, with no document kept. Fails with the shelf below if the memory doesn't
    /// suffice.
    pub fn new(alloc: Global, shelf: Sh) -> Result<KeptDocuments<Sh, MOST>, (AllocError, Sh)>
        ensures made { IfOk result (λ k. (k.shelf ≡ shelf) × (k.documents ≡ [])) }
        ensures refused { IfErr result (λ refused. refused.1 ≡ shelf) }
    {
        match Documents::new(alloc) {
            Ok(documents) => Ok(KeptDocuments {
                alloc,
                shelf,
                documents,
            }),
            Err(refused) => Err((refused, shelf)),
        }
    }

    /// Returns the shelf below.
    pub fn into_shelf(self) -> Sh
        ensures { result ≡ self.shelf }
    {
        let KeptDocuments { shelf, .. } = self;
        shelf
    }

    /// Returns a bound on the weight of the kept documents. Each of them weighs at most 1 MiB.
    pub fn weight(&self) -> usize
        ensures counted { weight_in self.now.documents ≤ result }
        ensures most { result ≤ MOST }
        ensures each { AreLight self.now.documents }
    {
        self.documents.weight()
    }

    /// Reads and keeps the document of an incident that is asked for, if it is wanted and the memory suffices. Fails
    /// with `Failed` if the shelf below does.
    fn prepare(&mut self, incident: u32) -> Result<(), ShelfFault>
        ensures shelf { IsRead Sh.has Sh.doubts Sh.failed Sh.may_remain
            self.old.shelf self.new.shelf result }
        ensures documents { Sh.doubts self.new.shelf ≡ 0 → (s : State) → Sh.has self.old.shelf s →
            AreDocuments self.old.documents s → AreDocuments self.new.documents s }
    {
        // at the last value of the count every call fails
        if self.shelf.failures() == u64::MAX {
            return Err(ShelfFault::Failed);
        }
        if !self.documents.is_wanted(incident) {
            return Ok(());
        }
        match self.shelf.document(incident) {
            Ok(Some(document)) => {
                self.documents.keep(incident, &document);
                Ok(())
            }
            // keeping is optional: without memory for it the shelf below answers
            Ok(None) | Err(ShelfFault::NoMemory) => Ok(()),
            Err(ShelfFault::Failed) => Err(ShelfFault::Failed),
        }
    }

    /// Asks the shelf below for an excerpt.
    fn excerpt_below(
        &mut self,
        incident: u32,
        case: Case,
        standing: Standing,
    ) -> Result<Option<Excerpt>, ShelfFault>
        ensures shelf { Reads Sh.has Sh.doubts Sh.failed Sh.may_remain
            self.old.shelf self.new.shelf (λ s found.
            option_map told_by found ≡ served_of_incident incident case standing s) result }
        ensures documents { AreAmong self.new.documents self.old.documents }
    {
        if self.documents.is_empty() {
            return self.shelf.excerpt(incident, case, standing);
        }
        let Ok((same_case, same_standing)) = copies_of(self.alloc, &case, &standing) else {
            self.documents.clear();
            return self.shelf.excerpt(incident, case, standing);
        };
        let found = self.shelf.excerpt(incident, case, standing);
        if self.documents.give_way(&found) {
            return self.shelf.excerpt(incident, same_case, same_standing);
        }
        found
    }

    /// Asks the shelf below whether an incident meets a want.
    fn meets_below(
        &mut self,
        incident: u32,
        case: Case,
        standing: Standing,
        want: Want,
    ) -> Result<bool, ShelfFault>
        ensures shelf { Reads Sh.has Sh.doubts Sh.failed Sh.may_remain
            self.old.shelf self.new.shelf (λ s met. met ≡
            met_by_incident incident case standing want s) result }
        ensures documents { AreAmong self.new.documents self.old.documents }
    {
        if self.documents.is_empty() {
            return self.shelf.meets(incident, case, standing, want);
        }
        let Ok((same_case, same_standing, same_want)) = copies_for_search(
            self.alloc, &case, &standing, &want,
        ) else {
            self.documents.clear();
            return self.shelf.meets(incident, case, standing, want);
        };
        let met = self.shelf.meets(incident, case, standing, want);
        if self.documents.give_way(&met) {
            return self
                .shelf
                .meets(incident, same_case, same_standing, same_want);
        }
        met
    }
}

impl<Sh: Shelf, const MOST: usize> Shelf for KeptDocuments<Sh, MOST> {
    ghost use Rattle.kept_documents.specs.Kept.{AreDocuments};

    ghost has = { λ k s. Sh.has k.shelf s × AreDocuments k.documents s };

    ghost holds = { λ k s. Sh.holds k.shelf s × AreDocuments k.documents s };

    ghost doubts = { λ k. Sh.doubts k.shelf };

    ghost failed = { λ k. Sh.failed k.shelf };

    ghost may_remain = { λ k left. Sh.may_remain k.shelf left };

    fn failures(&self) -> u64 {
        self.shelf.failures()
    }

    fn person_by_key(&mut self, key: &[u8; 32]) -> Result<Option<Person>, ShelfFault> {
        // the first question of a request
        self.documents.leave_room();
        let found = self.shelf.person_by_key(key);
        if self.documents.give_way(&found) {
            return self.shelf.person_by_key(key);
        }
        found
    }

    fn standing(
        &mut self,
        person: u32,
        incident: u32,
        now: i64,
    ) -> Result<Option<Standing>, ShelfFault> {
        let found = self.shelf.standing(person, incident, now);
        if self.documents.give_way(&found) {
            return self.shelf.standing(person, incident, now);
        }
        found
    }

    fn case(&mut self, incident: u32) -> Result<Option<Case>, ShelfFault> {
        let found = self.shelf.case(incident);
        if self.documents.give_way(&found) {
            return self.shelf.case(incident);
        }
        found
    }

    fn incident_sharing(&mut self, incident: u32) -> Result<Option<IncidentSharing>, ShelfFault> {
        let found = self.shelf.incident_sharing(incident);
        if self.documents.give_way(&found) {
            return self.shelf.incident_sharing(incident);
        }
        found
    }

    fn document(&mut self, incident: u32) -> Result<Option<Document>, ShelfFault> {
        // the caller gets the document itself, so a kept one would have to be copied
        let found = self.shelf.document(incident);
        if self.documents.give_way(&found) {
            return self.shelf.document(incident);
        }
        found
    }

    fn excerpt(
        &mut self,
        incident: u32,
        case: Case,
        standing: Standing,
    ) -> Result<Option<Excerpt>, ShelfFault> {
        self.prepare(incident)?;
        match self.documents.find(incident) {
            None => self.excerpt_below(incident, case, standing),
            Some(document) => match excerpt(self.alloc, document, &case, &standing) {
                Ok(found) => Ok(found),
                Err(_) => {
                    self.documents.clear();
                    self.excerpt_below(incident, case, standing)
                }
            },
        }
    }

    fn meets(
        &mut self,
        incident: u32,
        case: Case,
        standing: Standing,
        want: Want,
    ) -> Result<bool, ShelfFault> {
        self.prepare(incident)?;
        match self.documents.find(incident) {
            None => self.meets_below(incident, case, standing, want),
            Some(document) => match meets(self.alloc, document, &case, &standing, &want) {
                Ok(met) => Ok(met),
                Err(_) => {
                    self.documents.clear();
                    self.meets_below(incident, case, standing, want)
                }
            },
        }
    }

    fn incidents_after(&mut self, number: u32, most: u32) -> Result<Vec<Entry>, ShelfFault> {
        let found = self.shelf.incidents_after(number, most);
        if self.documents.give_way(&found) {
            return self.shelf.incidents_after(number, most);
        }
        found
    }

    fn groups_of(&mut self, person: &Person) -> Result<Vec<JoinedGroup>, ShelfFault> {
        let found = self.shelf.groups_of(person);
        if self.documents.give_way(&found) {
            return self.shelf.groups_of(person);
        }
        found
    }

    fn joined_communities(&mut self, person: &Person) -> Result<Vec<JoinedCommunity>, ShelfFault> {
        let found = self.shelf.joined_communities(person);
        if self.documents.give_way(&found) {
            return self.shelf.joined_communities(person);
        }
        found
    }

    fn facts(&mut self, actor: &Person, request: &Request) -> Result<Facts, ShelfFault> {
        let found = self.shelf.facts(actor, request);
        if self.documents.give_way(&found) {
            return self.shelf.facts(actor, request);
        }
        found
    }

    fn apply(&mut self, edits: &[Edit]) -> Result<(), ShelfFault> {
        // before the call: whatever its outcome, no document is kept that may have changed
        self.documents.let_go(edits);
        self.shelf.apply(edits)
    }
}

impl<Sh: WholeRows, const MOST: usize> WholeRows for KeptDocuments<Sh, MOST> {
    fn rows(&mut self) -> Result<StateRows, ShelfFault> {
        let found = self.shelf.rows();
        if self.documents.give_way(&found) {
            return self.shelf.rows();
        }
        found
    }
}

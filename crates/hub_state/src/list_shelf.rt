//! The hub's state in memory.
ghost use Rattle.std.specs.Prelude.{◌≡◌, OnOk, OnErr};
ghost use Rattle.hub_state.specs.State.{empty};
ghost use Rattle.hub_state.specs.Edits as spec;
ghost use Rattle.hub_state.specs.Shelves.{HasCause};

use crate::edit::Edit;
use crate::facts::Facts;
use crate::facts_made::facts_by;
use crate::incident_sharing::incident_sharing_by;
use crate::look_ups::IncidentSharing;
use crate::reply::{Entry, JoinedCommunity, JoinedGroup};
use crate::request::Request;
use crate::shelf::{Shelf, ShelfFault};
use crate::standing::standing_by;
use crate::state_rows::StateRows;
use circle::directory::Person;
use iodef_tree::Document;
use policy::{Case, Standing};
use redact::{Excerpt, Want};
use std::alloc::{AllocError, Global};
use std::marker::Model;

/// A shelf that keeps the state in memory. No call returns `Failed`. That the state is sound is part of what the shelf
/// has.
#[derive(Drop)]
pub struct ListShelf {
    pub(crate) rows: StateRows,
}

impl Model for ListShelf {
    ghost use Rattle.hub_state.specs.State.{State};

    ghost Value = { State };

    ghost view = { λ s. s.rows };
}

impl ListShelf {
    /// Returns a shelf with thirteen empty sets. Takes no memory.
    pub fn new(alloc: Global) -> ListShelf
        ensures { result ≡ empty }
    {
        ListShelf {
            rows: StateRows::new(alloc),
        }
    }
}

impl From<AllocError> for ShelfFault {
    ghost use Rattle.hub_state.specs.declared.shelf.ShelfFault.TheVariants.{NoMemory};
    ghost use Rattle.std.specs.Prelude.{◌≡◌};

    ghost from_gives = { λ _ fault. fault ≡ NoMemory };

    fn from(_refused: AllocError) -> ShelfFault {
        ShelfFault::NoMemory
    }
}

impl Shelf for ListShelf {
    ghost use Rattle.std.specs.Prelude.{◌≡◌, Some};
    ghost use Rattle.hub_state.specs.Sound.{IsSound};

    ghost has = { λ shelf s. (shelf ≡ s) × IsSound s };

    ghost holds = { λ shelf s. shelf ≡ s };

    ghost doubts = { λ _. 0 };

    ghost failed = { λ _. 0 };

    ghost may_remain = { λ shelf left. left ≡ Some shelf };

    fn failures(&self) -> u64 {
        0
    }

    fn person_by_key(&mut self, key: &[u8; 32]) -> Result<Option<Person>, ShelfFault> {
        Ok(self.rows.find_person(key)?)
    }

    fn standing(
        &mut self,
        person: u32,
        incident: u32,
        now: i64,
    ) -> Result<Option<Standing>, ShelfFault> {
        standing_by(self, person, incident, now)
    }

    fn case(&mut self, incident: u32) -> Result<Option<Case>, ShelfFault> {
        Ok(self.rows.find_case(incident)?)
    }

    fn incident_sharing(&mut self, incident: u32) -> Result<Option<IncidentSharing>, ShelfFault> {
        incident_sharing_by(self, incident)
    }

    fn document(&mut self, incident: u32) -> Result<Option<Document>, ShelfFault> {
        Ok(self.find_document(incident)?)
    }

    fn excerpt(
        &mut self,
        incident: u32,
        case: Case,
        standing: Standing,
    ) -> Result<Option<Excerpt>, ShelfFault> {
        Ok(self.find_excerpt(incident, &case, &standing)?)
    }

    fn meets(
        &mut self,
        incident: u32,
        case: Case,
        standing: Standing,
        want: Want,
    ) -> Result<bool, ShelfFault> {
        Ok(self.find_met(incident, &case, &standing, &want)?)
    }

    fn incidents_after(&mut self, number: u32, most: u32) -> Result<Vec<Entry>, ShelfFault> {
        Ok(self.rows.list_after(number, most)?)
    }

    fn groups_of(&mut self, person: &Person) -> Result<Vec<JoinedGroup>, ShelfFault> {
        Ok(self.rows.joined_groups(person)?)
    }

    fn joined_communities(&mut self, person: &Person) -> Result<Vec<JoinedCommunity>, ShelfFault> {
        Ok(self.rows.joined_communities(person)?)
    }

    fn facts(&mut self, actor: &Person, request: &Request) -> Result<Facts, ShelfFault> {
        let alloc = self.rows.alloc();
        facts_by(self, alloc, actor, request)
    }

    /// Makes all edits, also those that lead to a state that isn't sound. Fails with no edit made if the memory doesn't
    /// suffice.
    fn apply(&mut self, edits: &[Edit]) -> Result<(), ShelfFault>
        ensures made { OnOk result (self.new ≡ spec.with_edits edits.now self.old) }
        ensures none { OnErr result (self.new ≡ self.old) }
        ensures cause { HasCause 0 0 result }
    {
        Ok(self.rows.make(edits)?)
    }
}

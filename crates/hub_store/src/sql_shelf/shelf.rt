//! The tables as the hub's shelf.

ghost use Rattle.std.specs.Prelude.{◌<◌};

use super::SqlShelf;
use crate::apply::apply;
use crate::failures::count_failure;
use crate::find_case::find_case;
use crate::find_document::find_document;
use crate::find_excerpt::find_excerpt;
use crate::find_groups::find_groups;
use crate::find_joined_communities::find_joined_communities;
use crate::find_met::find_met;
use crate::find_person::find_person;
use crate::list_entries::list_entries;
use circle::directory::Person;
use hub_state::{
    Edit, Entry, Facts, IncidentSharing, JoinedCommunity, JoinedGroup, Request, Shelf, ShelfFault,
    facts_by, incident_sharing_by, standing_by,
};
use iodef_tree::Document;
use policy::{Case, Standing};
use redact::{Excerpt, Want};
use sqlite::Alter;

impl<S: Alter> Shelf for SqlShelf<S> {
    ghost use Rattle.sqlite_trees.specs.View.{doubt};
    ghost use Rattle.sqlite.specs.Held.{state};
    ghost use Rattle.hub_store.specs.Content.{CommitsState, Has, MayLeave};

    ghost has = { λ shelf s. Has (state S.Store shelf.conn) s };

    ghost holds = { λ shelf s. CommitsState (state S.Store shelf.conn) s };

    ghost doubts = { λ shelf. doubt (state S.Store shelf.conn).is_clean };

    ghost failed = { λ shelf. shelf.failures };

    ghost may_remain = { λ shelf left. MayLeave (state S.Store shelf.conn) left };

    fn failures(&self) -> u64 {
        self.failures
    }

    fn person_by_key(&mut self, key: &[u8; 32]) -> Result<Option<Person>, ShelfFault> {
        self.may_ask()?;
        let found = find_person(&mut self.conn, self.alloc, key);
        count_failure(&mut self.failures, found)
    }

    fn standing(
        &mut self,
        person: u32,
        incident: u32,
        now: i64,
    ) -> Result<Option<Standing>, ShelfFault> {
        standing_by(self, person, incident, now)
    }

    fn case(&mut self, incident: u32) -> Result<Option<Case>, ShelfFault> {
        self.may_ask()?;
        let found = find_case(&mut self.conn, self.alloc, incident);
        count_failure(&mut self.failures, found)
    }

    fn incident_sharing(&mut self, incident: u32) -> Result<Option<IncidentSharing>, ShelfFault> {
        incident_sharing_by(self, incident)
    }

    fn document(&mut self, incident: u32) -> Result<Option<Document>, ShelfFault> {
        self.may_ask()?;
        let found = find_document(&mut self.conn, self.alloc, incident);
        count_failure(&mut self.failures, found)
    }

    fn excerpt(
        &mut self,
        incident: u32,
        case: Case,
        standing: Standing,
    ) -> Result<Option<Excerpt>, ShelfFault> {
        self.may_ask()?;
        let found = find_excerpt(&mut self.conn, self.alloc, incident, case, standing);
        count_failure(&mut self.failures, found)
    }

    fn meets(
        &mut self,
        incident: u32,
        case: Case,
        standing: Standing,
        want: Want,
    ) -> Result<bool, ShelfFault> {
        self.may_ask()?;
        let met = find_met(&mut self.conn, self.alloc, incident, case, standing, want);
        count_failure(&mut self.failures, met)
    }

    fn incidents_after(&mut self, number: u32, most: u32) -> Result<Vec<Entry>, ShelfFault> {
        self.may_ask()?;
        let found = list_entries(&mut self.conn, self.alloc, number, most);
        count_failure(&mut self.failures, found)
    }

    fn groups_of(&mut self, person: &Person) -> Result<Vec<JoinedGroup>, ShelfFault> {
        self.may_ask()?;
        let found = find_groups(&mut self.conn, self.alloc, person);
        count_failure(&mut self.failures, found)
    }

    fn joined_communities(&mut self, person: &Person) -> Result<Vec<JoinedCommunity>, ShelfFault> {
        self.may_ask()?;
        let found = find_joined_communities(&mut self.conn, self.alloc, person);
        count_failure(&mut self.failures, found)
    }

    fn facts(&mut self, actor: &Person, request: &Request) -> Result<Facts, ShelfFault> {
        let alloc = self.alloc;
        facts_by(self, alloc, actor, request)
    }

    fn apply(&mut self, edits: &[Edit]) -> Result<(), ShelfFault> {
        self.may_ask()?;
        let made = apply(&mut self.conn, self.alloc, edits);
        count_failure(&mut self.failures, made)
    }
}

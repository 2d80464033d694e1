//! What the tables look up for standings and facts.

ghost use Rattle.std.specs.Prelude.{◌<◌};

use super::SqlShelf;
use crate::count_incidents::incident_count;
use crate::directory_facts::find_circle_facts;
use crate::failures::count_failure;
use crate::find_communities::has_membership;
use crate::find_document::find_document;
use crate::find_gates::find_gates;
use crate::find_groups::has_group_member;
use crate::find_naming::find_naming;
use crate::find_number::number_of;
use crate::find_numbered::{has_community, has_org, has_person, person_of};
use crate::find_permissions::find_permissions;
use crate::find_reader::find_reader;
use crate::find_recipients::find_recipients;
use crate::find_sharing::find_sharing;
use crate::find_ties::find_ties;
use circle::command::{CircleCommand, CircleFacts};
use circle::directory::Person;
use circle::text::Text;
use hub_state::{LookUps, Naming, Reader, Recipients, Shared, ShelfFault, Ties};
use iodef_tree::Document;
use policy::{Gates, Permissions};
use sqlite::Alter;

impl<S: Alter> LookUps for SqlShelf<S> {
    ghost use Rattle.sqlite_trees.specs.View.{doubt};
    ghost use Rattle.sqlite.specs.Held.{state};
    ghost use Rattle.hub_store.specs.Content.{Has, MayLeave};

    ghost has = { λ shelf s. Has (state S.Store shelf.conn) s };

    ghost doubts = { λ shelf. doubt (state S.Store shelf.conn).is_clean };

    ghost failed = { λ shelf. shelf.failures };

    ghost may_remain = { λ shelf left. MayLeave (state S.Store shelf.conn) left };

    ghost sound = { λ shelf s has. has.sound };

    fn has_ended(&self) -> bool {
        self.failures == u64::MAX
    }

    fn circle_facts(
        &mut self,
        actor: &Person,
        command: &CircleCommand,
    ) -> Result<CircleFacts, ShelfFault> {
        self.may_ask()?;
        let found = find_circle_facts(&mut self.conn, self.alloc, actor, command);
        count_failure(&mut self.failures, found)
    }

    fn person_of(&mut self, number: u32) -> Result<Option<Person>, ShelfFault> {
        self.may_ask()?;
        let found = person_of(&mut self.conn, self.alloc, number);
        count_failure(&mut self.failures, found)
    }

    fn has_person(&mut self, number: u32) -> Result<bool, ShelfFault> {
        self.may_ask()?;
        let found = has_person(&mut self.conn, self.alloc, number);
        count_failure(&mut self.failures, found)
    }

    fn has_org(&mut self, number: u32) -> Result<bool, ShelfFault> {
        self.may_ask()?;
        let found = has_org(&mut self.conn, number);
        count_failure(&mut self.failures, found)
    }

    fn has_community(&mut self, number: u32) -> Result<bool, ShelfFault> {
        self.may_ask()?;
        let found = has_community(&mut self.conn, number);
        count_failure(&mut self.failures, found)
    }

    fn has_membership(&mut self, community: u32, org: u32) -> Result<bool, ShelfFault> {
        self.may_ask()?;
        let found = has_membership(&mut self.conn, community, org);
        count_failure(&mut self.failures, found)
    }

    fn has_group_member(&mut self, group: u32, org: u32) -> Result<bool, ShelfFault> {
        self.may_ask()?;
        let found = has_group_member(&mut self.conn, group, org);
        count_failure(&mut self.failures, found)
    }

    fn reader_of(&mut self, person: u32) -> Result<Option<Reader>, ShelfFault> {
        self.may_ask()?;
        let found = find_reader(&mut self.conn, self.alloc, person);
        count_failure(&mut self.failures, found)
    }

    fn ties_of(&mut self, org: u32, source: u32, named: Option<u32>) -> Result<Ties, ShelfFault> {
        self.may_ask()?;
        let found = find_ties(&mut self.conn, self.alloc, org, source, named);
        count_failure(&mut self.failures, found)
    }

    fn sharing_of(&mut self, incident: u32) -> Result<Option<Shared>, ShelfFault> {
        self.may_ask()?;
        let found = find_sharing(&mut self.conn, self.alloc, incident);
        count_failure(&mut self.failures, found)
    }

    fn incident_count(&mut self) -> Result<u32, ShelfFault> {
        self.may_ask()?;
        let found = incident_count(&mut self.conn);
        count_failure(&mut self.failures, found)
    }

    fn naming(&mut self, incident: u32) -> Result<Option<Naming>, ShelfFault> {
        self.may_ask()?;
        let found = find_naming(&mut self.conn, self.alloc, incident);
        count_failure(&mut self.failures, found)
    }

    fn stored_document(&mut self, incident: u32) -> Result<Option<Document>, ShelfFault> {
        self.may_ask()?;
        let found = find_document(&mut self.conn, self.alloc, incident);
        count_failure(&mut self.failures, found)
    }

    fn number_of(&mut self, source: u32, ident: &Text) -> Result<Option<u32>, ShelfFault> {
        self.may_ask()?;
        let found = number_of(&mut self.conn, self.alloc, source, ident);
        count_failure(&mut self.failures, found)
    }

    fn gates_of(&mut self, incident: u32) -> Result<Gates, ShelfFault> {
        self.may_ask()?;
        let found = find_gates(&mut self.conn, self.alloc, incident);
        count_failure(&mut self.failures, found)
    }

    fn recipients_of(&mut self, incident: u32) -> Result<Recipients, ShelfFault> {
        self.may_ask()?;
        let found = find_recipients(&mut self.conn, self.alloc, incident);
        count_failure(&mut self.failures, found)
    }

    fn permissions_of(&mut self, incident: u32) -> Result<Permissions, ShelfFault> {
        self.may_ask()?;
        let found = find_permissions(&mut self.conn, self.alloc, incident);
        count_failure(&mut self.failures, found)
    }
}

//! What the shelf looks up in its rows.
use crate::kept_rows::KeptRows;
use circle::command::{CircleCommand, CircleFacts};
use circle::directory::Person;
use circle::text::Text;
use hub_state::{LookUps, Naming, Reader, Recipients, Shared, Shelf, ShelfFault, Ties};
use iodef_tree::Document;
use policy::{Gates, Permissions};

impl<Sh: Shelf> LookUps for KeptRows<Sh> {
    ghost use Rattle.kept_rows.specs.Drawn.{Keeps};

    ghost has = { λ k s. Sh.has k.shelf s × Keeps k.rows k.sketches k.seen s };

    ghost doubts = { λ k. Sh.doubts k.shelf };

    ghost failed = { λ k. Sh.failed k.shelf };

    ghost may_remain = { λ k left. Sh.may_remain k.shelf left };

    ghost sound = { λ k s has. has.1.sound };

    fn has_ended(&self) -> bool {
        self.shelf.failures() == u64::MAX
    }

    fn circle_facts(
        &mut self,
        actor: &Person,
        command: &CircleCommand,
    ) -> Result<CircleFacts, ShelfFault> {
        self.may_ask()?;
        Ok(self.rows.directory().facts(actor, command))
    }

    fn person_of(&mut self, number: u32) -> Result<Option<Person>, ShelfFault> {
        self.may_ask()?;
        Ok(self.rows.find_person_of(number)?)
    }

    fn has_person(&mut self, number: u32) -> Result<bool, ShelfFault> {
        self.may_ask()?;
        Ok(self.rows.directory().has_person(number))
    }

    fn has_org(&mut self, number: u32) -> Result<bool, ShelfFault> {
        self.may_ask()?;
        Ok(self.rows.directory().has_org(number))
    }

    fn has_community(&mut self, number: u32) -> Result<bool, ShelfFault> {
        self.may_ask()?;
        Ok(self.rows.directory().has_community(number))
    }

    fn has_membership(&mut self, community: u32, org: u32) -> Result<bool, ShelfFault> {
        self.may_ask()?;
        Ok(self.rows.directory().has_membership(community, org))
    }

    fn has_group_member(&mut self, group: u32, org: u32) -> Result<bool, ShelfFault> {
        self.may_ask()?;
        Ok(self.rows.directory().has_group_member(group, org))
    }

    fn reader_of(&mut self, person: u32) -> Result<Option<Reader>, ShelfFault> {
        self.may_ask()?;
        Ok(self.rows.find_reader(person)?)
    }

    fn ties_of(&mut self, org: u32, source: u32, named: Option<u32>) -> Result<Ties, ShelfFault> {
        self.may_ask()?;
        Ok(self.rows.ties(org, source, named))
    }

    fn sharing_of(&mut self, incident: u32) -> Result<Option<Shared>, ShelfFault> {
        self.may_ask()?;
        Ok(self.rows.find_shared(incident)?)
    }

    fn incident_count(&mut self) -> Result<u32, ShelfFault> {
        self.may_ask()?;
        Ok(self.rows.incident_count())
    }

    fn naming(&mut self, incident: u32) -> Result<Option<Naming>, ShelfFault> {
        self.may_ask()?;
        Ok(self.rows.find_naming(incident)?)
    }

    fn stored_document(&mut self, incident: u32) -> Result<Option<Document>, ShelfFault> {
        self.shelf.document(incident)
    }

    fn number_of(&mut self, source: u32, ident: &Text) -> Result<Option<u32>, ShelfFault> {
        self.may_ask()?;
        Ok(self.rows.number_of(source, ident)?)
    }

    fn gates_of(&mut self, incident: u32) -> Result<Gates, ShelfFault> {
        self.may_ask()?;
        Ok(self.rows.case_gates(incident)?)
    }

    fn recipients_of(&mut self, incident: u32) -> Result<Recipients, ShelfFault> {
        self.may_ask()?;
        Ok(self.rows.copied_recipients(incident)?)
    }

    fn permissions_of(&mut self, incident: u32) -> Result<Permissions, ShelfFault> {
        self.may_ask()?;
        Ok(self.rows.case_permissions(incident)?)
    }
}

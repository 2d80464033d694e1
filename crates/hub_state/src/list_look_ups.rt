//! What the shelf in memory looks up.
use crate::list_shelf::ListShelf;
use crate::look_ups::{LookUps, Reader, Shared, Ties};
use crate::recipients::Recipients;
use crate::shelf::ShelfFault;
use crate::state::Naming;
use circle::command::{CircleCommand, CircleFacts};
use circle::directory::Person;
use circle::text::Text;
use iodef_tree::Document;
use policy::{Gates, Permissions};

impl LookUps for ListShelf {
    ghost use Rattle.std.specs.Prelude.{◌≡◌, Some};
    ghost use Rattle.hub_state.specs.Sound.{IsSound};

    ghost has = { λ shelf s. (shelf ≡ s) × IsSound s };

    ghost doubts = { λ _. 0 };

    ghost failed = { λ _. 0 };

    ghost may_remain = { λ shelf left. left ≡ Some shelf };

    ghost sound = { λ shelf s has. has.1 };

    fn has_ended(&self) -> bool {
        false
    }

    fn circle_facts(
        &mut self,
        actor: &Person,
        command: &CircleCommand,
    ) -> Result<CircleFacts, ShelfFault> {
        Ok(self.rows.directory().facts(actor, command))
    }

    fn person_of(&mut self, number: u32) -> Result<Option<Person>, ShelfFault> {
        Ok(self.rows.find_person_of(number)?)
    }

    fn has_person(&mut self, number: u32) -> Result<bool, ShelfFault> {
        Ok(self.rows.directory().has_person(number))
    }

    fn has_org(&mut self, number: u32) -> Result<bool, ShelfFault> {
        Ok(self.rows.directory().has_org(number))
    }

    fn has_community(&mut self, number: u32) -> Result<bool, ShelfFault> {
        Ok(self.rows.directory().has_community(number))
    }

    fn has_membership(&mut self, community: u32, org: u32) -> Result<bool, ShelfFault> {
        Ok(self.rows.directory().has_membership(community, org))
    }

    fn has_group_member(&mut self, group: u32, org: u32) -> Result<bool, ShelfFault> {
        Ok(self.rows.directory().has_group_member(group, org))
    }

    fn reader_of(&mut self, person: u32) -> Result<Option<Reader>, ShelfFault> {
        Ok(self.rows.find_reader(person)?)
    }

    fn ties_of(&mut self, org: u32, source: u32, named: Option<u32>) -> Result<Ties, ShelfFault> {
        Ok(self.rows.ties(org, source, named))
    }

    fn sharing_of(&mut self, incident: u32) -> Result<Option<Shared>, ShelfFault> {
        Ok(self.rows.find_shared(incident)?)
    }

    fn incident_count(&mut self) -> Result<u32, ShelfFault> {
        Ok(self.rows.incident_count())
    }

    fn naming(&mut self, incident: u32) -> Result<Option<Naming>, ShelfFault> {
        Ok(self.rows.find_naming(incident)?)
    }

    fn stored_document(&mut self, incident: u32) -> Result<Option<Document>, ShelfFault> {
        Ok(self.find_document(incident)?)
    }

    fn number_of(&mut self, source: u32, ident: &Text) -> Result<Option<u32>, ShelfFault> {
        Ok(self.rows.number_of(source, ident)?)
    }

    fn gates_of(&mut self, incident: u32) -> Result<Gates, ShelfFault> {
        Ok(self.rows.case_gates(incident)?)
    }

    fn recipients_of(&mut self, incident: u32) -> Result<Recipients, ShelfFault> {
        Ok(self.rows.copied_recipients(incident)?)
    }

    fn permissions_of(&mut self, incident: u32) -> Result<Permissions, ShelfFault> {
        Ok(self.rows.case_permissions(incident)?)
    }
}

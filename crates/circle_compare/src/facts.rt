//! The facts that a store finds about a command, by the plain program.
use crate::rows::World;
use circle::command::{CircleCommand, CircleFacts};
use circle::directory::Person;

fn as_count(len: usize) -> u32 {
    u32::try_from(len).unwrap_or(u32::MAX)
}

impl World {
    /// Returns the facts that a store would find about the command.
    pub fn facts(&self, actor: &Person, command: &CircleCommand) -> CircleFacts {
        let mut facts = CircleFacts {
            exists: true,
            may_extend: false,
            owner: false,
            target_is_owner: false,
            own_person: false,
            stands: false,
            count: 0,
        };
        self.find_of_administrators(&mut facts, command);
        self.find_of_coordinators(&mut facts, actor, command);
        facts
    }

    /// Finds the facts of an administrator's command.
    fn find_of_administrators(&self, facts: &mut CircleFacts, command: &CircleCommand) {
        match command {
            CircleCommand::AddOrg { name } => {
                facts.stands = self.has_org_named(name);
                facts.count = as_count(self.orgs.len());
            }
            CircleCommand::AddPerson { org, key, .. } => {
                facts.exists = self.has_org(*org);
                facts.stands = self.has_key(key);
                facts.count = as_count(self.accounts.len());
            }
            CircleCommand::SuspendPerson { person } => {
                facts.exists = self.has_person(*person);
                facts.stands = self.is_suspended(*person);
            }
            CircleCommand::AddClient { org, client }
            | CircleCommand::RemoveClient { org, client } => {
                facts.exists = self.has_orgs(*org, *client);
                facts.stands = self.has_client(*org, *client);
            }
            CircleCommand::AddCommunity { name } => {
                facts.stands = self.has_community_named(name);
                facts.count = as_count(self.communities.len());
            }
            CircleCommand::Join { community, org } | CircleCommand::Leave { community, org } => {
                facts.exists = self.has_both(*community, *org);
                facts.stands = self.has_membership(*community, *org);
            }
            CircleCommand::Link { community, other } | CircleCommand::Unlink { community, other } =>
                {
                    facts.exists = self.has_communities(*community, *other);
                    facts.stands = self.are_connected(*community, *other);
                }
            _ => {}
        }
    }

    /// Finds the facts of a coordinator's command, and of everybody's.
    fn find_of_coordinators(
        &self,
        facts: &mut CircleFacts,
        actor: &Person,
        command: &CircleCommand,
    ) {
        match command {
            CircleCommand::NewGroup { name, .. } => {
                facts.stands = self.has_group_named(actor.org, name);
                facts.count = as_count(self.groups.len());
            }
            CircleCommand::GroupAdd { group, org, .. } => {
                self.group_facts(facts, actor.org, *group);
                facts.exists = self.sees_in(actor.org, *group, *org);
                facts.stands = self.has_member(*group, *org);
            }
            CircleCommand::GroupRemove { group, org } => {
                self.group_facts(facts, actor.org, *group);
                facts.exists = self.sees_in(actor.org, *group, *org);
                facts.target_is_owner = self.owns(*org, *group);
                facts.stands = self.has_member(*group, *org);
            }
            CircleCommand::GroupActive { group, active } => {
                self.group_facts(facts, actor.org, *group);
                facts.exists = self.has_member(*group, actor.org);
                facts.stands = self.is_switched(*group, *active);
            }
            CircleCommand::Arrange { org, .. } | CircleCommand::CancelArrange { org } => {
                facts.exists = self.has_org(*org);
                facts.stands = self.has_arrangement(actor.org, *org);
            }
            CircleCommand::Nominate { person } | CircleCommand::Unnominate { person } => {
                facts.exists = self.has_person(*person);
                facts.own_person = self.is_person_of(*person, actor.org);
                facts.stands = self.is_nominated(*person);
            }
            CircleCommand::NewKey { key } => facts.stands = self.has_key(key),
            _ => {}
        }
    }

    fn group_facts(&self, facts: &mut CircleFacts, org: u32, group: u32) {
        facts.may_extend = self.may_extend(group, org);
        facts.owner = self.owns(org, group);
    }
}

//! The facts that a directory in memory finds out about a command. They are filled for a bad command too: a missing
//! row makes a fact false.
ghost use Rattle.std.specs.Prelude.{◌≡◌, ◌≤◌, min};
ghost use Rattle.circle.specs.Facts.{exists_in, may_extend_in, owns_in, target_owns_in, is_own_person, stands_in, count_in, facts_of};
ghost use Rattle.circle.specs.Sound.{IsSound};

use crate::rows::DirectoryRows;
use circle::command::{CircleCommand, CircleFacts};
use circle::directory::Person;

impl DirectoryRows {
    /// Returns the facts of the actor's command. The count is at most 4,294,967,295, which is more than a sound
    /// directory has.
    pub fn facts(&self, actor: &Person, command: &CircleCommand) -> CircleFacts
        ensures told { result ≡ record
            (facts_of self.now actor.now command.now) {
              count = min
                  (count_in self.now command.now) 4294967295;
            } }
        ensures exact { IsSound self.now → result ≡ facts_of self.now actor.now command.now }
    {
        CircleFacts {
            exists: self.knows(actor, command),
            may_extend: self.lets_extend(actor, command),
            owner: self.is_owned(actor, command),
            target_is_owner: self.is_targets(command),
            own_person: self.is_persons_own(actor, command),
            stands: self.stands(actor, command),
            count: self.count(command),
        }
    }

    /// Returns whether all that the command names is there.
    fn knows(&self, actor: &Person, command: &CircleCommand) -> bool
        ensures { result ≡ exists_in self.now actor.now command.now }
    {
        match command {
            CircleCommand::AddPerson { org, .. } => self.has_org(*org),
            CircleCommand::SuspendPerson { person }
            | CircleCommand::Nominate { person }
            | CircleCommand::Unnominate { person } => self.has_person(*person),
            CircleCommand::AddClient { org, client }
            | CircleCommand::RemoveClient { org, client } => {
                self.has_org(*org) && self.has_org(*client)
            }
            CircleCommand::Join { community, org } | CircleCommand::Leave { community, org } => {
                self.has_community(*community) && self.has_org(*org)
            }
            CircleCommand::Link { community, other } | CircleCommand::Unlink { community, other } =>
                { self.has_community(*community) && self.has_community(*other) }
            CircleCommand::GroupAdd { group, org, .. }
            | CircleCommand::GroupRemove { group, org } => {
                self.has_group_member(*group, actor.org) && self.has_org(*org)
            }
            CircleCommand::GroupActive { group, .. } => self.has_group_member(*group, actor.org),
            CircleCommand::Arrange { org, .. } | CircleCommand::CancelArrange { org } => {
                self.has_org(*org)
            }
            CircleCommand::AddOrg { .. }
            | CircleCommand::AddCommunity { .. }
            | CircleCommand::NewGroup { .. }
            | CircleCommand::NewKey { .. } => true,
        }
    }

    /// Returns whether the actor's organisation may extend the group.
    fn lets_extend(&self, actor: &Person, command: &CircleCommand) -> bool
        ensures { result ≡ may_extend_in self.now actor.now command.now }
    {
        match command {
            CircleCommand::GroupAdd { group, .. }
            | CircleCommand::GroupRemove { group, .. }
            | CircleCommand::GroupActive { group, .. } => self.has_extender(*group, actor.org),
            _ => false,
        }
    }

    /// Returns whether the actor's organisation owns the group.
    fn is_owned(&self, actor: &Person, command: &CircleCommand) -> bool
        ensures { result ≡ owns_in self.now actor.now command.now }
    {
        match command {
            CircleCommand::GroupAdd { group, .. }
            | CircleCommand::GroupRemove { group, .. }
            | CircleCommand::GroupActive { group, .. } => self.has_group_of(*group, actor.org),
            _ => false,
        }
    }

    /// Returns whether the organisation that is named owns the group.
    fn is_targets(&self, command: &CircleCommand) -> bool
        ensures { result ≡ target_owns_in self.now command.now }
    {
        match command {
            CircleCommand::GroupRemove { group, org } => self.has_group_of(*group, *org),
            _ => false,
        }
    }

    /// Returns whether the person is of the actor's organisation.
    fn is_persons_own(&self, actor: &Person, command: &CircleCommand) -> bool
        ensures { result ≡ is_own_person self.now actor.now command.now }
    {
        match command {
            CircleCommand::Nominate { person } | CircleCommand::Unnominate { person } => {
                self.has_person_of(*person, actor.org)
            }
            _ => false,
        }
    }

    /// Returns whether the row, name, key or flag is there that the command would bring about, or take back.
    fn stands(&self, actor: &Person, command: &CircleCommand) -> bool
        ensures { result ≡ stands_in self.now actor.now command.now }
    {
        match command {
            CircleCommand::AddOrg { name } => self.has_org_named(name.as_str()),
            CircleCommand::AddPerson { key, .. } | CircleCommand::NewKey { key } => {
                self.has_key(key)
            }
            CircleCommand::SuspendPerson { person } => self.has_suspended(*person),
            CircleCommand::AddClient { org, client }
            | CircleCommand::RemoveClient { org, client } => self.has_client(*org, *client),
            CircleCommand::AddCommunity { name } => self.has_community_named(name.as_str()),
            CircleCommand::Join { community, org } | CircleCommand::Leave { community, org } => {
                self.has_membership(*community, *org)
            }
            CircleCommand::Link { community, other } | CircleCommand::Unlink { community, other } =>
                { self.has_connection((*community).min(*other), (*community).max(*other)) }
            CircleCommand::NewGroup { name, .. } => {
                self.has_group_named(actor.org, name.as_str())
            }
            CircleCommand::GroupAdd { group, org, .. }
            | CircleCommand::GroupRemove { group, org } => self.has_group_member(*group, *org),
            CircleCommand::GroupActive { group, active } => self.has_group_being(*group, *active),
            CircleCommand::Arrange { org, .. } | CircleCommand::CancelArrange { org } => {
                self.has_arrangement(actor.org, *org)
            }
            CircleCommand::Nominate { person } | CircleCommand::Unnominate { person } => {
                self.has_nominated(*person)
            }
        }
    }

    /// Returns how many rows there are of the kind that the command numbers.
    fn count(&self, command: &CircleCommand) -> u32
        ensures told { result ≡ min (count_in self.now command.now) 4294967295 }
        ensures exact { IsSound self.now → result ≡ count_in self.now command.now }
    {
        match command {
            CircleCommand::AddOrg { .. } => as_count(self.sets.orgs.len()),
            CircleCommand::AddPerson { .. } => as_count(self.sets.accounts.len()),
            CircleCommand::AddCommunity { .. } => as_count(self.sets.communities.len()),
            CircleCommand::NewGroup { .. } => as_count(self.sets.groups.len()),
            _ => 0,
        }
    }
}

/// Returns a number of rows as a u32, at most its greatest value.
fn as_count(rows: usize) -> u32
    ensures told { result ≡ min rows 4294967295 }
    ensures exact { rows ≤ 4294967295 → result ≡ rows }
{
    if rows <= u32::MAX as usize {
        rows as u32
    } else {
        u32::MAX
    }
}

//! The reasons for which a command is refused, from the rows only.
use crate::rows::World;
use circle::command::CircleCommand;
use circle::directory::{Person, Role};
use circle::refusal::Code;
use circle::text::Text;

/// A condition, and the refusal if it holds.
type Ground = (bool, Code, &'static str);

/// Returns the first ground that holds.
fn first(grounds: &[Ground]) -> Option<(Code, &'static str)> {
    for (holds, code, detail) in grounds {
        if *holds {
            return Some((*code, *detail));
        }
    }
    None
}

/// Returns the code of an answer, if it is a refusal.
pub fn code_of(told: Option<(Code, &'static str)>) -> Option<Code> {
    let (code, _) = told?;
    Some(code)
}

fn is_bad_name(text: &Text) -> bool {
    let bytes = text.as_str().as_bytes();
    bytes.is_empty() || 128 < bytes.len() || bytes.iter().any(|b| b.is_ascii_control())
}

impl World {
    /// Returns why an administrator's command on organisations and persons is refused.
    fn refusal_of_members(
        &self,
        actor: &Person,
        command: &CircleCommand,
    ) -> Option<(Code, &'static str)> {
        let role = (actor.role != Role::Administrator, Code::W1, "");
        match command {
            CircleCommand::AddOrg { name } => first(&[
                role,
                (is_bad_name(name), Code::B1, "name"),
                (self.has_org_named(name), Code::S1, ""),
                (self.orgs.len() >= 1000, Code::L1, ""),
            ]),
            CircleCommand::AddPerson { org, name, key, .. } => first(&[
                role,
                (is_bad_name(name), Code::B1, "name"),
                (!self.has_org(*org), Code::N2, ""),
                (self.has_key(key), Code::S1, ""),
                (self.accounts.len() >= 10_000, Code::L1, ""),
            ]),
            CircleCommand::SuspendPerson { person } => first(&[
                role,
                (*person == actor.number, Code::B1, "person"),
                (!self.has_person(*person), Code::N2, ""),
                (self.is_suspended(*person), Code::S1, ""),
            ]),
            _ => None,
        }
    }

    /// Returns why an administrator's command on clients, or on the members of communities, is refused.
    fn refusal_of_pairs(
        &self,
        actor: &Person,
        command: &CircleCommand,
    ) -> Option<(Code, &'static str)> {
        let role = (actor.role != Role::Administrator, Code::W1, "");
        match command {
            CircleCommand::AddClient { org, client } => first(&[
                role,
                (*org == *client, Code::B1, "client"),
                (!self.has_orgs(*org, *client), Code::N2, ""),
                (self.has_client(*org, *client), Code::S1, ""),
            ]),
            CircleCommand::RemoveClient { org, client } => first(&[
                role,
                (*org == *client, Code::B1, "client"),
                (!self.has_orgs(*org, *client), Code::N2, ""),
                (!self.has_client(*org, *client), Code::S2, ""),
            ]),
            CircleCommand::Join { community, org } => first(&[
                role,
                (!self.has_both(*community, *org), Code::N2, ""),
                (self.has_membership(*community, *org), Code::S1, ""),
            ]),
            CircleCommand::Leave { community, org } => first(&[
                role,
                (!self.has_both(*community, *org), Code::N2, ""),
                (!self.has_membership(*community, *org), Code::S2, ""),
            ]),
            _ => None,
        }
    }

    /// Returns why an administrator's command on communities is refused.
    fn refusal_of_communities(
        &self,
        actor: &Person,
        command: &CircleCommand,
    ) -> Option<(Code, &'static str)> {
        let role = (actor.role != Role::Administrator, Code::W1, "");
        match command {
            CircleCommand::AddCommunity { name } => first(&[
                role,
                (is_bad_name(name), Code::B1, "name"),
                (self.has_community_named(name), Code::S1, ""),
                (self.communities.len() >= 1000, Code::L1, ""),
            ]),
            CircleCommand::Link { community, other } => first(&[
                role,
                (*community == *other, Code::B1, "other"),
                (!self.has_communities(*community, *other), Code::N2, ""),
                (self.are_connected(*community, *other), Code::S1, ""),
            ]),
            CircleCommand::Unlink { community, other } => first(&[
                role,
                (*community == *other, Code::B1, "other"),
                (!self.has_communities(*community, *other), Code::N2, ""),
                (!self.are_connected(*community, *other), Code::S2, ""),
            ]),
            _ => None,
        }
    }

    /// Returns why a coordinator's command on groups is refused.
    fn refusal_of_groups(
        &self,
        actor: &Person,
        command: &CircleCommand,
    ) -> Option<(Code, &'static str)> {
        let role = (actor.role != Role::Coordinator, Code::W1, "");
        match command {
            CircleCommand::NewGroup {
                name,
                releasability,
            } => first(&[
                role,
                (is_bad_name(name), Code::B1, "name"),
                (
                    512 < releasability.as_str().len(),
                    Code::B1,
                    "releasability",
                ),
                (self.has_group_named(actor.org, name), Code::S1, ""),
                (self.groups.len() >= 1000, Code::L1, ""),
            ]),
            CircleCommand::GroupAdd { group, org, .. } => first(&[
                role,
                (!self.sees_in(actor.org, *group, *org), Code::N2, ""),
                (!self.may_extend(*group, actor.org), Code::W2, ""),
                (self.has_member(*group, *org), Code::S1, ""),
            ]),
            CircleCommand::GroupRemove { group, org } => first(&[
                role,
                (!self.sees_in(actor.org, *group, *org), Code::N2, ""),
                (!self.owns(actor.org, *group), Code::W2, ""),
                (self.owns(*org, *group), Code::W2, ""),
                (!self.has_member(*group, *org), Code::S2, ""),
            ]),
            CircleCommand::GroupActive { group, active } => first(&[
                role,
                (!self.has_member(*group, actor.org), Code::N2, ""),
                (!self.owns(actor.org, *group), Code::W2, ""),
                (self.is_switched(*group, *active), Code::S1, ""),
            ]),
            _ => None,
        }
    }

    /// Returns why a coordinator's command on arrangements and nominations is refused.
    fn refusal_of_trust(
        &self,
        actor: &Person,
        command: &CircleCommand,
    ) -> Option<(Code, &'static str)> {
        let role = (actor.role != Role::Coordinator, Code::W1, "");
        match command {
            CircleCommand::Arrange { org, .. } => first(&[
                role,
                (*org == actor.org, Code::B1, "org"),
                (!self.has_org(*org), Code::N2, ""),
                (self.has_arrangement(actor.org, *org), Code::S1, ""),
            ]),
            CircleCommand::CancelArrange { org } => first(&[
                role,
                (!self.has_org(*org), Code::N2, ""),
                (!self.has_arrangement(actor.org, *org), Code::S2, ""),
            ]),
            CircleCommand::Nominate { person } => first(&[
                role,
                (!self.has_person(*person), Code::N2, ""),
                (!self.is_person_of(*person, actor.org), Code::W3, ""),
                (self.is_nominated(*person), Code::S1, ""),
            ]),
            CircleCommand::Unnominate { person } => first(&[
                role,
                (!self.has_person(*person), Code::N2, ""),
                (!self.is_person_of(*person, actor.org), Code::W3, ""),
                (!self.is_nominated(*person), Code::S2, ""),
            ]),
            _ => None,
        }
    }

    /// Returns why a new key is refused; each role may ask for one.
    fn refusal_of_keys(&self, command: &CircleCommand) -> Option<(Code, &'static str)> {
        match command {
            CircleCommand::NewKey { key } => first(&[(self.has_key(key), Code::S1, "")]),
            _ => None,
        }
    }

    /// Returns why the command is refused, from the rows only: the code and its detail.
    pub fn refusal(&self, actor: &Person, command: &CircleCommand) -> Option<(Code, &'static str)> {
        self.refusal_of_members(actor, command)
            .or(self.refusal_of_pairs(actor, command))
            .or(self.refusal_of_communities(actor, command))
            .or(self.refusal_of_groups(actor, command))
            .or(self.refusal_of_trust(actor, command))
            .or(self.refusal_of_keys(command))
    }
}

//! Judges a command by its facts: why it is refused, or what it changes.
ghost use Rattle.std.specs.Prelude.{◌≡◌, ◌+◌, None, IfOk, IfErr, OnOk, option_map};
ghost use Rattle.circle.specs.Outcomes.{RefusedAs, bare};
ghost use Rattle.circle.specs.Directory.{Directory};
ghost use Rattle.circle.specs.Facts.{facts_of};
ghost use Rattle.circle.specs.Refusals.{refusal_of};
ghost use Rattle.circle.specs.Aftermath.{edit_of, edited, state_after};
ghost use Rattle.circle.specs.Judgement.{refusal_by, objection_of, is_allowed, lacks_right, is_strange, is_removal, limit_of};
ghost use Rattle.circle.specs.Sound.{IsSound};

use crate::command::{CircleCommand, CircleFacts, Edit};
use crate::directory::{Person, Role};
use crate::edit::Unfit;
use crate::refusal::{Code, Refusal};
use crate::{COMMUNITY_LIMIT, GROUP_LIMIT, ORG_LIMIT, PERSON_LIMIT};
use std::alloc::Global;

/// Returns the whole change that the actor's command makes. Fails with the refusal: the first ground that the facts
/// give, whatever facts they are. It is the refusal of each directory with these facts, and the change leads each
/// sound one to its next state. Only a sound directory has numbers without gaps, so that the count plus one is the
/// next number.
///
/// Want of memory is `F2`, which may come in place of any answer.
pub fn judge(
    alloc: Global,
    actor: &Person,
    facts: &CircleFacts,
    command: &CircleCommand,
) -> Result<Edit, Refusal>
    ensures refused { (d : Directory) → facts.now ≡ facts_of d actor.now command.now →
        IfErr result (RefusedAs (refusal_of d actor.now command.now)) }
    ensures allowed { (d : Directory) → facts.now ≡ facts_of d actor.now command.now →
        OnOk result (refusal_of d actor.now command.now ≡ None) }
    ensures refused_by { IfErr result (RefusedAs (refusal_by facts.now actor.now command.now)) }
    ensures allowed_by { OnOk result (refusal_by facts.now actor.now command.now ≡ None) }
    ensures edit { IfOk result (λ edit. edit ≡
        edit_of (facts.now.count + 1) actor.now command.now) }
    ensures made { (d : Directory) → IsSound d → facts.now ≡ facts_of d actor.now command.now →
        IfOk result (λ edit. edited edit d ≡ state_after d actor.now command.now) }
{
    judge_by_facts(alloc, actor, facts, command)
}

/// Judges by the facts only, whatever the directory is.
fn judge_by_facts(
    alloc: Global,
    actor: &Person,
    facts: &CircleFacts,
    command: &CircleCommand,
) -> Result<Edit, Refusal>
    ensures refused { IfErr result (RefusedAs (refusal_by facts.now actor.now command.now)) }
    ensures allowed { OnOk result (refusal_by facts.now actor.now command.now ≡ None) }
    ensures edit { IfOk result (λ edit. edit ≡
        edit_of (facts.now.count + 1) actor.now command.now) }
{
    if !command.is_allowed(actor.role) {
        return Err(Refusal::bare(alloc, Code::W1));
    }
    // The edit before the facts, since making its names is the only test of them. So a name may be allocated for a
    // command that is refused afterwards; `F2` is then a right answer.
    let edit = match command.edit(alloc, actor, facts.count.saturating_add(1)) {
        Ok(edit) => edit,
        Err(Unfit::BadField(field)) => return Err(Refusal::new(alloc, Code::B1, field)),
        Err(Unfit::NoMemory) => return Err(Refusal::bare(alloc, Code::F2)),
    };
    match command.objection(facts) {
        Some(code) => Err(Refusal::bare(alloc, code)),
        None => Ok(edit),
    }
}

impl CircleCommand {
    /// Returns whether the role allows the command.
    fn is_allowed(&self, role: Role) -> bool
        ensures { result ≡ is_allowed self.now role }
    {
        match self {
            CircleCommand::AddOrg { .. }
            | CircleCommand::AddPerson { .. }
            | CircleCommand::SuspendPerson { .. }
            | CircleCommand::AddClient { .. }
            | CircleCommand::RemoveClient { .. }
            | CircleCommand::AddCommunity { .. }
            | CircleCommand::Join { .. }
            | CircleCommand::Leave { .. }
            | CircleCommand::Link { .. }
            | CircleCommand::Unlink { .. } => matches!(role, Role::Administrator),
            CircleCommand::NewKey { .. } => true,
            _ => matches!(role, Role::Coordinator),
        }
    }

    /// Returns the first ground from `N2` on that the facts give against a command with good arguments.
    fn objection(&self, facts: &CircleFacts) -> Option<Code>
        ensures { option_map bare result ≡ objection_of facts.now self.now }
    {
        if !facts.exists {
            return Some(Code::N2);
        }
        if self.lacks_right(facts) {
            return Some(Code::W2);
        }
        if self.is_strange(facts) {
            return Some(Code::W3);
        }
        if self.is_removal() {
            if !facts.stands {
                return Some(Code::S2);
            }
        } else if facts.stands {
            return Some(Code::S1);
        }
        if facts.count >= self.limit() {
            return Some(Code::L1);
        }
        None
    }

    /// Returns whether the actor's organisation may not change the group so.
    fn lacks_right(&self, facts: &CircleFacts) -> bool
        ensures { result ≡ lacks_right self.now facts.now }
    {
        match self {
            CircleCommand::GroupAdd { .. } => !facts.may_extend,
            CircleCommand::GroupRemove { .. } => !facts.owner || facts.target_is_owner,
            CircleCommand::GroupActive { .. } => !facts.owner,
            _ => false,
        }
    }

    /// Returns whether the person isn't of the actor's organisation.
    fn is_strange(&self, facts: &CircleFacts) -> bool
        ensures { result ≡ is_strange self.now facts.now }
    {
        match self {
            CircleCommand::Nominate { .. } | CircleCommand::Unnominate { .. } => !facts.own_person,
            _ => false,
        }
    }

    /// Returns whether the command takes something back.
    fn is_removal(&self) -> bool
        ensures { result ≡ is_removal self.now }
    {
        matches!(
            self,
            CircleCommand::RemoveClient { .. }
                | CircleCommand::Leave { .. }
                | CircleCommand::Unlink { .. }
                | CircleCommand::GroupRemove { .. }
                | CircleCommand::CancelArrange { .. }
                | CircleCommand::Unnominate { .. }
        )
    }

    /// Returns the limit of the kind of row that the command numbers.
    fn limit(&self) -> u32
        ensures { result ≡ limit_of self.now }
    {
        match self {
            CircleCommand::AddOrg { .. } => ORG_LIMIT,
            CircleCommand::AddPerson { .. } => PERSON_LIMIT,
            CircleCommand::AddCommunity { .. } => COMMUNITY_LIMIT,
            // For a command that numbers nothing the count is 0, so any limit lets it pass.
            _ => GROUP_LIMIT,
        }
    }
}

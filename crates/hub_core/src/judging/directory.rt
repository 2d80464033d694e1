//! The directory's commands, which circle judges.
ghost use Rattle.std.specs.Prelude.{◌≡◌, ◌+◌, IfErr, IfOk, None, OnOk, map};
ghost use Rattle.circle.specs.Outcomes.{RefusedAs};
ghost use Rattle.circle.specs.Aftermath.{edit_of, rows_of};
ghost use Rattle.circle.specs.Judgement.{refusal_by};
ghost use Rattle.hub_state.specs.declared.edit.Edit.TheVariants as edit;

use circle::command::{CircleCommand, CircleFacts, Edit as Change, RowEdit};
use circle::directory::{GroupMember, Person};
use circle::judge::judge;
use circle::refusal::{Code, Refusal};
use hub_state::Edit;
use std::alloc::{AllocFailed, Global};

/// Returns one edit for each row that circle changes, or fails with its refusal.
pub fn judge_command(
    alloc: Global,
    actor: &Person,
    facts: &CircleFacts,
    command: &CircleCommand,
) -> Result<Vec<Edit>, Refusal>
    ensures refused { IfErr result (RefusedAs (refusal_by facts.now actor.now command.now)) }
    ensures allowed { OnOk result (refusal_by facts.now actor.now command.now ≡ None) }
    ensures edits { IfOk result (λ edits.
        edits.items ≡
        map edit.Directory (rows_of (edit_of (facts.now.count + 1) actor.now command.now))) }
{
    let change = judge(alloc, actor, facts, command)?;
    match rows(alloc, change) {
        Ok(edits) => Ok(edits),
        Err(_) => Err(Refusal::bare(alloc, Code::F2)),
    }
}

/// One edit for each row. A new group has two: the group, and its owner as a member that may extend it.
fn rows(alloc: Global, change: Change) -> Result<Vec<Edit>, AllocFailed<Edit>>
    ensures { IfOk result (λ edits. edits.items ≡ map edit.Directory (rows_of change)) }
{
    let mut edits = Vec::new(alloc);
    match change {
        Change::Row(row) => edits.push(Edit::Directory(row))?,
        Change::Found(group) => {
            let founder = GroupMember {
                group: group.number,
                org: group.owner,
                extend: true,
            };
            edits.push(Edit::Directory(RowEdit::PutGroup(group)))?;
            edits.push(Edit::Directory(RowEdit::PutGroupMember(founder)))?;
        }
    }
    Ok(edits)
}

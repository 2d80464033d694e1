//! Requests that change something.
ghost use Rattle.std.specs.Prelude.{◌≡◌, ◌<◌, ◌^◌, true, false, IfOk, IfErr};
ghost use Rattle.circle.specs.Sound.{IsOrg};
ghost use Rattle.hub_core.specs.State.{State};
ghost use Rattle.hub_core.specs.Sound.{IsSound};
ghost use Rattle.hub_core.specs.Refusals.{state_after};
ghost use Rattle.hub_core.specs.Judgement as spec;
ghost use Rattle.hub_core.specs.Laws.{is_reading};
ghost use Rattle.hub_core.specs.Shelves.{KeepsContent};
ghost use Rattle.hub.specs.Serving.{IsCounted, IsDoneAsDue, due_to, gives_numbers, is_made, is_made_by, made_reply, number_put, numbers_put};

use crate::asker::Asker;
use crate::fault::{ample, refuse};
use circle::command::{CircleCommand, RowEdit};
use hub_core::{Code, Edit, Facts, Refusal, Reply, Request, Shelf, ShelfFault, judge, lacks_role};
use policy::Numbers;
use std::alloc::{AllocError, Global};

/// The number of the new row that an edit puts, if the reply has such numbers.
fn new_number(edit: &Edit) -> Option<u32>
    ensures { result ≡ number_put edit.now }
{
    match edit {
        Edit::PutIncident(incident) => Some(incident.naming.number),
        Edit::Directory(RowEdit::PutOrg(org)) => Some(org.number),
        Edit::Directory(RowEdit::PutAccount(account)) => Some(account.person.number),
        Edit::Directory(RowEdit::PutCommunity(community)) => Some(community.number),
        Edit::Directory(RowEdit::PutGroup(group)) => Some(group.number),
        _ => None,
    }
}

fn new_numbers(alloc: Global, edits: &[Edit]) -> Result<Vec<u32>, AllocError>
    ensures { IfOk result (λ numbers. numbers.items ≡ numbers_put edits.now) }
{
    let mut numbers = Vec::new(alloc);
    for edit in edits {
        if let Some(number) = new_number(edit) {
            numbers.push(number)?;
        }
    }
    Ok(numbers)
}

fn tells_numbers(request: &Request) -> bool
    ensures { result ≡ gives_numbers request.now }
{
    match request {
        Request::Post(_) => true,
        Request::Circle(command) => matches!(
            command,
            CircleCommand::AddOrg { .. }
                | CircleCommand::AddPerson { .. }
                | CircleCommand::AddCommunity { .. }
                | CircleCommand::NewGroup { .. }
        ),
        _ => false,
    }
}

fn next_revision(facts: &Facts) -> u32
    ensures { spec.next_revision facts.now.incident < 2 ^ 32 →
        result ≡ spec.next_revision facts.now.incident }
{
    match &facts.incident {
        None => 1,
        Some(known) => known.revision.saturating_add(1),
    }
}

/// The reply to a change.
fn reply_to(
    alloc: Global,
    facts: &Facts,
    request: &Request,
    edits: &[Edit],
) -> Result<Reply, ShelfFault>
    ensures reply { spec.next_revision facts.now.incident < 2 ^ 32 →
        IfOk result (λ reply. reply ≡ made_reply facts.now request.now edits.now) }
    ensures made { IfOk result (λ reply. is_made reply ≡ true) }
    ensures fault { IfErr result (λ e. e ≡ ShelfFault.NoMemory) }
{
    if let Request::Replace(_) = request {
        return Ok(Reply::Revision(next_revision(facts)));
    }
    if tells_numbers(request) {
        let numbers = ample(new_numbers(alloc, edits))?;
        Ok(Reply::Numbers(Numbers::new(numbers)))
    } else {
        Ok(Reply::Done)
    }
}

/// Makes the change that a person asks for, unless it is refused. The reply is made before the change, so `F2` always
/// means that nothing changed.
pub fn change<Sh: Shelf>(
    shelf: &mut Sh,
    alloc: Global,
    asker: Asker<'_>,
    request: &Request,
) -> Result<Reply, ShelfFault>
    ensures step { Sh.doubts shelf.new ≡ 0 → (s : State) → Sh.has shelf.old s → IsSound s →
        IsOrg s.directory.orgs asker.entry.person.now.org → is_reading request.now ≡ false →
        IsDoneAsDue Sh.has Sh.may_remain shelf.old shelf.new s
        (due_to s asker.entry.now asker.entry.person.now request.now)
        (state_after s asker.entry.person.now request.now) result }
    ensures counted { IsCounted Sh.doubts Sh.failed shelf.old shelf.new result }
    ensures kept { is_made_by result ≡ false →
        KeepsContent Sh.has Sh.doubts Sh.failed Sh.may_remain shelf.old shelf.new }
{
    // a request that the role forbids is refused before its body or the shelf is read
    if lacks_role(asker.person, request) {
        return refuse(Refusal::bare(alloc, Code::W1));
    }
    let facts = shelf.facts(asker.person, request)?;
    let edits = match judge(alloc, asker.person, &facts, request) {
        Ok(edits) => edits,
        Err(refusal) => return refuse(refusal),
    };
    let reply = reply_to(alloc, &facts, request, edits.as_slice())?;
    match shelf.apply(edits.as_slice()) {
        Ok(()) => Ok(reply),
        Err(fault) => Err(fault),
    }
}

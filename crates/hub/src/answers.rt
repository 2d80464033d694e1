//! Finding the caller, and answering a request.
ghost use Rattle.std.specs.Prelude.{◌≡◌, false};
ghost use Rattle.circle.specs.Sound.{IsOrg};
ghost use Rattle.hub_core.specs.State.{State};
ghost use Rattle.hub_core.specs.Sound.{IsSound};
ghost use Rattle.hub_core.specs.Refusals.{state_after};
ghost use Rattle.hub_core.specs.Shelves.{KeepsContent};
ghost use Rattle.hub.specs.inner.Asking.{IsThere};
ghost use Rattle.hub.specs.Replies.{reply_of};
ghost use Rattle.hub.specs.Machine.{state_left};
ghost use Rattle.hub.specs.Serving.{IsCounted, IsDoneAsDue, due_to, is_made_by};

use crate::asker::{Asker, caller_by};
use crate::change::change;
use crate::key::Key;
use crate::reads::read;
use hub_core::{Code, Refusal, Reply, Request, Shelf, ShelfFault};
use std::alloc::Global;

/// Answers a person's request.
fn answer_person<Sh: Shelf>(
    shelf: &mut Sh,
    alloc: Global,
    asker: Asker<'_>,
    request: &Request,
) -> Result<Reply, ShelfFault>
    ensures step { Sh.doubts shelf.new ≡ 0 → (s : State) → Sh.has shelf.old s → IsSound s →
        IsThere s asker.entry.person.now → IsOrg s.directory.orgs asker.entry.person.now.org →
        IsDoneAsDue Sh.has Sh.may_remain shelf.old shelf.new s
        (due_to s asker.entry.now asker.entry.person.now request.now)
        (state_after s asker.entry.person.now request.now) result }
    ensures counted { IsCounted Sh.doubts Sh.failed shelf.old shelf.new result }
    ensures kept { is_made_by result ≡ false →
        KeepsContent Sh.has Sh.doubts Sh.failed Sh.may_remain shelf.old shelf.new }
{
    match read(shelf, alloc, asker, request)? {
        Some(reply) => Ok(reply),
        None => change(shelf, alloc, asker, request),
    }
}

/// Answers a request with this key: `K1` if the key is nobody's.
pub fn answer_key<Sh: Shelf>(
    shelf: &mut Sh,
    alloc: Global,
    now: i64,
    key: &Key,
    request: &Request,
) -> Result<Reply, ShelfFault>
    ensures step { Sh.doubts shelf.new ≡ 0 → (s : State) → Sh.has shelf.old s → IsSound s →
        IsDoneAsDue Sh.has Sh.may_remain shelf.old shelf.new s (reply_of s now key.now request.now)
        (state_left s key.now request.now) result }
    ensures counted { IsCounted Sh.doubts Sh.failed shelf.old shelf.new result }
    ensures kept { is_made_by result ≡ false →
        KeepsContent Sh.has Sh.doubts Sh.failed Sh.may_remain shelf.old shelf.new }
{
    match caller_by(shelf, key)? {
        None => Ok(Reply::Refused(Refusal::bare(alloc, Code::K1))),
        Some(person) => {
            let asker = Asker {
                person: &person,
                now,
            };
            answer_person(shelf, alloc, asker, request)
        }
    }
}

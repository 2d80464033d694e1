//! One request to two hubs.
ghost use Rattle.std.specs.Prelude.{◌≡◌, IfOk, true};
ghost use Rattle.circle.specs.declared.directory.Account.{Account};
ghost use Rattle.hub_core.specs.State.{State};
ghost use Rattle.hub_core.specs.Shelves.{HasFailed};
ghost use Rattle.hub_core.specs.Sound.{IsSound};
ghost use Rattle.hub.specs.Alike.{IsAlike, is_answered_alike};
ghost use Rattle.hub.specs.declared.key.Key.TheVariants.{Digest};
ghost use Rattle.hub_state.specs.declared.reply.Reply.{Reply as TheReply};
ghost use Rattle.hub_http.specs.Alike.{HasStepped, IsWrittenAlike};
ghost use Rattle.hub_http.specs.Replies.{reply_text};

use crate::reply::reply_bytes;
use hub::{Hub, Key};
use hub_core::{Reply, Request, Shelf};
use std::alloc::{AllocError, Global};

/// Returns the bytes of two replies.
fn bytes_of_both(
    alloc: Global,
    one: &Reply,
    other: &Reply,
) -> Result<(Vec<u8>, Vec<u8>), AllocError>
    ensures { IfOk result (λ both.
        (both.0.items ≡ reply_text one.now) × (both.1.items ≡ reply_text other.now)) }
{
    Ok((reply_bytes(alloc, one)?, reply_bytes(alloc, other)?))
}

/// Asks two hubs the same and returns the bytes of both replies. Each hub takes one step, also if the memory for the
/// bytes doesn't suffice, and its bytes are the reply of that step. If the two worlds are alike for the caller, and the
/// request reads incidents, groups or the caller, the bytes are the same, unless one of the requests was given up.
pub fn told_by_both<A: Shelf, B: Shelf>(
    alloc: Global,
    first: &mut Hub<A>,
    second: &mut Hub<B>,
    now: i64,
    key: &Key,
    request: &Request,
) -> Result<(Vec<u8>, Vec<u8>), AllocError>
    ensures alike { A.doubts first.new ≡ 0 → B.doubts second.new ≡ 0 → (s t : State) (a : Account) →
        A.has first.old s → B.has second.old t →
        IsSound s → IsSound t → IsAlike now a s t → key.now ≡ Digest a.key →
        is_answered_alike request.now ≡ true →
        IfOk result (λ both. IsWrittenAlike both.0.items both.1.items) }
    ensures first { A.doubts first.new ≡ 0 → (s : State) → A.has first.old s → IsSound s →
        (reply : TheReply) ×
        HasStepped (A.has first.new) (HasFailed (A.failed first.old) (A.failed first.new)) s
        (now, key.now, request.now) reply
        × IfOk result (λ both. both.0.items ≡ reply_text reply) }
    ensures second { B.doubts second.new ≡ 0 → (t : State) → B.has second.old t → IsSound t →
        (reply : TheReply) ×
        HasStepped (B.has second.new) (HasFailed (B.failed second.old) (B.failed second.new)) t
        (now, key.now, request.now) reply
        × IfOk result (λ both. both.1.items ≡ reply_text reply) }
{
    let one = first.answer(alloc, now, key, request);
    let other = second.answer(alloc, now, key, request);
    bytes_of_both(alloc, &one, &other)
}

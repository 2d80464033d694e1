//! The hub over a shelf: one request, and a list of them.
ghost use Rattle.std.specs.Prelude.{◌≡◌, ◌⊎◌, ◌<◌, ◌≤◌, ◌↔◌, Option, Some, true, false, IsTrue, IfOk, OnErr};
ghost use Rattle.circle.specs.Outcomes.{bare};
ghost use Rattle.circle.specs.declared.directory.Account.{Account};
ghost use Rattle.circle.specs.declared.refusal.Code.TheVariants.{F1};
ghost use Rattle.hub_core.specs.State.{State};
ghost use Rattle.hub_core.specs.Sound.{IsSound};
ghost use Rattle.hub_state.specs.declared.reply.Reply.TheVariants.{Refused};
ghost use Rattle.hub_core.specs.Shelves.{HasFailed, KeepsContent};
ghost use Rattle.hub.specs.Alike.{IsAlike, is_answered_alike};
ghost use Rattle.hub.specs.Faults.{AreCounted, failures_told};
ghost use Rattle.hub.specs.Machine.{IsGivenUp, IsRun, IsStep, state_left};
ghost use Rattle.hub.specs.Replies.{reply_of};
ghost use Rattle.hub.specs.Serving.{is_made};
ghost use Rattle.hub.specs.OneByOne.{AreAnswers, IsOneAnswer};
ghost use Rattle.hub.specs.Stops.{IsDueChange, MayBeLeft};
ghost use Rattle.hub.specs.declared.key.Key.TheVariants.{Digest};

use crate::answers::answer_key;
use crate::fault::given_up;
use crate::key::Key;
use hub_core::{Reply, Request, Shelf};
use std::alloc::{AllocError, Global};
use std::marker::Model;

/// The hub over a shelf. Contracts see the shelf.
#[derive(Drop)]
pub struct Hub<Sh: Shelf> {
    shelf: Sh,
}

impl<Sh: Shelf> Model for Hub<Sh> {
    ghost Value = { Sh };

    ghost view = { λ h. h.shelf };
}

impl<Sh: Shelf> Hub<Sh> {
    /// Returns the hub over this shelf, which stays as it is. Takes no memory.
    pub fn new(shelf: Sh) -> Hub<Sh>
        ensures { result ≡ shelf }
    {
        Hub { shelf }
    }

    /// Returns the shelf as it is. Takes no memory.
    pub fn into_shelf(self) -> Sh
        ensures { result ≡ self }
    {
        self.shelf
    }

    /// Answers one request at a moment, in seconds since the beginning of 1970 (UTC). This is one step, from whatever
    /// sound state the shelf has.
    ///
    /// The reply is made before the change, so `F2` means that nothing changed. So does `F1`, which is the reply if the
    /// shelf counted a failure, and only if it failed. If everything stops after a change whose reply says that it was made, only what the request
    /// leaves may be left: no other state, and nothing that stands for none. Otherwise what could have been left before
    /// may be left. If a change was due and is given up, what the request would have left may be left too. So a request
    /// that reads or is refused adds nothing.
    ///
    /// A request whose reply isn't a change that was made leaves the content of the shelf, whatever it is.
    ///
    /// The reply to a request that reads incidents, groups, communities, the caller or how an own report is shared is
    /// the one that is due in every world that is alike for the caller, unless the request is given up.
    pub fn answer(&mut self, alloc: Global, now: i64, key: &Key, request: &Request) -> Reply
        ensures kept { is_made result ≡ false →
            KeepsContent Sh.has Sh.doubts Sh.failed Sh.may_remain self.old self.new }
        ensures step { Sh.doubts self.new ≡ 0 → (s : State) → Sh.has self.old s → IsSound s →
            (left : State) × IsStep s (now, key.now, request.now) result left ×
            Sh.has self.new left }
        ensures alike { Sh.doubts self.new ≡ 0 → (s t : State) (a : Account) → Sh.has self.old s →
            IsAlike now a s t → key.now ≡ Digest a.key → is_answered_alike request.now ≡ true →
            (result ≡ reply_of t now key.now request.now) ⊎ IsGivenUp result }
        ensures cause { Sh.doubts self.new ≡ 0 → (s : State) → Sh.has self.old s → IsSound s →
            result ≡ Refused (bare F1) → HasFailed (Sh.failed self.old) (Sh.failed self.new) }
        ensures counted { Sh.failed self.old < Sh.failed self.new → result ≡ Refused (bare F1) }
        ensures durable { Sh.doubts self.new ≡ 0 → (s : State) → Sh.has self.old s → IsSound s →
            IsTrue (is_made result) → (left : Option State) →
            Sh.may_remain self.new left ↔ (left ≡ Some (state_left s key.now request.now)) }
        ensures crash { Sh.doubts self.new ≡ 0 → (s : State) → Sh.has self.old s → IsSound s →
            (left : Option State) → Sh.may_remain self.new left →
            Sh.may_remain self.old left ⊎ IsDueChange s (now, key.now, request.now) left }
        ensures later { Sh.failed self.old ≤ Sh.failed self.new }
        ensures doubt { Sh.doubts self.old ≤ Sh.doubts self.new }
    {
        match answer_key(&mut self.shelf, alloc, now, key, request) {
            Ok(reply) => reply,
            Err(fault) => given_up(alloc, fault),
        }
    }

    fn step(&mut self, alloc: Global, asked: &(i64, Key, Request)) -> Reply
        ensures { IsOneAnswer Sh.has Sh.doubts Sh.failed Sh.may_remain self.old asked.now result
            self.new }
    {
        self.answer(alloc, asked.0, &asked.1, &asked.2)
    }

    /// Answers a list of requests, one after another. Each is answered as [`Hub::answer`] does, from the shelf that the
    /// one before left: a run, from whatever sound state the shelf has. `F1` is the reply to a request only if the
    /// shelf counted a failure in it. Among the replies it is there at most as often as the shelf counted a failure;
    /// otherwise a hub that always gives up would be a run. Both hold unless the count is at its last value, since
    /// every call fails there. Fails only before the first request, if the memory for the list of replies doesn't
    /// suffice.
    ///
    /// If everything stops after the list, the content after all changes whose replies say so may be left, with or
    /// without one that was due and given up since. What could have been left before, also what stands for no sound
    /// state, may be left only if no reply says that a change was made. If no change was due, nothing else may be left.
    pub fn run(
        &mut self,
        alloc: Global,
        asked: &[(i64, Key, Request)],
    ) -> Result<Vec<Reply>, AllocError>
        ensures each { IfOk result (λ replies.
            AreAnswers Sh.has Sh.doubts Sh.failed Sh.may_remain self.old asked.now replies.items
            self.new) }
        ensures run { Sh.doubts self.new ≡ 0 → (s : State) → Sh.has self.old s → IsSound s →
            IfOk result (λ replies.
            (end : State) × IsRun s asked.now replies.items end × Sh.has self.new end) }
        ensures cause { Sh.doubts self.new ≡ 0 → (s : State) → Sh.has self.old s → IsSound s →
            IfOk result (λ replies.
            AreCounted (failures_told replies.items) (Sh.failed self.old) (Sh.failed self.new)) }
        ensures crash { Sh.doubts self.new ≡ 0 → (s : State) → Sh.has self.old s → IsSound s →
            IfOk result (λ replies.
            (left : Option State) → Sh.may_remain self.new left →
            MayBeLeft (Sh.may_remain self.old) s asked.now replies.items left) }
        ensures none { OnErr result (self.new ≡ self.old) }
        ensures later { Sh.failed self.old ≤ Sh.failed self.new }
        ensures doubt { Sh.doubts self.old ≤ Sh.doubts self.new }
    {
        let mut replies = Vec::with_capacity(alloc, asked.len())?;
        for one in asked {
            let reply = self.step(alloc, one);
            if let Err(_) = replies.push(reply) {
                unreachable!()
            }
        }
        Ok(replies)
    }
}

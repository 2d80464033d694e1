//! Judging a request by its facts: its refusal, or its edits.
ghost use Rattle.std.specs.Prelude.{◌≡◌, List, IfErr, IfOk, None, OnOk};
ghost use Rattle.circle.specs.Outcomes.{RefusedAs};
ghost use Rattle.circle.specs.Refusals.{Ground, first_answer};
ghost use Rattle.hub_state.specs.State.{State};
ghost use Rattle.hub_state.specs.Edits as spec;
ghost use Rattle.hub_state.specs.Sound.{IsSound};
ghost use Rattle.hub_state.specs.Facts.{facts_of};
ghost use Rattle.hub_core.specs.Refusals.{refusal_of, state_after};
ghost use Rattle.hub_core.specs.Judgement.{refusal_by};
ghost use Rattle.hub_state.specs.Aftermath.{edits_by};
ghost use Rattle.hub_core.specs.inner.Asked.{Asks};

mod body;
mod change;
mod class_gates;
mod directory;
mod explain;
mod gate;
mod post;
mod posted;
mod replace;
mod role;
mod search;
mod sharing;
mod stop;

use change::{address, grant, redistribute, unaddress, withdraw};
use circle::directory::Person;
use circle::refusal::{Code, Refusal};
use directory::judge_command;
use explain::explain;
use hub_state::{Edit, Facts, Request};
use post::post;
use replace::replace;
pub use role::lacks_role;
use search::search;
use sharing::sharing;
use std::alloc::Global;
use stop::Stop;

/// Returns the edits that make the whole change of the actor's request, or fails with its refusal. Both follow from the
/// facts, whatever they are. For each state with these facts they are the state's refusal, and for each sound one the
/// edits lead to the state after the request. A request that only reads has no edits; whether the person may see an
/// incident isn't judged here. If the memory doesn't suffice it fails with `F2`, whatever the refusal would be.
pub fn judge(
    alloc: Global,
    actor: &Person,
    facts: &Facts,
    request: &Request,
) -> Result<Vec<Edit>, Refusal>
    ensures refused { (s : State) → facts.now ≡ facts_of s actor.now request.now →
        IfErr result (RefusedAs (refusal_of s actor.now request.now)) }
    ensures allowed { (s : State) → facts.now ≡ facts_of s actor.now request.now →
        OnOk result (refusal_of s actor.now request.now ≡ None) }
    ensures refused_by { IfErr result (RefusedAs (refusal_by facts.now actor.now request.now)) }
    ensures allowed_by { OnOk result (refusal_by facts.now actor.now request.now ≡ None) }
    ensures edits { IfOk result (λ edits.
        edits.items ≡ edits_by facts.now actor.now request.now) }
    ensures made { (s : State) → IsSound s → facts.now ≡ facts_of s actor.now request.now →
        IfOk result (λ edits. spec.with_edits edits.items s ≡ state_after s actor.now request.now) }
{
    judge_by_facts(alloc, actor, facts, request)
}

/// The same, promised only by the facts.
fn judge_by_facts(
    alloc: Global,
    actor: &Person,
    facts: &Facts,
    request: &Request,
) -> Result<Vec<Edit>, Refusal>
    ensures refused { IfErr result (RefusedAs (refusal_by facts.now actor.now request.now)) }
    ensures allowed { OnOk result (refusal_by facts.now actor.now request.now ≡ None) }
    ensures edits { IfOk result (λ edits.
        edits.items ≡ edits_by facts.now actor.now request.now) }
{
    match request {
        Request::Circle(command) => judge_command(alloc, actor, &facts.circle, command),
        Request::Post(asked) => stop_as_refusal(alloc, post(alloc, actor, facts, asked)),
        Request::Replace(asked) => stop_as_refusal(alloc, replace(alloc, actor, facts, asked)),
        Request::Redistribute(asked) => stop_as_refusal(
            alloc,
            redistribute(alloc, actor, facts, asked),
        ),
        Request::Address(asked) => stop_as_refusal(alloc, address(alloc, actor, facts, asked)),
        Request::Unaddress(asked) => stop_as_refusal(alloc, unaddress(alloc, actor, facts, asked)),
        Request::Grant(asked) => stop_as_refusal(alloc, grant(alloc, actor, facts, asked)),
        Request::Withdraw(asked) => stop_as_refusal(alloc, withdraw(alloc, actor, facts, asked)),
        Request::Explain(asked) => stop_as_refusal(alloc, explain(alloc, actor, facts, asked)),
        Request::Sharing { incident } => {
            stop_as_refusal(alloc, sharing(alloc, actor, facts, *incident))
        }
        Request::Search(asked) => stop_as_refusal(alloc, search(alloc, actor, facts, asked)),
        _ => Ok(Vec::new(alloc)),
    }
}

/// The refusal `F2` if the memory didn't suffice.
fn stop_as_refusal(alloc: Global, judged: Result<Vec<Edit>, Stop>) -> Result<Vec<Edit>, Refusal>
    ensures refused { (grounds : List Ground) → Asks grounds judged →
        IfErr result (RefusedAs (first_answer grounds)) }
    ensures edits { IfOk result (λ edits. judged ≡ Ok edits) }
{
    match judged {
        Ok(edits) => Ok(edits),
        Err(Stop::Refused(refusal)) => Err(refusal),
        Err(Stop::NoMemory) => Err(Refusal::bare(alloc, Code::F2)),
    }
}

//! Which roles may change incidents.
ghost use Rattle.std.specs.Prelude.{◌≡◌, true, Some};
ghost use Rattle.circle.specs.Outcomes.{bare};
ghost use Rattle.circle.specs.declared.refusal.Code.TheVariants.{W1};
ghost use Rattle.hub_state.specs.State.{State};
ghost use Rattle.hub_core.specs.Refusals.{refusal_of};
ghost use Rattle.hub_core.specs.Refusals as spec;

use crate::judging::stop::may_post;
use circle::directory::Person;
use hub_state::Request;

/// Whether the request changes an incident and the actor's role doesn't allow that. Such a request is refused with `W1`
/// in every state, so neither its body nor the shelf needs to be read for it.
pub fn lacks_role(actor: &Person, request: &Request) -> bool
    ensures value { result ≡ spec.lacks_role actor.now request.now }
    ensures refused { result ≡ true → (s : State) →
        refusal_of s actor.now request.now ≡ Some (bare W1) }
{
    match request {
        Request::Post(_)
        | Request::Replace(_)
        | Request::Redistribute(_)
        | Request::Address(_)
        | Request::Unaddress(_)
        | Request::Grant(_)
        | Request::Withdraw(_) => !may_post(actor),
        _ => false,
    }
}

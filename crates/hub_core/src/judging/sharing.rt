//! The ground of a request for what is shared of an incident.
ghost use Rattle.std.specs.Prelude.{◌≡◌, IfOk};
ghost use Rattle.hub_core.specs.Judgement.{grounds_by};
ghost use Rattle.hub_state.specs.Aftermath.{edits_by};
ghost use Rattle.hub_core.specs.inner.Asked.{Asks};
ghost use Rattle.hub_state.specs.declared.request.Request.TheVariants as ask;

use crate::judging::stop::{Stop, own};
use circle::directory::Person;
use hub_state::{Edit, Facts};
use std::alloc::Global;

/// Fails with `N1` unless the incident is there and the actor's organisation posted it. Returns no edit.
pub fn sharing(
    alloc: Global,
    actor: &Person,
    facts: &Facts,
    incident: u32,
) -> Result<Vec<Edit>, Stop>
    ensures asked { Asks (grounds_by facts.now actor.now (ask.Sharing incident)) result }
    ensures made { IfOk result (λ edits.
        edits.items ≡ edits_by facts.now actor.now (ask.Sharing incident)) }
{
    own(alloc, actor, facts)?;
    Ok(Vec::new(alloc))
}

//! The grounds of an Explain.
ghost use Rattle.std.specs.Prelude.{◌≡◌, IfOk};
ghost use Rattle.hub_core.specs.Judgement.{grounds_by};
ghost use Rattle.hub_state.specs.Aftermath.{edits_by};
ghost use Rattle.hub_core.specs.inner.Asked.{Asks};
ghost use Rattle.hub_state.specs.declared.request.Request.TheVariants as ask;

use crate::judging::change::is_class;
use crate::judging::stop::{Stop, administrator, path_of, refuse_if};
use circle::directory::Person;
use circle::refusal::Code;
use hub_state::{Edit, Explain, Facts};
use std::alloc::Global;

/// Asks the grounds of an administrator's question why an active person sees a class of an incident, or doesn't.
/// Returns no edit, or the refusal of the first ground that holds.
pub fn explain(
    alloc: Global,
    actor: &Person,
    facts: &Facts,
    request: &Explain,
) -> Result<Vec<Edit>, Stop>
    ensures asked { Asks (grounds_by facts.now actor.now (ask.Explain request.now)) result }
    ensures made { IfOk result (λ edits.
        edits.items ≡ edits_by facts.now actor.now (ask.Explain request.now)) }
{
    administrator(alloc, actor)?;
    let path = path_of(alloc, request.path.as_str(), "path")?;
    refuse_if(alloc, facts.incident.is_none(), Code::N1)?;
    refuse_if(alloc, !facts.circle.exists, Code::N2)?;
    refuse_if(alloc, !is_class(facts, &path), Code::N3)?;
    Ok(Vec::new(alloc))
}

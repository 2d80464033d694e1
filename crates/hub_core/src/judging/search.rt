//! The grounds of a Search.
ghost use Rattle.std.specs.Prelude.{◌≡◌, IfOk};
ghost use Rattle.hub_core.specs.Judgement.{grounds_by};
ghost use Rattle.hub_core.specs.Refusals as spec;
ghost use Rattle.hub_state.specs.Aftermath.{edits_by};
ghost use Rattle.hub_core.specs.inner.Asked.{Asks};
ghost use Rattle.hub_state.specs.declared.request.Request.TheVariants as ask;

use crate::WORD_LIMIT;
use crate::judging::stop::{Stop, bad_if};
use circle::directory::Person;
use circle::text::Text;
use hub_state::{Edit, Facts, Search};
use std::alloc::Global;

/// Refuses a needle, or the name of a class, that is empty or longer than [`WORD_LIMIT`] bytes.
pub fn search(
    alloc: Global,
    actor: &Person,
    facts: &Facts,
    request: &Search,
) -> Result<Vec<Edit>, Stop>
    ensures asked { Asks (grounds_by facts.now actor.now (ask.Search request.now)) result }
    ensures made { IfOk result (λ edits.
        edits.items ≡ edits_by facts.now actor.now (ask.Search request.now)) }
{
    bad_if(alloc, is_bad_word(&request.needle), "needle")?;
    if let Some(class) = &request.class {
        bad_if(alloc, is_bad_word(class), "class")?;
    }
    Ok(Vec::new(alloc))
}

fn is_bad_word(text: &Text) -> bool
    ensures { result ≡ spec.is_bad_word text.now }
{
    let length = text.as_str().len();
    length == 0 || length > WORD_LIMIT
}

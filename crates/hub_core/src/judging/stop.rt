//! How the grounds of a request are asked: each is a test and the refusal that it leads to.
ghost use Rattle.std.specs.Prelude.{◌≡◌, [], ◌∷◌, IfOk, option_map, decimal};
ghost use Rattle.circle.specs.Refusals.{refuse, bad, unless_administrator};
ghost use Rattle.iodef_tree.specs.Pointer.{pointer_tokens};
ghost use Rattle.hub_core.specs.Refusals.{because, unless_poster, is_bad_pointer};
ghost use Rattle.hub_core.specs.Judgement.{unless_own};
ghost use Rattle.hub_core.specs.Refusals as spec;
ghost use Rattle.hub_core.specs.inner.Asked.{Asks};
ghost use Rattle.hub_core.specs.declared.judging.stop.Stop.TheVariants.{NoMemory};

use circle::directory::{Person, Role};
use circle::refusal::{Code, Refusal};
use circle::text::Text;
use hub_state::{Facts, IncidentFacts};
use iodef_tree::{Path, PathFault};
use std::alloc::{AllocError, AllocFailed, Global};

/// Why there are no edits: a refusal, or want of memory, which becomes a refusal too.
#[derive(Drop)]
pub enum Stop {
    Refused(Refusal),
    NoMemory,
}

impl From<AllocError> for Stop {
    ghost from_gives = { λ _ stop. stop ≡ NoMemory };

    fn from(_refused: AllocError) -> Stop {
        Stop::NoMemory
    }
}

impl<T: Drop> From<AllocFailed<T>> for Stop {
    ghost from_gives = { λ _ stop. stop ≡ NoMemory };

    fn from(_refused: AllocFailed<T>) -> Stop {
        Stop::NoMemory
    }
}

/// Fails with the refusal of the code if the ground holds.
pub fn refuse_if(alloc: Global, holds: bool, code: Code) -> Result<(), Stop>
    ensures { Asks (refuse code holds ∷ []) result }
{
    if holds {
        return Err(Stop::Refused(Refusal::bare(alloc, code)));
    }
    Ok(())
}

/// Fails with `B1` and the name of the bad argument if the ground holds.
pub fn bad_if(alloc: Global, holds: bool, field: &'static str) -> Result<(), Stop>
    ensures { Asks (bad field.now holds ∷ []) result }
{
    if holds {
        return Err(Stop::Refused(Refusal {
            code: Code::B1,
            detail: Text::of(alloc, field)?,
        }));
    }
    Ok(())
}

/// Fails with the refusal of the code and a number as its detail, if there is a number.
pub fn refuse_with(alloc: Global, code: Code, number: Option<u32>) -> Result<(), Stop>
    ensures { Asks (because code (option_map decimal number) ∷ []) result }
{
    if let Some(number) = number {
        return Err(Stop::Refused(Refusal {
            code,
            detail: Text::new(format!(in alloc; "{number}")?),
        }));
    }
    Ok(())
}

/// Fails with `W1` unless the actor is an administrator.
pub fn administrator(alloc: Global, actor: &Person) -> Result<(), Stop>
    ensures { Asks (unless_administrator actor.now ∷ []) result }
{
    let may_ask = matches!(actor.role, Role::Administrator);
    refuse_if(alloc, !may_ask, Code::W1)
}

/// Whether the actor is a poster or a coordinator.
pub fn may_post(actor: &Person) -> bool
    ensures { result ≡ spec.may_post actor.now.role }
{
    matches!(actor.role, Role::Coordinator | Role::Poster)
}

/// Fails with `W1` unless the actor may change incidents.
pub fn poster(alloc: Global, actor: &Person) -> Result<(), Stop>
    ensures { Asks (unless_poster actor.now ∷ []) result }
{
    refuse_if(alloc, !may_post(actor), Code::W1)
}

/// The facts of the incident. Fails with `N1` unless it is there and the actor's organisation posted it.
pub fn own<'a>(alloc: Global, actor: &Person, facts: &'a Facts) -> Result<&'a IncidentFacts, Stop>
    ensures asked { Asks (unless_own facts.now.incident actor.now ∷ []) result }
    ensures known { IfOk result (λ k. facts.now.incident ≡ Some k.now) }
{
    match &facts.incident {
        Some(known) if known.source == actor.org => Ok(known),
        _ => Err(Stop::Refused(Refusal::bare(alloc, Code::N1))),
    }
}

/// The path that a text is the JSON pointer of (RFC 6901). Fails with `B1` if it is none.
pub fn path_of(alloc: Global, text: &str, field: &'static str) -> Result<Path, Stop>
    ensures asked { Asks (bad field.now (is_bad_pointer text.now) ∷ []) result }
    ensures path { IfOk result (λ p. pointer_tokens text.now ≡ Some p) }
{
    match Path::parse(alloc, text) {
        Ok(path) => Ok(path),
        Err(PathFault::BadPath) => Err(Stop::Refused(Refusal {
            code: Code::B1,
            detail: Text::of(alloc, field)?,
        })),
        Err(PathFault::NoMemory) => Err(Stop::NoMemory),
    }
}

/// The present revision, if it isn't the one that the request names.
pub fn other_than(present: u32, revision: u32) -> Option<u32>
    ensures { option_map decimal result ≡ spec.other_than revision present }
{
    if present == revision {
        None
    } else {
        Some(present)
    }
}

//! Why a request is given up.
ghost use Rattle.std.specs.Prelude.{◌≡◌, IfOk, IfErr, Ok};
ghost use Rattle.circle.specs.Outcomes.{bare, no_memory};
ghost use Rattle.hub_state.specs.declared.reply.Reply.TheVariants.{Refused};
ghost use Rattle.hub.specs.Faults.{code_told};

use hub_core::{Code, Refusal, Reply, ShelfFault};
use std::alloc::{AllocError, Global};

/// Returns the value, or `NoMemory` if the memory didn't suffice.
pub fn ample<T>(outcome: Result<T, AllocError>) -> Result<T, ShelfFault>
    ensures value { IfOk result (λ x. outcome ≡ Ok x) }
    ensures fault { IfErr result (λ e. e ≡ ShelfFault.NoMemory) }
{
    match outcome {
        Ok(value) => Ok(value),
        Err(_) => Err(ShelfFault::NoMemory),
    }
}

/// The code for a shelf's fault.
fn code_of(fault: ShelfFault) -> Code
    ensures { result ≡ code_told fault }
{
    match fault {
        ShelfFault::NoMemory => Code::F2,
        ShelfFault::Failed => Code::F1,
    }
}

/// The reply to a request that is given up.
pub fn given_up(alloc: Global, fault: ShelfFault) -> Reply
    ensures { result ≡ Refused (bare (code_told fault)) }
{
    Reply::Refused(Refusal::bare(alloc, code_of(fault)))
}

/// Returns the refusal as a reply. If the judge ran out of memory, fails with `NoMemory`.
pub fn refuse(refusal: Refusal) -> Result<Reply, ShelfFault>
    ensures reply { IfOk result (λ reply. reply ≡ Refused refusal) }
    ensures other { IfOk result (λ reply. refusal ≡ no_memory → ⊥) }
    ensures fault { IfErr result (λ e. e ≡ ShelfFault.NoMemory) }
{
    match refusal.code {
        Code::F2 => Err(ShelfFault::NoMemory),
        _ => Ok(Reply::Refused(refusal)),
    }
}

//! Faults of the store as a shelf's faults.

ghost use Rattle.std.specs.Prelude.{◌≡◌, ◌<◌, ◌+◌, ◌↔◌, IfOk, IsErrOf};
ghost use Rattle.hub_state.specs.Shelves.{HasCause, last_count};

use hub_state::ShelfFault;
use sqlite::{Error, ErrorCode};

/// Returns `NoMemory` for want of memory, and `Failed` for all else.
pub(crate) fn fault_of(error: Error) -> ShelfFault
    ensures { (result ≡ ShelfFault.NoMemory) ↔ (error ≡ Error.SqliteFailure ErrorCode.OutOfMemory) }
{
    match error {
        Error::SqliteFailure(ErrorCode::OutOfMemory) => ShelfFault::NoMemory,
        _ => ShelfFault::Failed,
    }
}

/// Turns the store's error into a shelf's fault. Counts it unless it is want of memory.
pub(crate) fn count_failure<T: Drop>(
    failures: &mut u64,
    outcome: Result<T, Error>,
) -> Result<T, ShelfFault>
    requires { failures.old < last_count }
    ensures value { IfOk result (λ x. outcome ≡ Ok x) }
    ensures given { IfOk outcome (λ x. result ≡ Ok x) }
    ensures cause { HasCause failures.old failures.new result }
    ensures memory { (result ≡ Err ShelfFault.NoMemory) ↔
        (outcome ≡ Err (Error.SqliteFailure ErrorCode.OutOfMemory)) }
    ensures counted { IsErrOf result ShelfFault.Failed → failures.new ≡ failures.old + 1 }
    ensures uncounted { ¬ IsErrOf result ShelfFault.Failed → failures.new ≡ failures.old }
{
    match outcome {
        Ok(value) => Ok(value),
        Err(error) => {
            let fault = fault_of(error);
            if fault == ShelfFault::Failed {
                *failures += 1;
            }
            Err(fault)
        }
    }
}

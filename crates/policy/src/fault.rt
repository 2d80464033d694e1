//! Why a path has no verdict, and why a text is no moment.
use std::alloc::AllocError;
use thiserror::Error;

/// Why a path has no verdict.
#[derive(Clone, Copy, Debug, Error)]
pub enum DecideFault {
    /// There is no class at the path. The root is no class.
    #[error("there is no class at the path")]
    NoClass,
    /// Memory ran out.
    #[error("no memory")]
    NoMemory,
}

/// Why a text is no moment.
#[derive(Clone, Copy, Debug, Error)]
pub enum MomentFault {
    /// It is no moment, or one that is no whole second.
    #[error("bad moment")]
    BadMoment,
    /// Memory ran out. `jiff` allocates nothing here, so [`read_moment`](crate::read_moment) never returns this.
    #[error("no memory")]
    NoMemory,
}

impl From<AllocError> for DecideFault {
    ghost use Rattle.std.specs.Prelude.{◌≡◌};
    ghost use Rattle.policy.specs.declared.fault.DecideFault.TheVariants.{NoMemory};

    ghost from_gives = { λ _ fault. fault ≡ NoMemory };

    fn from(_refused: AllocError) -> DecideFault {
        DecideFault::NoMemory
    }
}

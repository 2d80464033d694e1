//! Why there is no explanation.
use marking::SiteFault;
use policy::DecideFault;
use std::alloc::AllocError;
use thiserror::Error;

/// Why there is no explanation of a path.
#[derive(Clone, Copy, Debug, Error)]
pub enum ExplainFault {
    /// There is no class at the path. The root is no class.
    #[error("there is no class at the path")]
    NoClass,
    /// Memory ran out.
    #[error("no memory")]
    NoMemory,
}

impl From<AllocError> for ExplainFault {
    ghost use Rattle.std.specs.Prelude.{◌≡◌};
    ghost use Rattle.explain.specs.declared.fault.ExplainFault.TheVariants.{NoMemory};

    ghost from_gives = { λ _ fault. fault ≡ NoMemory };

    fn from(_refused: AllocError) -> ExplainFault {
        ExplainFault::NoMemory
    }
}

impl From<DecideFault> for ExplainFault {
    ghost use Rattle.std.specs.Prelude.{◌≡◌};
    ghost use Rattle.explain.specs.Explained.{undecided};

    ghost from_gives = { λ fault made. made ≡ undecided fault };

    fn from(fault: DecideFault) -> ExplainFault {
        match fault {
            DecideFault::NoClass => ExplainFault::NoClass,
            DecideFault::NoMemory => ExplainFault::NoMemory,
        }
    }
}

impl From<SiteFault> for ExplainFault {
    ghost use Rattle.std.specs.Prelude.{◌≡◌};
    ghost use Rattle.explain.specs.Explained.{unsited};

    ghost from_gives = { λ fault made. made ≡ unsited fault };

    fn from(fault: SiteFault) -> ExplainFault {
        match fault {
            SiteFault::NoClass => ExplainFault::NoClass,
            SiteFault::NoMemory => ExplainFault::NoMemory,
        }
    }
}

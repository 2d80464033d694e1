//! The table of clearances.
ghost use Rattle.std.specs.Prelude.{◌≡◌};
ghost use Rattle.policy.specs.Clearance.{clearance_of};

use crate::rule::Rule;
use crate::standing::Standing;
use marking::Handling;

/// Returns the strictest handling that the reader is cleared for, and the rule that clears it. Allocates nothing.
pub fn clearance(standing: &Standing) -> (Handling, Rule)
    ensures { result ≡ clearance_of standing.entry.now }
{
    if standing.person {
        return (Handling::Red, Rule::P);
    }
    if standing.nominated && standing.addressed {
        return (Handling::Strict, Rule::O);
    }
    if standing.nominated && standing.client {
        return (Handling::Amber, Rule::C);
    }
    if standing.peer {
        return (Handling::Green, Rule::M);
    }
    (Handling::Clear, Rule::A)
}

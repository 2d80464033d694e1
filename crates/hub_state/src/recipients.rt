//! The recipients of an incident, as a list.
ghost use Rattle.std.specs.Prelude.{◌≡◌};

use crate::request::Target;
use std::marker::Model;

/// The recipients of an incident. Contracts see them as a list.
#[derive(Drop)]
pub struct Recipients {
    targets: Vec<Target>,
}

impl Model for Recipients {
    ghost use Rattle.std.specs.Prelude.{List};
    ghost use Rattle.hub_state.specs.declared.request.Target.{Target};

    ghost Value = { List Target };

    ghost view = { λ r. r.targets.items };
}

impl Recipients {
    /// Makes it of a vector. Takes no memory.
    pub fn new(targets: Vec<Target>) -> Recipients
        ensures { result ≡ targets.items }
    {
        Recipients { targets }
    }

    /// Returns the recipients in their order.
    pub fn as_slice(&self) -> &[Target]
        ensures { result.now ≡ self.now }
    {
        self.targets.as_slice()
    }
}

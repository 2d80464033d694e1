//! The levels and the groups of gates (the MISP book's distribution levels).
ghost use Rattle.std.specs.Prelude.{◌≡◌, IfOk};
ghost use Rattle.iodef_tree.specs.Text as text;
ghost use Rattle.hub_core.specs.Judgement.{root_gate};
ghost use Rattle.hub_core.specs.Refusals as spec;
ghost use Rattle.hub_core.specs.inner.Asked.{Asks};

use crate::judging::stop::{Stop, bad_if};
use hub_state::Distribution;
use iodef_tree::Path;
use std::alloc::Global;

/// Whether the path is empty, which is that of the root.
pub fn is_root(path: &Path) -> bool
    ensures { result ≡ text.is_root path.now }
{
    path.tokens().is_empty()
}

/// Whether there is no such level. Level 5, as the class above, is for classes only.
pub fn is_bad_level(at_root: bool, level: u32) -> bool
    ensures { result ≡ spec.is_bad_level at_root level }
{
    level > if at_root { 4 } else { 5 }
}

/// Whether level 4 has no group, or another level has one.
pub fn is_bad_group(level: u32, group: Option<u32>) -> bool
    ensures { result ≡ spec.is_bad_group level group }
{
    if level == 4 {
        group.is_none()
    } else {
        group.is_some()
    }
}

/// The level of the gate at the root of an incident. Refuses a bad level or group with `B1`.
pub fn root_level(alloc: Global, distribution: &Distribution) -> Result<u8, Stop>
    ensures asked { Asks (root_gate distribution.now) result }
    ensures level { IfOk result (λ l. l ≡ distribution.now.level) }
{
    let (level, group) = (distribution.level, distribution.group);
    bad_if(alloc, is_bad_level(true, level), "level")?;
    bad_if(alloc, is_bad_group(level, group), "group")?;
    Ok(level as u8)
}

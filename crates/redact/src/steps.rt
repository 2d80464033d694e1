//! The path of the newest line, of lines that come one at a time.

ghost use Rattle.std.specs.Prelude.{◌≡◌, ◌<◌, ◌-◌, ◌^◌, Some, IfOk};
ghost use Rattle.std.specs.List.{slice_get};
ghost use Rattle.redact.specs.Sifted.{next_place, IsCounted, step_of};

use iodef_tree::{Line, Text};
use std::alloc::AllocError;

/// The newest line of a depth that is still open.
#[derive(Drop)]
pub(crate) struct Step {
    pub(crate) name: Text,
    pub(crate) in_array: bool,
    /// How many members of its class have its name and come before it.
    pub(crate) place: usize,
}

/// Returns the place of a member of this name that comes next behind this one.
fn place_behind(newest: &Step, name: &str) -> usize
    ensures { newest.now.place < 2 ^ 64 - 1 → result ≡ next_place (Some newest.now) name.now }
{
    if newest.name.as_str() == name {
        newest.place.saturating_add(1)
    } else {
        0
    }
}

/// Returns the place of a line that comes next behind those of these steps.
fn place_of(steps: &[Step], line: &Line) -> usize
    ensures { IsCounted steps.now line.now →
        result ≡ next_place (slice_get steps.now (line.now.depth - 1)) line.now.name }
{
    match steps.get((line.depth as usize).saturating_sub(1)) {
        None => 0,
        Some(newest) => place_behind(newest, line.name.as_str()),
    }
}

/// Returns the step to a line that comes next behind those of these steps.
pub(crate) fn step_to(steps: &[Step], line: &Line) -> Result<Step, AllocError>
    ensures { IfOk result (λ s. IsCounted steps.now line.now → s ≡ step_of steps.now line.now) }
{
    let place = place_of(steps, line);
    let name = line.name.clone()?;
    Ok(Step {
        name,
        in_array: line.in_array,
        place,
    })
}

//! How often each kind of command met each outcome, in words.

use circle::refusal::Code;
use std::alloc::{AllocError, Global};
use trying::Tally;

/// The kinds, in the order of their numbers.
const NAMES: [&str; 19] = [
    "AddOrg",
    "AddPerson",
    "SuspendPerson",
    "AddClient",
    "RemoveClient",
    "AddCommunity",
    "Join",
    "Leave",
    "Link",
    "Unlink",
    "NewGroup",
    "GroupAdd",
    "GroupRemove",
    "GroupActive",
    "Arrange",
    "CancelArrange",
    "Nominate",
    "Unnominate",
    "NewKey",
];

/// The outcomes that are printed, in this order.
const OUTCOMES: [&str; 8] = [DONE, "W1", "B1", "N2", "W2", "W3", "S1", "S2"];

const DONE: &str = "done";

/// How often an outcome must be met before it is printed.
const FLOOR: u32 = 20;

/// Notes that a command of this kind was done (none), or refused.
pub fn note(tally: &mut Tally, kind: u32, outcome: Option<Code>) -> Result<(), AllocError> {
    let name = NAMES.get(kind as usize).copied().unwrap_or("");
    tally.note(name, outcome.map_or(DONE, |code| code.name()))
}

/// Returns a line for each kind: its name, and each outcome that was met often enough.
pub fn lines_of(alloc: Global, tally: &Tally) -> Result<String, AllocError> {
    let mut text = String::new(alloc);
    for name in NAMES {
        text.push_str(name)?;
        text.push(':')?;
        for outcome in OUTCOMES {
            if FLOOR <= tally.met(name, outcome) {
                text.push(' ')?;
                text.push_str(outcome)?;
            }
        }
        text.push('\n')?;
    }
    Ok(text)
}

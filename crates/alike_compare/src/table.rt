//! The counts of pairs, as they are printed.

use crate::row_steps::{ARRANGEMENT, DIRECTORY, MEMBER, OWN, PERMISSION, READER, RECIPIENT, ROWS};
use crate::steps::{CLASS_SEEN, CLASSES, INCIDENTS, LABEL, LINES, SEEN_WITHIN, SERVED, WITHHELD};
use std::alloc::{AllocError, Global};
use trying::Tally;

/// The kinds of pairs: each step, and behind it the premises that are left out.
const KINDS: [(&str, bool); 16] = [
    (LINES, true),
    (CLASS_SEEN, false),
    (LABEL, false),
    (CLASSES, true),
    (SEEN_WITHIN, false),
    (WITHHELD, false),
    (INCIDENTS, true),
    (SERVED, false),
    (ROWS, true),
    (PERMISSION, false),
    (RECIPIENT, false),
    (READER, false),
    (ARRANGEMENT, false),
    (MEMBER, false),
    (DIRECTORY, false),
    (OWN, false),
];

const OUTCOMES: [&str; 6] = [
    "pairs",
    "something seen",
    "an own report",
    "had to differ",
    "told apart",
    "told alike",
];

/// Returns how many pairs there were.
pub fn pairs_of(tally: &Tally) -> u32 {
    KINDS.iter().fold(
        0,
        |sum, (kind, _)| tally.met(kind, "pairs").saturating_add(sum),
    )
}

/// Returns a heading, and a line for each kind of pair.
pub fn lines_of(alloc: Global, tally: &Tally) -> Result<Vec<String>, AllocError> {
    let mut lines = Vec::new(alloc);
    lines.push(String::from_str(
        alloc,
        "what differs | pairs | something seen | an own report | had to differ | told apart | told alike",
    )?)?;
    for (kind, _) in KINDS {
        let mut line = String::from_str(alloc, kind)?;
        for outcome in OUTCOMES {
            let met = tally.met(kind, outcome);
            line.push_str(format!(in alloc; " | {met}")?.as_str())?;
        }
        lines.push(line)?;
    }
    Ok(lines)
}

/// Returns whether pairs of each kind were met with something seen and, for a premise that was left out, some that had
/// to differ.
pub fn is_full(tally: &Tally) -> bool {
    KINDS.iter().all(|(kind, is_step)| {
        tally.met(kind, "something seen") > 0 && (*is_step || tally.met(kind, "had to differ") > 0)
    })
}

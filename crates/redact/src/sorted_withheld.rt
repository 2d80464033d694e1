//! The list of what is withheld, in order and without repeats.

ghost use Rattle.std.specs.Prelude.{◌≡◌, IfOk};
ghost use Rattle.redact.specs.Withheld.{withheld_in_order};

use crate::note::Note;
use iodef_tree::Path;
use policy::Rule;
use std::alloc::{AllocError, Global};

/// Returns the notes as pairs of path and rule.
fn pairs_of(alloc: Global, notes: Vec<Note<'_>>) -> Result<Vec<(Path, Rule)>, AllocError>
    ensures { IfOk result (λ v. v.items ≡ notes.entry.items) }
{
    let mut pairs = Vec::with_capacity(alloc, notes.len())?;
    for note in notes {
        pairs.push(note.into_pair(alloc)?)?;
    }
    Ok(pairs)
}

/// Returns the notes as a list, in order of the bytes of the place's JSON pointer and then of the rule, without
/// repeats. No place is printed. Fails if memory runs out.
pub fn sorted_withheld(
    alloc: Global,
    mut notes: Vec<Note<'_>>,
) -> Result<Vec<(Path, Rule)>, AllocError>
    ensures { IfOk result (λ v. v.items ≡ withheld_in_order notes.entry.items) }
{
    notes.sort()?;
    notes.dedup();
    pairs_of(alloc, notes)
}

//! The opening of a shelf that serves: all its rows in memory, and a sketch of each document.
ghost use Rattle.std.specs.Prelude.{◌≡◌, IfOk};
ghost use Rattle.hub_state.specs.Shelves.{IsKept};
ghost use Rattle.hub_state.specs.State.{State};
ghost use Rattle.hub_state.specs.Sound.{IsSound};
ghost use Rattle.kept_rows.specs.Drawn.{Keeps};

use hub_state::{Entry, LookUps, Shelf, ShelfFault, WholeRows};
use kept_rows::KeptRows;
use std::alloc::Global;
use std::io::Write;

/// How many incidents are listed at once.
const PAGE: u32 = 1000;

/// Prints a line of the opening. A hub whose standard error takes nothing serves all the same.
pub fn tell_opening<E: Write>(errors: &mut E) {
    let _ = writeln!(errors, "opening");
}

/// How many incidents have been read, of how many.
#[derive(Drop)]
struct Progress {
    read: u32,
    all: u32,
    /// How many documents have no sketch.
    undrawn: u32,
}

impl Progress {
    /// How many tenths of all incidents have been read.
    fn tenths(&self) -> u64 {
        let read = u64::from(self.read);
        read.saturating_mul(10)
            .checked_div(u64::from(self.all))
            .unwrap_or(0)
    }

    /// Counts an incident, and prints how many have been read if a tenth of all is complete with it.
    fn count<E: Write>(&mut self, errors: &mut E) {
        let before = self.tenths();
        self.read = self.read.saturating_add(1);
        if self.tenths() > before {
            let _ = writeln!(errors, "opening {} of {}", self.read, self.all);
        }
    }

    /// Counts a document that has no sketch.
    fn miss(&mut self) {
        self.undrawn = self.undrawn.saturating_add(1);
    }

    /// Prints how many documents have no sketch, if any has none.
    fn tell_undrawn<E: Write>(&self, errors: &mut E) {
        if self.undrawn > 0 {
            let _ = writeln!(
                errors,
                "opening: {} of {} documents have no sketch: lists and searches read them, or fail",
                self.undrawn, self.all
            );
        }
    }
}

/// Draws the sketches of the documents of these incidents. A document that can't be read has no sketch, nor has one for
/// whose sketch the memory doesn't suffice; it is counted, and read again when it is asked for.
fn draw_each<Sh: Shelf, E: Write>(
    kept: &mut KeptRows<Sh>,
    entries: &[Entry],
    progress: &mut Progress,
    errors: &mut E,
)
    ensures { IsKept (λ k s. Sh.has k.shelf s × Keeps k.rows k.sketches k.seen s)
        (λ k. Sh.doubts k.shelf) (λ k. Sh.failed k.shelf)
        (λ k left. Sh.may_remain k.shelf left) kept.old kept.new }
{
    for entry in entries {
        if kept.draw(entry.number).is_err() {
            progress.miss();
        }
        progress.count(errors);
    }
}

/// Draws the sketches of all documents. Prints a line for each tenth of them, and another one if some have no sketch.
fn draw_all<Sh: Shelf, E: Write>(kept: &mut KeptRows<Sh>, errors: &mut E) -> Result<(), ShelfFault>
    ensures { IsKept (λ k s. Sh.has k.shelf s × Keeps k.rows k.sketches k.seen s)
        (λ k. Sh.doubts k.shelf) (λ k. Sh.failed k.shelf)
        (λ k left. Sh.may_remain k.shelf left) kept.old kept.new }
{
    let all = kept.incident_count()?;
    let mut progress = Progress {
        read: 0,
        all,
        undrawn: 0,
    };
    let mut above = 0;
    for _ in 0..all / PAGE + 1 {
        let entries = kept.incidents_after(above, PAGE)?;
        draw_each(kept, entries.as_slice(), &mut progress, errors);
        if let Some(last) = entries.last() {
            above = last.number;
        }
    }
    progress.tell_undrawn(errors);
    Ok(())
}

/// Reads all rows of a shelf and keeps them, with a sketch of each document. Fails as the shelf does, which comes back
/// then, but not if a document can't be read, which has no sketch. Prints a line for each tenth of the documents, and
/// another one if some have no sketch.
pub fn open_rows<Sh: WholeRows, E: Write>(
    alloc: Global,
    shelf: Sh,
    errors: &mut E,
) -> Result<KeptRows<Sh>, (ShelfFault, Sh)>
    ensures kept { IfOk result (λ k. Sh.doubts k.shelf ≡ 0 → (s : State) →
        Sh.has shelf s → IsSound s → Sh.has k.shelf s × Keeps k.rows k.sketches k.seen s) }
{
    let mut kept = KeptRows::new(alloc, shelf)?;
    match draw_all(&mut kept, errors) {
        Ok(()) => Ok(kept),
        Err(fault) => Err((fault, kept.into_shelf())),
    }
}

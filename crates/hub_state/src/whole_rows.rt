//! A shelf whose rows can be read at once.
ghost use Rattle.std.specs.Prelude.{◌≡◌};
ghost use Rattle.hub_state.specs.Bare.{bare};
ghost use Rattle.hub_state.specs.Shelves.{Reads};

use crate::shelf::{Shelf, ShelfFault};
use crate::state_rows::StateRows;

/// A shelf whose rows can be read at once, without the documents.
pub trait WholeRows: Shelf {
    /// All rows of the content but the documents. Fails as a read of a shelf does.
    fn rows(&mut self) -> Result<StateRows, ShelfFault>
        ensures { Reads Self.has Self.doubts Self.failed Self.may_remain self.old self.new
            (λ s rows. rows ≡ bare s) result };
}

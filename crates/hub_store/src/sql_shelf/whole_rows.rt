//! The rows of the tables at once.

ghost use Rattle.std.specs.Prelude.{◌<◌};

use super::SqlShelf;
use crate::failures::count_failure;
use crate::find_rows::find_rows;
use hub_state::{ShelfFault, StateRows, WholeRows};
use sqlite::Alter;

impl<S: Alter> WholeRows for SqlShelf<S> {
    fn rows(&mut self) -> Result<StateRows, ShelfFault> {
        self.may_ask()?;
        let found = find_rows(&mut self.conn, self.alloc);
        count_failure(&mut self.failures, found)
    }
}

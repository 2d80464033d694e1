//! The replies that are due to all persons, by a hub in memory.

use crate::content::content;
use crate::lists::is_made;
use crate::steps::Steps;
use crate::stores::Way;
use std::alloc::{AllocError, Global};
use trying_shelves::{Asked, Asks, Lists};

/// What is due for some steps.
#[derive(Drop)]
pub struct Due {
    /// The replies after none of the steps, after the first, and so on.
    pub told: Vec<String>,
    /// Which of the steps are changes.
    pub changes: Vec<bool>,
}

impl Due {
    fn push(&mut self, alloc: Global, is_change: bool, hub: &mut Lists) -> Result<(), AllocError> {
        self.changes.push(is_change)?;
        self.told.push(content(alloc, hub)?)?;
        Ok(())
    }

    fn push_asked(
        &mut self,
        alloc: Global,
        hub: &mut Lists,
        asked: &[Asked],
    ) -> Result<(), AllocError> {
        for (now, key, request) in asked {
            let is_change = is_made(&hub.answer(alloc, *now, key, request));
            self.push(alloc, is_change, hub)?;
        }
        Ok(())
    }

    /// Adds what is due for the requests of the steps. The hub already has the rows of the steps.
    fn with_asked(
        mut self,
        alloc: Global,
        mut hub: Lists,
        steps: &Steps<'_>,
    ) -> Result<Due, AllocError> {
        // no return by `?` while there is a hub: each would prove its drop once more
        match self.push_asked(alloc, &mut hub, steps.asked) {
            Ok(()) => Ok(self),
            Err(refused) => Err(refused),
        }
    }

    /// Puts the rows of the steps into the hub, and adds what is due for them and for the requests.
    fn with_rows(
        mut self,
        alloc: Global,
        hub: Lists,
        steps: &Steps<'_>,
    ) -> Result<Due, AllocError> {
        let mut hub = hub.with_rows(steps.rows)?;
        match self.push(alloc, true, &mut hub) {
            Ok(()) => self.with_asked(alloc, hub, steps),
            Err(refused) => Err(refused),
        }
    }

    /// Returns whether these are the replies after so many steps.
    pub fn is_told(&self, done: usize, found: &str) -> bool {
        match self.told.get(done) {
            Some(told) => told.as_str() == found,
            None => false,
        }
    }
}

/// Returns what is due if the store isn't taken yet, and if it is.
fn of_taking(alloc: Global, way: Way, hub: &mut Lists) -> Result<Due, AllocError> {
    let mut due = Due {
        told: Vec::new(alloc),
        changes: Vec::new(alloc),
    };
    let told = content(alloc, hub)?;
    if let Way::Open = way {
        due.told.push(told)?;
        return Ok(due);
    }
    let words = way.words(alloc)?;
    due.told.push(format!(in alloc; "{words}{told}")?)?;
    due.told.push(told)?;
    due.changes.push(true)?;
    Ok(due)
}

/// Returns what is due for steps, by a hub with the content of the store that is taken.
pub fn due_of(alloc: Global, steps: &Steps<'_>, hub: Lists) -> Result<Due, AllocError> {
    let mut hub = hub;
    match of_taking(alloc, steps.way, &mut hub) {
        Ok(due) if steps.rows.is_empty() => due.with_asked(alloc, hub, steps),
        Ok(due) => due.with_rows(alloc, hub, steps),
        Err(refused) => Err(refused),
    }
}

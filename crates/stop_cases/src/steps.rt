//! The steps of a case, over tables in files.

use crate::files::{Kept, NEVER, Stopping, take_calls};
use crate::stores::{Over, Stored, Way, leave, shelf_in};
use circle::refusal::Code;
use hub::Hub;
use hub_core::{Edit, Reply, Shelf};
use hub_store::SqlShelf;
use sqlite::Alter;
use sqlite_disk::Files;
use std::alloc::{AllocError, Global};
use trying_shelves::{Asked, Asks, keep_rows};

/// The steps: a store is taken, gets the rows that a hub begins with, if there are any, and is asked.
#[derive(Clone, Copy)]
pub struct Steps<'a> {
    pub way: Way,
    pub over: Over,
    pub rows: &'a [Edit],
    pub asked: &'a [Asked],
}

/// The outcome of the steps over files of which one may have stopped.
#[derive(Drop)]
pub struct Played {
    /// How many steps were answered as done.
    pub done: usize,
    /// Whether the next step was begun.
    pub is_begun: bool,
    /// Whether all steps were done, the files were closed, and none of their calls was refused.
    pub is_whole: bool,
    pub files: Files<Stopping>,
}

fn is_given_up(reply: &Reply) -> bool {
    match reply {
        Reply::Refused(refusal) => refusal.code == Code::F1 || refusal.code == Code::F2,
        _ => false,
    }
}

/// Returns the outcome of steps after which the files were left.
fn end_play(done: usize, is_begun: bool, is_closed: bool, files: Files<Stopping>) -> Played {
    let mut files = files;
    let is_whole = is_closed && take_calls(&mut files);
    Played {
        done,
        is_begun,
        is_whole,
        files,
    }
}

/// Returns how many requests are answered before the first that is given up.
fn count_answered<A: Asks>(alloc: Global, hub: &mut A, asked: &[Asked]) -> usize {
    for (i, (now, key, request)) in asked.iter().enumerate() {
        if is_given_up(&hub.answer(alloc, *now, key, request)) {
            return i;
        }
    }
    asked.len()
}

impl Steps<'_> {
    /// Returns how many steps the taking is. Making tables and migrating are one each, as they change the files.
    fn of_taking(&self) -> usize {
        match self.way {
            Way::Make | Way::Migrate(_) => 1,
            Way::Open => 0,
        }
    }

    fn of_rows(&self) -> usize {
        if self.rows.is_empty() { 0 } else { 1 }
    }

    pub fn len(&self) -> usize {
        self.of_taking()
            .saturating_add(self.of_rows())
            .saturating_add(self.asked.len())
    }

    /// Returns how many steps are answered as done by a shelf that is taken, and whether one more was begun.
    fn go<Sh: Shelf + Drop>(&self, alloc: Global, mut shelf: Sh) -> (usize, bool, Sh) {
        let taken = self.of_taking();
        if !self.rows.is_empty() && shelf.apply(self.rows).is_err() {
            return (taken, true, shelf);
        }
        let mut hub = Hub::new(shelf);
        let answered = count_answered(alloc, &mut hub, self.asked);
        let done = taken
            .saturating_add(self.of_rows())
            .saturating_add(answered);
        (done, done < self.len(), hub.into_shelf())
    }

    /// Returns the same with the rows of the shelf kept in memory. If they aren't read, no step is begun.
    fn go_in_rows<S: Alter + Drop>(
        &self,
        alloc: Global,
        shelf: SqlShelf<S>,
    ) -> (usize, bool, SqlShelf<S>) {
        match keep_rows(alloc, shelf) {
            Ok(kept) => {
                let (done, is_begun, kept) = self.go(alloc, kept);
                (done, is_begun, kept.into_shelf())
            }
            Err((_, shelf)) => (self.of_taking(), false, shelf),
        }
    }

    /// Returns the same over tables in any store.
    fn go_over<S: Alter + Drop>(
        &self,
        alloc: Global,
        shelf: SqlShelf<S>,
    ) -> (usize, bool, SqlShelf<S>) {
        match self.over {
            Over::Tables => self.go(alloc, shelf),
            Over::Rows => self.go_in_rows(alloc, shelf),
        }
    }

    /// Returns the outcome if the store wasn't taken.
    fn untaken(&self, are_opened: bool, files: Files<Stopping>) -> Played {
        Played {
            done: 0,
            is_begun: are_opened && self.of_taking() > 0,
            is_whole: false,
            files,
        }
    }

    /// Plays the steps after the taking. Returns the outcome.
    fn play_over(&self, alloc: Global, shelf: SqlShelf<Stored>) -> Played {
        let (done, is_begun, shelf) = self.go_over(alloc, shelf);
        let (is_closed, files) = leave(shelf, done == self.len());
        end_play(done, is_begun, is_closed, files)
    }

    /// Plays the steps over these files, up to the first that isn't answered as done. Then it closes the files if all
    /// are done.
    pub fn play(&self, alloc: Global, files: Files<Stopping>) -> Played {
        match shelf_in(alloc, files, self.way) {
            Ok(shelf) => self.play_over(alloc, shelf),
            Err((fault, files)) => self.untaken(fault.is_some(), files),
        }
    }

    /// Returns the bytes after all steps over these, with no stop, or none if a step isn't done.
    pub fn bytes_behind(&self, alloc: Global, before: &Kept) -> Result<Option<Kept>, AllocError> {
        let played = self.play(alloc, before.files(alloc, NEVER)?);
        if played.is_whole {
            return Ok(Some(Kept::of(alloc, &played.files)?));
        }
        Ok(None)
    }
}

//! One run of a case for each call of one file.

use crate::due::Due;
use crate::files::{Kept, NEVER, Stop, Stopping};
use crate::found::Finds;
use crate::steps::{Played, Steps};
use sqlite_disk::Files;
use std::alloc::{AllocError, Global};

/// More calls of a file than a case makes.
const MOST_CALLS: u64 = 100_000;

/// The beginning of a case, its steps, and what is due.
#[derive(Clone, Copy)]
pub struct Case<'a> {
    pub kept: &'a Kept,
    pub steps: Steps<'a>,
    pub due: &'a Due,
}

/// The outcome of the stops of one file.
#[derive(Drop)]
pub struct Stops {
    /// How many calls were refused in turn.
    pub calls: u64,
    /// The steps in which they were refused.
    pub steps: Vec<bool>,
    /// How often the step that was stopped was found as done, if that shows.
    pub ahead: usize,
    /// The first stop that went wrong, and what was found after it.
    pub fault: Option<String>,
}

/// After how many calls the steps were stopped, and how many were done.
#[derive(Clone, Copy)]
struct Stopped {
    calls: u64,
    done: usize,
    is_begun: bool,
}

/// Returns the stop after so many calls of the log, or else of the database file.
fn stop_behind(of_log: bool, calls: u64) -> Stop {
    if of_log {
        Stop {
            log: calls,
            ..NEVER
        }
    } else {
        Stop { db: calls, ..NEVER }
    }
}

/// Returns the bytes of files that a process which dies leaves, and those that a failure of the power leaves.
fn bytes_left(alloc: Global, files: Files<Stopping>) -> Result<(Kept, Kept), AllocError> {
    let written = Kept::of(alloc, &files)?;
    Ok((written, Kept::from_synced(alloc, files)?))
}

impl Stops {
    fn new(alloc: Global, case: &Case<'_>) -> Result<Stops, AllocError> {
        let mut steps = Vec::new(alloc);
        steps.resize(case.steps.len(), false)?;
        Ok(Stops {
            calls: 0,
            steps,
            ahead: 0,
            fault: None,
        })
    }

    /// Returns whether the content found is due after the steps that were done, or after the one more that was begun.
    fn is_due(&mut self, due: &Due, stopped: Stopped, found: &str) -> bool {
        if due.is_told(stopped.done, found) {
            return true;
        }
        let is_ahead = stopped.is_begun && due.is_told(stopped.done.saturating_add(1), found);
        if is_ahead {
            self.ahead = self.ahead.saturating_add(1);
        }
        is_ahead
    }

    /// Returns whether the file was stopped within this step.
    fn is_stopped(&self, step: usize) -> bool {
        matches!(self.steps.get(step), Some(true))
    }

    fn note_step(&mut self, played: &Played) {
        if played.is_begun {
            if let Some(it) = self.steps.get_mut(played.done) {
                *it = true;
            }
        }
    }

    /// Notes what was found, if it is the first that is wrong.
    fn note_found(
        &mut self,
        alloc: Global,
        due: &Due,
        stopped: Stopped,
        how: &str,
        found: &str,
    ) -> Result<(), AllocError> {
        if self.fault.is_none() && !self.is_due(due, stopped, found) {
            let (calls, done) = (stopped.calls, stopped.done);
            self.fault = Some(format!(in alloc;
                "behind {calls} calls {done} steps done, {how}: {found}"
            )?);
        }
        Ok(())
    }

    /// Notes what is wrong after a stop, if something is.
    fn note(
        &mut self,
        alloc: Global,
        due: &Due,
        calls: u64,
        played: Played,
        finds: &mut Finds,
    ) -> Result<(), AllocError> {
        self.note_step(&played);
        let stopped = Stopped {
            calls,
            done: played.done,
            is_begun: played.is_begun,
        };
        let (written, synced) = bytes_left(alloc, played.files)?;
        let found = finds.replies_from(written)?;
        self.note_found(alloc, due, stopped, "the process dead", found.as_str())?;
        let found = finds.replies_from(synced)?;
        self.note_found(alloc, due, stopped, "the power lost", found.as_str())
    }
}

impl Case<'_> {
    /// Stops a file after so many of its calls. Returns whether that was the last stop: no call was refused, or a stop
    /// went wrong.
    fn is_last(
        &self,
        alloc: Global,
        of_log: bool,
        calls: u64,
        stops: &mut Stops,
        finds: &mut Finds,
    ) -> Result<bool, AllocError> {
        let files = self.kept.files(alloc, stop_behind(of_log, calls))?;
        let played = self.steps.play(alloc, files);
        let is_whole = played.is_whole;
        stops.note(alloc, self.due, calls, played, finds)?;
        Ok(is_whole || stops.fault.is_some())
    }

    /// Stops a file after none of its calls, after the first, and so on to the last stop.
    fn stop_each(
        &self,
        alloc: Global,
        of_log: bool,
        stops: &mut Stops,
        finds: &mut Finds,
    ) -> Result<(), AllocError> {
        for calls in 0..MOST_CALLS {
            if self.is_last(alloc, of_log, calls, stops, finds)? {
                return Ok(());
            }
            stops.calls = calls;
        }
        stops.fault = Some(String::from_str(alloc, "more calls than expected")?);
        Ok(())
    }

    /// Returns the outcome of the stops of a file.
    fn stops(&self, alloc: Global, of_log: bool, finds: &mut Finds) -> Result<Stops, AllocError> {
        let mut stops = Stops::new(alloc, self)?;
        self.stop_each(alloc, of_log, &mut stops, finds)?;
        Ok(stops)
    }
}

/// Returns the first change within which the file wasn't stopped.
fn first_missed(due: &Due, stops: &Stops) -> Option<usize> {
    for (step, is_change) in due.changes.iter().enumerate() {
        if *is_change && !stops.is_stopped(step) {
            return Some(step);
        }
    }
    None
}

/// Returns how many of these hold.
fn count(flags: &[bool]) -> usize {
    let mut count = 0usize;
    for it in flags {
        if *it {
            count = count.saturating_add(1);
        }
    }
    count
}

/// Returns what is printed if no stop went wrong.
fn told_of(alloc: Global, due: &Due, log: &Stops, db: &Stops) -> Result<String, AllocError> {
    if let Some(step) = first_missed(due, log) {
        return format!(in alloc; "no stop within step {step}");
    }
    if db.calls == 0 {
        return String::from_str(alloc, "no stop of the database file");
    }
    let (changes, within) = (count(&due.changes), count(&db.steps));
    let (in_log, in_db) = (log.calls, db.calls);
    let ahead = log.ahead.saturating_add(db.ahead);
    if ahead > changes {
        return format!(in alloc;
            "{ahead} unanswered changes found, and there are {changes} changes"
        );
    }
    format!(in alloc;
        "stopped within each of {changes} changes at {in_log} calls of the log, and within {within} at {in_db} of the file: 0 differences, {ahead} unanswered changes found"
    )
}

impl Case<'_> {
    /// Returns what is printed for a case.
    pub fn describe(&self, alloc: Global) -> Result<String, AllocError> {
        let mut finds = Finds::new(alloc, self.steps.over);
        let log = self.stops(alloc, true, &mut finds)?;
        if let Some(fault) = &log.fault {
            return format!(in alloc; "the log: {fault}");
        }
        let db = self.stops(alloc, false, &mut finds)?;
        if let Some(fault) = &db.fault {
            return format!(in alloc; "the database file: {fault}");
        }
        told_of(alloc, self.due, &log, &db)
    }
}

//! One run for each growth of a case.

use std::alloc::{AllocError, Global};

/// More growths than a case has.
const MOST_RUNS: u32 = 10_000_000;

/// The outcome of one run of a case.
#[derive(Drop)]
pub struct Met {
    /// Whether a growth was refused in the run.
    pub refused: bool,
    /// The answer, or none if it was want of memory.
    pub told: Option<String>,
}

/// A case, which can be run again and again.
pub trait Trial {
    /// Runs it with the n-th growth of its call refused, or none for 0. Each run must return the answer without a
    /// refusal.
    fn run(&self, alloc: Global, n: u32) -> Result<Met, AllocError>;
}

/// Refuses growths of cases: of each the growth `first`, and from there on every `step`-th.
#[derive(Clone, Copy)]
pub struct Sweep {
    pub first: u32,
    pub step: u32,
    /// How many growths were refused so far.
    pub growths: u64,
    /// In how many runs they were refused.
    pub runs: u64,
}

/// Returns whether the answer is the one that is due, or is want of memory and a growth was refused.
fn is_right(met: &Met, due: &str) -> bool {
    match &met.told {
        Some(told) => told.as_str() == due,
        None => met.refused,
    }
}

/// Returns the first line of an answer.
fn head_of(answer: &str) -> &str {
    match answer.split_once('\n') {
        Some((head, _)) => head,
        None => answer,
    }
}

fn wrong(alloc: Global, n: u32, met: &Met) -> Result<String, AllocError> {
    let told = match &met.told {
        Some(told) => head_of(told.as_str()),
        None => "no memory, and no growth refused",
    };
    format!(in alloc; "growth {n}: {told}")
}

/// Returns what is printed for a case in which nothing went wrong: how many growths were refused, and the answer's
/// first line.
fn right(alloc: Global, refused: u32, due: &str) -> Result<String, AllocError> {
    let head = head_of(due);
    if refused == 0 {
        return format!(in alloc; "no growth refused: {head}");
    }
    format!(in alloc; "{refused} growths refused, each told: {head}")
}

impl Sweep {
    fn count(&mut self, refused: bool) {
        self.runs = self.runs.saturating_add(1);
        self.growths = self.growths.saturating_add(u64::from(refused));
    }

    /// Returns what is printed for a case: how many growths were refused if each answer was right, else the first wrong
    /// one.
    pub fn report<T: Trial>(&mut self, alloc: Global, trial: &T) -> Result<String, AllocError> {
        let Some(due) = trial.run(alloc, 0)?.told else {
            return String::from_str(alloc, "no memory");
        };
        let mut n = self.first;
        for refused in 0..MOST_RUNS {
            let met = trial.run(alloc, n)?;
            self.count(met.refused);
            if !is_right(&met, due.as_str()) {
                return wrong(alloc, n, &met);
            }
            if !met.refused {
                return right(alloc, refused, due.as_str());
            }
            n = n.saturating_add(self.step);
        }
        String::from_str(alloc, "more growths than expected")
    }
}

//! How often each outcome of each kind was met.

use std::alloc::{AllocError, Global};

#[derive(Drop)]
struct Count {
    kind: &'static str,
    outcome: String,
    count: u32,
}

/// Counts of what cases show, each by a kind and an outcome. They have no contracts: the programs print them.
#[derive(Drop)]
pub struct Tally {
    alloc: Global,
    counts: Vec<Count>,
}

impl Count {
    fn is_of(&self, kind: &str, outcome: &str) -> bool {
        self.kind == kind && self.outcome.as_str() == outcome
    }
}

impl Tally {
    pub fn new(alloc: Global) -> Tally {
        Tally {
            alloc,
            counts: Vec::new(alloc),
        }
    }

    /// Notes that the kind met the outcome.
    pub fn note(&mut self, kind: &'static str, outcome: &str) -> Result<(), AllocError> {
        for count in self.counts.iter_mut() {
            if count.is_of(kind, outcome) {
                count.count = count.count.saturating_add(1);
                return Ok(());
            }
        }
        let outcome = String::from_str(self.alloc, outcome)?;
        self.counts.push(Count {
            kind,
            outcome,
            count: 1,
        })?;
        Ok(())
    }

    /// Returns how often the kind met the outcome.
    pub fn met(&self, kind: &str, outcome: &str) -> u32 {
        let found = self.counts.iter().find(|count| count.is_of(kind, outcome));
        found.map_or(0, |count| count.count)
    }

    /// Returns whether only outcomes of the rows were met. A row has a kind and its outcomes, with commas between them.
    pub fn is_among(&self, rows: &[(&str, &str)]) -> bool {
        self.counts.iter().all(|count| {
            rows.iter().any(|row| row.0 == count.kind
                && row
                    .1
                    .split(',')
                    .any(|outcome| outcome == count.outcome.as_str()))
        })
    }
}

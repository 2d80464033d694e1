//! How often the generated cases show the features that they must show.

use std::alloc::{AllocError, Global};

/// The features that must be shown, each at least `FLOOR` times.
const WANTED: &[&str] = &[
    "readers of the source",
    "readers cleared for CLEAR",
    "readers cleared for GREEN",
    "readers cleared for AMBER",
    "readers cleared for STRICT",
    "readers cleared for RED",
    "nothing visible",
    "frames",
    "frames below frames",
    "hidden classes below hidden ones",
    "places that differ from the paths",
    "added labels",
    "added labels between members",
    "added extended labels",
    "gates that refuse at two places of a path",
    "gates that refuse at one place",
    "permissions that show a class",
    "permissions that end at a label",
    "permissions that are over",
    "rule G0",
    "rule G1",
    "rule G2",
    "rule G4",
    "rule G4X",
    "rule H-GREEN",
    "rule H-AMBER",
    "rule H-STRICT",
    "rule H-RED",
    "repeated pairs",
    "needles found",
    "needles hidden",
    "long names",
    "deep chains",
    "gates or permissions at arrays",
    "gates or permissions at elements",
    "gates or permissions at siblings",
    "gates or permissions at plain members",
    "gates or permissions at nothing",
    "several at one path",
    "excerpts by lines",
    "searches sure before the last line",
    "searches met at the end alone",
    "searches not met",
    "lines at which a search is sure",
    "reports that begin with lines that are sure",
];

const FLOOR: u32 = 50;

#[derive(Drop)]
pub struct Count {
    pub name: &'static str,
    pub count: u32,
}

#[derive(Drop)]
pub struct Tally {
    counts: Vec<Count>,
}

impl Tally {
    pub fn new(alloc: Global) -> Result<Tally, AllocError> {
        let mut counts = Vec::new(alloc);
        for &name in WANTED {
            counts.push(Count { name, count: 0 })?;
        }
        Ok(Tally { counts })
    }

    /// Counts so many more of it.
    pub fn count(&mut self, name: &str, times: u32) {
        for count in self.counts.iter_mut() {
            if count.name == name {
                count.count = count.count.saturating_add(times);
            }
        }
    }

    /// Notes that a case shows it.
    pub fn note(&mut self, name: &str, shows: bool) {
        self.count(name, u32::from(shows));
    }

    /// Returns what is shown too rarely.
    pub fn rare(&self) -> Option<&Count> {
        self.counts.iter().find(|count| count.count < FLOOR)
    }

    pub fn counts(&self) -> &[Count] {
        self.counts.as_slice()
    }
}

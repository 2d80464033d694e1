//! The lines at which `Probe` is sure before the end: reports that begin with the same lines must meet the want.

use crate::by_lines::{World, world_at};
use crate::growing::completion;
use crate::tally::Tally;
use iodef_tree::{Document, Line, OutlineFault};
use marking::check;
use policy::{Case, Standing};
use redact::{Probe, Want, finds, is_listed};
use std::alloc::{AllocError, Global};
use trying::Dice;

/// The number of reports that are made for each line at which a search is sure. They begin with the lines up to it.
const COMPLETIONS: u32 = 10;

/// At most so many are made for each of these reports, as some have markings that aren't accepted.
const TRIES: u32 = 4;

/// The difference between the seed of the reports and that of the case.
const OTHER: u64 = 0x5EED_0000_0000;

/// The needle, and the name of the classes that are searched. Without a needle any visible class is looked for.
#[derive(Clone, Copy)]
struct Looked {
    needle: Option<&'static str>,
    class: Option<&'static str>,
}

fn looked_for(dice: &mut Dice) -> Looked {
    let (needle, class) = match dice.roll(6) {
        0 => (Some("needle"), None),
        1 => (Some("needles"), Some("Node")),
        2 => (Some("text"), None),
        3 => (Some(""), Some("Flow")),
        4 => (None, Some("System")),
        _ => (None, None),
    };
    Looked { needle, class }
}

fn copy(alloc: Global, text: Option<&str>) -> Result<Option<String>, AllocError> {
    match text {
        Some(text) => Ok(Some(String::from_str(alloc, text)?)),
        None => Ok(None),
    }
}

fn want_of(alloc: Global, looked: Looked) -> Result<Want, AllocError> {
    Ok(Want {
        needle: copy(alloc, looked.needle)?,
        class: copy(alloc, looked.class)?,
    })
}

/// Returns the search of a case.
fn probe_of(alloc: Global, world: World, looked: Looked) -> Result<Probe, AllocError> {
    let World {
        document: _,
        case,
        standing,
    } = world;
    Probe::new(alloc, case, standing, want_of(alloc, looked)?)
}

/// Returns the search of the case of this seed, if its report is read.
fn probe_at(alloc: Global, seed: u64, looked: Looked) -> Result<Option<Probe>, AllocError> {
    match world_at(alloc, seed)? {
        Some(world) => Ok(Some(probe_of(alloc, world, looked)?)),
        None => Ok(None),
    }
}

/// The case by which a whole report is judged, the reader, and the want.
#[derive(Clone, Copy)]
struct Judging<'a> {
    alloc: Global,
    case: &'a Case,
    standing: &'a Standing,
    looked: Looked,
}

impl Judging<'_> {
    fn meets(&self, document: &Document) -> Result<bool, AllocError> {
        match self.looked.needle {
            None => is_listed(self.alloc, document, self.case, self.standing),
            Some(needle) => finds(
                self.alloc,
                document,
                self.case,
                self.standing,
                needle,
                self.looked.class,
            ),
        }
    }

    /// Returns whether the report of these lines meets the want, or none if its markings aren't accepted.
    fn meets_if_marked(&self, lines: &[Line]) -> Result<Option<bool>, AllocError> {
        let Ok(document) = Document::from_outline(self.alloc, lines) else {
            return Ok(None);
        };
        match check(self.alloc, &document) {
            Ok(()) => Ok(Some(self.meets(&document)?)),
            Err(_) => Ok(None),
        }
    }

    /// Returns whether the generated reports that begin with these lines meet the want.
    fn is_sure(
        &self,
        tally: &mut Tally,
        dice: &mut Dice,
        lines: &[Line],
    ) -> Result<bool, AllocError> {
        let mut made: u32 = 0;
        for _ in 0..COMPLETIONS * TRIES {
            let report = completion(self.alloc, dice, lines)?;
            match self.meets_if_marked(&report)? {
                Some(true) => made = made.saturating_add(1),
                Some(false) => return Ok(false),
                None => {}
            }
            if made == COMPLETIONS {
                break;
            }
        }
        tally.count("reports that begin with lines that are sure", made);
        Ok(true)
    }
}

/// Returns at how many lines the search is sure, or none if it isn't right about one of them, or isn't sure at a later
/// one.
fn sure_lines(
    tally: &mut Tally,
    dice: &mut Dice,
    judging: &Judging<'_>,
    probe: &mut Probe,
    lines: &[Line],
) -> Result<Option<u32>, OutlineFault> {
    let mut sure: u32 = 0;
    for (i, line) in lines.iter().enumerate() {
        if probe.feed(line.clone()?)? {
            sure = sure.saturating_add(1);
            if !judging.is_sure(tally, dice, &lines[..=i])? {
                return Ok(None);
            }
        } else if sure > 0 {
            return Ok(None);
        }
    }
    Ok(Some(sure))
}

/// Returns whether the search is right about each line, and at the end.
fn is_right(
    tally: &mut Tally,
    dice: &mut Dice,
    judging: &Judging<'_>,
    mut probe: Probe,
    lines: &[Line],
) -> Result<bool, OutlineFault> {
    let sure = sure_lines(tally, dice, judging, &mut probe, lines);
    let end = probe.finish();
    let Some(sure) = sure? else {
        return Ok(false);
    };
    let end = end?;
    tally.count("lines at which a search is sure", sure);
    tally.note("searches sure before the last line", sure > 1);
    tally.note("searches met at the end alone", end && sure == 0);
    tally.note("searches not met", !end);
    Ok(judging.meets_if_marked(lines)? == Some(end))
}

/// Returns whether a search by lines of the case of this seed is right, by that case again.
fn is_right_about(
    alloc: Global,
    tally: &mut Tally,
    seed: u64,
    again: &World,
) -> Result<bool, OutlineFault> {
    let mut dice = Dice::new(seed ^ OTHER);
    let looked = looked_for(&mut dice);
    let judging = Judging {
        alloc,
        case: &again.case,
        standing: &again.standing,
        looked,
    };
    let lines = again.document.outline(alloc)?;
    match probe_at(alloc, seed, looked)? {
        Some(probe) => is_right(tally, &mut dice, &judging, probe, &lines),
        None => Ok(false),
    }
}

/// Returns whether a search by lines of the case of this seed is right.
pub fn is_sure_rightly(alloc: Global, tally: &mut Tally, seed: u64) -> Result<bool, AllocError> {
    let Some(world) = world_at(alloc, seed)? else {
        return Ok(false);
    };
    match is_right_about(alloc, tally, seed, &world) {
        Ok(right) => Ok(right),
        Err(OutlineFault::NoMemory) => Err(AllocError),
        Err(OutlineFault::BadOutline) => Ok(false),
    }
}

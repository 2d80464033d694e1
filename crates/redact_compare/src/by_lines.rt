//! Compares `RowPass` over the lines of a case with a pass that keeps all of them and is asked at the end.

use crate::compared::{any_document, case_over, same_lines};
use crate::readers::any_standing;
use crate::tally::Tally;
use iodef_tree::{Document, Line, OutlineFault, Path};
use policy::{Case, Rule, Standing};
use redact::{Excerpt, RowPass, excerpt_if_marked};
use std::alloc::{AllocError, Global};
use trying::Dice;

/// The case of a seed: a report by its document, the case by which it is judged, and a reader.
#[derive(Drop)]
pub struct World {
    pub document: Document,
    pub case: Case,
    pub standing: Standing,
}

/// Returns the case of this seed, if its report is read.
pub fn world_at(alloc: Global, seed: u64) -> Result<Option<World>, AllocError> {
    let mut dice = Dice::new(seed);
    let Some(document) = any_document(alloc, &mut dice)? else {
        return Ok(None);
    };
    let case = case_over(alloc, &mut dice, &document)?;
    let standing = any_standing(alloc, &mut dice)?;
    Ok(Some(World {
        document,
        case,
        standing,
    }))
}

/// Returns what the pass that keeps all lines serves: their document, redacted at once.
fn plainly(alloc: Global, world: World) -> Result<Option<Excerpt>, AllocError> {
    let lines = world.document.outline(alloc)?;
    let document = match Document::from_outline(alloc, &lines) {
        Ok(document) => document,
        Err(_) => return Err(AllocError),
    };
    excerpt_if_marked(alloc, &document, &world.case, &world.standing)
}

fn feed_all(pass: &mut RowPass, lines: Vec<Line>) -> Result<(), OutlineFault> {
    for line in lines {
        pass.feed(line)?;
    }
    Ok(())
}

/// Returns what `RowPass` serves. Fails if it refuses a line.
fn by_lines(alloc: Global, world: World) -> Result<Option<Excerpt>, OutlineFault> {
    let World {
        document,
        case,
        standing,
    } = world;
    let lines = document.outline(alloc)?;
    let mut pass = RowPass::new(alloc, case, standing)?;
    match feed_all(&mut pass, lines) {
        Ok(()) => pass.finish(),
        Err(fault) => Err(fault),
    }
}

fn same_pair(alloc: Global, one: &(Path, Rule), other: &(Path, Rule)) -> Result<bool, AllocError> {
    let place = one.0.print(alloc)?;
    Ok(place.as_str() == other.0.print(alloc)?.as_str() && one.1.name() == other.1.name())
}

/// Returns whether both withhold the same, in the same order.
fn same_withheld(
    alloc: Global,
    one: &[(Path, Rule)],
    other: &[(Path, Rule)],
) -> Result<bool, AllocError> {
    for (pair, second) in one.iter().zip(other.iter()) {
        if !same_pair(alloc, pair, second)? {
            return Ok(false);
        }
    }
    Ok(one.len() == other.len())
}

fn same_excerpt(alloc: Global, one: &Excerpt, other: &Excerpt) -> Result<bool, AllocError> {
    let lines: Vec<Line> = one.document.outline(alloc)?;
    let others: Vec<Line> = other.document.outline(alloc)?;
    Ok(
        one.classes == other.classes
            && same_lines(&lines, &others)
            && same_withheld(alloc, &one.withheld, &other.withheld)?,
    )
}

/// Returns whether both serve the same. Notes in the tally whether something is served.
fn agree_on(
    alloc: Global,
    tally: &mut Tally,
    plain: &Option<Excerpt>,
    rows: &Option<Excerpt>,
) -> Result<bool, AllocError> {
    match (plain, rows) {
        (None, None) => Ok(true),
        (Some(one), Some(other)) => {
            tally.note("excerpts by lines", true);
            same_excerpt(alloc, one, other)
        }
        _ => Ok(false),
    }
}

/// Returns whether `RowPass` serves the same as was served in the case of this seed.
fn agree_with(
    alloc: Global,
    tally: &mut Tally,
    seed: u64,
    plain: &Option<Excerpt>,
) -> Result<bool, AllocError> {
    let Some(world) = world_at(alloc, seed)? else {
        return Ok(false);
    };
    match by_lines(alloc, world) {
        Ok(rows) => agree_on(alloc, tally, plain, &rows),
        Err(OutlineFault::NoMemory) => Err(AllocError),
        Err(OutlineFault::BadOutline) => Ok(false),
    }
}

/// Returns whether both serve the same in the case of this seed.
pub fn agree_by_lines(alloc: Global, tally: &mut Tally, seed: u64) -> Result<bool, AllocError> {
    let Some(world) = world_at(alloc, seed)? else {
        return Ok(false);
    };
    let plain = plainly(alloc, world)?;
    agree_with(alloc, tally, seed, &plain)
}

//! The requests of each case, their moments, and the hubs that are asked.

use crate::block::Block;
use std::alloc::{AllocError, Global};
use trying_hub::{first_rows, key_of};
use trying_shelves::{Asked, Lists, Rows, Tables, asked_of};

/// The moment of the first request, in seconds since 1970. Each comes a second after the one before, unless its line
/// names another moment.
const FIRST_MOMENT: i64 = 1_700_000_000;

fn push_lines<'a>(lines: &mut Vec<&'a str>, block: &'a Block) -> Result<(), AllocError> {
    for line in block.lines.iter() {
        lines.push(line.as_str())?;
    }
    Ok(())
}

/// Returns the lines of a case: those of the world, and its own behind them.
pub fn lines_of<'a>(
    alloc: Global,
    world: &'a Block,
    block: &'a Block,
) -> Result<Vec<&'a str>, AllocError> {
    let mut lines = Vec::new(alloc);
    push_lines(&mut lines, world)?;
    push_lines(&mut lines, block)?;
    Ok(lines)
}

/// Returns the moment of the request at this place, if its line names none.
pub fn moment_at(place: usize) -> i64 {
    FIRST_MOMENT.saturating_add(i64::try_from(place).unwrap_or(0))
}

/// Returns the requests of these lines, except for one.
pub fn requests_of(
    alloc: Global,
    lines: &[&str],
    but: Option<usize>,
) -> Result<Vec<Asked>, AllocError> {
    let mut asked = Vec::new(alloc);
    for (i, line) in lines.iter().enumerate() {
        if but != Some(i) {
            asked.push(asked_of(alloc, line, moment_at(i))?)?;
        }
    }
    Ok(asked)
}

/// Returns the hub in memory with organisation 1 and person 1, or none if it wasn't made.
pub fn begun_in_memory(alloc: Global) -> Result<Option<Lists>, AllocError> {
    Ok(Lists::with(alloc, &first_rows(alloc, key_of(1))?).ok())
}

/// Returns the same over new tables.
pub fn begun_in_tables(alloc: Global) -> Result<Option<Tables>, AllocError> {
    Ok(Tables::with(alloc, &first_rows(alloc, key_of(1))?).ok())
}

/// Returns the same over new tables whose rows are kept in memory.
pub fn begun_in_rows(alloc: Global) -> Result<Option<Rows>, AllocError> {
    Ok(Rows::with(alloc, &first_rows(alloc, key_of(1))?).ok())
}

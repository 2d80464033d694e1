//! Runs the requests of a block.

use crate::below::counts_below;
use crate::block::Block;
use crate::counted::counts;
use crate::steps::limit_steps;
use crate::watched::run_failing;
use crate::world::{
    begun_in_memory, begun_in_rows, begun_in_tables, lines_of, moment_at, requests_of,
};
use std::alloc::{AllocError, Global};
use trying_hub::{first_shelf, key_of};
use trying_shelves::{Asks, ask, replies_text};

/// More calls of the shelf than a case makes.
const MOST_CALLS: u64 = 10_000;

/// Returns the answers to the requests except for one that isn't made, or none if the memory doesn't suffice.
fn replies(
    alloc: Global,
    lines: &[&str],
    but: Option<usize>,
) -> Result<Option<Vec<String>>, AllocError> {
    let Some(mut hub) = begun_in_memory(alloc)? else {
        return Ok(None);
    };
    let asked = requests_of(alloc, lines, but)?;
    match hub.run(alloc, &asked) {
        Ok(list) => Ok(Some(replies_text(alloc, &list)?)),
        Err(_) => Ok(None),
    }
}

/// Returns the answers to the requests if one call of the shelf fails, after so many others, or none if none failed.
fn replies_failing(
    alloc: Global,
    lines: &[&str],
    calls: u64,
) -> Result<Option<Vec<String>>, AllocError> {
    let Some(shelf) = first_shelf(alloc, key_of(1))? else {
        return Ok(None);
    };
    let asked = requests_of(alloc, lines, None)?;
    match run_failing(alloc, shelf, &asked, calls) {
        Some(list) => Ok(Some(replies_text(alloc, &list)?)),
        None => Ok(None),
    }
}

/// Returns the answers to the requests over tables that are released and opened again after each. Returns none if the
/// tables failed or the memory doesn't suffice.
fn replies_over_tables(alloc: Global, lines: &[&str]) -> Result<Option<Vec<String>>, AllocError> {
    let Some(mut tables) = begun_in_tables(alloc)? else {
        return Ok(None);
    };
    let mut told = Vec::new(alloc);
    for (i, line) in lines.iter().enumerate() {
        push_answer(alloc, &mut told, &mut tables, line, i)?;
        match tables.opened_anew(alloc) {
            Some(again) => tables = again,
            None => return Ok(None),
        }
    }
    Ok(Some(told))
}

/// Returns the same over tables whose rows are kept in memory, and read again after each request.
fn replies_over_rows(alloc: Global, lines: &[&str]) -> Result<Option<Vec<String>>, AllocError> {
    let Some(mut rows) = begun_in_rows(alloc)? else {
        return Ok(None);
    };
    let mut told = Vec::new(alloc);
    for (i, line) in lines.iter().enumerate() {
        push_answer(alloc, &mut told, &mut rows, line, i)?;
        match rows.opened_anew(alloc) {
            Some(again) => rows = again,
            None => return Ok(None),
        }
    }
    Ok(Some(told))
}

/// Adds the answer of a hub to the request at this place.
fn push_answer<A: Asks>(
    alloc: Global,
    told: &mut Vec<String>,
    hub: &mut A,
    line: &str,
    place: usize,
) -> Result<(), AllocError> {
    told.push(ask(hub, alloc, line, moment_at(place))?)?;
    Ok(())
}

/// Returns whether all except for one are the same.
fn same_but_one(told: &[String], others: &[String], place: usize) -> bool {
    let (before, behind) = told.split_at(place.min(told.len()));
    behind.len() > 0 && others.iter().eq(before.iter().chain(behind.iter().skip(1)))
}

/// Returns whether exactly one request is answered F1, and the others as if it hadn't been made.
fn is_as_if_not_made(alloc: Global, lines: &[&str], told: &[String]) -> Result<bool, AllocError> {
    let Some(place) = told.iter().position(|reply| reply.as_str() == "F1") else {
        return Ok(false);
    };
    match replies(alloc, lines, Some(place))? {
        Some(others) => Ok(same_but_one(told, &others, place)),
        None => Ok(false),
    }
}

/// Fails each call of the shelf in turn. Returns the outcome.
fn failed_in_turn(alloc: Global, lines: &[&str]) -> Result<&'static str, AllocError> {
    for calls in 0..MOST_CALLS {
        match replies_failing(alloc, lines, calls)? {
            None => {
                return Ok(if calls > 0 {
                    "F1 for each failure, and all else as if it hadn't been asked"
                } else {
                    "no call failed"
                });
            }
            Some(told) => {
                if !is_as_if_not_made(alloc, lines, &told)? {
                    return Ok("a failure changed more than its own answer");
                }
            }
        }
    }
    Ok("more calls than expected")
}

/// Returns whether a hub answered as the shelf in memory did.
fn are_same(replies: &Option<Vec<String>>, told: &[String]) -> bool {
    match replies {
        Some(replies) => replies.iter().eq(told.iter()),
        None => false,
    }
}

/// Returns the words for whether the tables answer as the shelf in memory did, and tables whose rows are kept.
fn over_tables(alloc: Global, lines: &[&str], told: &[String]) -> Result<&'static str, AllocError> {
    let over_tables = replies_over_tables(alloc, lines)?;
    if !are_same(&over_tables, told) {
        return Ok("otherwise over tables, or they failed");
    }
    let over_rows = replies_over_rows(alloc, lines)?;
    if are_same(&over_rows, told) {
        Ok("the same over tables")
    } else {
        Ok("otherwise with rows in memory, or it failed")
    }
}

fn push(alloc: Global, answers: &mut Vec<String>, text: &str) -> Result<(), AllocError> {
    answers.push(String::from_str(alloc, text)?)?;
    Ok(())
}

/// Adds the answers behind those of the world, and how the tables answered.
fn push_answers(
    alloc: Global,
    answers: &mut Vec<String>,
    lines: &[&str],
    told: &[String],
    world: usize,
) -> Result<(), AllocError> {
    for reply in told.iter().skip(world) {
        push(alloc, answers, reply.as_str())?;
    }
    push(alloc, answers, over_tables(alloc, lines, told)?)
}

/// Adds what else is printed for a block.
fn push_outcomes(
    alloc: Global,
    answers: &mut Vec<String>,
    lines: &[&str],
    block: &Block,
    world: usize,
) -> Result<(), AllocError> {
    if block.fails {
        push(alloc, answers, failed_in_turn(alloc, lines)?)?;
    }
    if block.limits {
        push(alloc, answers, limit_steps(alloc, lines, world)?)?;
    }
    if block.counts {
        answers.push(counts(alloc, lines, world)?)?;
    }
    if block.below {
        answers.append(&mut counts_below(alloc, lines, world)?)?;
    }
    Ok(())
}

/// Returns what is printed for a block: the answer to each of its requests, and how the tables answered.
pub fn answers(alloc: Global, world: &Block, block: &Block) -> Result<Vec<String>, AllocError> {
    let lines = lines_of(alloc, world, block)?;
    let mut answers = Vec::new(alloc);
    let count = world.lines.len();
    match replies(alloc, &lines, None)? {
        Some(told) => {
            push_answers(alloc, &mut answers, &lines, &told, count)?;
            push_outcomes(alloc, &mut answers, &lines, block, count)?;
        }
        None => push(alloc, &mut answers, "no memory")?,
    }
    Ok(answers)
}

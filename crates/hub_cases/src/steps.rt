//! The hub over tables whose statements may take only so many steps.

use crate::world::{begun_in_memory, begun_in_tables, requests_of};
use std::alloc::{AllocError, Global};
use trying_shelves::{Asked, Asks, Lists, Tables, reply_text};

/// More steps than a statement of a case takes.
const MOST_STEPS: u64 = 100_000;

/// What everybody asks for after a request that was given up.
const LOOKS: [&str; 8] = [
    "p2|List|0",
    "p2|View|1",
    "p3|List|0",
    "p3|View|1",
    "p4|List|0",
    "p4|View|1",
    "p6|List|0",
    "p6|View|1",
];

/// How often the tables gave up, and how many of their answers differed.
#[derive(Clone, Copy)]
struct Counts {
    interruptions: u64,
    differences: u64,
}

/// Tables and a hub in memory that are asked the same, except for what the tables gave up. Nothing here returns by `?`
/// while there are tables: each such return would prove their drop once more.
#[derive(Drop)]
struct Trial {
    tables: Tables,
    plain: Lists,
    counts: Counts,
    /// Whether memory ran out for an answer. Then the counts say nothing.
    lacks_memory: bool,
}

/// Returns the answer of the tables within so many steps a statement; 0 is no limit.
fn answer_within(
    alloc: Global,
    tables: Tables,
    steps: u64,
    asked: &Asked,
) -> (Result<String, AllocError>, Tables) {
    let mut tables = tables.with_step_limit(steps);
    let (now, key, request) = asked;
    let reply = tables.answer(alloc, *now, key, request);
    (reply_text(alloc, &reply), tables.with_step_limit(0))
}

/// Returns whether the hub in memory answers the same.
fn is_same(
    alloc: Global,
    plain: &mut Lists,
    told: &str,
    asked: &Asked,
) -> Result<bool, AllocError> {
    let (now, key, request) = asked;
    let other = reply_text(alloc, &plain.answer(alloc, *now, key, request))?;
    Ok(other.as_str() == told)
}

/// Counts an answer of the tables. Returns whether they gave up, which they may if the steps are limited.
fn count(
    alloc: Global,
    plain: &mut Lists,
    counts: &mut Counts,
    told: &str,
    steps: u64,
    asked: &Asked,
) -> Result<bool, AllocError> {
    if steps > 0 && told == "F1" {
        counts.interruptions = counts.interruptions.saturating_add(1);
        return Ok(true);
    }
    if !is_same(alloc, plain, told, asked)? {
        counts.differences = counts.differences.saturating_add(1);
    }
    Ok(false)
}

/// Asks once. Returns whether the tables gave up, and the trial.
fn asked_within(alloc: Global, trial: Trial, steps: u64, asked: &Asked) -> (bool, Trial) {
    let Trial {
        tables,
        mut plain,
        mut counts,
        lacks_memory,
    } = trial;
    let (told, tables) = answer_within(alloc, tables, steps, asked);
    let outcome = match &told {
        Ok(told) => count(alloc, &mut plain, &mut counts, told.as_str(), steps, asked),
        Err(_) => Err(AllocError),
    };
    let trial = Trial {
        tables,
        plain,
        counts,
        lacks_memory: lacks_memory || outcome.is_err(),
    };
    (outcome.unwrap_or(false), trial)
}

/// Asks without a limit, and returns the trial.
fn asked_freely(alloc: Global, trial: Trial, asked: &[Asked]) -> Trial {
    let mut trial = trial;
    for one in asked {
        trial = asked_within(alloc, trial, 0, one).1;
    }
    trial
}

/// Asks each within the limit, and returns the trial. If the tables give up, everybody must see the same as before, and
/// the same request must be answered without a limit.
fn asked_all(alloc: Global, trial: Trial, steps: u64, looks: &[Asked], asked: &[Asked]) -> Trial {
    let mut trial = trial;
    for one in asked {
        let (is_given_up, after) = asked_within(alloc, trial, steps, one);
        trial = after;
        if is_given_up {
            trial = asked_freely(alloc, trial, looks);
            trial = asked_within(alloc, trial, 0, one).1;
        }
    }
    trial
}

/// Returns the counts of a trial. Fails if memory ran out for an answer.
fn counts_of(trial: &Trial) -> Result<Counts, AllocError> {
    if trial.lacks_memory {
        Err(AllocError)
    } else {
        Ok(trial.counts)
    }
}

/// Returns a trial that was asked nothing, or none if a hub isn't made.
fn begun(alloc: Global) -> Result<Option<Trial>, AllocError> {
    let Some(plain) = begun_in_memory(alloc)? else {
        return Ok(None);
    };
    let counts = Counts {
        interruptions: 0,
        differences: 0,
    };
    match begun_in_tables(alloc)? {
        Some(tables) => Ok(Some(Trial {
            tables,
            plain,
            counts,
            lacks_memory: false,
        })),
        None => Ok(None),
    }
}

/// Returns the counts of the requests within so many steps a statement, or none if a hub isn't made.
fn try_limit(
    alloc: Global,
    steps: u64,
    world: &[Asked],
    asked: &[Asked],
) -> Result<Option<Counts>, AllocError> {
    let looks = requests_of(alloc, &LOOKS, None)?;
    match begun(alloc)? {
        Some(trial) => {
            let trial = asked_freely(alloc, trial, world);
            let trial = asked_all(alloc, trial, steps, &looks, asked);
            counts_of(&trial).map(Some)
        }
        None => Ok(None),
    }
}

/// Limits the steps of a statement to one, two and so on, until none of the requests is given up. Returns the outcome.
fn limit_each(alloc: Global, first: &[Asked], asked: &[Asked]) -> Result<&'static str, AllocError> {
    for steps in 1..MOST_STEPS {
        let Some(counts) = try_limit(alloc, steps, first, asked)? else {
            return Ok("the tables failed");
        };
        if counts.differences > 0 {
            return Ok("an interrupted statement changed more than its own answer");
        }
        if counts.interruptions == 0 {
            return Ok(if steps > 1 {
                "F1 for each interrupted statement, and all else as if it hadn't been asked"
            } else {
                "no statement was interrupted"
            });
        }
    }
    Ok("more steps than expected")
}

/// Limits the steps of the requests of these lines in the same way, but for those of the world. Returns the outcome.
pub fn limit_steps(
    alloc: Global,
    lines: &[&str],
    world: usize,
) -> Result<&'static str, AllocError> {
    let requests = requests_of(alloc, lines, None)?;
    let (first, asked) = requests.as_slice().split_at(world.min(requests.len()));
    limit_each(alloc, first, asked)
}

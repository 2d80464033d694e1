//! A store from which somebody removed a row: in the middle of a report the label of an event, or the gate at its root.

use crate::block::Block;
use crate::stored_lines::post_all;
use crate::world::moment_at;
use std::alloc::{AllocError, Global};
use trying_shelves::{Store, Tables, ask};

/// Two reports, of which a stranger sees everything except for the event.
const POSTS: [&str; 2] = [
    "p2|Post|3|-||{\"Incident\":[{\"Contact\":[],\"EventData\":[{\"Description\":[\"x\"],\"restriction\":\"red\"}],\"GenerationTime\":\"g\",\"IncidentID\":\"7\",\"purpose\":\"reporting\",\"restriction\":\"public\"}],\"version\":\"2.0\"}",
    "p2|Post|3|-||{\"Incident\":[{\"Contact\":[],\"EventData\":[{\"Description\":[\"x\"],\"restriction\":\"red\"}],\"GenerationTime\":\"g\",\"IncidentID\":\"8\",\"purpose\":\"reporting\",\"restriction\":\"public\"}],\"version\":\"2.0\"}",
];

/// A row of the first report that somebody removes, and the requests after it.
#[derive(Clone, Copy)]
struct Loss {
    name: &'static str,
    taken: &'static str,
    asked: &'static [&'static str],
}

/// The label of the event, and the gate at the root, which the source sets again.
const LOSSES: [Loss; 2] = [
    Loss {
        name: "a row",
        taken: "DELETE FROM item WHERE incident = 1 AND place = 5",
        asked: &[
            "p4|View|1",
            "p4|List|0",
            "p4|Search|x|-|0",
            "p1|Explain|4|1|/Incident/0/EventData/0",
            "p4|View|2",
            "p4|List|1",
            "p4|Search|x|-|1",
            "p2|Search|x|-|1",
            "p1|Explain|4|2|/Incident/0/EventData/0",
        ],
    },
    Loss {
        name: "a gate at the root",
        taken: "DELETE FROM gate WHERE incident = 1 AND path = ''",
        asked: &[
            "p4|View|1",
            "p4|List|0",
            "p4|Search|x|-|0",
            "p1|Explain|4|1|/Incident/0/EventData/0",
            "p4|View|2",
            "p4|List|1",
            "p2|Redistribute|1|1||3|-",
            "p4|View|1",
            "p4|List|0",
        ],
    },
];

/// Returns the tables without that row, or none if the statement or the opening is refused.
fn without_row(alloc: Global, mut store: Store, taken: &str) -> Option<Tables> {
    match store.change(taken) {
        Some(1) => store.open(alloc, false).ok(),
        _ => None,
    }
}

/// Returns what is printed for one of the losses.
fn told_behind(alloc: Global, world: &Block, loss: Loss) -> Result<Vec<String>, AllocError> {
    let mut all = Vec::new(alloc);
    let whole = post_all(alloc, world, &POSTS)?;
    let Some(mut tables) = whole.and_then(|tables| without_row(alloc, tables.release(), loss.taken))
    else {
        all.push(String::from_str(alloc, "the row was not taken away")?)?;
        return Ok(all);
    };
    for (i, line) in loss.asked.iter().enumerate() {
        push_answer(alloc, &mut all, &mut tables, loss.name, line, i)?;
    }
    Ok(all)
}

/// Adds what the tables without a row answer to the request at this place.
fn push_answer(
    alloc: Global,
    all: &mut Vec<String>,
    tables: &mut Tables,
    name: &str,
    line: &str,
    place: usize,
) -> Result<(), AllocError> {
    let told = ask(tables, alloc, line, moment_at(place))?;
    all.push(format!(in alloc; "without {name}, {line}: {told}")?)?;
    Ok(())
}

/// Returns what is printed for all losses.
pub fn all(alloc: Global, world: &Block) -> Result<Vec<String>, AllocError> {
    let mut all = Vec::new(alloc);
    for loss in LOSSES {
        all.append(&mut told_behind(alloc, world, loss)?)?;
    }
    Ok(all)
}

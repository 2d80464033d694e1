//! Requests one after another over a shelf in memory, which begins with the test world.

use crate::facts::describe_facts;
use crate::world::world;
use crate::{seen, told};
use circle::directory::Person;
use hub_core::{Edit, ListShelf, Request, Shelf, ShelfFault, judge};
use std::alloc::{AllocError, Global};
use trying::number_of;
use trying_hub::{Fields, key_of, refusal_text, request_of};

fn person<S: Shelf>(shelf: &mut S, number: u32) -> Result<Option<Person>, ShelfFault> {
    shelf.person_by_key(&key_of(number))
}

/// Returns the answer to the person's request, and makes its change if nothing refuses it.
fn ask<S: Shelf>(
    alloc: Global,
    shelf: &mut S,
    actor: &Person,
    request: &Request,
) -> Result<String, ShelfFault> {
    let facts = shelf.facts(actor, request)?;
    match judge(alloc, actor, &facts, request) {
        Err(refusal) => Ok(refusal_text(alloc, &refusal)?),
        Ok(edits) => {
            shelf.apply(&edits)?;
            Ok(told::outcome(alloc, &edits)?)
        }
    }
}

fn found<S: Shelf>(
    alloc: Global,
    shelf: &mut S,
    actor: &Person,
    request: &Request,
) -> Result<String, ShelfFault> {
    let facts = shelf.facts(actor, request)?;
    Ok(describe_facts(alloc, &facts)?)
}

/// Runs a request of this person. Returns only its facts, or the answer.
fn request_by<S: Shelf>(
    alloc: Global,
    shelf: &mut S,
    actor: &Person,
    words: &str,
    facts_alone: bool,
) -> Result<String, ShelfFault> {
    let request = request_of(alloc, &mut Fields::new(words))?;
    if facts_alone {
        found(alloc, shelf, actor, &request)
    } else {
        ask(alloc, shelf, actor, &request)
    }
}

/// Runs a request of a person. Returns only its facts, or the answer.
fn request<S: Shelf>(
    alloc: Global,
    shelf: &mut S,
    words: &str,
    facts_alone: bool,
) -> Result<String, ShelfFault> {
    let (number, rest) = words.split_once(' ').unwrap_or((words, ""));
    match person(shelf, number_of(number))? {
        Some(actor) => request_by(alloc, shelf, &actor, rest, facts_alone),
        None => Ok(String::from_str(alloc, "nobody")?),
    }
}

fn joined_groups<S: Shelf>(
    alloc: Global,
    shelf: &mut S,
    number: u32,
) -> Result<String, ShelfFault> {
    match person(shelf, number)? {
        None => Ok(String::from_str(alloc, "nobody")?),
        Some(person) => {
            let groups = shelf.groups_of(&person)?;
            Ok(seen::groups(alloc, &groups)?)
        }
    }
}

fn standing<S: Shelf>(
    alloc: Global,
    shelf: &mut S,
    number: u32,
    words: &str,
) -> Result<String, ShelfFault> {
    let (incident, now) = words.split_once(' ').unwrap_or((words, ""));
    let now = now.parse::<i64>().unwrap_or(0);
    Ok(seen::standing(alloc, shelf.standing(number, number_of(incident), now)?)?)
}

fn entries<S: Shelf>(
    alloc: Global,
    shelf: &mut S,
    after: u32,
    most: u32,
) -> Result<String, ShelfFault> {
    let entries = shelf.incidents_after(after, most)?;
    Ok(seen::entries(alloc, &entries)?)
}

/// Returns what the shelf has of an incident or of a person, or the answer to a request.
fn step<S: Shelf>(alloc: Global, shelf: &mut S, words: &str) -> Result<String, ShelfFault> {
    let (what, rest) = words.split_once(' ').unwrap_or((words, ""));
    let (first, second) = rest.split_once(' ').unwrap_or((rest, ""));
    let number = number_of(first);
    match what {
        "case" => Ok(seen::case(alloc, shelf.case(number)?)?),
        "standing" => standing(alloc, shelf, number, second),
        "document" => Ok(seen::document(alloc, shelf.document(number)?)?),
        "entries" => entries(alloc, shelf, number, number_of(second)),
        "groups" => joined_groups(alloc, shelf, number),
        "person" => Ok(seen::person(alloc, person(shelf, number)?)?),
        "failures" => Ok(format!(in alloc; "{}", shelf.failures())?),
        "facts" => request(alloc, shelf, rest, true),
        _ => request(alloc, shelf, words, false),
    }
}

fn founded<S: Shelf>(shelf: &mut S, edits: &[Edit]) -> Result<(), ShelfFault> {
    shelf.apply(edits)
}

/// Adds the answer to a step.
fn push_answer<S: Shelf>(
    alloc: Global,
    shelf: &mut S,
    all: &mut String,
    words: &str,
) -> Result<(), AllocError> {
    if !all.is_empty() {
        all.push_str(" ; ")?;
    }
    let answer = match step(alloc, shelf, words) {
        Ok(answer) => answer,
        Err(fault) => told::fault(alloc, fault)?,
    };
    all.push_str(answer.as_str())
}

fn answers<S: Shelf>(alloc: Global, shelf: &mut S, steps: &str) -> Result<String, AllocError> {
    let mut all = String::new(alloc);
    for words in steps.split(';') {
        push_answer(alloc, shelf, &mut all, words.trim())?;
    }
    Ok(all)
}

/// Returns the answer to each step. Steps and answers have a semicolon between them.
pub fn answer(alloc: Global, steps: &str) -> Result<String, AllocError> {
    let edits = world(alloc)?;
    let mut shelf = ListShelf::new(alloc);
    match founded(&mut shelf, &edits) {
        Ok(()) => answers(alloc, &mut shelf, steps),
        Err(fault) => told::fault(alloc, fault),
    }
}

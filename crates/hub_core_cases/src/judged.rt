//! From a line of the table to its answer.

use crate::facts::facts_of;
use crate::told;
use circle::directory::Person;
use circle::name::Name;
use hub_core::{Facts, Request, judge};
use std::alloc::{AllocError, Global};
use trying::number_of;
use trying_hub::{Fields, refusal_text, request_of, role_of};

fn actor_of(alloc: Global, words: &str) -> Result<Option<Person>, AllocError> {
    let (role, org) = words.split_once(' ').unwrap_or((words, ""));
    match Name::of(alloc, "anna")? {
        Some(name) => Ok(Some(Person {
            number: 2,
            org: number_of(org),
            name,
            role: role_of(role),
            active: true,
            nominated: false,
        })),
        None => Ok(None),
    }
}

fn judge_request(
    alloc: Global,
    actor: &Person,
    facts: &Facts,
    request: &Request,
) -> Result<String, AllocError> {
    match judge(alloc, actor, facts, request) {
        Ok(edits) => told::edits(alloc, &edits),
        Err(refusal) => refusal_text(alloc, &refusal),
    }
}

pub fn answer(alloc: Global, line: &str) -> Result<String, AllocError> {
    let mut fields = Fields::new(line);
    let Some(actor) = actor_of(alloc, fields.word())? else {
        return String::from_str(alloc, "no actor");
    };
    let facts = facts_of(alloc, fields.word())?;
    let request = request_of(alloc, &mut fields)?;
    judge_request(alloc, &actor, &facts, &request)
}

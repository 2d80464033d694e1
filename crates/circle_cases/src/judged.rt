//! WHO|FACTS|COUNT|COMMAND|ONE|OTHER|FLAG|TEXT|MORE: the answer to the command of an actor. WHO is ROLE NUMBER/ORG, or
//! only ROLE for person 2 of organisation 2.
use crate::commands::{Named, command_fields, command_of, role_of};
use crate::told;
use circle::command::{CircleCommand, CircleFacts};
use circle::directory::{Person, Role};
use circle::judge::judge;
use circle::name::Name;
use std::alloc::{AllocError, Global};
use trying::number_of;

/// The person who commands.
#[derive(Clone, Copy)]
struct Actor {
    role: Role,
    number: u32,
    org: u32,
}

#[derive(Clone, Copy)]
struct Case<'a> {
    actor: Actor,
    facts: CircleFacts,
    named: Named<'a>,
}

/// Returns the facts that hold, each by a letter.
fn facts_of(letters: &str, count: u32) -> CircleFacts {
    CircleFacts {
        exists: letters.contains('e'),
        may_extend: letters.contains('m'),
        owner: letters.contains('o'),
        target_is_owner: letters.contains('t'),
        own_person: letters.contains('p'),
        stands: letters.contains('s'),
        count,
    }
}

fn actor_of(word: &str) -> Actor {
    let (role, numbers) = word.split_once(' ').unwrap_or((word, "2/2"));
    let (number, org) = numbers.split_once('/').unwrap_or((numbers, ""));
    Actor {
        role: role_of(role),
        number: number_of(number),
        org: number_of(org),
    }
}

fn case_of(line: &str) -> Option<Case<'_>> {
    let mut words = line.split('|');
    let actor = actor_of(words.next()?);
    let letters = words.next()?;
    let count = number_of(words.next()?);
    Some(Case {
        actor,
        facts: facts_of(letters, count),
        named: command_fields(&mut words)?,
    })
}

fn person_of(alloc: Global, actor: Actor) -> Result<Option<Person>, AllocError> {
    match Name::of(alloc, "anna")? {
        Some(name) => Ok(Some(Person {
            number: actor.number,
            org: actor.org,
            name,
            role: actor.role,
            active: true,
            nominated: false,
        })),
        None => Ok(None),
    }
}

/// Returns the edit or the refusal in words.
fn answer_to(
    alloc: Global,
    actor: &Person,
    facts: &CircleFacts,
    command: &CircleCommand,
) -> Result<String, AllocError> {
    match judge(alloc, actor, facts, command) {
        Ok(edit) => told::edit(alloc, &edit),
        Err(refusal) => told::refusal(alloc, &refusal),
    }
}

fn judged_by(alloc: Global, actor: &Person, case: &Case<'_>) -> Result<String, AllocError> {
    let command = command_of(alloc, &case.named)?;
    answer_to(alloc, actor, &case.facts, &command)
}

fn judged(alloc: Global, case: &Case<'_>) -> Result<String, AllocError> {
    match person_of(alloc, case.actor)? {
        Some(actor) => judged_by(alloc, &actor, case),
        None => String::from_str(alloc, "no actor"),
    }
}

pub fn answer(alloc: Global, line: &str) -> Result<String, AllocError> {
    match case_of(line) {
        Some(case) => judged(alloc, &case),
        None => String::from_str(alloc, "no case"),
    }
}

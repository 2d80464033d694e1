//! The last numbered row of each kind, and the next one.
use crate::changes::{Actor, obey};
use crate::refusals::code_of;
use crate::rows::World;
use circle::command::{CircleCommand, Edit, RowEdit};
use circle::directory::{Account, Person, Role};
use circle::judge::judge;
use circle::name::Name;
use circle::refusal::{Code, Refusal};
use circle::text::Text;
use std::alloc::{AllocError, Global};

/// Returns whether the edit puts the last row that there is now.
fn is_last(world: &World, edit: &Edit) -> bool {
    match edit {
        Edit::Row(RowEdit::PutOrg(org)) => world.orgs.last() == Some(org),
        Edit::Row(RowEdit::PutAccount(account)) => world.accounts.last() == Some(account),
        Edit::Row(RowEdit::PutCommunity(community)) => world.communities.last() == Some(community),
        Edit::Row(_) => false,
        Edit::Found(group) => world.groups.last() == Some(group),
    }
}

fn anna(alloc: Global, role: Role) -> Result<Option<Person>, AllocError> {
    Ok(Name::of(alloc, "anna")?.map(|name| Person {
        number: 1,
        org: 1,
        name,
        role,
        active: true,
        nominated: false,
    }))
}

/// Returns the crate's answer to the command.
fn answer_of(
    alloc: Global,
    world: &World,
    actor: &Person,
    command: &CircleCommand,
) -> Result<Edit, Refusal> {
    let facts = world.facts(actor, command);
    judge(alloc, actor, &facts, command)
}

/// Returns whether the answer puts the last row that there is now, or is the wanted refusal.
fn is_answer(world: &World, answer: &Result<Edit, Refusal>, wanted: Option<Code>) -> bool {
    match answer {
        Ok(edit) => wanted.is_none() && is_last(world, edit),
        Err(refusal) => wanted == Some(refusal.code),
    }
}

/// Returns whether the command is done, or refused with this code.
fn is_outcome(
    alloc: Global,
    world: &mut World,
    actor: &Person,
    command: &CircleCommand,
    wanted: Option<Code>,
) -> Result<bool, AllocError> {
    let plain = code_of(world.refusal(actor, command));
    let answer = answer_of(alloc, world, actor, command);
    if plain.is_none() {
        let by = Actor {
            person: actor.number,
            org: actor.org,
        };
        obey(world, alloc, by, command)?;
    }
    Ok(plain == wanted && is_answer(world, &answer, wanted))
}

fn naming(alloc: Global, kind: u32, name: &str, key: u8) -> Result<CircleCommand, AllocError> {
    let name = Text::of(alloc, name)?;
    match kind {
        0 => Ok(CircleCommand::AddOrg { name }),
        1 => Ok(CircleCommand::AddPerson {
            org: 1,
            name,
            role: Role::Reader,
            key: [key; 32],
        }),
        2 => Ok(CircleCommand::AddCommunity { name }),
        _ => Ok(CircleCommand::NewGroup {
            name,
            releasability: Text::of(alloc, "")?,
        }),
    }
}

/// Adds so many rows of this kind.
fn fill(world: &mut World, alloc: Global, kind: u32, count: u32) -> Result<(), AllocError> {
    for number in 0..count {
        let text = format!(in alloc; "row {number}")?;
        let command = naming(alloc, kind, text.as_str(), 0)?;
        obey(world, alloc, Actor { person: 1, org: 1 }, &command)?;
    }
    Ok(())
}

/// Adds so many persons of organisation 1.
fn add_persons(world: &mut World, alloc: Global, count: u32) -> Result<(), AllocError> {
    for number in 0..count {
        if let Some(name) = Name::of(alloc, "p")? {
            let person = Person {
                number: number.saturating_add(1),
                org: 1,
                name,
                role: Role::Reader,
                active: true,
                nominated: false,
            };
            world.accounts.push(Account {
                person,
                key: [0; 32],
            })?;
        }
    }
    Ok(())
}

/// Fills each numbered set with all rows except for one.
fn fill_nearly(world: &mut World, alloc: Global) -> Result<(), AllocError> {
    for kind in [0, 2, 3] {
        fill(world, alloc, kind, 999)?;
    }
    add_persons(world, alloc, 9999)
}

/// Returns whether a row of this kind and name is allowed, or refused.
fn is_let_in(
    alloc: Global,
    world: &mut World,
    actor: &Person,
    kind: u32,
    name: &str,
    wanted: Option<Code>,
) -> Result<bool, AllocError> {
    let key = if wanted.is_none() { 1 } else { 2 };
    let command = naming(alloc, kind, name, key)?;
    is_outcome(alloc, world, actor, &command, wanted)
}

/// Returns whether the last row of this kind is allowed, and the next is refused.
fn holds_limit(alloc: Global, world: &mut World, kind: u32) -> Result<bool, AllocError> {
    let role = if kind < 3 {
        Role::Administrator
    } else {
        Role::Coordinator
    };
    let Some(actor) = anna(alloc, role)? else {
        return Ok(false);
    };
    Ok(
        is_let_in(alloc, world, &actor, kind, "last", None)?
            && is_let_in(alloc, world, &actor, kind, "one more", Some(Code::L1))?,
    )
}

fn is_last_named(number: u32, name: &Name, limit: u32) -> bool {
    number == limit && name.as_str() == "last"
}

/// Returns whether each kind has its last row under its number.
fn has_last_rows(world: &World) -> bool {
    world
        .orgs
        .iter()
        .any(|o| is_last_named(o.number, &o.name, 1000))
        && world
            .accounts
            .iter()
            .any(|a| is_last_named(a.person.number, &a.person.name, 10_000))
        && world
            .communities
            .iter()
            .any(|c| is_last_named(c.number, &c.name, 1000))
        && world
            .groups
            .iter()
            .any(|g| is_last_named(g.number, &g.name, 1000))
}

/// Returns whether each kind, with all rows except for one, takes the last and no other.
fn hold_in(alloc: Global, world: &mut World) -> Result<bool, AllocError> {
    fill_nearly(world, alloc)?;
    for kind in 0..4u32 {
        if !holds_limit(alloc, world, kind)? {
            return Ok(false);
        }
    }
    Ok(true)
}

/// Returns whether the last row of each kind is allowed under its number, and the next is refused.
pub fn hold_limits(alloc: Global) -> Result<bool, AllocError> {
    let mut world = World::new(alloc);
    Ok(hold_in(alloc, &mut world)? && has_last_rows(&world))
}

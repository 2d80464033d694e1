//! The command that a line names.
use circle::command::CircleCommand;
use circle::directory::{Handling, Role};
use circle::text::Text;
use std::alloc::{AllocError, Global};
use std::str::Split;
use trying::number_of;

/// The command's name with its numbers, its flag and its two texts.
#[derive(Clone, Copy)]
pub struct Named<'a> {
    pub command: &'a str,
    pub one: u32,
    pub other: u32,
    pub flag: bool,
    pub text: &'a str,
    pub more: &'a str,
}

pub fn role_of(word: &str) -> Role {
    match word {
        "administrator" => Role::Administrator,
        "coordinator" => Role::Coordinator,
        "poster" => Role::Poster,
        _ => Role::Reader,
    }
}

fn handling_of(number: u32) -> Handling {
    match number {
        0 => Handling::Clear,
        1 => Handling::Green,
        2 => Handling::Amber,
        3 => Handling::Strict,
        _ => Handling::Red,
    }
}

fn text_of(alloc: Global, field: &str) -> Result<Text, AllocError> {
    Ok(Text::new(crate::written::text_of(alloc, field)?))
}

/// Returns a command with a text.
fn with_text(alloc: Global, case: &Named<'_>) -> Result<CircleCommand, AllocError> {
    let name = text_of(alloc, case.text)?;
    match case.command {
        "AddOrg" => Ok(CircleCommand::AddOrg { name }),
        "AddCommunity" => Ok(CircleCommand::AddCommunity { name }),
        "AddPerson" => Ok(CircleCommand::AddPerson {
            org: case.one,
            name,
            role: role_of(case.more),
            key: [u8::try_from(case.other).unwrap_or(0); 32],
        }),
        _ => Ok(CircleCommand::NewGroup {
            name,
            releasability: text_of(alloc, case.more)?,
        }),
    }
}

/// Returns an administrator's command that has only numbers.
fn of_administrators(case: &Named<'_>) -> Option<CircleCommand> {
    let one = case.one;
    let other = case.other;
    match case.command {
        "SuspendPerson" => Some(CircleCommand::SuspendPerson { person: one }),
        "AddClient" => Some(CircleCommand::AddClient {
            org: one,
            client: other,
        }),
        "RemoveClient" => Some(CircleCommand::RemoveClient {
            org: one,
            client: other,
        }),
        "Join" => Some(CircleCommand::Join {
            community: one,
            org: other,
        }),
        "Leave" => Some(CircleCommand::Leave {
            community: one,
            org: other,
        }),
        "Link" => Some(CircleCommand::Link {
            community: one,
            other,
        }),
        "Unlink" => Some(CircleCommand::Unlink {
            community: one,
            other,
        }),
        _ => None,
    }
}

/// Returns a coordinator's command of numbers and a flag, or everybody's.
fn of_coordinators(case: &Named<'_>) -> Option<CircleCommand> {
    let one = case.one;
    let other = case.other;
    match case.command {
        "GroupAdd" => Some(CircleCommand::GroupAdd {
            group: one,
            org: other,
            extend: case.flag,
        }),
        "GroupRemove" => Some(CircleCommand::GroupRemove {
            group: one,
            org: other,
        }),
        "GroupActive" => Some(CircleCommand::GroupActive {
            group: one,
            active: case.flag,
        }),
        "Arrange" => Some(CircleCommand::Arrange {
            org: one,
            handling: handling_of(other),
        }),
        "CancelArrange" => Some(CircleCommand::CancelArrange { org: one }),
        "Nominate" => Some(CircleCommand::Nominate { person: one }),
        "Unnominate" => Some(CircleCommand::Unnominate { person: one }),
        "NewKey" => Some(CircleCommand::NewKey {
            key: [u8::try_from(other).unwrap_or(0); 32],
        }),
        _ => None,
    }
}

pub fn command_of(alloc: Global, case: &Named<'_>) -> Result<CircleCommand, AllocError> {
    match of_administrators(case).or(of_coordinators(case)) {
        Some(command) => Ok(command),
        None => with_text(alloc, case),
    }
}

/// Returns a flag and two texts: FLAG|TEXT|MORE.
fn flag_and_texts<'a>(words: &mut Split<'a, char>) -> Option<(bool, &'a str, &'a str)> {
    let flag = words.next()? == "yes";
    let text = words.next()?;
    let more = words.next()?;
    Some((flag, text, more))
}

/// Returns a command's name and two numbers: COMMAND|ONE|OTHER.
fn name_and_numbers<'a>(words: &mut Split<'a, char>) -> Option<(&'a str, u32, u32)> {
    let command = words.next()?;
    let one = words.next()?;
    let other = words.next()?;
    Some((command, number_of(one), number_of(other)))
}

/// Returns the command behind the first fields: COMMAND|ONE|OTHER|FLAG|TEXT|MORE.
pub fn command_fields<'a>(words: &mut Split<'a, char>) -> Option<Named<'a>> {
    let (command, one, other) = name_and_numbers(words)?;
    let (flag, text, more) = flag_and_texts(words)?;
    Some(Named {
        command,
        one,
        other,
        flag,
        text,
        more,
    })
}

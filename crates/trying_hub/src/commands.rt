//! The commands of the directory by name, and the names of their parts.

use crate::fields::Fields;
use circle::command::CircleCommand;
use circle::directory::{Handling, Role};
use std::alloc::{AllocError, Global};

/// Returns the key of the person of this number: 32 bytes of it.
pub fn key_of(person: u32) -> [u8; 32] {
    [u8::try_from(person).unwrap_or(0); 32]
}

pub fn role_of(word: &str) -> Role {
    match word {
        "administrator" => Role::Administrator,
        "coordinator" => Role::Coordinator,
        "poster" => Role::Poster,
        _ => Role::Reader,
    }
}

pub fn role_name(role: Role) -> &'static str {
    match role {
        Role::Administrator => "administrator",
        Role::Coordinator => "coordinator",
        Role::Poster => "poster",
        Role::Reader => "reader",
    }
}

fn handling_of(word: &str) -> Handling {
    match word {
        "CLEAR" => Handling::Clear,
        "GREEN" => Handling::Green,
        "AMBER" => Handling::Amber,
        "STRICT" => Handling::Strict,
        _ => Handling::Red,
    }
}

/// Returns a command with a name.
fn naming(
    alloc: Global,
    command: &str,
    fields: &mut Fields<'_>,
) -> Result<Option<CircleCommand>, AllocError> {
    Ok(match command {
        "AddOrg" => Some(CircleCommand::AddOrg {
            name: fields.text(alloc)?,
        }),
        "AddPerson" => Some(CircleCommand::AddPerson {
            org: fields.number(),
            name: fields.text(alloc)?,
            role: role_of(fields.word()),
            key: key_of(fields.owner()),
        }),
        "AddCommunity" => Some(CircleCommand::AddCommunity {
            name: fields.text(alloc)?,
        }),
        "NewGroup" => Some(CircleCommand::NewGroup {
            name: fields.text(alloc)?,
            releasability: fields.text(alloc)?,
        }),
        _ => None,
    })
}

/// Returns a command of an administrator, by numbers.
fn of_administrators(command: &str, fields: &mut Fields<'_>) -> Option<CircleCommand> {
    match command {
        "SuspendPerson" => Some(CircleCommand::SuspendPerson {
            person: fields.number(),
        }),
        "AddClient" => Some(CircleCommand::AddClient {
            org: fields.number(),
            client: fields.number(),
        }),
        "RemoveClient" => Some(CircleCommand::RemoveClient {
            org: fields.number(),
            client: fields.number(),
        }),
        "Join" => Some(CircleCommand::Join {
            community: fields.number(),
            org: fields.number(),
        }),
        "Leave" => Some(CircleCommand::Leave {
            community: fields.number(),
            org: fields.number(),
        }),
        "Link" => Some(CircleCommand::Link {
            community: fields.number(),
            other: fields.number(),
        }),
        "Unlink" => Some(CircleCommand::Unlink {
            community: fields.number(),
            other: fields.number(),
        }),
        _ => None,
    }
}

/// Returns a command of a coordinator, by numbers, or everybody's.
fn of_coordinators(command: &str, fields: &mut Fields<'_>) -> Option<CircleCommand> {
    match command {
        "GroupAdd" => Some(CircleCommand::GroupAdd {
            group: fields.number(),
            org: fields.number(),
            extend: fields.flag(),
        }),
        "GroupRemove" => Some(CircleCommand::GroupRemove {
            group: fields.number(),
            org: fields.number(),
        }),
        "GroupActive" => Some(CircleCommand::GroupActive {
            group: fields.number(),
            active: fields.flag(),
        }),
        "Arrange" => Some(CircleCommand::Arrange {
            org: fields.number(),
            handling: handling_of(fields.word()),
        }),
        "CancelArrange" => Some(CircleCommand::CancelArrange {
            org: fields.number(),
        }),
        "Nominate" => Some(CircleCommand::Nominate {
            person: fields.number(),
        }),
        "Unnominate" => Some(CircleCommand::Unnominate {
            person: fields.number(),
        }),
        "NewKey" => Some(CircleCommand::NewKey {
            key: key_of(fields.owner()),
        }),
        _ => None,
    }
}

/// Returns the command of this name, or none if there is none.
pub fn command_of(
    alloc: Global,
    command: &str,
    fields: &mut Fields<'_>,
) -> Result<Option<CircleCommand>, AllocError> {
    if let Some(found) = naming(alloc, command, fields)? {
        return Ok(Some(found));
    }
    match of_administrators(command, fields) {
        Some(found) => Ok(Some(found)),
        None => Ok(of_coordinators(command, fields)),
    }
}

pub fn command_name(command: &CircleCommand) -> &'static str {
    match command {
        CircleCommand::AddOrg { .. } => "AddOrg",
        CircleCommand::AddPerson { .. } => "AddPerson",
        CircleCommand::SuspendPerson { .. } => "SuspendPerson",
        CircleCommand::AddClient { .. } => "AddClient",
        CircleCommand::RemoveClient { .. } => "RemoveClient",
        CircleCommand::AddCommunity { .. } => "AddCommunity",
        CircleCommand::Join { .. } => "Join",
        CircleCommand::Leave { .. } => "Leave",
        CircleCommand::Link { .. } => "Link",
        CircleCommand::Unlink { .. } => "Unlink",
        CircleCommand::NewGroup { .. } => "NewGroup",
        CircleCommand::GroupAdd { .. } => "GroupAdd",
        CircleCommand::GroupRemove { .. } => "GroupRemove",
        CircleCommand::GroupActive { .. } => "GroupActive",
        CircleCommand::Arrange { .. } => "Arrange",
        CircleCommand::CancelArrange { .. } => "CancelArrange",
        CircleCommand::Nominate { .. } => "Nominate",
        CircleCommand::Unnominate { .. } => "Unnominate",
        CircleCommand::NewKey { .. } => "NewKey",
    }
}

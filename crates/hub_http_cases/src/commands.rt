//! A command on the directory, in words.

use circle::command::CircleCommand;
use circle::directory::Handling;
use std::alloc::{AllocError, Global};
use trying_hub::{command_name, role_name};

fn numbers_of(command: &CircleCommand) -> [Option<u32>; 2] {
    match *command {
        CircleCommand::AddOrg { .. }
        | CircleCommand::AddCommunity { .. }
        | CircleCommand::NewGroup { .. }
        | CircleCommand::NewKey { .. } => [None, None],
        CircleCommand::AddPerson { org: one, .. }
        | CircleCommand::SuspendPerson { person: one }
        | CircleCommand::GroupActive { group: one, .. }
        | CircleCommand::Arrange { org: one, .. }
        | CircleCommand::CancelArrange { org: one }
        | CircleCommand::Nominate { person: one }
        | CircleCommand::Unnominate { person: one } => [Some(one), None],
        CircleCommand::AddClient {
            org: one,
            client: other,
        }
        | CircleCommand::RemoveClient {
            org: one,
            client: other,
        }
        | CircleCommand::Join {
            community: one,
            org: other,
        }
        | CircleCommand::Leave {
            community: one,
            org: other,
        }
        | CircleCommand::Link {
            community: one,
            other,
        }
        | CircleCommand::Unlink {
            community: one,
            other,
        }
        | CircleCommand::GroupAdd {
            group: one,
            org: other,
            ..
        }
        | CircleCommand::GroupRemove {
            group: one,
            org: other,
        } => [Some(one), Some(other)],
    }
}

fn texts_of(command: &CircleCommand) -> [Option<&str>; 2] {
    match command {
        CircleCommand::AddOrg { name }
        | CircleCommand::AddPerson { name, .. }
        | CircleCommand::AddCommunity { name } => [Some(name.as_str()), None],
        CircleCommand::NewGroup {
            name,
            releasability,
        } => [Some(name.as_str()), Some(releasability.as_str())],
        _ => [None, None],
    }
}

fn handling_name(handling: Handling) -> &'static str {
    match handling {
        Handling::Clear => "clear",
        Handling::Green => "green",
        Handling::Amber => "amber",
        Handling::Strict => "strict",
        Handling::Red => "red",
    }
}

/// Returns the role, the handling or the flag that the command sets, if it sets one.
fn setting_of(command: &CircleCommand) -> &'static str {
    match command {
        CircleCommand::AddPerson { role, .. } => role_name(*role),
        CircleCommand::Arrange { handling, .. } => handling_name(*handling),
        CircleCommand::GroupAdd { extend: true, .. } => "extending",
        CircleCommand::GroupAdd { extend: false, .. } => "not extending",
        CircleCommand::GroupActive { active: true, .. } => "active",
        CircleCommand::GroupActive { active: false, .. } => "inactive",
        _ => "",
    }
}

/// Returns its word, its numbers and texts in their order, what it sets, and a digest.
pub fn command(alloc: Global, command: &CircleCommand) -> Result<String, AllocError> {
    let mut all = String::from_str(alloc, command_name(command))?;
    for number in numbers_of(command).into_iter().flatten() {
        let number = format!(in alloc; " {number}")?;
        all.push_str(number.as_str())?;
    }
    for text in texts_of(command).into_iter().flatten() {
        let text = format!(in alloc; " {text:?}")?;
        all.push_str(text.as_str())?;
    }
    let setting = setting_of(command);
    if !setting.is_empty() {
        all.push(' ')?;
        all.push_str(setting)?;
    }
    if let CircleCommand::AddPerson { key, .. } | CircleCommand::NewKey { key } = command {
        let key = hex::encode(alloc, key.as_slice())?;
        all.push(' ')?;
        all.push_str(key.as_str())?;
    }
    Ok(all)
}

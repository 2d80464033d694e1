//! Generated commands. The numbers that they name mostly exist.
use circle::command::CircleCommand;
use circle::directory::{Handling, Role};
use circle::text::Text;
use std::alloc::{AllocError, Global};
use trying::Dice;

/// How many kinds of commands there are.
pub const KINDS: u32 = 19;

/// How many of them are an administrator's.
pub const ADMINISTRATORS: u32 = 10;

/// Returns a name, mostly a good one.
fn any_name(dice: &mut Dice) -> &'static str {
    match dice.roll(14) {
        0 => "",
        1 => "a\u{7f}",
        2 => "north",
        3 => "south",
        4 => "east",
        5 => "west",
        6 => "Köln",
        7 => "a b",
        8 => "~",
        9 => "hub",
        10 => "far",
        11 => "\u{1f}",
        12 => "x",
        _ => "y",
    }
}

pub fn any_role(dice: &mut Dice) -> Role {
    match dice.roll(8) {
        0 => Role::Administrator,
        1 => Role::Poster,
        2 => Role::Reader,
        _ => Role::Coordinator,
    }
}

fn any_handling(dice: &mut Dice) -> Handling {
    match dice.roll(5) {
        0 => Handling::Clear,
        1 => Handling::Green,
        2 => Handling::Amber,
        3 => Handling::Strict,
        _ => Handling::Red,
    }
}

/// Returns a releasability; one in eight is too long by a byte.
fn any_releasability(alloc: Global, dice: &mut Dice) -> Result<Text, AllocError> {
    if !dice.once_in(8) {
        return Text::of(alloc, "TLP:GREEN");
    }
    let mut text = String::new(alloc);
    for _ in 0..513 {
        text.push('x')?;
    }
    Ok(Text::new(text))
}

/// Returns a key, in one of two the same one.
fn any_key(dice: &mut Dice) -> [u8; 32] {
    [if dice.once_in(2) {
        7
    } else {
        u8::try_from(dice.roll(256)).unwrap_or(0)
    }; 32]
}

/// Returns a command of this kind.
pub fn any_command(alloc: Global, dice: &mut Dice, kind: u32) -> Result<CircleCommand, AllocError> {
    match kind {
        0 => Ok(CircleCommand::AddOrg {
            name: Text::of(alloc, any_name(dice))?,
        }),
        1 => Ok(CircleCommand::AddPerson {
            org: dice.roll(7),
            name: Text::of(alloc, any_name(dice))?,
            role: any_role(dice),
            key: any_key(dice),
        }),
        5 => Ok(CircleCommand::AddCommunity {
            name: Text::of(alloc, any_name(dice))?,
        }),
        18 => Ok(CircleCommand::NewKey { key: any_key(dice) }),
        10 => Ok(CircleCommand::NewGroup {
            name: Text::of(alloc, any_name(dice))?,
            releasability: any_releasability(alloc, dice)?,
        }),
        _ => Ok(any_pair(dice, kind)),
    }
}

/// Returns a command of numbers and flags.
fn any_pair(dice: &mut Dice, kind: u32) -> CircleCommand {
    let org = dice.roll(7);
    let client = dice.roll(7);
    let person = dice.roll(9);
    let community = dice.roll(5);
    let other = dice.roll(5);
    let group = dice.roll(4);
    let flag = dice.once_in(2);
    match kind {
        2 => CircleCommand::SuspendPerson { person },
        3 => CircleCommand::AddClient { org, client },
        4 => CircleCommand::RemoveClient { org, client },
        6 => CircleCommand::Join { community, org },
        7 => CircleCommand::Leave { community, org },
        8 => CircleCommand::Link { community, other },
        9 => CircleCommand::Unlink { community, other },
        11 => CircleCommand::GroupAdd {
            group,
            org,
            extend: flag,
        },
        12 => CircleCommand::GroupRemove { group, org },
        13 => CircleCommand::GroupActive {
            group,
            active: flag,
        },
        14 => CircleCommand::Arrange {
            org,
            handling: any_handling(dice),
        },
        15 => CircleCommand::CancelArrange { org },
        16 => CircleCommand::Nominate { person },
        _ => CircleCommand::Unnominate { person },
    }
}

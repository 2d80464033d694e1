//! Generated gates, permissions and readers.

use crate::entry::element;
use iodef_tree::{Path, Text};
use marking::Handling;
use policy::{Case, Gate, Gates, Grantee, Numbers, Permission, Permissions, Standing};
use std::alloc::{AllocError, Global};
use trying::Dice;

/// Returns the path above a path.
fn above(path: Path) -> Path {
    let mut tokens: Vec<Text> = path.into_tokens();
    tokens.pop();
    Path::new(tokens)
}

/// Returns any path: of a class, of the array or class above it, of an element beside it, of a member in it, or of
/// nothing.
fn any_path(alloc: Global, dice: &mut Dice, classes: &[Path]) -> Result<Path, AllocError> {
    let place = dice.place(classes.len().saturating_add(2));
    let Some(class) = classes.get(place) else {
        return Path::root(alloc).member(alloc, "Incident");
    };
    let path = class.clone()?;
    match dice.roll(8) {
        0 => Ok(above(path)),
        1 => element(alloc, &above(path), dice.place(3)),
        2 => path.member(alloc, "note"),
        3 if dice.once_in(3) => path.member(alloc, "nothing"),
        _ => Ok(path),
    }
}

/// Returns the number of a group or a community, or none.
fn any_number(dice: &mut Dice) -> Option<u32> {
    match dice.roll(4) {
        0 => None,
        number => Some(number),
    }
}

/// Returns a level, mostly one that lets everybody pass.
fn any_level(dice: &mut Dice) -> u8 {
    match dice.roll(16) {
        0 => 0,
        1 | 2 => 1,
        3 | 4 | 5 => 2,
        6 | 7 | 8 | 9 => 4,
        10 => 6,
        11 => 5,
        _ => 3,
    }
}

/// Adds a gate at the path.
fn push_gate(gates: &mut Vec<Gate>, dice: &mut Dice, path: Path) -> Result<(), AllocError> {
    let level = any_level(dice);
    let group = any_number(dice);
    gates.push(Gate { path, level, group })?;
    Ok(())
}

/// Adds a gate at any path, or two.
fn push_gates(
    gates: &mut Vec<Gate>,
    alloc: Global,
    dice: &mut Dice,
    classes: &[Path],
) -> Result<(), AllocError> {
    let path = any_path(alloc, dice, classes)?;
    if dice.once_in(3) {
        push_gate(gates, dice, path.clone()?)?;
    }
    push_gate(gates, dice, path)
}

/// Returns a gate at the root, and some at other places, of which two may have one.
fn any_gates(alloc: Global, dice: &mut Dice, classes: &[Path]) -> Result<Gates, AllocError> {
    let mut gates = Vec::new(alloc);
    let level = if dice.once_in(8) { any_level(dice) } else { 3 };
    let group = any_number(dice);
    let path = Path::root(alloc);
    gates.push(Gate { path, level, group })?;
    for _ in 0..dice.roll(4) {
        push_gates(&mut gates, alloc, dice, classes)?;
    }
    Ok(Gates::new(gates))
}

fn any_grantee(dice: &mut Dice) -> Grantee {
    let number = dice.roll(3);
    match dice.roll(4) {
        0 => Grantee::Person(number),
        1 => Grantee::Org(number),
        2 => Grantee::Community(number),
        _ => Grantee::Group(number),
    }
}

/// Returns a moment. There are few, so that an end often falls on one.
fn any_moment(dice: &mut Dice) -> i64 {
    dice.roll(5) as i64
}

fn any_end(dice: &mut Dice) -> Option<i64> {
    if dice.once_in(3) {
        Some(any_moment(dice))
    } else {
        None
    }
}

/// Adds a permission at any path, or two.
fn push_permissions(
    permissions: &mut Vec<Permission>,
    alloc: Global,
    dice: &mut Dice,
    classes: &[Path],
) -> Result<(), AllocError> {
    let path = any_path(alloc, dice, classes)?;
    if dice.once_in(3) {
        let path = path.clone()?;
        permissions.push(Permission {
            path,
            grantee: any_grantee(dice),
            until: any_end(dice),
        })?;
    }
    permissions.push(Permission {
        path,
        grantee: any_grantee(dice),
        until: any_end(dice),
    })?;
    Ok(())
}

fn any_permissions(
    alloc: Global,
    dice: &mut Dice,
    classes: &[Path],
) -> Result<Permissions, AllocError> {
    let mut permissions = Vec::new(alloc);
    for _ in 0..dice.roll(6) {
        push_permissions(&mut permissions, alloc, dice, classes)?;
    }
    Ok(Permissions::new(permissions))
}

pub fn any_case(alloc: Global, dice: &mut Dice, classes: &[Path]) -> Result<Case, AllocError> {
    let gates = any_gates(alloc, dice, classes)?;
    let permissions = any_permissions(alloc, dice, classes)?;
    Ok(Case {
        source: 9,
        community: any_number(dice),
        gates,
        permissions,
    })
}

fn any_numbers(alloc: Global, dice: &mut Dice) -> Result<Numbers, AllocError> {
    let mut numbers = Vec::new(alloc);
    for _ in 0..dice.roll(4) {
        numbers.push(dice.roll(4))?;
    }
    Ok(Numbers::new(numbers))
}

fn any_arrangement(dice: &mut Dice) -> Option<Handling> {
    match dice.roll(6) {
        0 => Some(Handling::Clear),
        1 => Some(Handling::Green),
        2 => Some(Handling::Amber),
        3 => Some(Handling::Strict),
        4 => Some(Handling::Red),
        _ => None,
    }
}

pub fn any_standing(alloc: Global, dice: &mut Dice) -> Result<Standing, AllocError> {
    Ok(Standing {
        source: dice.once_in(12),
        person: dice.once_in(10),
        nominated: dice.once_in(3),
        addressed: dice.once_in(3),
        client: dice.once_in(2),
        community: dice.once_in(2),
        peer: dice.once_in(2),
        connected: dice.once_in(2),
        arrangement: any_arrangement(dice),
        who: dice.roll(3),
        org: dice.roll(3),
        groups: any_numbers(alloc, dice)?,
        active_groups: any_numbers(alloc, dice)?,
        communities: any_numbers(alloc, dice)?,
        now: any_moment(dice),
    })
}

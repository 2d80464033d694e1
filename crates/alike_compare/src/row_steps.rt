//! The step that changes rows that don't concern a reader, and the same with rows that do.

use crate::reader::Reader;
use crate::rows::{COMMUNITIES, Circle, Class, GROUPS, Given, ORGS, World, place_of};
use crate::steps::Change;
use crate::worlds::{any_end, any_given, any_handling, any_member, any_target, count_of};
use circle::directory::{Arrangement, Client, Connection, GroupMember, Membership};
use hub_core::Target;
use std::alloc::AllocError;
use trying::Dice;

pub const ROWS: &str = "permissions, recipients and rows of the directory for others";

/// The premises that are left out: that the row isn't one of these.
pub const PERMISSION: &str = "but a permission that includes the reader";

pub const RECIPIENT: &str = "but a recipient that is the reader or an organisation";

pub const READER: &str = "but the reader's own row";

pub const ARRANGEMENT: &str = "but an arrangement with the reader's organisation";

pub const MEMBER: &str = "but a membership of the reader's organisation in a group";

pub const DIRECTORY: &str = "but a row of the directory that is for nobody alone";

pub const OWN: &str = "but of a report of the reader's organisation";

/// The greatest number of persons before one is put in.
const MANY: u32 = 12;

/// Puts the row in, or takes it out if it is there.
fn turn<T: PartialEq + Drop>(rows: &mut Vec<T>, row: T) -> Result<(), AllocError> {
    let count = rows.len();
    rows.retain(|other| *other != row);
    if rows.len() == count {
        rows.push(row)?;
    }
    Ok(())
}

/// Returns a permission at the class. In one of two its grantee has one there, and it has another end or none.
fn any_given_at(dice: &mut Dice, class: &Class, persons: u32) -> Given {
    let is_exchanged = dice.once_in(2);
    match dice.one_of(&class.grants) {
        Some(there) if is_exchanged => Given {
            grantee: there.grantee,
            until: any_end(dice),
        },
        _ => any_given(dice, persons),
    }
}

/// Puts the permission in, in place of the one of its grantee, or takes it out if it is there with this end.
fn turn_given(grants: &mut Vec<Given>, given: Given) -> Result<(), AllocError> {
    let is_there = grants.contains(&given);
    grants.retain(|other| other.grantee != given.grantee);
    if !is_there {
        grants.push(given)?;
    }
    Ok(())
}

/// Puts in or takes out a permission at some class of the incident. Returns the premise that is left out.
fn turn_permission(
    dice: &mut Dice,
    after: &mut World,
    reader: Reader<'_>,
    at: usize,
) -> Result<Option<&'static str>, AllocError> {
    let Some(report) = after.reports.get_mut(at) else {
        return Ok(None);
    };
    let place = dice.place(report.classes.len());
    let Some(class) = report.classes.get_mut(place) else {
        return Ok(None);
    };
    let given = any_given_at(dice, class, count_of(reader.circle));
    turn_given(&mut class.grants, given)?;
    class.grants.truncate(3);
    Ok(if reader.is_included(&given.grantee) {
        Some(PERMISSION)
    } else {
        None
    })
}

/// Puts in or takes out a recipient of the incident. Returns the premise that is left out.
fn turn_recipient(
    dice: &mut Dice,
    after: &mut World,
    reader: Reader<'_>,
    at: usize,
) -> Result<Option<&'static str>, AllocError> {
    let target = any_target(dice, count_of(reader.circle));
    if let Some(report) = after.reports.get_mut(at) {
        turn(&mut report.recipients, target)?;
    }
    Ok(match target {
        Target::Person(number) if number != reader.who => None,
        _ => Some(RECIPIENT),
    })
}

/// Puts in one more person, or another row for one. Returns the premise that is left out.
fn other_person(
    dice: &mut Dice,
    circle: &mut Circle,
    reader: Reader<'_>,
) -> Result<Option<&'static str>, AllocError> {
    let count = count_of(circle);
    let mut member = any_member(dice);
    if count < MANY && dice.once_in(3) {
        circle.persons.push(member)?;
        return Ok(None);
    }
    let number = if dice.once_in(4) {
        reader.who
    } else {
        dice.one_to(count)
    };
    let is_own = number == reader.who;
    if is_own {
        member.active = true;
        member.org = reader.own.org;
    }
    if let Some(person) = circle.persons.get_mut(place_of(number)) {
        *person = member;
    }
    Ok(if is_own { Some(READER) } else { None })
}

fn other_arrangement(
    dice: &mut Dice,
    circle: &mut Circle,
    reader: Reader<'_>,
) -> Result<Option<&'static str>, AllocError> {
    let (source, org) = (dice.one_to(ORGS), dice.one_to(ORGS));
    if source == org {
        return Ok(None);
    }
    let handling = any_handling(dice);
    circle
        .arrangements
        .retain(|row| row.source != source || row.org != org);
    if !dice.once_in(3) {
        circle.arrangements.push(Arrangement {
            source,
            org,
            handling,
        })?;
    }
    Ok(if org == reader.own.org {
        Some(ARRANGEMENT)
    } else {
        None
    })
}

/// Changes a membership in a group, but not the owner's. Returns the premise that is left out.
fn other_membership(
    dice: &mut Dice,
    circle: &mut Circle,
    reader: Reader<'_>,
) -> Result<Option<&'static str>, AllocError> {
    let group = dice.one_to(GROUPS);
    let org = dice.one_to(ORGS.saturating_sub(1)).saturating_add(1);
    let extend = dice.once_in(2);
    circle
        .members
        .retain(|row| row.group != group || row.org != org);
    if dice.once_in(2) {
        circle.members.push(GroupMember { group, org, extend })?;
    }
    Ok(if org == reader.own.org {
        Some(MEMBER)
    } else {
        None
    })
}

/// Changes a row of the directory that no step may change.
fn turn_directory(dice: &mut Dice, circle: &mut Circle) -> Result<(), AllocError> {
    let (a, b) = (dice.one_to(ORGS), dice.one_to(ORGS));
    match dice.roll(4) {
        0 => turn(
            &mut circle.memberships,
            Membership {
                community: dice.one_to(COMMUNITIES),
                org: b,
            },
        ),
        1 if a != b => turn(&mut circle.clients, Client { org: a, client: b }),
        2 if a < b && b <= COMMUNITIES => {
            turn(&mut circle.connections, Connection { low: a, high: b })
        }
        _ => {
            if let Some(club) = circle.groups.get_mut(place_of(dice.one_to(GROUPS))) {
                club.active = !club.active;
            }
            Ok(())
        }
    }
}

/// Changes a row, of the incident at this place or of the directory. Returns which premise doesn't hold then.
fn turn_row(
    dice: &mut Dice,
    after: &mut World,
    reader: Reader<'_>,
    at: usize,
) -> Result<Option<&'static str>, AllocError> {
    let roll = dice.roll(12);
    match roll {
        0..=3 => return turn_permission(dice, after, reader, at),
        4 | 5 => return turn_recipient(dice, after, reader, at),
        _ => {}
    }
    let circle = &mut after.circle;
    match roll {
        6 | 7 => other_person(dice, circle, reader),
        8 => other_arrangement(dice, circle, reader),
        9 | 10 => other_membership(dice, circle, reader),
        _ => {
            turn_directory(dice, circle)?;
            Ok(Some(DIRECTORY))
        }
    }
}

/// Returns a change of a permission or a recipient of the reader's own report at this place.
pub fn other_own_rows(
    dice: &mut Dice,
    world: &World,
    reader: Reader<'_>,
    at: usize,
) -> Result<Option<Change>, AllocError> {
    let mut after = world.clone()?;
    if dice.once_in(3) {
        turn_recipient(dice, &mut after, reader, at)?;
    } else {
        turn_permission(dice, &mut after, reader, at)?;
    }
    Ok(Some(Change {
        world: after,
        step: ROWS,
        left_out: Some(OWN),
    }))
}

/// Returns a change of a row, of the incident at this place or of the directory.
pub fn other_rows(
    dice: &mut Dice,
    world: &World,
    reader: Reader<'_>,
    at: usize,
) -> Result<Option<Change>, AllocError> {
    let mut after = world.clone()?;
    let left_out = turn_row(dice, &mut after, reader, at)?;
    Ok(Some(Change {
        world: after,
        step: ROWS,
        left_out,
    }))
}

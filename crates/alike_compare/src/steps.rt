//! The steps from one world to another that is alike for a reader, as they are defined, and each with one premise left
//! out. The rows and the rules decide whether a premise holds, and never a hub.

use crate::reader::Reader;
use crate::rows::{Class, ORGS, Report, World, end_of};
use crate::told::{same_withheld, withheld_of};
use crate::worlds::{
    PERSONS, any_community, any_label, any_reach, any_report, any_target, push_tree,
};
use crate::writing::{ALONE, BESIDE, DEEPEST, NOTE_COUNT, plain_label};
use std::alloc::{AllocError, Global};
use trying::Dice;

/// The steps.
pub const LINES: &str = "other plain lines in a class that isn't seen";

pub const CLASSES: &str = "a wholly hidden class put in, taken out or exchanged";

pub const INCIDENTS: &str = "other rows of an incident of which nothing is seen";

/// The premises that are left out.
pub const CLASS_SEEN: &str = "but the class is seen";

pub const LABEL: &str = "but another label is written there";

pub const SEEN_WITHIN: &str = "but something of it is seen";

pub const WITHHELD: &str = "but something else is withheld";

pub const SERVED: &str = "but something of the incident is seen";

/// The greatest number of classes in a report before one is put in.
const MANY: usize = 12;

/// The world after a step, and the premise that doesn't hold, if there is one.
#[derive(Drop)]
pub struct Change {
    pub world: World,
    pub step: &'static str,
    pub left_out: Option<&'static str>,
}

/// The places of the classes that are exchanged, and the classes that take their place.
#[derive(Drop)]
struct Cut {
    from: usize,
    to: usize,
    put: Vec<Class>,
}

/// Returns the place of an incident that is of the reader's organisation, or that isn't.
pub fn any_incident(
    alloc: Global,
    dice: &mut Dice,
    world: &World,
    reader: Reader<'_>,
    is_own: bool,
) -> Result<Option<usize>, AllocError> {
    let mut places = Vec::new(alloc);
    for (place, report) in world.reports.iter().enumerate() {
        if reader.is_source(report) == is_own {
            places.push(place)?;
        }
    }
    Ok(dice.one_of(&places).copied())
}

/// Returns the place of a class, mostly of a hidden one.
fn any_place(
    alloc: Global,
    dice: &mut Dice,
    reader: Reader<'_>,
    report: &Report,
) -> Result<usize, AllocError> {
    let is_any = dice.once_in(4);
    let mut places = Vec::new(alloc);
    for place in 0..report.classes.len() {
        if is_any || reader.hidden(report, place).is_some() {
            places.push(place)?;
        }
    }
    Ok(dice.one_of(&places).copied().unwrap_or(0))
}

/// Gives the class other plain lines and, once in four times, another label.
fn rewrite(dice: &mut Dice, report: &mut Report, place: usize, ident: u32) {
    if let Some(class) = report.classes.get_mut(place) {
        class.note = dice.roll(NOTE_COUNT);
        if class.label == ALONE {
            class.label = BESIDE;
        } else if class.label == BESIDE {
            class.label = ALONE;
        }
        if dice.once_in(4) {
            class.label = any_label(dice);
        }
    }
    if place == 0 {
        report.ident = ident;
    }
}

fn label_at(report: &Report, place: usize) -> u32 {
    report
        .classes
        .get(place)
        .map_or(0, |class| plain_label(class.label))
}

/// Whether a world was changed.
#[derive(Clone, Copy)]
enum Turn {
    /// It is as before, or changed in a way that isn't compared.
    None,
    /// It was changed, and this premise doesn't hold, if there is one.
    Made(Option<&'static str>),
}

/// Returns the change that a turn made of a world.
fn change_by(turn: Turn, after: World, step: &'static str) -> Option<Change> {
    match turn {
        Turn::None => None,
        Turn::Made(left_out) => Some(Change {
            world: after,
            step,
            left_out,
        }),
    }
}

/// Puts other plain lines in a class.
fn turn_lines(
    alloc: Global,
    dice: &mut Dice,
    after: &mut World,
    world: &World,
    reader: Reader<'_>,
    at: usize,
) -> Result<Turn, AllocError> {
    let ident = after.next_ident();
    let (Some(report), Some(other)) = (world.reports.get(at), after.reports.get_mut(at)) else {
        return Ok(Turn::None);
    };
    let place = any_place(alloc, dice, reader, report)?;
    rewrite(dice, other, place, ident);
    let is_hidden = reader.hidden(report, place).is_some();
    let is_kept = label_at(report, place) == label_at(other, place);
    Ok(match (is_hidden, is_kept) {
        (true, true) => Turn::Made(None),
        (false, true) => Turn::Made(Some(CLASS_SEEN)),
        (true, false) => Turn::Made(Some(LABEL)),
        (false, false) => Turn::None,
    })
}

/// Returns a change that puts other plain lines in a class.
pub fn other_lines(
    alloc: Global,
    dice: &mut Dice,
    world: &World,
    reader: Reader<'_>,
    at: usize,
) -> Result<Option<Change>, AllocError> {
    let mut after = world.clone()?;
    let turn = turn_lines(alloc, dice, &mut after, world, reader, at)?;
    Ok(change_by(turn, after, LINES))
}

/// Returns whether no class of the same name follows this one in the class that holds both.
fn is_last(classes: &[Class], place: usize, end: usize) -> bool {
    match (classes.get(place), classes.get(end)) {
        (Some(class), Some(next)) => next.depth < class.depth || next.kind != class.kind,
        _ => true,
    }
}

/// Returns a cut that puts a class in, as the last of its name in the class at this place, or at the root.
fn put_in(
    alloc: Global,
    dice: &mut Dice,
    report: &Report,
    place: usize,
) -> Result<Option<Cut>, AllocError> {
    let classes = report.classes.as_slice();
    let (from, depth) = match classes.get(place) {
        Some(class) if !dice.once_in(8) => {
            (end_of(classes, place), class.depth.saturating_add(1))
        }
        _ => (classes.len(), 1),
    };
    if depth > DEEPEST || classes.len() > MANY {
        return Ok(None);
    }
    let mut put = Vec::new(alloc);
    push_tree(alloc, dice, &mut put, depth, 1)?;
    Ok(Some(Cut {
        from,
        to: from,
        put,
    }))
}

/// Returns a cut that puts in, takes out or exchanges a class so that no other class moves, or none if one would.
fn any_cut(
    alloc: Global,
    dice: &mut Dice,
    report: &Report,
    place: usize,
) -> Result<Option<Cut>, AllocError> {
    let classes = report.classes.as_slice();
    let Some(class) = classes.get(place) else {
        return Ok(None);
    };
    let (from, to) = (place, end_of(classes, place));
    let mut put = Vec::new(alloc);
    match dice.roll(3) {
        0 => return put_in(alloc, dice, report, place),
        1 if place == 0 || !is_last(classes, place, to) => return Ok(None),
        1 => {}
        _ => push_tree(alloc, dice, &mut put, class.depth, class.kind)?,
    }
    Ok(Some(Cut { from, to, put }))
}

/// Returns the classes with some of them exchanged.
fn exchange(alloc: Global, classes: &[Class], cut: &Cut) -> Result<Vec<Class>, AllocError> {
    let mut all = Vec::new(alloc);
    let before = classes.iter().take(cut.from);
    let behind = classes.iter().skip(cut.to);
    for class in before.chain(cut.put.iter()).chain(behind) {
        all.push(class.clone()?)?;
    }
    Ok(all)
}

/// Returns which premise doesn't hold if a class of the report was exchanged.
fn left_out_of_cut(
    alloc: Global,
    reader: Reader<'_>,
    report: &Report,
    other: &Report,
    cut: &Cut,
) -> Result<Option<&'static str>, AllocError> {
    let end = cut.from.saturating_add(cut.put.len());
    let is_hidden = reader.sees_none(report, cut.from, cut.to)
        && reader.sees_none(other, cut.from, end);
    if !is_hidden {
        return Ok(Some(SEEN_WITHIN));
    }
    let withheld = withheld_of(alloc, reader, report)?;
    let now = withheld_of(alloc, reader, other)?;
    Ok(if same_withheld(&withheld, &now) {
        None
    } else {
        Some(WITHHELD)
    })
}

/// Puts in, takes out or exchanges a class, with all classes below it, their gates and permissions.
fn turn_class(
    alloc: Global,
    dice: &mut Dice,
    after: &mut World,
    world: &World,
    reader: Reader<'_>,
    at: usize,
) -> Result<Turn, AllocError> {
    let ident = after.next_ident();
    let (Some(report), Some(other)) = (world.reports.get(at), after.reports.get_mut(at)) else {
        return Ok(Turn::None);
    };
    let place = any_place(alloc, dice, reader, report)?;
    let Some(cut) = any_cut(alloc, dice, report, place)? else {
        return Ok(Turn::None);
    };
    other.classes = exchange(alloc, &report.classes, &cut)?;
    if cut.from == 0 {
        other.ident = ident;
    }
    Ok(Turn::Made(left_out_of_cut(alloc, reader, report, other, &cut)?))
}

/// Returns a change that puts in, takes out or exchanges a class, with all classes below it, their gates and
/// permissions.
pub fn other_class(
    alloc: Global,
    dice: &mut Dice,
    world: &World,
    reader: Reader<'_>,
    at: usize,
) -> Result<Option<Change>, AllocError> {
    let mut after = world.clone()?;
    let turn = turn_class(alloc, dice, &mut after, world, reader, at)?;
    Ok(change_by(turn, after, CLASSES))
}

/// Returns another report in place of one, or the same with another community, root gate, recipients and revision.
fn other_report(
    alloc: Global,
    dice: &mut Dice,
    report: &Report,
    ident: u32,
) -> Result<Report, AllocError> {
    if dice.once_in(2) {
        let source = dice.one_to(ORGS);
        return any_report(alloc, dice, source, ident);
    }
    let mut other = report.clone()?;
    let target = any_target(dice, PERSONS);
    other.community = any_community(dice);
    other.reach = any_reach(dice, 5);
    other.revision = dice.one_to(9);
    other.recipients.retain(|row| *row != target);
    Ok(other)
}

/// Puts an incident in behind the others, takes the last one out, or exchanges one. Returns the one before, and the
/// place of the one after.
fn exchange_report(
    alloc: Global,
    dice: &mut Dice,
    after: &mut World,
    at: usize,
) -> Result<(Option<Report>, Option<usize>), AllocError> {
    let ident = after.next_ident();
    let count = after.reports.len();
    if count < 4 && dice.once_in(3) {
        let source = dice.one_to(ORGS);
        let report = any_report(alloc, dice, source, ident)?;
        after.reports.push(report)?;
        return Ok((None, Some(count)));
    }
    if at.saturating_add(1) == count && dice.once_in(3) {
        return Ok((after.reports.pop(), None));
    }
    let Some(report) = after.reports.get_mut(at) else {
        return Ok((None, None));
    };
    let mut other = other_report(alloc, dice, report, ident)?;
    std::mem::swap(report, &mut other);
    Ok((Some(other), Some(at)))
}

/// Changes anything in an incident.
fn turn_incident(
    alloc: Global,
    dice: &mut Dice,
    after: &mut World,
    reader: Reader<'_>,
    at: usize,
) -> Result<Turn, AllocError> {
    let (before, place) = exchange_report(alloc, dice, after, at)?;
    let now = place.and_then(|place| after.reports.get(place));
    if now.map_or(false, |report| reader.is_source(report)) {
        return Ok(Turn::None);
    }
    let was_served = before
        .as_ref()
        .map_or(false, |report| reader.is_served(report));
    let is_served = now.map_or(false, |report| reader.is_served(report));
    Ok(Turn::Made(if was_served || is_served {
        Some(SERVED)
    } else {
        None
    }))
}

/// Returns a change of anything in an incident, which may be missing before or after.
pub fn other_incident(
    alloc: Global,
    dice: &mut Dice,
    world: &World,
    reader: Reader<'_>,
    at: usize,
) -> Result<Option<Change>, AllocError> {
    let mut after = world.clone()?;
    let turn = turn_incident(alloc, dice, &mut after, reader, at)?;
    Ok(change_by(turn, after, INCIDENTS))
}

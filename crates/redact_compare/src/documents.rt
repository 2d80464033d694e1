//! Generated reports, as JSON texts.

use crate::writing::Writing;
use std::alloc::{AllocError, Global};
use trying::Dice;

/// A text of this many bytes takes no further classes except for those without members.
const ROOM: usize = 600;

/// A name that differs from the other long one only in its last letter.
const LONG: &str =
    "a-name-as-long-as-a-line-of-a-report-may-have-it-which-agrees-with-another-one-up-to-its-last-letter-a";

const LONG_TOO: &str =
    "a-name-as-long-as-a-line-of-a-report-may-have-it-which-agrees-with-another-one-up-to-its-last-letter-b";

fn marking(dice: &mut Dice) -> &'static str {
    match dice.roll(26) {
        0 => "\"restriction\":\"public\"",
        1 => "\"restriction\":\"white\"",
        2 => "\"restriction\":\"partner\"",
        3 => "\"restriction\":\"green\",\"ext-restriction\":\"TLP:CLEAR\"",
        4 => "\"restriction\":\"need-to-know\"",
        5 => "\"restriction\":\"amber\"",
        6 => "\"restriction\":\"private\"",
        7 => "\"restriction\":\"red\"",
        8 => "\"restriction\":\"default\"",
        9 => "\"restriction\":\"ext-value\",\"ext-restriction\":\"TLP:AMBER\"",
        10 => "\"restriction\":\"ext-value\",\"ext-restriction\":\"tlp:Green\"",
        11 => "\"restriction\":\"ext-value\",\"ext-restriction\":\"TLP:AMBER+STRICT\"",
        12 => "\"restriction\":\"ext-value\",\"ext-restriction\":\"TLP:CLEAR\"",
        13 => "\"restriction\":\"ext-value\",\"ext-restriction\":\"ours\"",
        14 => "\"restriction\":\"ext-value\",\"ext-restriction\":\"\"",
        15 => "\"restriction\":\"public\",\"ext-restriction\":\"ours\"",
        _ => "",
    }
}

fn plain_name(dice: &mut Dice) -> &'static str {
    match dice.roll(12) {
        0 => "a",
        1 => "ext-restrictio",
        2 => "ext-restriction0",
        3 => "ext-s",
        4 => "f",
        5 => "restrictio",
        6 => "restriction0",
        7 => "s",
        8 => "zone",
        9 => "é",
        10 => "",
        _ => "note",
    }
}

fn plain_value(dice: &mut Dice) -> &'static str {
    match dice.roll(10) {
        0 => "\"a needle\"",
        1 => "\"need\"",
        2 => "\"\"",
        3 => "7",
        4 => "null",
        5 => "[]",
        6 => "[\"x\",\"needles\"]",
        7 => "[1,\"x\",[2]]",
        8 => "true",
        _ => "\"text\"",
    }
}

fn class_name(dice: &mut Dice) -> &'static str {
    match dice.roll(10) {
        0 => "EventData",
        1 => "Flow",
        2 => "System",
        3 => "ext-t",
        4 => "restrict",
        5 => "restrictions",
        6 => "a/b~c",
        7 => LONG,
        8 => LONG_TOO,
        _ => "Node",
    }
}

/// Adds a member behind those of an object or an array that is open.
fn push_member(text: &mut Writing, name: &str, value: &str) {
    let comma = text.comma();
    text.put(comma);
    text.put("\"");
    text.put(name);
    text.put("\":");
    text.put(value);
}

fn push_marking(text: &mut Writing, written: &str) {
    if !written.is_empty() {
        let comma = text.comma();
        text.put(comma);
        text.put(written);
    }
}

fn push_plain(text: &mut Writing, dice: &mut Dice) {
    for _ in 0..dice.roll(4) {
        push_member(text, plain_name(dice), plain_value(dice));
    }
}

/// Returns one of these texts of classes if there is room for it, else a class without members.
fn any_class<'a>(dice: &mut Dice, classes: &'a [String], used: usize) -> &'a str {
    match classes.get(dice.roll(4) as usize) {
        Some(class) if used.saturating_add(class.len()) < ROOM => class.as_str(),
        _ => "{}",
    }
}

/// Returns an array of classes, with other values among them, behind a text of so many bytes.
fn array_text(
    alloc: Global,
    dice: &mut Dice,
    classes: &[String],
    used: usize,
) -> Result<String, AllocError> {
    let mut text = Writing::new(alloc);
    text.put("[");
    for _ in 0..dice.roll(4) {
        if dice.once_in(5) {
            text.put("\"an element\",");
        } else {
            let class = any_class(dice, classes, used.saturating_add(text.len()));
            text.put(class);
            text.put(",");
        }
    }
    let last = any_class(dice, classes, used.saturating_add(text.len()));
    text.put(last);
    text.put("]");
    text.done()
}

/// Adds members that are classes or arrays of them.
fn push_classes(
    text: &mut Writing,
    alloc: Global,
    dice: &mut Dice,
    classes: &[String],
) -> Result<(), AllocError> {
    for _ in 0..dice.roll(3) {
        let name = class_name(dice);
        if dice.once_in(3) {
            let class = any_class(dice, classes, text.len());
            push_member(text, name, class);
        } else {
            let array = array_text(alloc, dice, classes, text.len())?;
            push_member(text, name, array.as_str());
        }
    }
    Ok(())
}

/// Returns a class over these.
fn class_text(alloc: Global, dice: &mut Dice, classes: &[String]) -> Result<String, AllocError> {
    let mut text = Writing::new(alloc);
    text.put("{");
    push_marking(&mut text, marking(dice));
    push_plain(&mut text, dice);
    push_classes(&mut text, alloc, dice, classes)?;
    text.put("}");
    text.done()
}

/// Returns three classes, each over some of the level below.
fn level(alloc: Global, dice: &mut Dice, classes: &[String]) -> Result<Vec<String>, AllocError> {
    let mut made = Vec::new(alloc);
    for _ in 0..3 {
        made.push(class_text(alloc, dice, classes)?)?;
    }
    Ok(made)
}

/// Returns a class, in some cases with a label, over an array that has only this class.
fn link_text(alloc: Global, dice: &mut Dice, inner: &str) -> Result<String, AllocError> {
    let mut text = Writing::new(alloc);
    text.put("{");
    if dice.once_in(4) {
        push_marking(&mut text, marking(dice));
    }
    push_member(&mut text, class_name(dice), "[");
    text.put(inner);
    text.put("]}");
    text.done()
}

/// Puts a class at the end of a chain of classes in one another.
fn lengthen(alloc: Global, dice: &mut Dice, class: &mut String) -> Result<(), AllocError> {
    for _ in 0..dice.roll(12) {
        *class = link_text(alloc, dice, class.as_str())?;
    }
    Ok(())
}

/// Puts the first of the classes at the end of a chain, once in three times.
fn put_into_chain(
    alloc: Global,
    dice: &mut Dice,
    classes: &mut Vec<String>,
) -> Result<(), AllocError> {
    match classes.first_mut() {
        Some(first) if dice.once_in(3) => lengthen(alloc, dice, first),
        _ => Ok(()),
    }
}

/// Makes these classes again, some levels higher.
fn put_into_levels(
    alloc: Global,
    dice: &mut Dice,
    classes: &mut Vec<String>,
) -> Result<(), AllocError> {
    for _ in 0..dice.roll(4) {
        *classes = level(alloc, dice, classes)?;
    }
    Ok(())
}

/// Returns the classes of which a report is made.
fn any_classes(alloc: Global, dice: &mut Dice) -> Result<Vec<String>, AllocError> {
    let mut classes = Vec::new(alloc);
    put_into_levels(alloc, dice, &mut classes)?;
    put_into_chain(alloc, dice, &mut classes)?;
    Ok(classes)
}

/// Adds the members in front of the Incident.
fn push_front(
    text: &mut Writing,
    alloc: Global,
    dice: &mut Dice,
    classes: &[String],
) -> Result<(), AllocError> {
    text.put("{\"version\":\"2.0\"");
    push_plain(text, dice);
    if dice.once_in(4) {
        push_member(text, "restriction", "\"public\"");
    }
    if dice.once_in(3) {
        push_classes(text, alloc, dice, classes)?;
    }
    Ok(())
}

fn incident_text(alloc: Global, dice: &mut Dice, classes: &[String]) -> Result<String, AllocError> {
    let mut text = Writing::new(alloc);
    text.put("{\"GenerationTime\":\"g\",\"purpose\":\"reporting\"");
    push_member(&mut text, "IncidentID", any_class(dice, classes, 0));
    let contacts = array_text(alloc, dice, classes, 0)?;
    push_member(&mut text, "Contact", contacts.as_str());
    push_marking(&mut text, marking(dice));
    push_plain(&mut text, dice);
    push_classes(&mut text, alloc, dice, classes)?;
    text.put("}");
    text.done()
}

/// Returns a report with one Incident.
pub fn report_text(alloc: Global, dice: &mut Dice) -> Result<String, AllocError> {
    let classes = any_classes(alloc, dice)?;
    let mut text = Writing::new(alloc);
    push_front(&mut text, alloc, dice, &classes)?;
    let incident = incident_text(alloc, dice, &classes)?;
    text.put(",\"Incident\":[");
    text.put(incident.as_str());
    text.put("]}");
    text.done()
}

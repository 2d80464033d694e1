//! A report as a JSON text: its labels, its plain lines, and the names of its classes.

use crate::rows::{Class, Report};
use std::alloc::{AllocError, Global};

/// The members that spell each label, and how strictly the classes under it are handled: from 0, CLEAR, to 4, RED, or
/// none if that is arranged. The first holds if no label is written.
const LABELS: [(&str, Option<u32>); 15] = [
    ("", Some(4)),
    (",\"restriction\":\"public\"", Some(0)),
    (",\"restriction\":\"green\"", Some(1)),
    (",\"restriction\":\"amber\"", Some(3)),
    (",\"restriction\":\"red\"", Some(4)),
    (",\"restriction\":\"default\"", None),
    (
        ",\"restriction\":\"ext-value\",\"ext-restriction\":\"TLP:AMBER\"",
        Some(2),
    ),
    (
        ",\"restriction\":\"ext-value\",\"ext-restriction\":\"tlp:clear\"",
        Some(0),
    ),
    (
        ",\"restriction\":\"ext-value\",\"ext-restriction\":\"ours\"",
        Some(4),
    ),
    (",\"restriction\":\"private\"", Some(4)),
    (",\"restriction\":\"white\"", Some(0)),
    (",\"restriction\":\"partner\"", Some(1)),
    (",\"restriction\":\"need-to-know\"", Some(3)),
    (
        ",\"restriction\":\"ext-value\",\"ext-restriction\":\"TLP:AMBER+STRICT\"",
        Some(3),
    ),
    (
        ",\"restriction\":\"green\",\"ext-restriction\":\"TLP:CLEAR\"",
        Some(1),
    ),
];

pub const LABEL_COUNT: u32 = 15;

/// The label with an extended text beside it that says nothing, as another value is before it; and that label by
/// itself.
pub const BESIDE: u32 = 14;

pub const ALONE: u32 = 2;

/// The number of the label that everybody may see.
pub const PUBLIC: u32 = 1;

/// The number of the label that holds if none is written.
pub const PRIVATE: u32 = 9;

/// Plain members of a class.
const NOTES: [&str; 8] = [
    "\"Description\":[]",
    "\"Description\":[\"x\"]",
    "\"Description\":[\"a needle\"]",
    "\"Note\":\"needle\"",
    "\"Description\":[\"y\",\"x\"]",
    "\"Note\":[7,[\"x\"]]",
    "\"Description\":\"z\",\"Note\":null",
    "\"Note\":\"y\",\"other\":\"needles\"",
];

pub const NOTE_COUNT: u32 = 8;

/// The two names that classes of each depth have, in order.
const NAMES: [[&str; 2]; 4] = [
    ["Incident", "area"],
    ["EventData", "History"],
    ["Flow", "Record"],
    ["Node", "System"],
];

pub const DEEPEST: u32 = 4;

/// Returns how strictly the classes under the label are handled, with what is arranged.
pub fn rank_of(label: u32, arranged: u32) -> u32 {
    match LABELS.get(label as usize) {
        Some((_, Some(rank))) => *rank,
        _ => arranged,
    }
}

/// Returns the label that is spelled, without the text beside it.
pub fn plain_label(label: u32) -> u32 {
    if label == BESIDE { ALONE } else { label }
}

fn name_of(class: &Class) -> &'static str {
    let depth = class.depth.saturating_sub(1) as usize;
    match (NAMES.get(depth), class.kind) {
        (Some([first, _]), 0) => *first,
        (Some([_, second]), _) => *second,
        (None, _) => "deeper",
    }
}

/// Adds the beginning of the class, and the members that an Incident must have.
fn push_members(
    alloc: Global,
    text: &mut String,
    class: &Class,
    ident: u32,
) -> Result<(), AllocError> {
    let note = NOTES.get(class.note as usize);
    let label = LABELS.get(class.label as usize);
    text.push('{')?;
    text.push_str(note.map_or("\"Note\":0", |note| *note))?;
    text.push_str(label.map_or("", |label| label.0))?;
    if class.depth == 1 && class.kind == 0 {
        let members = format!(in alloc;
            ",\"Contact\":[],\"GenerationTime\":\"g\",\"IncidentID\":\"{ident}\",\"purpose\":\"reporting\""
        )?;
        text.push_str(members.as_str())?;
    }
    Ok(())
}

/// Closes the classes from one depth on that are deeper than another, each with its array.
fn close(text: &mut String, from: u32, to: u32) -> Result<(), AllocError> {
    for _ in to..from {
        text.push_str("}]")?;
    }
    Ok(())
}

/// Adds what precedes a class: the array that it begins or continues, with what is closed before.
fn push_front(text: &mut String, before: &[Class], class: &Class) -> Result<(), AllocError> {
    let depth = before.last().map_or(0, |last| last.depth);
    let beside = before.iter().rev().find(|other| other.depth <= class.depth);
    let mut opened = ",\"";
    if class.depth <= depth {
        close(text, depth, class.depth)?;
        text.push('}')?;
        opened = "],\"";
        if beside.map_or(false, |other| other.kind == class.kind) {
            return text.push(',');
        }
    }
    text.push_str(opened)?;
    text.push_str(name_of(class))?;
    text.push_str("\":[")
}

/// Returns the report as a JSON text.
pub fn text_of(alloc: Global, report: &Report) -> Result<String, AllocError> {
    let classes = report.classes.as_slice();
    let mut text = String::from_str(alloc, "{\"version\":\"2.0\"")?;
    for (place, class) in classes.iter().enumerate() {
        let (before, _) = classes.split_at(place.min(classes.len()));
        push_front(&mut text, before, class)?;
        push_members(alloc, &mut text, class, report.ident)?;
    }
    close(&mut text, classes.last().map_or(0, |last| last.depth), 0)?;
    text.push('}')?;
    Ok(text)
}

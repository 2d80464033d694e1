//! Generated bodies, as JSON texts: some as they should be, some with one flaw.

use std::alloc::{AllocError, Global};
use trying::Dice;

/// The flaw of a body.
#[derive(Clone, Copy, PartialEq, Eq)]
pub enum Flaw {
    Nothing,
    NotJson,
    NotDocument,
    Missing,
    NotWhole,
    NestedClass,
    TooDeep,
    TooManyLines,
    BadMarking,
}

/// Returns a flaw; none in six of fourteen.
pub fn any_flaw(dice: &mut Dice) -> Flaw {
    match dice.roll(14) {
        0 => Flaw::NotJson,
        1 => Flaw::NotDocument,
        2 => Flaw::Missing,
        3 => Flaw::NotWhole,
        4 => Flaw::NestedClass,
        5 => Flaw::TooDeep,
        6 => Flaw::TooManyLines,
        7 => Flaw::BadMarking,
        _ => Flaw::Nothing,
    }
}

/// Returns members that spell a label, behind others; mostly none.
fn label(dice: &mut Dice) -> &'static str {
    match dice.roll(24) {
        0 | 1 => ",\"restriction\":\"public\"",
        2 => ",\"restriction\":\"white\"",
        3 | 17 | 20 => ",\"restriction\":\"partner\"",
        4 => ",\"restriction\":\"green\",\"ext-restriction\":\"TLP:CLEAR\"",
        5 => ",\"restriction\":\"need-to-know\"",
        6 | 18 => ",\"restriction\":\"amber\"",
        7 => ",\"restriction\":\"private\"",
        8 => ",\"restriction\":\"red\"",
        9 | 10 => ",\"restriction\":\"default\"",
        11 | 16 | 19 => ",\"restriction\":\"ext-value\",\"ext-restriction\":\"TLP:AMBER\"",
        12 => ",\"restriction\":\"ext-value\",\"ext-restriction\":\"tlp:Amber+Strict\"",
        13 => ",\"restriction\":\"ext-value\",\"ext-restriction\":\"tlp:clear\"",
        14 => ",\"restriction\":\"ext-value\",\"ext-restriction\":\"ours\"",
        15 =>
            ",\"restriction\":\"ext-value\",\"ext-restriction\":\"our \\\"o\\\\n\\u0001\\b\\u001f\u{7f}ü\"",
        _ => "",
    }
}

/// Returns a member whose class spells no label.
fn no_label(dice: &mut Dice) -> &'static str {
    match dice.roll(7) {
        0 => ",\"zone\":{\"restriction\":\"secret\"}",
        1 => ",\"zone\":{\"restriction\":[\"public\"]}",
        2 => ",\"zone\":{\"restriction\":\"ext-value\"}",
        3 => ",\"zone\":{\"ext-restriction\":\"TLP:AMBER\"}",
        4 => ",\"zone\":{\"restriction\":\"red\",\"ext-restriction\":7}",
        5 => ",\"zone\":{\"note\":[\"x\",{\"restriction\":{}}]}",
        _ => ",\"zone\":{\"restriction\":\"public\",\"ext-restriction\":[]}",
    }
}

fn description(dice: &mut Dice) -> &'static str {
    match dice.roll(6) {
        0 => "[\"x\"]",
        1 => "[\"a needle\",\"y\"]",
        2 => "\"private\"",
        3 => "[7,\"x\",[2]]",
        4 => "\"needles\"",
        _ => "[\"y\"]",
    }
}

fn contacts(dice: &mut Dice) -> &'static str {
    match dice.roll(3) {
        0 => "[]",
        1 => "[{\"ContactName\":[\"n\"]}]",
        _ =>
            "[{\"ContactName\":[\"n\"],\"Email\":[{\"EmailTo\":\"e\",\"restriction\":\"green\"}],\"restriction\":\"red\"}]",
    }
}

/// Returns the text so many times.
fn repeat(alloc: Global, text: &str, count: u32) -> Result<String, AllocError> {
    let mut all = String::new(alloc);
    for _ in 0..count {
        all.push_str(text)?;
    }
    Ok(all)
}

/// Returns an event, in some cases with a label; in one of two with a flow of systems that may have labels too.
fn event(alloc: Global, dice: &mut Dice) -> Result<String, AllocError> {
    let description = description(dice);
    let own = label(dice);
    if dice.once_in(2) {
        return format!(in alloc; "{{\"Description\":{description}{own}}}");
    }
    let systems = repeat(alloc, "{\"Note\":\"needle\"},", dice.roll(3))?;
    let last = label(dice);
    let flow = label(dice);
    format!(in alloc;
        "{{\"Description\":{description},\"Flow\":[{{\"System\":[{systems}{{\"Note\":\"x\"{last}}}]{flow}}}]{own}}}"
    )
}

/// Returns one to three events; in wide documents two dozen empty classes.
fn events(alloc: Global, dice: &mut Dice, wide: bool) -> Result<String, AllocError> {
    if wide {
        let more = repeat(alloc, ",{}", 23)?;
        return format!(in alloc; "{{}}{more}");
    }
    let mut text = event(alloc, dice)?;
    for _ in 0..dice.roll(3) {
        text.push(',')?;
        text.push_str(event(alloc, dice)?.as_str())?;
    }
    Ok(text)
}

/// Returns a member with the flaw, behind others.
fn with_flaw(alloc: Global, dice: &mut Dice, flaw: Flaw) -> Result<String, AllocError> {
    match flaw {
        Flaw::NotWhole => String::from_str(alloc, ",\"zone\":[{\"n\":[1.5]}]"),
        Flaw::NestedClass => String::from_str(alloc, ",\"zone\":[\"x\",[1,{}]]"),
        Flaw::TooDeep => {
            let (opened, closed) = (repeat(alloc, "{\"d\":", 33)?, repeat(alloc, "}", 33)?);
            format!(in alloc; ",\"zone\":{opened}{{}}{closed}")
        }
        Flaw::TooManyLines => {
            let more = repeat(alloc, ",1", 4096)?;
            format!(in alloc; ",\"zone\":[1{more}]")
        }
        Flaw::BadMarking => String::from_str(alloc, no_label(dice)),
        _ => Ok(String::new(alloc)),
    }
}

/// Returns the member's name, or another one if the member must be missing.
fn unless(is_missing: bool, name: &'static str) -> &'static str {
    if is_missing { "other" } else { name }
}

/// Returns the members in front of the IncidentID.
fn first_members(
    alloc: Global,
    dice: &mut Dice,
    contact: &str,
    time: &str,
    wide: bool,
) -> Result<String, AllocError> {
    let contacts = contacts(dice);
    let events = events(alloc, dice, wide)?;
    format!(in alloc; "\"{contact}\":{contacts},\"EventData\":[{events}],\"{time}\":\"g\"")
}

/// Returns the members behind the IncidentID, with the flaw if they have one.
fn last_members(
    alloc: Global,
    dice: &mut Dice,
    purpose: &str,
    flaw: Flaw,
) -> Result<String, AllocError> {
    let flawed = with_flaw(alloc, dice, flaw)?;
    let own = label(dice);
    format!(in alloc; "\"{purpose}\":\"reporting\"{flawed}{own}")
}

fn incident(
    alloc: Global,
    dice: &mut Dice,
    ident: &str,
    flaw: Flaw,
    wide: bool,
) -> Result<String, AllocError> {
    let is_flawed = flaw == Flaw::Missing;
    let missing = dice.roll(4);
    let contact = unless(is_flawed && missing == 0, "Contact");
    let time = unless(is_flawed && missing == 1, "GenerationTime");
    let id = unless(is_flawed && missing == 2, "IncidentID");
    let purpose = unless(is_flawed && missing == 3, "purpose");
    let first = first_members(alloc, dice, contact, time, wide)?;
    let last = last_members(alloc, dice, purpose, flaw)?;
    format!(in alloc; "{{{first},\"{id}\":{ident},{last}}}")
}

/// Returns a body of an Incident for each of these IncidentIDs, with the flaw in the last; wide ones have two dozen
/// empty classes.
pub fn any_body(
    alloc: Global,
    dice: &mut Dice,
    idents: &[String],
    flaw: Flaw,
    wide: bool,
) -> Result<String, AllocError> {
    match flaw {
        Flaw::NotJson => return String::from_str(alloc, "{\"Incident\":["),
        Flaw::NotDocument => return String::from_str(alloc, "{\"Incident\":{}}"),
        _ => {}
    }
    let mut text = String::from_str(alloc, "{\"Incident\":[")?;
    for (place, ident) in idents.iter().enumerate() {
        let is_last = place.saturating_add(1) == idents.len();
        let own = if is_last { flaw } else { Flaw::Nothing };
        let incident = incident(alloc, dice, ident.as_str(), own, wide)?;
        text.push_str(incident.as_str())?;
        text.push_str(if is_last { "]" } else { "," })?;
    }
    push_members(dice, &mut text)?;
    Ok(text)
}

/// Adds the members behind the Incidents.
fn push_members(dice: &mut Dice, text: &mut String) -> Result<(), AllocError> {
    text.push_str(",\"version\":\"2.0\"")?;
    for member in [
        ",\"restriction\":\"public\"",
        ",\"a/b\":{\"Note\":\"needle\"}",
        ",\"\\\"~\\n\":{\"Note\":\"x\"}",
    ] {
        if dice.once_in(5) {
            text.push_str(member)?;
        }
    }
    text.push('}')
}

/// Returns the IncidentID of this number: a text, or a class.
pub fn ident_text(alloc: Global, number: u32) -> Result<String, AllocError> {
    if number % 2 == 0 {
        format!(in alloc; "{{\"id\":\"{number}\",\"name\":\"src.example\"}}")
    } else {
        format!(in alloc; "\"{number}\"")
    }
}

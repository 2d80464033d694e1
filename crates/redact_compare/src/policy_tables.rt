//! The tables of the policy, by names and ranks.

use marking::Handling;
use policy::{Gate, Grantee, Standing};

/// A label as a class writes it: the texts of `restriction` and of `ext-restriction`.
#[derive(Clone, Copy)]
pub struct Written<'a> {
    pub word: &'a str,
    pub ext: Option<&'a str>,
}

fn rank_of_text(text: &str) -> u32 {
    let table = [
        ("tlp:clear", 0),
        ("tlp:white", 0),
        ("tlp:green", 1),
        ("tlp:amber", 2),
        ("tlp:amber+strict", 3),
    ];
    for (name, rank) in table {
        if text.eq_ignore_ascii_case(name) {
            return rank;
        }
    }
    4
}

/// Returns how strictly a label is handled.
pub fn strictness(label: Written<'_>, arranged: Option<Handling>) -> u32 {
    match label.word {
        "public" | "white" => 0,
        "partner" | "green" => 1,
        "need-to-know" | "amber" => 3,
        "default" => match arranged {
            Some(handling) => handling as u32,
            None => 4,
        },
        "ext-value" => match label.ext {
            Some(text) => rank_of_text(text),
            None => 4,
        },
        _ => 4,
    }
}

/// Returns the strictest handling for which the reader is cleared.
pub fn clearance(standing: &Standing) -> u32 {
    let table = [
        (standing.person, 4),
        (standing.nominated && standing.addressed, 3),
        (standing.nominated && standing.client, 2),
        (standing.peer, 1),
    ];
    for (holds, rank) in table {
        if holds {
            return rank;
        }
    }
    0
}

/// Returns the rule that hides what is handled so.
pub fn rule_of(strictness: u32) -> &'static str {
    match strictness {
        0 | 1 => "H-GREEN",
        2 => "H-AMBER",
        3 => "H-STRICT",
        _ => "H-RED",
    }
}

fn group_refusal(standing: &Standing, group: Option<u32>) -> Option<&'static str> {
    let Some(number) = group else {
        return Some("G4");
    };
    if !standing.groups.as_slice().contains(&number) {
        return Some("G4");
    }
    if !standing.active_groups.as_slice().contains(&number) {
        return Some("G4X");
    }
    None
}

/// Returns the rule by which the gate refuses the reader, if it does.
pub fn refusal(standing: &Standing, gate: &Gate) -> Option<&'static str> {
    let (rule, passes) = match gate.level {
        1 => ("G1", standing.community),
        2 => ("G2", standing.community || standing.connected),
        3 => ("", true),
        4 => return group_refusal(standing, gate.group),
        5 => ("", true),
        _ => ("G0", standing.source),
    };
    if passes { None } else { Some(rule) }
}

/// Returns whether the grantee includes the reader.
pub fn is_meant(standing: &Standing, grantee: Grantee) -> bool {
    match grantee {
        Grantee::Person(number) => standing.who == number,
        Grantee::Org(number) => standing.org == number,
        Grantee::Community(number) => standing.communities.as_slice().contains(&number),
        Grantee::Group(number) => {
            standing.groups.as_slice().contains(&number)
                && standing.active_groups.as_slice().contains(&number)
        }
    }
}

//! Readers, gates, grantees and permissions from the words of a line, and the words of these. They have no contracts:
//! one would say the same words again, and the programs' `stdout` shows what they make.

use crate::unfit::Unfit;
use iodef_tree::Path;
use marking::Handling;
use policy::{Case, Gate, Gates, Grantee, Numbers, Permission, Permissions, Standing};
use std::alloc::{AllocError, Global};

pub fn handling_of(word: &str) -> Result<Handling, Unfit> {
    match word {
        "CLEAR" => Ok(Handling::Clear),
        "GREEN" => Ok(Handling::Green),
        "AMBER" => Ok(Handling::Amber),
        "STRICT" => Ok(Handling::Strict),
        "RED" => Ok(Handling::Red),
        _ => Err(Unfit::NoCase),
    }
}

/// Returns the handling that is arranged, or none for `-`.
pub fn arranged_of(word: &str) -> Result<Option<Handling>, Unfit> {
    if word == "-" {
        return Ok(None);
    }
    Ok(Some(handling_of(word)?))
}

pub fn number_of(word: &str) -> Result<u32, Unfit> {
    word.parse::<u32>().ok().ok_or(Unfit::NoCase)
}

/// Returns a moment, in seconds since the beginning of 1970.
fn moment_of(word: &str) -> Result<i64, Unfit> {
    word.parse::<i64>().ok().ok_or(Unfit::NoCase)
}

/// Returns numbers that have commas between them.
fn numbers_of(alloc: Global, words: &str) -> Result<Numbers, Unfit> {
    let mut numbers = Vec::new(alloc);
    for word in words.split(',') {
        numbers.push(number_of(word)?)?;
    }
    Ok(Numbers::new(numbers))
}

/// Returns a reader. The first word has the numbers of the person and of its organisation, as `4/3`. Each word behind a
/// space says something that holds of it: `source`, `person`, `nominated`, `addressed`, `client`, `community`,
/// `connected`, `arranged:GREEN`, and lists as `groups:1,7`, `active:7` and `communities:2`. The moment is 0, or
/// another as `now:1000`. A reader who shares a `community` with the source is a peer too, as if the incident names
/// none. A reader who shares one but isn't in the one that the incident names is a `neighbour`. A reader who is only in
/// that one is a `peer`.
pub fn standing_of(alloc: Global, words: &str) -> Result<Standing, Unfit> {
    let mut words = words.split(' ');
    let mut standing = stranger_of(alloc, words.next().unwrap_or(""))?;
    for word in words {
        hold(alloc, &mut standing, word)?;
    }
    Ok(standing)
}

/// Returns a reader of whom nothing holds, by its two numbers.
fn stranger_of(alloc: Global, word: &str) -> Result<Standing, Unfit> {
    let (who, org) = word.split_once('/').ok_or(Unfit::NoCase)?;
    let who = number_of(who)?;
    let org = number_of(org)?;
    Ok(Standing::stranger(alloc, who, org))
}

fn hold(alloc: Global, standing: &mut Standing, word: &str) -> Result<(), Unfit> {
    match word {
        "source" => standing.source = true,
        "person" => standing.person = true,
        "nominated" => standing.nominated = true,
        "addressed" => standing.addressed = true,
        "client" => standing.client = true,
        "community" => {
            standing.community = true;
            standing.peer = true;
        }
        "neighbour" => standing.community = true,
        "peer" => standing.peer = true,
        "connected" => standing.connected = true,
        _ => {
            let (name, list) = word.split_once(':').ok_or(Unfit::NoCase)?;
            hold_named(alloc, standing, name, list)?;
        }
    }
    Ok(())
}

fn hold_named(alloc: Global, standing: &mut Standing, name: &str, list: &str) -> Result<(), Unfit> {
    match name {
        "arranged" => standing.arrangement = arranged_of(list)?,
        "groups" => standing.groups = numbers_of(alloc, list)?,
        "active" => standing.active_groups = numbers_of(alloc, list)?,
        "communities" => standing.communities = numbers_of(alloc, list)?,
        "now" => standing.now = moment_of(list)?,
        _ => return Err(Unfit::NoCase),
    }
    Ok(())
}

/// Returns a level, and its group if it has one behind a colon: `4:1`.
pub fn passage_of(word: &str) -> Result<(u8, Option<u32>), Unfit> {
    let (level, group) = match word.split_once(':') {
        Some((level, group)) => (level, Some(number_of(group)?)),
        None => (word, None),
    };
    let level = level.parse::<u8>().ok().ok_or(Unfit::NoCase)?;
    Ok((level, group))
}

/// Returns a gate by its level and group, and its pointer behind an `@`: `4:1@/Incident/0`.
fn gate_of(alloc: Global, word: &str) -> Result<Gate, Unfit> {
    let (passage, pointer) = word.split_once('@').ok_or(Unfit::NoCase)?;
    let (level, group) = passage_of(passage)?;
    let path = Path::parse(alloc, pointer)?;
    Ok(Gate { path, level, group })
}

/// Returns a grantee by its kind and number: `person:4`, `org:3`, `community:2`, `group:7`.
pub fn grantee_of(word: &str) -> Result<Grantee, Unfit> {
    let (kind, number) = word.split_once(':').ok_or(Unfit::NoCase)?;
    let number = number_of(number)?;
    match kind {
        "person" => Ok(Grantee::Person(number)),
        "org" => Ok(Grantee::Org(number)),
        "community" => Ok(Grantee::Community(number)),
        "group" => Ok(Grantee::Group(number)),
        _ => Err(Unfit::NoCase),
    }
}

/// Returns a grantee, and the moment up to which a permission holds, if it has an end behind a `<`: `org:4`,
/// `org:4<1000`.
fn grant_of(word: &str) -> Result<(Grantee, Option<i64>), Unfit> {
    let (grantee, until) = match word.split_once('<') {
        Some((grantee, end)) => (grantee, Some(moment_of(end)?)),
        None => (word, None),
    };
    Ok((grantee_of(grantee)?, until))
}

/// Returns a permission by its grantee, its end if it has one, and its pointer: `org:4@/Incident/0`,
/// `org:4<1000@/Incident/0`.
fn permission_of(alloc: Global, word: &str) -> Result<Permission, Unfit> {
    let (grant, pointer) = word.split_once('@').ok_or(Unfit::NoCase)?;
    let (grantee, until) = grant_of(grant)?;
    let path = Path::parse(alloc, pointer)?;
    Ok(Permission {
        path,
        grantee,
        until,
    })
}

/// Returns the number of a community, if the word names one: `in:3`.
fn community_of(word: &str) -> Result<Option<u32>, Unfit> {
    match word.strip_prefix("in:") {
        None => Ok(None),
        Some(number) => Ok(Some(number_of(number)?)),
    }
}

/// Returns the community, if one is named, and the gates.
fn gates_of(alloc: Global, words: &str) -> Result<(Option<u32>, Gates), Unfit> {
    let mut named = None;
    let mut gates = Vec::new(alloc);
    for word in words.split_whitespace() {
        match community_of(word)? {
            Some(community) => named = Some(community),
            None => gates.push(gate_of(alloc, word)?)?,
        }
    }
    Ok((named, Gates::new(gates)))
}

fn permissions_of(alloc: Global, words: &str) -> Result<Permissions, Unfit> {
    let mut permissions = Vec::new(alloc);
    for word in words.split_whitespace() {
        permissions.push(permission_of(alloc, word)?)?;
    }
    Ok(Permissions::new(permissions))
}

/// Returns a case by its gates and its permissions, with spaces between them. The community that it names, if it names
/// one, is among the gates, as `in:3`.
pub fn case_of(alloc: Global, source: u32, gates: &str, permissions: &str) -> Result<Case, Unfit> {
    let (community, gates) = gates_of(alloc, gates)?;
    Ok(Case {
        source,
        community,
        gates,
        permissions: permissions_of(alloc, permissions)?,
    })
}

/// Returns the kind and the number of a grantee.
pub fn kind_of(grantee: Grantee) -> (&'static str, u32) {
    match grantee {
        Grantee::Person(number) => ("person", number),
        Grantee::Org(number) => ("org", number),
        Grantee::Community(number) => ("community", number),
        Grantee::Group(number) => ("group", number),
    }
}

/// Returns the word of a gate.
pub fn gate_word(alloc: Global, gate: &Gate) -> Result<String, AllocError> {
    let level = gate.level;
    let pointer = gate.path.print(alloc)?;
    match gate.group {
        Some(group) => format!(in alloc; "{level}:{group}@{pointer}"),
        None => format!(in alloc; "{level}@{pointer}"),
    }
}

/// Returns the word of a permission.
pub fn permission_word(alloc: Global, permission: &Permission) -> Result<String, AllocError> {
    let (kind, number) = kind_of(permission.grantee);
    let pointer = permission.path.print(alloc)?;
    match permission.until {
        Some(end) => format!(in alloc; "{kind}:{number}<{end}@{pointer}"),
        None => format!(in alloc; "{kind}:{number}@{pointer}"),
    }
}

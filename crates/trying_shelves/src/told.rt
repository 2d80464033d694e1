//! Replies as text.

use crate::shared::{communities, sharing};
use circle::directory::Person;
use hub_core::{Entry, JoinedGroup, Reply, View};
use std::alloc::{AllocError, Global};
use trying_hub::{refusal_text, role_name};

fn push_pairs(alloc: Global, all: &mut String, view: &View) -> Result<(), AllocError> {
    for (place, rule) in view.withheld.as_slice() {
        let pointer = place.print(alloc)?;
        all.push_str(" [")?;
        all.push_str(pointer.as_str())?;
        all.push_str(",")?;
        all.push_str(rule.name())?;
        all.push_str("]")?;
    }
    Ok(())
}

/// Returns `view 1 revision 1 of 2 classes 1 DOCUMENT`, and behind it what is withheld.
fn view(alloc: Global, view: &View) -> Result<String, AllocError> {
    let (number, revision, source, classes) = (
        view.number,
        view.revision,
        view.source,
        view.classes,
    );
    let mut all = format!(in alloc;
        "view {number} revision {revision} of {source} classes {classes} "
    )?;
    let document = view.document.text(alloc)?;
    all.push_str(document.as_str())?;
    push_pairs(alloc, &mut all, view)?;
    Ok(all)
}

/// Returns `incidents`, and each with its number, its revision and its source.
fn incidents(alloc: Global, entries: &[Entry]) -> Result<String, AllocError> {
    let mut all = String::from_str(alloc, "incidents")?;
    for entry in entries {
        let (number, revision, source) = (entry.number, entry.revision, entry.source);
        let one = format!(in alloc; " {number}:{revision}:{source}")?;
        all.push_str(one.as_str())?;
    }
    Ok(all)
}

fn numbers(alloc: Global, numbers: &[u32]) -> Result<String, AllocError> {
    let mut all = String::from_str(alloc, "numbers")?;
    for number in numbers {
        let one = format!(in alloc; " {number}")?;
        all.push_str(one.as_str())?;
    }
    Ok(all)
}

fn push_group(alloc: Global, all: &mut String, group: &JoinedGroup) -> Result<(), AllocError> {
    let (number, owner) = (group.number, group.owner);
    let name = group.name.as_str();
    let releasability = group.releasability.as_str();
    let active = if group.active { "active" } else { "inactive" };
    let extend = if group.extend { "extends" } else { "keeps" };
    let one = format!(in alloc;
        " [{number} {name} '{releasability}' of {owner} {active} {extend}]"
    )?;
    all.push_str(one.as_str())
}

fn groups(alloc: Global, groups: &[JoinedGroup]) -> Result<String, AllocError> {
    let mut all = String::from_str(alloc, "groups")?;
    for group in groups {
        push_group(alloc, &mut all, group)?;
    }
    Ok(all)
}

fn caller(alloc: Global, person: &Person) -> Result<String, AllocError> {
    let (number, org) = (person.number, person.org);
    let name = person.name.as_str();
    let role = role_name(person.role);
    let nominated = if person.nominated {
        "nominated"
    } else {
        "not nominated"
    };
    format!(in alloc; "caller {number} {name} of {org} {role} {nominated}")
}

/// Returns `trace`, and each of its lines.
fn trace(alloc: Global, text: &str) -> Result<String, AllocError> {
    let mut all = String::from_str(alloc, "trace")?;
    for line in text.trim_end().split('\n') {
        all.push_str(" [")?;
        all.push_str(line)?;
        all.push_str("]")?;
    }
    Ok(all)
}

/// Returns the reply in words, as `done` or `revision 2`; a refusal by its code and detail.
pub fn reply_text(alloc: Global, reply: &Reply) -> Result<String, AllocError> {
    match reply {
        Reply::Done => String::from_str(alloc, "done"),
        Reply::Numbers(found) => numbers(alloc, found.as_slice()),
        Reply::Revision(revision) => {
            let revision = *revision;
            format!(in alloc; "revision {revision}")
        }
        Reply::View(found) => view(alloc, found),
        Reply::Incidents(found) => incidents(alloc, found.as_slice()),
        Reply::Groups(found) => groups(alloc, found.as_slice()),
        Reply::Communities(found) => communities(alloc, found.as_slice()),
        Reply::Sharing(found) => sharing(alloc, found),
        Reply::Caller(person) => caller(alloc, person),
        Reply::Trace(text) => trace(alloc, text.as_str()),
        Reply::Refused(found) => refusal_text(alloc, found),
    }
}

/// Returns each of the replies in words.
pub fn replies_text(alloc: Global, list: &[Reply]) -> Result<Vec<String>, AllocError> {
    let mut all = Vec::new(alloc);
    for one in list {
        all.push(reply_text(alloc, one)?)?;
    }
    Ok(all)
}

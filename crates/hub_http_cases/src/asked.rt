//! The request in the bytes of a message, in words.

use crate::commands::command;
use hub::Key;
use hub_core::{
    Bytes, Distribution, Explain, Grant, Redistribute, Request, Search, Target, WantedGates,
    Withdraw,
};
use hub_http::request_of;
use std::alloc::{AllocError, Global};
use trying::bytes_of;
use trying_policy::kind_of;

/// The longest document that is printed whole, in bytes.
const SHORT: usize = 100;

fn group(alloc: Global, group: Option<u32>) -> Result<String, AllocError> {
    match group {
        Some(n) => format!(in alloc; "{n}"),
        None => String::from_str(alloc, "-"),
    }
}

fn gates(alloc: Global, gates: &WantedGates) -> Result<String, AllocError> {
    let mut all = String::new(alloc);
    for gate in gates.as_slice() {
        let group = group(alloc, gate.group)?;
        let level = gate.level;
        let path = gate.path.as_str();
        let one = format!(in alloc; " {level}:{group}:{path:?}")?;
        all.push_str(one.as_str())?;
    }
    Ok(all)
}

fn document(alloc: Global, document: &Bytes) -> Result<String, AllocError> {
    let bytes = document.as_slice();
    let count = bytes.len();
    match str::from_utf8(bytes) {
        Ok(text) if count <= SHORT => format!(in alloc; "{text:?}"),
        _ => format!(in alloc; "{count} bytes"),
    }
}

fn target(target: Target) -> (&'static str, u32) {
    match target {
        Target::Person(n) => ("person", n),
        Target::Org(n) => ("org", n),
    }
}

/// Returns the words of a request that reads.
fn reading(alloc: Global, request: &Request) -> Result<Option<String>, AllocError> {
    let told = match request {
        Request::View { incident } => format!(in alloc; "View {incident}")?,
        Request::List { after } => format!(in alloc; "List after {after}")?,
        Request::Search(
            Search {
                needle,
                class,
                after,
            },
        ) => {
            let needle = needle.as_str();
            match class {
                Some(class) => {
                    let class = class.as_str();
                    format!(in alloc; "Search {needle:?} in {class:?} after {after}")?
                }
                None => format!(in alloc; "Search {needle:?} after {after}")?,
            }
        }
        Request::Explain(
            Explain {
                person,
                incident,
                path,
            },
        ) => {
            let path = path.as_str();
            format!(in alloc; "Explain to {person} of {incident} at {path:?}")?
        }
        Request::Addressed { after } => format!(in alloc; "Addressed after {after}")?,
        Request::Sharing { incident } => format!(in alloc; "Sharing {incident}")?,
        Request::MyGroups => String::from_str(alloc, "MyGroups")?,
        Request::MyCommunities => String::from_str(alloc, "MyCommunities")?,
        Request::WhoAmI => String::from_str(alloc, "WhoAmI")?,
        _ => return Ok(None),
    };
    Ok(Some(told))
}

/// Returns the words behind a grant with an end.
fn end_text(alloc: Global, until: Option<i64>) -> Result<String, AllocError> {
    match until {
        None => Ok(String::new(alloc)),
        Some(end) => format!(in alloc; " until {end}"),
    }
}

/// Returns the words in front of the level of an incident that names a community.
fn community_text(alloc: Global, community: Option<u32>) -> Result<String, AllocError> {
    match community {
        None => Ok(String::new(alloc)),
        Some(number) => format!(in alloc; "community {number} "),
    }
}

fn distribution(alloc: Global, wanted: &Distribution) -> Result<String, AllocError> {
    let community = community_text(alloc, wanted.community)?;
    let level = wanted.level;
    let group = group(alloc, wanted.group)?;
    let gates = gates(alloc, &wanted.gates)?;
    format!(in alloc; "{community}level {level} group {group} gates{gates}")
}

/// Returns the words of a request with a document.
fn posting(alloc: Global, request: &Request) -> Result<Option<String>, AllocError> {
    let told = match request {
        Request::Post(asked) => {
            let distribution = distribution(alloc, &asked.distribution)?;
            let document = document(alloc, &asked.document)?;
            format!(in alloc; "Post {distribution} document {document}")?
        }
        Request::Replace(asked) => {
            let (incident, revision) = (asked.incident, asked.revision);
            let distribution = distribution(alloc, &asked.distribution)?;
            let document = document(alloc, &asked.document)?;
            format!(in alloc;
                "Replace {incident} revision {revision} {distribution} document {document}"
            )?
        }
        _ => return Ok(None),
    };
    Ok(Some(told))
}

/// Returns the words of a request that changes who sees an incident.
fn redistribute(alloc: Global, asked: &Redistribute) -> Result<String, AllocError> {
    let (incident, revision, level) = (asked.incident, asked.revision, asked.level);
    let path = asked.path.as_str();
    let group = group(alloc, asked.group)?;
    format!(in alloc;
        "Redistribute {incident} revision {revision} {path:?} level {level} group {group}"
    )
}

fn addressing(alloc: Global, word: &str, incident: u32, to: Target) -> Result<String, AllocError> {
    let (kind, number) = target(to);
    format!(in alloc; "{word} {incident} {kind} {number}")
}

fn grant(alloc: Global, asked: &Grant) -> Result<String, AllocError> {
    let (incident, revision) = (asked.incident, asked.revision);
    let path = asked.path.as_str();
    let (kind, number) = kind_of(asked.grantee);
    let end = end_text(alloc, asked.until)?;
    format!(in alloc; "Grant {incident} revision {revision} {path:?} {kind} {number}{end}")
}

fn withdraw(alloc: Global, asked: &Withdraw) -> Result<String, AllocError> {
    let incident = asked.incident;
    let path = asked.path.as_str();
    let (kind, number) = kind_of(asked.grantee);
    format!(in alloc; "Withdraw {incident} {path:?} {kind} {number}")
}

fn widening(alloc: Global, request: &Request) -> Result<Option<String>, AllocError> {
    let told = match request {
        Request::Redistribute(asked) => redistribute(alloc, asked)?,
        Request::Address(asked) => addressing(alloc, "Address", asked.incident, asked.target)?,
        Request::Unaddress(asked) => addressing(alloc, "Unaddress", asked.incident, asked.target)?,
        Request::Grant(asked) => grant(alloc, asked)?,
        Request::Withdraw(asked) => withdraw(alloc, asked)?,
        Request::Circle(wanted) => command(alloc, wanted)?,
        _ => return Ok(None),
    };
    Ok(Some(told))
}

fn request(alloc: Global, request: &Request) -> Result<String, AllocError> {
    if let Some(told) = reading(alloc, request)? {
        return Ok(told);
    }
    if let Some(told) = posting(alloc, request)? {
        return Ok(told);
    }
    match widening(alloc, request)? {
        Some(told) => Ok(told),
        None => String::from_str(alloc, "?"),
    }
}

/// Returns the key's digest, or `absent`, and the request.
fn describe(alloc: Global, key: &Key, wanted: &Request) -> Result<String, AllocError> {
    let key = match key {
        Key::Absent => String::from_str(alloc, "absent")?,
        Key::Digest(bytes) => hex::encode(alloc, bytes.as_slice())?,
    };
    let told = request(alloc, wanted)?;
    format!(in alloc; "{key} {told}")
}

/// Returns the answer to the bytes of a request.
pub fn answer(alloc: Global, line: &str) -> Result<String, AllocError> {
    let bytes = bytes_of(alloc, line)?;
    match request_of(alloc, &bytes) {
        Ok((key, request)) => describe(alloc, &key, &request),
        Err(fault) => format!(in alloc; "{fault:?}"),
    }
}

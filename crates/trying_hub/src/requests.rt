//! The request that the fields of a line name: WORD|FIELD|FIELD.. with the fields in the request's order.
//!
//! The level of a Post or a Replace is `1@3` if its incidents name community 3. A group is `-` for none, and so is a
//! class. Gates are LEVEL:GROUP:POINTER with a space between them. Targets and grantees are `person 4`, `org 3`,
//! `community 1` or `group 1`. A grant's end is a number of seconds; it is `-` or missing for none.

use crate::commands::command_of;
use crate::documents::document_text;
use crate::fields::Fields;
use circle::text::Text;
use hub_core::{
    Address, Bytes, Distribution, Explain, Grant, Post, Redistribute, Replace, Request, Search,
    Target, Unaddress, WantedGate, WantedGates, Withdraw,
};
use policy::Grantee;
use std::alloc::{AllocError, Global};
use trying::{number_if_any, number_of};

fn target_of(words: &str) -> Target {
    match words.split_once(' ') {
        Some(("org", number)) => Target::Org(number_of(number)),
        Some((_, number)) => Target::Person(number_of(number)),
        None => Target::Person(0),
    }
}

fn grantee_of(words: &str) -> Grantee {
    match words.split_once(' ') {
        Some(("org", number)) => Grantee::Org(number_of(number)),
        Some(("community", number)) => Grantee::Community(number_of(number)),
        Some(("group", number)) => Grantee::Group(number_of(number)),
        Some((_, number)) => Grantee::Person(number_of(number)),
        None => Grantee::Person(0),
    }
}

fn gate_of(alloc: Global, word: &str) -> Result<WantedGate, AllocError> {
    let (level, rest) = word.split_once(':').unwrap_or((word, ""));
    let (group, path) = rest.split_once(':').unwrap_or((rest, ""));
    Ok(WantedGate {
        level: number_of(level),
        group: number_if_any(group),
        path: Text::of(alloc, path)?,
    })
}

fn gates_of(alloc: Global, words: &str) -> Result<WantedGates, AllocError> {
    let mut gates = Vec::new(alloc);
    if !words.is_empty() {
        for word in words.split(' ') {
            gates.push(gate_of(alloc, word)?)?;
        }
    }
    Ok(WantedGates::new(gates))
}

fn body_of(alloc: Global, text: &str) -> Result<Bytes, AllocError> {
    Ok(Bytes::new(document_text(text).as_bytes().to_vec(alloc)?))
}

/// Returns a level, and the community if one is named.
fn level_of(word: &str) -> (u32, Option<u32>) {
    match word.split_once('@') {
        Some((level, community)) => (number_of(level), Some(number_of(community))),
        None => (number_of(word), None),
    }
}

fn distribution(alloc: Global, fields: &mut Fields<'_>) -> Result<Distribution, AllocError> {
    let (level, community) = level_of(fields.word());
    Ok(Distribution {
        community,
        level,
        group: fields.number_if_any(),
        gates: gates_of(alloc, fields.word())?,
    })
}

/// Returns a request with a document.
fn posting(
    alloc: Global,
    name: &str,
    fields: &mut Fields<'_>,
) -> Result<Option<Request>, AllocError> {
    Ok(match name {
        "Post" => Some(Request::Post(Post {
            distribution: distribution(alloc, fields)?,
            document: body_of(alloc, fields.word())?,
        })),
        "Replace" => Some(Request::Replace(Replace {
            incident: fields.number(),
            revision: fields.number(),
            distribution: distribution(alloc, fields)?,
            document: body_of(alloc, fields.word())?,
        })),
        _ => None,
    })
}

/// Returns a request about an incident that is there.
fn sharing(
    alloc: Global,
    name: &str,
    fields: &mut Fields<'_>,
) -> Result<Option<Request>, AllocError> {
    Ok(match name {
        "Redistribute" => Some(Request::Redistribute(Redistribute {
            incident: fields.number(),
            revision: fields.number(),
            path: fields.text(alloc)?,
            level: fields.number(),
            group: fields.number_if_any(),
        })),
        "Address" => Some(Request::Address(Address {
            incident: fields.number(),
            target: target_of(fields.word()),
        })),
        "Unaddress" => Some(Request::Unaddress(Unaddress {
            incident: fields.number(),
            target: target_of(fields.word()),
        })),
        "Grant" => Some(Request::Grant(Grant {
            incident: fields.number(),
            revision: fields.number(),
            path: fields.text(alloc)?,
            grantee: grantee_of(fields.word()),
            until: fields.moment_if_any(),
        })),
        "Withdraw" => Some(Request::Withdraw(Withdraw {
            incident: fields.number(),
            path: fields.text(alloc)?,
            grantee: grantee_of(fields.word()),
        })),
        _ => None,
    })
}

fn class_of(alloc: Global, word: &str) -> Result<Option<Text>, AllocError> {
    if word == "-" {
        Ok(None)
    } else {
        Ok(Some(Text::of(alloc, word)?))
    }
}

fn reading(alloc: Global, name: &str, fields: &mut Fields<'_>) -> Result<Request, AllocError> {
    Ok(match name {
        "View" => Request::View {
            incident: fields.number(),
        },
        "Explain" => Request::Explain(Explain {
            person: fields.number(),
            incident: fields.number(),
            path: fields.text(alloc)?,
        }),
        "List" => Request::List {
            after: fields.number(),
        },
        "Search" => Request::Search(Search {
            needle: fields.text(alloc)?,
            class: class_of(alloc, fields.word())?,
            after: fields.number(),
        }),
        "Addressed" => Request::Addressed {
            after: fields.number(),
        },
        "Sharing" => Request::Sharing {
            incident: fields.number(),
        },
        "MyGroups" => Request::MyGroups,
        "MyCommunities" => Request::MyCommunities,
        _ => Request::WhoAmI,
    })
}

/// Returns the request of this word and of the fields behind it.
pub fn request_of(alloc: Global, fields: &mut Fields<'_>) -> Result<Request, AllocError> {
    let name = fields.word();
    if let Some(command) = command_of(alloc, name, fields)? {
        return Ok(Request::Circle(command));
    }
    if let Some(request) = posting(alloc, name, fields)? {
        return Ok(request);
    }
    match sharing(alloc, name, fields)? {
        Some(request) => Ok(request),
        None => reading(alloc, name, fields),
    }
}

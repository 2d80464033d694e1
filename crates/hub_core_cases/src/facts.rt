//! The facts that the shelf found, by words.

use crate::told::push_flagged;
use circle::command::CircleFacts;
use circle::text::Text;
use hub_core::{Facts, IncidentFacts};
use iodef_tree::Document;
use std::alloc::{AllocError, Global};
use trying::number_of;

fn value<'a>(words: &'a str, name: &str) -> Option<&'a str> {
    for word in words.split(' ') {
        if let Some((key, value)) = word.split_once('=') {
            if key == name {
                return Some(value);
            }
        }
    }
    None
}

fn has(words: &str, name: &str) -> bool {
    words.split(' ').any(|word| word == name)
}

fn number(words: &str, name: &str) -> u32 {
    value(words, name).map_or(0, number_of)
}

fn known_of(alloc: Global, words: &str) -> Result<Option<IncidentFacts>, AllocError> {
    let Some(known) = value(words, "known") else {
        return Ok(None);
    };
    let (source, rest) = known.split_once(',').unwrap_or((known, ""));
    let (revision, ident) = rest.split_once(',').unwrap_or((rest, ""));
    Ok(Some(IncidentFacts {
        source: number_of(source),
        revision: number_of(revision),
        ident: Text::of(alloc, ident)?,
    }))
}

/// Returns the first document of the body, or none if there is no body or it can't be read.
fn document_of(alloc: Global, words: &str) -> Option<Document> {
    let body = value(words, "document")?;
    match Document::read(alloc, body.as_bytes()) {
        Ok(mut documents) => {
            documents.truncate(1);
            documents.pop()
        }
        Err(_) => None,
    }
}

pub fn facts_of(alloc: Global, words: &str) -> Result<Facts, AllocError> {
    Ok(Facts {
        circle: CircleFacts {
            exists: has(words, "exists"),
            may_extend: has(words, "may_extend"),
            owner: has(words, "owner"),
            target_is_owner: has(words, "target_is_owner"),
            own_person: has(words, "own_person"),
            stands: has(words, "stands"),
            count: number(words, "count"),
        },
        incident: known_of(alloc, words)?,
        document: document_of(alloc, words),
        posted: value(words, "posted").map(number_of),
        gates: number(words, "gates"),
        recipients: number(words, "recipients"),
        permissions: number(words, "permissions"),
    })
}

fn told_circle(alloc: Global, facts: &CircleFacts) -> Result<String, AllocError> {
    let count = facts.count;
    let mut all = format!(in alloc; "count={count}")?;
    let words = [
        (facts.exists, " exists"),
        (facts.may_extend, " may_extend"),
        (facts.owner, " owner"),
        (facts.target_is_owner, " target_is_owner"),
        (facts.own_person, " own_person"),
        (facts.stands, " stands"),
    ];
    push_flagged(&mut all, &words)?;
    Ok(all)
}

fn push_known(alloc: Global, all: &mut String, known: &IncidentFacts) -> Result<(), AllocError> {
    let (source, revision, ident) = (known.source, known.revision, known.ident.as_str());
    let words = format!(in alloc; " known={source},{revision},{ident}")?;
    all.push_str(words.as_str())
}

fn push_document(alloc: Global, all: &mut String, document: &Document) -> Result<(), AllocError> {
    let text = document.text(alloc)?;
    all.push_str(" document=")?;
    all.push_str(text.as_str())
}

fn push_posted(alloc: Global, all: &mut String, posted: u32) -> Result<(), AllocError> {
    let words = format!(in alloc; " posted={posted}")?;
    all.push_str(words.as_str())
}

fn push_counts(alloc: Global, all: &mut String, facts: &Facts) -> Result<(), AllocError> {
    let (gates, recipients) = (facts.gates, facts.recipients);
    let permissions = facts.permissions;
    let words = format!(in alloc;
        " gates={gates} recipients={recipients} permissions={permissions}"
    )?;
    all.push_str(words.as_str())
}

/// Adds the facts behind those of the circle.
fn push_facts(alloc: Global, all: &mut String, facts: &Facts) -> Result<(), AllocError> {
    if let Some(known) = &facts.incident {
        push_known(alloc, all, known)?;
    }
    if let Some(document) = &facts.document {
        push_document(alloc, all, document)?;
    }
    if let Some(posted) = facts.posted {
        push_posted(alloc, all, posted)?;
    }
    push_counts(alloc, all, facts)
}

/// Returns the facts by the same words.
pub fn describe_facts(alloc: Global, facts: &Facts) -> Result<String, AllocError> {
    let mut all = told_circle(alloc, &facts.circle)?;
    push_facts(alloc, &mut all, facts)?;
    Ok(all)
}

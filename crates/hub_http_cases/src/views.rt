//! The part of a document that a reader is served.

use hub_core::{Reply, View, Withheld};
use redact::{Excerpt, excerpt};
use std::alloc::{AllocError, Global};
use trying::number_of;
use trying_policy::{Report, Unfit, case_of, standing_of};

/// The parts of a view's line.
#[derive(Drop)]
struct Asked<'a> {
    number: u32,
    revision: u32,
    source: u32,
    standing: &'a str,
    gates: &'a str,
    permissions: &'a str,
    document: &'a str,
}

fn asked_of(fields: &str) -> Option<Asked<'_>> {
    let mut parts = fields.split('|');
    Some(Asked {
        number: number_of(parts.next()?),
        revision: number_of(parts.next()?),
        source: number_of(parts.next()?),
        standing: parts.next()?,
        gates: parts.next()?,
        permissions: parts.next()?,
        document: parts.next()?,
    })
}

/// Returns what the reader is served of the document, by the gates and the permissions.
fn serve_excerpt(alloc: Global, asked: &Asked<'_>) -> Result<Option<Excerpt>, Unfit> {
    let mut report = Report::new();
    report.read(alloc, asked.document)?;
    let standing = standing_of(alloc, asked.standing)?;
    let case = case_of(alloc, asked.source, asked.gates, asked.permissions)?;
    Ok(excerpt(alloc, report.document()?, &case, &standing)?)
}

/// Returns the view of a line, or none if it names none or if nothing is visible.
pub fn view_of(alloc: Global, fields: &str) -> Result<Option<Reply>, AllocError> {
    let Some(asked) = asked_of(fields) else {
        return Ok(None);
    };
    match serve_excerpt(alloc, &asked) {
        Ok(Some(told)) => Ok(Some(Reply::View(View {
            number: asked.number,
            revision: asked.revision,
            source: asked.source,
            classes: told.classes,
            document: told.document,
            withheld: Withheld::new(told.withheld),
        }))),
        Ok(None) | Err(Unfit::NoCase | Unfit::NoClass) => Ok(None),
        Err(Unfit::NoMemory) => Err(AllocError),
    }
}

//! A shelf that keeps the documents read lately, over any shelf.
//!
//! To read first: [`KeptDocuments`]. It is a `Shelf` of `hub_state` with the content, the failures and the crashes of
//! the shelf below it. It answers an excerpt or a search of an incident from memory if the document is kept, and asks
//! the shelf below for all else. Where that fails with `NoMemory`, it drops the kept documents and asks once more.
//! `specs/Kept` says what is kept and what a document weighs.
//!
//! The modules, in the order in which a document meets them:
//!
//! - `weight`: what a document weighs; `kept`: a document that was weighed, with accepted markings;
//! - `documents`: the kept documents, when one is wanted, and how they are dropped;
//! - `kept_documents`: the shelf; `copies`: what it needs to ask once more; [`laws`]: the limit of a hub that serves.
#![tactic(auto)]

mod copies;
mod documents;
mod kept;
mod kept_documents;
pub mod laws;
mod weight;

pub use kept_documents::KeptDocuments;

/// The weight that the kept documents of a hub that serves may have together: 64 MiB, room for some 1,600 reports of 4
/// KB. A kept document takes at most its weight of memory.
pub const MOST_WEIGHT: usize = 67_108_864;

/// The weight that a kept document may have: 1 MiB. A heavier one would take the place of many; only a report near both
/// its limits, of lines and of bytes, or a long name at an array of many elements makes one.
const DOCUMENT_LIMIT: usize = 1_048_576;

/// The memory that the kept documents leave to a request: 64 MiB, as much as `deploy/lib/limit-memory` sets aside for
/// one. The C library maps a block of more than 32 MiB, so asking for it changes nothing else.
const REQUEST_ROOM: usize = 67_108_864;

/// How many incidents are noted as asked for.
const NOTED_LIMIT: usize = 4096;

/// After how many questions a document may replace others.
const PATIENCE: u32 = 64;

//! What a reader is served of a document, and searches in what a reader may see.
//!
//! Read first, in `specs/`: `Told`, all that a reader is served; `Kept`, the outline of an excerpt; `Withheld`, the
//! list of what is withheld; `Excerpts`, the answers of [`excerpt`]; `Wants`, those of [`meets`]; `Probed`, when a
//! [`Probe`] is sure.
//!
//! The modules, in the order of a document's way:
//!
//! - `document_excerpt`: [`excerpt`]; `excerpts`: [`Excerpt`];
//! - `pass`: the one pass down, for a `reader`, by its `trail`; `attributes`: a label put in;
//! - `note`: what is withheld, as the pass notes it; `order`: which of two places comes first; `sorted_withheld`: all
//!   notes in order;
//! - `search`: [`finds`] and [`is_listed`]; `want`: [`meets`], one or the other by a [`Want`];
//! - `rows`: [`RowPass`], an excerpt by lines that come one at a time: `marks`, whether their markings are accepted;
//!   `sieve`, the lines that matter, by the `steps` to each and the `gate_refusals` there; `fed_lines`, all lines, for
//!   clauses only; `outline_document`, the document of the kept lines;
//! - `probe`: [`Probe`], a search by such lines: `open_classes`, what is sure of the classes that may still get lines,
//!   also by the `class_permissions`;
//! - [`laws`]: what excerpts and searches promise; `agreements`: two definitions of one thing; [`examples`], the
//!   definitions computed on small reports.
#![tactic(auto)]

mod agreements;
mod attributes;
mod class_permissions;
mod document_excerpt;
pub mod examples;
mod excerpts;
mod fed_lines;
mod gate_refusals;
pub mod laws;
mod marks;
mod note;
mod open_classes;
mod order;
mod outline_document;
mod pass;
mod probe;
mod reader;
mod rows;
mod search;
mod sieve;
mod sorted_withheld;
mod steps;
mod trail;
mod want;

pub use document_excerpt::excerpt;
pub use excerpts::Excerpt;
pub use probe::Probe;
pub use rows::{RowPass, excerpt_if_marked};
pub use search::{finds, is_listed};
pub use want::{Want, meets};

//! Redaction for callers that have no hub: a report and a view description in, an answer out, all as bytes.
//!
//! Read first, in `specs/`: `Described`, what a view description says; `Faults`, the order of the faults; `Answers`,
//! the answers about a report.
//!
//! The modules, in the order of a call:
//!
//! - `fault`: [`Fault`], why there is no answer; `both`: two readings side by side, of which the earlier fault is
//!   returned;
//! - `place`: the places of a description, and a fault with its place;
//! - `value`: what the JSON values of a description say; `moment` and `now`: how a moment is written, and that of a
//!   view; `gates`, `permissions` and `case`: its case; `reader`: its reader; `short`: its short form; `view`: the
//!   whole description;
//! - `asked`: a document of the report, with a case and a reader;
//! - `excerpting`: [`excerpt`], [`excerpt_document`] and [`excerpt_whole`]; `several`: [`excerpts`]; `body`: an excerpt
//!   as a JSON text; `readable` and `limits`: whether it is a report again; `highest`: its highest label; `whole`: made a
//!   report by placeholders;
//! - `finding`: [`finds`]; `explaining`: [`explain`]; `mark_lines`: [`marks`];
//! - `locating`: [`first_fault`], a fault of a description or a report with its place;
//! - [`laws`]: what the short form promises, and what can be read again.
#![tactic(auto)]

mod asked;
mod body;
mod both;
mod case;
mod excerpting;
mod explaining;
mod fault;
mod finding;
mod gates;
mod highest;
pub mod laws;
mod limits;
mod locating;
mod mark_lines;
mod moment;
mod now;
mod permissions;
mod place;
mod readable;
mod reader;
mod several;
mod short;
mod value;
mod view;
mod whole;

pub use excerpting::{ExcerptDocument, excerpt, excerpt_document, excerpt_whole};
pub use explaining::explain;
pub use fault::Fault;
pub use finding::finds;
pub use locating::first_fault;
pub use mark_lines::marks;
pub use moment::is_written;
pub use reader::is_clearance;
pub use several::excerpts;
pub use whole::Identifier;

/// How many gates a view may have besides the one at the root.
pub const GATE_LIMIT: usize = 16;

/// How many permissions a view may have.
pub const PERMISSION_LIMIT: usize = 64;

/// How many groups or communities a list of a view may have.
pub const NUMBER_LIMIT: usize = 1_000;

//! IODEF v2 documents in JSON (RFC 7970, RFC 8727): trees in memory, and flat lists of lines in contracts.
//!
//! Read first, in `specs/`: `Tree`, a document as a tree, and its lines; `TreeOf`, the tree of such lines; `Walk`, the
//! path of each; `Json`, the JSON object; `Reading`, what a body gives.
//!
//! The modules, in the order of the data:
//!
//! - `read`: from bytes to documents, or to the first `fault`; `unfit_values`: the values that no document can hold;
//!   `convert`: the others, moved into a tree; `line_limit`: how many lines that tree has;
//! - `object`: [`Object`], the tree; `copy`: a copy of the tree;
//! - `document`: [`Document`], a sound tree, with the calls for the crates above; they see its `line`s;
//! - `outline`, `classes`: walks down the tree, to its lines and to the paths of its classes;
//! - `lookup`: the class at a path;
//! - `shape`: [`Shape`], whether lines that come one at a time are an outline; `value_text`: the texts of values;
//!   `builder`: [`Builder`], the document of such lines;
//! - `value`, `writer`: back to JSON, as a value and as a text, in which `string` quotes;
//! - [`laws`]: what holds of every document; `agreements`: two definitions of one thing; [`examples`]: small bodies.
//!
//! [`Path`], [`PathFault`], [`Text`] and [`push_token`] are re-exported from `json_pointer`.
#![tactic(auto)]

mod agreements;
mod builder;
mod classes;
mod convert;
mod copy;
mod document;
pub mod examples;
mod fault;
pub mod laws;
mod line;
mod line_limit;
mod lookup;
mod object;
mod outline;
mod read;
mod shape;
mod string;
mod unfit_values;
mod value;
mod value_text;
mod writer;

pub use builder::Builder;
pub use document::Document;
pub use fault::{OutlineFault, ReadFault, Required};
pub use json_pointer::{Path, PathFault, Text, push_token};
pub use line::{Kind, Line};
pub use object::{Item, Member, Object};
pub use shape::{Shape, Sibling};
pub use string::push_quoted;

/// How many classes may be one below the other in a document that is read.
pub const DEPTH_LIMIT: u32 = 32;

/// How many lines the outline of a document that is read may have.
pub const LINE_LIMIT: usize = 4096;

/// How many Incidents a body may have.
pub const REPORT_INCIDENT_LIMIT: usize = 16;

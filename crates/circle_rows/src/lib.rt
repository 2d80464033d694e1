//! A directory of the circle in memory, for the shelf in memory and for tests: the facts of commands and the edits
//! that they lead to, over sorted rows.
//!
//! Read first: the contracts of [`DirectoryRows::facts`] and [`DirectoryRows::apply`], and `Rows` in `specs/`, the
//! directory that the rows make.
//!
//! The modules, from the outside in:
//!
//! - `rows`: [`DirectoryRows`], and [`ReadyRows`] with edits for which the memory is taken: nine lists (`sets`) in the order of a key (`keys`, `keyed`);
//! - `lookups`: whether it has a row; `facts`: the facts of a command; `reads`: other questions.
#![tactic(auto)]

mod facts;
mod keyed;
mod keys;
mod lookups;
mod reads;
mod rows;
mod sets;

pub use rows::{DirectoryRows, ReadyRows};

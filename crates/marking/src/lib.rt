//! The labels of a document: what is written in its classes, and which label holds for each (RFC 7970 sections 3.3.1
//! and 5.1.1, FIRST TLP 2.0).
//!
//! Read first, in `specs/`: `Label`, the tables of labels and handlings; `Marks`, which label holds at which class.
//!
//! The modules, in the order of a document's way:
//!
//! - `label`: [`Label`] and [`Handling`] with their tables;
//! - `class`: the label that the members of one class spell;
//! - `rule`: [`check`], whether every class keeps the marking rule;
//! - `label_site`: [`own`] and [`site`], the label of one path and where it comes from;
//! - `pass`: [`write_marks`], the label and the site of every class, in one pass down the tree;
//! - `fault`: why markings aren't accepted, and why a path has no site;
//! - [`laws`], and [`examples`], the definitions computed on small reports.
#![tactic(auto)]

pub mod class;
pub mod examples;
mod fault;
mod label;
mod label_site;
pub mod laws;
mod pass;
mod rule;

pub use fault::{MarkingFault, SiteFault};
pub use label::{Handling, Label};
pub use label_site::{is_incident, own, site, written_at};
pub use pass::{Mark, MarkWriter, write_marks};
pub use rule::check;

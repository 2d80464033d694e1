//! Sketches: a small part of a document, in memory of its own, by which a list or a search passes over most documents
//! without reading them.
//!
//! Read first, in `specs/`: `Sketched`, what a sketch says of a document; `Judged`, what it says of a want; `Laws`, why
//! that is so.
//!
//! The modules, in the order of a document's way:
//!
//! - `labels`: how the labels in force at the classes are handled, and the least of these handlings;
//! - `holding`: the texts that classes directly hold; `sizes`: how large a set their runs want;
//! - `runs`: the numbers of the three-byte runs of a text, and of a name; `bits`: a set of numbers, a bit for each;
//! - `sketch`: [`Sketch`], made of a document;
//! - `judged`: [`Judged`], what it says of a want for a case and a reader;
//! - [`laws`]: what a reader is shown by label, gates and permissions, and what a search finds.
#![tactic(auto)]

mod bits;
mod holding;
mod judged;
mod labels;
pub mod laws;
mod runs;
mod sizes;
mod sketch;

pub use judged::Judged;
pub use sketch::Sketch;

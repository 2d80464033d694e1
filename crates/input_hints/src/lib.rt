//! What a person reads about an input that is refused, below the fault's name: where the fault is, and what helps.
//!
//! Read first, in `specs/`: `Marks`, byte order marks; `Hints`, the faults of a report.
//!
//! The modules: `mark`: [`ByteOrderMark`], with which an input begins that a program may have saved so; `hint`:
//! [`read_hint`], for a body that can't be read as documents, and [`placed`], for a fault at a path.
#![tactic(auto)]

mod hint;
mod mark;

pub use hint::{placed, read_hint};
pub use mark::ByteOrderMark;

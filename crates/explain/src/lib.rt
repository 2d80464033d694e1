//! Why a reader sees a class of a document, or doesn't: the verdict with all that it rests on, and how it is written.
//!
//! Read first, in `specs/`: `Explanation`, what it holds; `Lines`, how it is written.
//!
//! The modules, in the order of a question:
//!
//! - `explaining`: [`explain`], from a document, a case, a standing and a path;
//! - `trace`: [`Trace`], the explanation; `fault`: why there is none;
//! - `listing`: the permissions in the order in which they are written;
//! - `lines`: [`Trace::text`], the explanation as lines.
#![tactic(auto)]

mod explaining;
mod fault;
mod lines;
mod listing;
mod trace;

pub use explaining::explain;
pub use fault::ExplainFault;
pub use trace::Trace;

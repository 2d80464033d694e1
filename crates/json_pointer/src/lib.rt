//! Texts as lists of bytes, paths as lists of reference tokens, and the JSON pointers that print paths (RFC 6901).
//!
//! Read first, in `specs/`: `Text`, how texts and paths are compared; `Pointer`, what a JSON pointer means.
//!
//! The modules: `text`: [`Text`]; `path`: [`Path`]; `pointer`: its JSON pointer, written and read; [`laws`]: printing
//! and reading undo each other.
#![tactic(auto)]

pub mod laws;
mod path;
mod pointer;
mod text;

pub use path::Path;
pub use pointer::{PathFault, push_token};
pub use text::Text;

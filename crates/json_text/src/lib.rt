//! JSON texts (RFC 8259), put into a sink token by token. Nothing here allocates memory of its own.
//!
//! Read first, in `specs/`: `Sinks`, the bytes that a sink was given; `Shown`, the bytes of a JSON string, and of a
//! JSON pointer in one; the contracts of [`Tokens`].
//!
//! The modules, from the bottom up:
//!
//! - `sink`: [`Sink`], which takes bytes: a `Vec`; `count`: one that counts them; `pieces`: one that writes them in
//!   pieces from an array on the stack;
//! - `source`: [`Source`], which gives bytes: how many they are, and how they are written;
//! - `plain`: whether a text needs no escape; `escape`: the texts of JSON strings;
//! - `tokens`: [`Tokens`], the tokens of a JSON text with the commas and colons between them, and a JSON pointer as a
//!   string;
//! - `tree`: the tree of a document.
#![tactic(auto)]

mod count;
mod escape;
mod pieces;
mod plain;
mod sink;
mod source;
mod tokens;
mod tree;

pub use sink::{Refused, Sink};
pub use source::{Source, bytes_of, length_of, write_from};
pub use tokens::Tokens;

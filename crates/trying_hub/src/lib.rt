//! The words of a table for the hub: its requests, and the rows with which it begins. A new field of a request is
//! written here for each table.
//!
//! The rooms: `fields`: [`Fields`], the fields of a line; `requests`: [`request_of`], the request that they name;
//! `documents`: bodies by name; `commands`: [`command_of`], the directory's, and names of roles and commands; `rows`:
//! [`first_rows`], [`first_shelf`], [`put_org`], [`put_person`]; `refusals`: [`refusal_text`].
//!
//! The words have no contracts: one would say the same words again, and the programs' `stdout` shows what they make.
#![tactic(auto)]

mod commands;
mod documents;
mod fields;
mod refusals;
mod requests;
mod rows;

pub use commands::{command_name, command_of, key_of, role_name, role_of};
pub use fields::Fields;
pub use refusals::refusal_text;
pub use requests::request_of;
pub use rows::{ABC, first_rows, first_shelf, put_org, put_person};

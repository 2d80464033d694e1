//! The program `iodef-hub`: its words, and the store in a file, over `hub_service`. This crate exports the definitions of
//! `hub_service`, and its calls but for those that print, read all input, or name a shelf's fault.
//!
//! To read first, in `specs/`: `Openings`, the fault that is printed for a store that isn't opened.
//!
//! The modules, in the order in which a start meets them:
//!
//! - `cli`: [`cli_start`] and [`cli_run`], from the words to the program's outcome ([`Status`]); `words`: what words
//!   ask for;
//! - `commands`: each command, in a module of its own;
//! - `store`: a store in a file; `new_file`: the file that `init` makes; `opening`: all its rows in memory;
//!   `asking`: one request to the hub over it.
#![tactic(auto)]

mod asking;
mod cli;
mod commands;
mod new_file;
mod opening;
mod store;
mod words;

pub use cli::{cli_run, cli_start};
pub use hub_service::{
    Fault, INPUT_LIMIT, MarkFault, Reason, Selection, Status, digest_of, line_key, mark_text,
    put_first_rows, read_line, reply_lines, reply_to, reply_to_input, seconds, serve_count,
    status_of,
};

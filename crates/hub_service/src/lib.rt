//! What the program `iodef-hub` does over any shelf: standard input, keys, what it prints, connections and the clock.
//!
//! To read first, in `specs/`: `Mark`, `Lines` and `Hints`, what `mark` prints for a body; `Serving`, what serving connections
//! leaves; `FirstRows`, what a new store holds; `Keys`, the key of a line; `Replies`, `Faults`, `Printing`
//! and `Status`, what is printed, and the exit status.
//!
//! The modules:
//!
//! - `input`, `keys`: standard input ([`read_input`], [`read_line`], [`INPUT_LIMIT`]), and the caller's key
//!   ([`line_key`], [`digest_of`]);
//! - `output`, `fault`, `status`: what is printed ([`print`], [`tell`], [`end_with`]), also for a [`Fault`], that of a shelf
//!   too ([`shelf_fault`]), and the program's outcome ([`Status`]);
//! - `mark`: [`mark_text`], the labels of a report, and the hint of a [`MarkFault`];
//! - `first_rows`: [`put_first_rows`], the rows of a new store;
//! - `asking`: [`reply_to`] and [`reply_to_input`], one request to the hub of a [`Caller`]; `replies`: what is printed of a reply;
//! - `listen`: [`serve_count`], connections one after the other; `peer`: a peer that is silent, slow, or still sending;
//! - `clock`: [`seconds`], the present moment.
#![tactic(auto)]

mod asking;
mod clock;
mod fault;
mod first_rows;
mod input;
mod keys;
mod listen;
mod mark;
mod output;
mod peer;
mod replies;
mod status;

pub use asking::{Caller, read_caller, reply_to, reply_to_input};
pub use clock::seconds;
pub use fault::{Fault, Reason, shelf_fault};
pub use first_rows::put_first_rows;
pub use input::{INPUT_LIMIT, read_input, read_line};
pub use keys::{digest_of, line_key};
pub use listen::serve_count;
pub use mark::{MarkFault, Selection, mark_text};
pub use output::{end_with, print, tell};
pub use replies::{reply_lines, status_of};
pub use status::Status;

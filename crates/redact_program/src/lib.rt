//! The program `iodef-redact`: its words, the report on standard input, and the file of a view, over `redaction`.
//!
//! To read first, in `specs/`: `Runs`, what a run reads, opens and prints; `Words`, what the words ask; `Outcomes`, what
//! is printed for what they ask and what is read; `Answers`, `Troubles` and `Status`, of which it consists.
//!
//! The modules, in the order in which a start meets them:
//!
//! - `cli`: [`cli_start`] and [`cli_run`], from the words to the program's outcome ([`Status`]), and [`run_over`], the same
//!   over a [`Host`]; `words`: what words ask for;
//! - `host`: the files of the operating system ([`System`]), or files in memory ([`Memory`]);
//! - `input`: the report and the view's file, of [`INPUT_LIMIT`] bytes at most; `answers`: [`answer`], what is printed for
//!   them;
//! - `output`, `trouble`, `status`: what is printed, also for a [`Trouble`], and the exit status.
#![tactic(auto)]

mod answers;
mod cli;
mod host;
mod input;
mod output;
mod status;
mod trouble;
mod words;

pub use answers::{Answered, Remark, answer, view_of};
pub use cli::{cli_run, cli_start, run_over};
pub use host::{File, Host, Memory, System};
pub use input::INPUT_LIMIT;
pub use status::Status;
pub use trouble::Trouble;
pub use words::{Asked, Cleared, Form, IncidentId, Whom};

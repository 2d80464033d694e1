//! The parts that test programs share: dice for generated cases, a tally of outcomes, the numbers and bytes in a line
//! of a table, and the loop that answers each line. The product doesn't use them. Programs
//! for crates far apart do, so they use no library of the repository.
//!
//! The rooms: [`Dice`]; [`Tally`]; `lines`: [`written_out`], [`number_of`], [`number_if_any`]; `bytes`: [`bytes_of`];
//! `answers`: [`print_answers`].
#![tactic(auto)]

mod answers;
mod bytes;
mod dice;
mod lines;
mod tally;

pub use answers::print_answers;
pub use bytes::bytes_of;
pub use dice::Dice;
pub use lines::{number_if_any, number_of, written_out};
pub use tally::Tally;

//! The words of a table for a report, its readers and the case by which it is judged. Each table of readers, gates or
//! permissions uses it to read them and to write them.
//!
//! The rooms: `words`: readers, gates, grantees and permissions from words, and the words of these; `report`:
//! [`Report`], the one that lines ask about; `asker`: [`Asker`], for whom they ask; `served`: [`served_text`], what a
//! reader is served in words; [`Unfit`]: why a line has no answer.
#![tactic(auto)]

mod asker;
mod report;
mod served;
mod unfit;
mod words;

pub use asker::{Asker, SOURCE};
pub use report::Report;
pub use served::served_text;
pub use unfit::{Unfit, said};
pub use words::{
    arranged_of, case_of, gate_word, grantee_of, handling_of, kind_of, number_of, passage_of,
    permission_word, standing_of,
};

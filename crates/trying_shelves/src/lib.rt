//! Hubs over each shelf behind one trait, for the programs that test the hub. Calls of a hub over a known shelf are
//! slow to prove. Here they are proved once, for all programs that use these hubs.
//!
//! To read first: [`Asks`], the trait of a hub that answers requests, and [`ask`], which makes the request of a line
//! and returns the reply as text. The hubs: [`Lists`] in memory, [`Tables`] over SQL tables, [`Rows`] over SQL tables with
//! their rows in memory, [`Kept`] in memory with kept documents, and [`AnyHub`] of the first three. A [`Store`] is a
//! database in memory in which tables are made or opened.
//!
//! The rooms: `asked`: [`Asked`], the request of a line; `told`: [`reply_text`]; `asks`: the trait, and the calls of a
//! hub over any shelf; `lists`, `kept`, `tables`, `rows`, `any_hub`: the hubs; `store`: the database.
//!
//! No contract here says what is answered. Those of `hub` and of the shelves do, and the programs' `stdout` shows it.
#![tactic(auto)]

mod any_hub;
mod asked;
mod asks;
mod kept;
mod lists;
mod rows;
mod shared;
mod store;
mod tables;
mod told;

pub use any_hub::AnyHub;
pub use asked::{Asked, asked_by, asked_of};
pub use asks::{Asks, answer_over, are_made, ask, run_over};
pub use kept::Kept;
pub use lists::Lists;
pub use rows::{Rows, keep_rows};
pub use store::{Store, are_run, make_tables, open_tables};
pub use tables::Tables;
pub use told::{replies_text, reply_text};

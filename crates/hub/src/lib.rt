//! The hub: the reply to each request, and the state that it leaves.
//!
//! To read first: the contract of [`Hub::run`]. Over any shelf, the replies to a list of requests and the state that
//! they leave are a run. `specs/` defines a run in this order:
//!
//! 1. `Machine`: a run is a step for each request. A step is the reply that is due with the state that the request
//!    leaves. Or it is given up (`F1` the store failed, `F2` the memory didn't suffice) and the state stays.
//! 2. `Replies`: the reply that is due, by the caller (`caller_of`), the refusal if there is one, and otherwise the
//!    answer (`answer_to`). A page is the first [`PAGE_LIMIT`] incidents above a number that pass a test.
//! 3. `Told`: what a person may learn of one incident at a moment, in the words of redaction: whether it is listed,
//!    whether a search finds something in it, its excerpt with what is withheld.
//!
//! `hub_core` defines how persons stand to an incident, what refuses a request and what it changes; the policy defines
//! which class a reader may see. So a review of `policy` and of the tables of `hub_core` covers what callers are
//! served.
//!
//! The modules, in the order in which a request meets them:
//!
//! - `hub`: [`Hub`], one request and a list of them; `key`: [`Key`], the key of a caller;
//! - `answers`: finding the caller, and answering;
//! - `reads`: requests that only read: a page by `pages` (`page_filter`: what it lists), a view by `view`, how an own
//!   report is shared by `sharing`, an explanation by `explanations`; `root_gate`: what pages and views ask before a
//!   line is read;
//! - `change`: a change is judged, its reply is made, and only then the shelf makes it;
//! - `asker`: the reads of the shelf that several of these need; `fault`: why a request is given up;
//! - [`laws`]: a run keeps a state sound; `agreements`: two definitions of one thing; [`examples`], worlds written by
//!   hand that are alike for a reader, and what a stop leaves.
#![tactic(auto)]

mod agreements;
mod answers;
mod asker;
mod change;
pub mod examples;
mod explanations;
mod fault;
mod hub;
mod key;
pub mod laws;
mod page_filter;
mod pages;
mod reads;
mod root_gate;
mod sharing;
mod view;

pub use hub::Hub;
pub use key::Key;

/// How many incidents a page lists at most.
pub const PAGE_LIMIT: usize = 100;

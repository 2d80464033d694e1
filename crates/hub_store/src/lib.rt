//! The hub's shelf over SQL tables.
//!
//! To read first: the contracts of [`SqlShelf`]. It is a `Shelf` of `hub_state`: each read returns its function of the
//! state that the tables stand for, and `apply` makes its edits in one transaction, all or none. `specs/` says in this
//! order which state a store has, what a crash leaves of it, and why it isn't opened:
//!
//! 1. `Layout`, `Tables` and `Versions`: the parts of each version, its schema, and the version of a store.
//! 2. `Rows`, `Items`, `Values` and `Pairs`: each element of a set as a row, and each line of a document; `Fit`: the
//!    limits that every row keeps.
//! 3. `Means`: which state the tables stand for, set by set; `Content`: which state a connection has, and what an open
//!    after a crash may find; `Shelved`: what contracts see of the shelf; `Opening` and `Failing`: why a store isn't
//!    opened; `Laws`: what an open finds of what a crash left.
//!
//! The modules, by what they do:
//!
//! - `tables`, `to_version_2`, `remake`, `next_version`, `set_version`, `create` and `version`: a new store, the step
//!   to each version, and the version of a store; `migrate` and `old_rows`: bringing a store of an older version to the
//!   newest;
//! - `pair_kind`, `numbers`, `from_row`, `person_rows`, `joined_rows`, `directory_rows`, `incident_rows`, `item_rows`:
//!   values as rows, and rows as values; `into_edit`: rows as the edits that put them;
//! - `statement` and `query`: preparing a text and running or asking it in a transaction; `any_row`, `ask_pairs`,
//!   `read_pairs`: queries that several of these ask;
//! - `find_person`, `find_numbered`, `find_number`, `find_naming`, `find_document`, `find_excerpt`, `find_met`,
//!   `find_gates`, `find_recipients`, `find_permissions`, `find_case`, `find_sharing`, `find_groups`,
//!   `find_joined_communities`, `find_communities`, `find_arranged`, `find_reader`, `find_ties`, `list_entries`,
//!   `has_row`, `has_pair`, `common_numbers`: the look-ups;
//! - `add_numbered`, `add_pairs`, `add_incidents`: each set read by one query; `find_rows`: all rows but the documents;
//! - `feed_rows`: the lines of an incident for the pass of an excerpt, one at a time; `probe_rows`: the same for a
//!   search, until its result is sure;
//! - `counts`, `count_incidents`, `directory_facts`: what the facts of a request need;
//! - `directory_edits`, `put_naming`, `put_lines`, `incident_edits` and `apply`: the edits with their statements, in
//!   one transaction;
//! - `sql_shelf`: [`SqlShelf`], how it is made, opened, migrated and released, its look-ups and its reads; `failures`:
//!   how failures of the store are returned and counted; `laws`: the law of what a crash leaves.
#![tactic(auto)]

mod add_incidents;
mod add_numbered;
mod add_pairs;
mod any_row;
mod apply;
mod ask_pairs;
mod common_numbers;
mod count_incidents;
mod counts;
mod create;
mod directory_edits;
mod directory_facts;
mod directory_rows;
mod failures;
mod feed_rows;
mod find_arranged;
mod find_case;
mod find_communities;
mod find_document;
mod find_excerpt;
mod find_gates;
mod find_groups;
mod find_joined_communities;
mod find_met;
mod find_naming;
mod find_number;
mod find_numbered;
mod find_permissions;
mod find_person;
mod find_reader;
mod find_recipients;
mod find_rows;
mod find_sharing;
mod find_ties;
mod from_row;
mod has_pair;
mod has_row;
mod incident_edits;
mod incident_rows;
mod into_edit;
mod item_rows;
mod joined_rows;
pub mod laws;
mod list_entries;
mod migrate;
mod next_version;
mod numbers;
mod old_rows;
mod pair_kind;
mod person_rows;
mod probe_rows;
mod put_lines;
mod put_naming;
mod query;
mod read_pairs;
mod remake;
mod set_version;
mod sql_shelf;
mod statement;
mod tables;
mod to_version_2;
mod version;

pub use sql_shelf::{OpenFault, SqlShelf};
pub use version::NEWEST;

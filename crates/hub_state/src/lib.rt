//! What the hub keeps, which requests and replies there are, and the shelf that keeps it.
//!
//! To read first, in `specs/`: `State`, the thirteen sets; `Aftermath`, what an accepted request changes; `Reads`, what
//! is read of a state; `Sound`, what holds of every state that the hub has. Then the trait [`Shelf`].
//!
//! The modules, in the order in which a request meets them:
//!
//! - `request` and `reply`: the requests and the replies; `bytes`, `handling`: small types of theirs.
//!   Small types and records are used for vectors and tuples; want of memory alone is the standard library's
//!   `AllocError`;
//! - `state`: the rows of incidents, gates, recipients and permissions, and the keys of gates and permissions;
//!   `row_keys`: how targets, grantees, groups and ends are compared; `edit`: the changes of single rows; `copies`:
//!   copies of policy's gates and permissions; `recipients`: the recipients of an incident; `small_counts`: counts as
//!   numbers of 32 bits;
//! - `shelf`: [`Shelf`], what every shelf promises; `look_ups`: [`LookUps`], what it looks up in its rows; `questions`:
//!   tests and counts on an incident's gates, recipients and permissions;
//! - made of look-ups, once for every shelf: `standing`, how a person stands to an incident, of three ([`Reader`],
//!   [`Shared`], [`Ties`]); `incident_sharing`, how an incident is shared ([`IncidentSharing`]); `facts_made`, the `facts` of a request, by what it names (`named_there`), how its incident
//!   is shared (`sharing`), what was posted before (`posted_earlier`) and how many rows there would be
//!   (`counts_then`);
//! - `state_rows`: [`StateRows`], the rows of a state in memory, and [`ReadyState`], with edits for which the memory is
//!   taken; `state_reads`, what is read of them; `lists`, their lists, how these are read (`of_incident`) and changed
//!   (`change`); `rows`, their rows, and `sorted_rows`, how rows in order are found, put and taken;
//! - `kept_reader`: [`KeptReader`], a reader for whom one incident after another is judged by the rows where they lie
//!   (`judged_rows`);
//! - `list_shelf`: [`ListShelf`], the shelf in memory, by `list_reads` and `list_look_ups`;
//! - [`laws`]: the value of each limit.
#![tactic(auto)]

mod bytes;
mod change;
mod copies;
mod counts_then;
mod edit;
mod facts;
mod facts_made;
mod handling;
mod incident_sharing;
mod judged_rows;
mod kept_reader;
pub mod laws;
mod list_look_ups;
mod list_reads;
mod list_shelf;
mod lists;
mod look_ups;
mod named_there;
mod of_incident;
mod posted_earlier;
mod questions;
mod recipients;
mod reply;
mod request;
mod row_keys;
mod rows;
mod sharing;
mod shelf;
mod small_counts;
mod sorted_rows;
mod standing;
mod state;
mod state_reads;
mod state_rows;
mod whole_rows;

pub use bytes::Bytes;
pub use copies::copy_of_gate;
pub use edit::Edit;
pub use facts::{Facts, IncidentFacts};
pub use facts_made::facts_by;
pub use handling::handling_in;
pub use incident_sharing::incident_sharing_by;
pub use kept_reader::KeptReader;
pub use list_shelf::ListShelf;
pub use look_ups::{IncidentSharing, LookUps, Reader, Shared, Ties};
pub use recipients::Recipients;
pub use reply::{
    Entries, Entry, JoinedCommunities, JoinedCommunity, JoinedGroup, JoinedGroups, Reply,
    SharedPermission, SharedPermissions, Sharing, View, Withheld,
};
pub use request::{
    Address, Distribution, Explain, Grant, Post, Redistribute, Replace, Request, Search, Target,
    Unaddress, WantedGate, WantedGates, Withdraw,
};
pub use row_keys::{grantee_key, target_key};
pub use shelf::{Shelf, ShelfFault};
pub use standing::standing_by;
pub use state::{Gate, GateKey, Incident, Naming, Permission, PermissionKey, Recipient};
pub use state_rows::{ReadyState, StateRows};
pub use whole_rows::WholeRows;

/// How many incidents there may be.
pub const INCIDENT_LIMIT: u32 = 1_000_000;

/// How many revisions an incident may have.
pub const REVISION_LIMIT: u32 = 1_000_000;

/// How many gates an incident may have at its classes, without the one at its root.
pub const GATE_LIMIT: u32 = 16;

/// How many recipients an incident may have.
pub const RECIPIENT_LIMIT: u32 = 64;

/// How many permissions an incident may have.
pub const PERMISSION_LIMIT: u32 = 64;

/// How many bytes a word to search for, or the name of a class to search in, may have.
pub const WORD_LIMIT: usize = 256;

//! The wire: requests and replies as the bytes of HTTP/1.x (RFC 9112).
//!
//! To read first, in `specs/`: `Wire`, what bytes ask, or their first fault; `Routes` and `Requests`, the request of
//! each route; `Replies` and `Bodies`, the bytes of each reply; `Serving`, the outcomes of a connection.
//!
//! The modules, in the order in which a request meets them:
//!
//! - `serve`: [`serve_one`], one connection: it reads a request, answers it, and writes the reply;
//! - `wire`: [`request_of`], from the bytes to the key and the request; `wire_fault`: what may be wrong with them;
//! - `fields`: the fields of a head, which have the length of the body and the caller's key ([`key_of_text`]);
//! - `routes`: the route of a method and a path; `requests`: the request of a route, from its `parameters`, whose texts
//!   `spelling` reads; `request_fault`: what may be wrong with these;
//! - `bodies`: the body of a reply as JSON; `reply`: [`reply_bytes`], [`body_text`] and [`fault_bytes`];
//! - `both`: [`told_by_both`], one request to two hubs;
//! - [`laws`]: bytes ask one thing or have one fault, whatever follows them.
#![tactic(auto)]

mod bodies;
mod both;
mod fields;
pub mod laws;
mod parameters;
mod reply;
mod request_fault;
mod requests;
mod routes;
mod serve;
mod spelling;
mod wire;
mod wire_fault;

pub use both::told_by_both;
pub use fields::key_of_text;
pub use reply::{body_text, fault_bytes, reply_bytes};
pub use serve::{ServeFault, Served, serve_one};
pub use wire::request_of;
pub use wire_fault::WireFault;

/// How many bytes a head may have.
pub const HEAD_LIMIT: usize = 8_192;

/// How many fields a head may have.
pub const FIELD_LIMIT: usize = 64;

/// How many bytes a body may have.
pub const BODY_LIMIT: u32 = 262_144;

/// How many bytes the key of a caller may have.
pub const KEY_LIMIT: usize = 128;

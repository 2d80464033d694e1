//! The written policy: what a reader is cleared for, which gates it passes, which permissions cover a class for it,
//! and the verdict of each class of a document. Each path is judged by itself (FIRST TLP 2.0, the MISP book's
//! distribution levels and sharing groups, RFC 7970 section 3.3.1).
//!
//! Read first, in `specs/`: `Clearance`, `Gates`, `Permissions` and `Verdict`, a page each, which are the policy.
//!
//! The modules, in the order of a question:
//!
//! - `standing`: the reader; `case`: the facts of the incident, with its gates (`gate`) and permissions
//!   (`permission`); `numbers`: the lists of numbers in a standing;
//! - `cleared`: [`clearance`]; `gate`: [`passes`]; `permission`: [`includes`]; `reach`: [`Reach`], all gates and
//!   permissions of a case at once; `rule`: the names of the rules;
//! - `covering`: [`covers`], whether one permission covers one class;
//! - `deciding`: [`decide`], the [`Verdict`] of one class (`verdict`), by a walk from the root (`descent`); `fault`:
//!   why there is none;
//! - `moment`: [`read_moment`], the end of a permission from a text;
//! - for passes over a whole document: `inherited`, [`Carried`], what is handed down; `ahead`, [`Ahead`], the gates
//!   and permissions that can still be met (`onward`); `spot`, where a pass is;
//! - [`laws`]: what the policy promises of every document, case and reader; [`examples`], the definitions computed on
//!   small reports.
#![tactic(auto)]

mod ahead;
mod case;
mod cleared;
mod covering;
mod deciding;
mod descent;
pub mod examples;
mod fault;
mod gate;
mod inherited;
pub mod laws;
mod moment;
mod numbers;
mod onward;
mod permission;
mod reach;
mod rule;
mod spot;
mod standing;
mod verdict;

pub use ahead::Ahead;
pub use case::Case;
pub use cleared::clearance;
pub use covering::covers;
pub use deciding::decide;
pub use fault::{DecideFault, MomentFault};
pub use gate::{Gate, Gates, passes};
pub use inherited::Carried;
pub use moment::read_moment;
pub use numbers::Numbers;
pub use permission::{Grantee, Permission, Permissions, holds_for, includes};
pub use reach::{Reach, refuses, shuts};
pub use rule::Rule;
pub use spot::Spot;
pub use standing::Standing;
pub use verdict::Verdict;

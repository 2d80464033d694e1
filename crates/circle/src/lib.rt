//! The circle: its organisations, persons, communities, sharing groups and arrangements, and who may change them.
//!
//! Read first, in `specs/`: `Refusals`, the table of commands, each with its grounds in order; `Aftermath`, what an
//! accepted command changes; `Sound`, what always holds of a directory. Then the contract of [`judge::judge`].
//!
//! The modules, in the order of a command:
//!
//! - [`command`]: a command, its facts, and the edit that it leads to; its texts are [`text`];
//! - [`directory`]: the rows, whose texts keep limits: [`name`], [`releasability`];
//! - [`judge`]: the refusal or the edit, from the facts; `edit` makes the edit;
//! - [`refusal`]: the codes of the whole product, and a refusal with its detail;
//! - [`laws`]: what holds of every directory and every command.
#![tactic(auto)]

pub mod command;
pub mod directory;
mod edit;
pub mod judge;
pub mod laws;
pub mod name;
pub mod refusal;
pub mod releasability;
pub mod text;

/// How many organisations there may be.
pub const ORG_LIMIT: u32 = 1_000;

/// How many persons there may be, suspended ones too.
pub const PERSON_LIMIT: u32 = 10_000;

/// How many communities there may be.
pub const COMMUNITY_LIMIT: u32 = 1_000;

/// How many sharing groups there may be, inactive ones too.
pub const GROUP_LIMIT: u32 = 1_000;

/// How many bytes a name may have.
pub const NAME_LIMIT: usize = 128;

/// How many bytes a releasability may have.
pub const RELEASABILITY_LIMIT: usize = 512;

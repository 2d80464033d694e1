//! The commands, each in a module of its own.

pub mod explanation;
pub mod init;
pub mod mark;
pub mod migrate;
pub mod serve;
pub mod view;

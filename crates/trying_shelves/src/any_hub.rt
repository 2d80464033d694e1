//! A hub over one of the shelves, and two of them that are asked the same.

use crate::asked::Asked;
use crate::asks::{Asks, told_over_both};
use crate::lists::Lists;
use crate::rows::Rows;
use crate::tables::Tables;
use hub::{Hub, Key};
use hub_core::{Reply, Request, Shelf};
use std::alloc::{AllocError, Global};

/// A hub in memory, over tables, or over tables whose rows are kept in memory.
#[derive(Drop)]
pub enum AnyHub {
    Lists(Lists),
    Tables(Tables),
    Rows(Rows),
}

/// Returns the bytes of the answers of a hub over any shelf and of the other.
fn told_beside<Sh: Shelf>(
    first: &mut Hub<Sh>,
    other: &mut AnyHub,
    alloc: Global,
    asked: &Asked,
) -> Result<(Vec<u8>, Vec<u8>), AllocError> {
    match other {
        AnyHub::Lists(other) => told_over_both(first, &mut other.hub, alloc, asked),
        AnyHub::Tables(other) => told_over_both(first, &mut other.hub, alloc, asked),
        AnyHub::Rows(other) => told_over_both(first, &mut other.hub, alloc, asked),
    }
}

impl AnyHub {
    /// Returns the bytes of the answers of both, by [`hub_http::told_by_both`].
    pub fn told_beside(
        &mut self,
        other: &mut AnyHub,
        alloc: Global,
        asked: &Asked,
    ) -> Result<(Vec<u8>, Vec<u8>), AllocError> {
        match self {
            AnyHub::Lists(first) => told_beside(&mut first.hub, other, alloc, asked),
            AnyHub::Tables(first) => told_beside(&mut first.hub, other, alloc, asked),
            AnyHub::Rows(first) => told_beside(&mut first.hub, other, alloc, asked),
        }
    }
}

impl Asks for AnyHub {
    fn answer(&mut self, alloc: Global, now: i64, key: &Key, request: &Request) -> Reply {
        match self {
            AnyHub::Lists(hub) => hub.answer(alloc, now, key, request),
            AnyHub::Tables(hub) => hub.answer(alloc, now, key, request),
            AnyHub::Rows(hub) => hub.answer(alloc, now, key, request),
        }
    }

    fn run(&mut self, alloc: Global, asked: &[Asked]) -> Result<Vec<Reply>, AllocError> {
        match self {
            AnyHub::Lists(hub) => hub.run(alloc, asked),
            AnyHub::Tables(hub) => hub.run(alloc, asked),
            AnyHub::Rows(hub) => hub.run(alloc, asked),
        }
    }

    fn failures(self) -> u64 {
        match self {
            AnyHub::Lists(hub) => hub.failures(),
            AnyHub::Tables(hub) => hub.failures(),
            AnyHub::Rows(hub) => hub.failures(),
        }
    }
}

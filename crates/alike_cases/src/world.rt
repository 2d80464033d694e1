//! Worlds: a hub over one of the shelves, after the requests that make the world.

use crate::asking::asked_by;
use std::alloc::{AllocError, Global};
use trying_hub::{ABC, first_rows};
use trying_shelves::{AnyHub, Lists, Rows, Tables, are_made};

/// The requests that make a world: those of the circle, and its own behind them.
#[derive(Clone, Copy)]
pub struct World<'a> {
    pub circle: &'a str,
    pub own: &'a str,
}

/// Asks the requests of a block. Returns whether all of them are made.
fn is_made(alloc: Global, hub: &mut AnyHub, block: &str) -> Result<bool, AllocError> {
    match asked_by(alloc, block)? {
        Some(asked) => Ok(are_made(hub, alloc, &asked)),
        None => Ok(false),
    }
}

fn are_both_made(alloc: Global, hub: &mut AnyHub, world: World<'_>) -> Result<bool, AllocError> {
    Ok(is_made(alloc, hub, world.circle)? && is_made(alloc, hub, world.own)?)
}

/// Asks the requests of a world. Returns the hub, or none if one of them is refused.
fn populate(
    alloc: Global,
    mut hub: AnyHub,
    world: World<'_>,
) -> Result<Option<AnyHub>, AllocError> {
    // no return by `?` while there is a hub: each would prove its drop once more
    match are_both_made(alloc, &mut hub, world) {
        Ok(true) => Ok(Some(hub)),
        Ok(false) => Ok(None),
        Err(refused) => Err(refused),
    }
}

/// The shelf of a world.
#[derive(Clone, Copy)]
pub enum Place {
    Memory,
    Tables,
    /// Tables whose rows are kept in memory.
    Rows,
}

/// Returns the world over a shelf of this kind, or none if a request is refused or the hub isn't made.
pub fn world_in(
    alloc: Global,
    place: Place,
    world: World<'_>,
) -> Result<Option<AnyHub>, AllocError> {
    match place {
        Place::Memory => in_lists(alloc, world),
        Place::Tables => in_tables(alloc, world),
        Place::Rows => in_rows(alloc, world),
    }
}

/// Returns the world in memory.
fn in_lists(alloc: Global, world: World<'_>) -> Result<Option<AnyHub>, AllocError> {
    let rows = first_rows(alloc, ABC)?;
    match Lists::with(alloc, &rows) {
        Ok(hub) => populate(alloc, AnyHub::Lists(hub), world),
        Err(_) => Ok(None),
    }
}

/// Returns the world in tables.
fn in_tables(alloc: Global, world: World<'_>) -> Result<Option<AnyHub>, AllocError> {
    let rows = first_rows(alloc, ABC)?;
    match Tables::with(alloc, &rows) {
        Ok(hub) => populate(alloc, AnyHub::Tables(hub), world),
        Err(_) => Ok(None),
    }
}

/// Returns the world in tables whose rows are kept in memory.
fn in_rows(alloc: Global, world: World<'_>) -> Result<Option<AnyHub>, AllocError> {
    let rows = first_rows(alloc, ABC)?;
    match Rows::with(alloc, &rows) {
        Ok(hub) => populate(alloc, AnyHub::Rows(hub), world),
        Err(_) => Ok(None),
    }
}

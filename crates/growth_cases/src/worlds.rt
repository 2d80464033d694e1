//! Hubs over the shelves, after the requests with which all lists begin.

use hub_core::{Reply, ShelfFault};
use std::alloc::{AllocError, Global};
use trying_hub::{first_rows, key_of};
use trying_shelves::{Asked, Asks, Lists, Rows, Tables};

/// Asks these requests. Returns whether one of them is refused.
fn is_refused<A: Asks>(alloc: Global, hub: &mut A, world: &[Asked]) -> Result<bool, AllocError> {
    let replies = hub.run(alloc, world)?;
    Ok(
        replies
            .iter()
            .any(|reply| matches!(reply, Reply::Refused(_))),
    )
}

/// Asks these requests. Returns the hub, or none if it wasn't made or refuses one of them.
fn populate<A: Asks + Drop>(
    alloc: Global,
    begun: Result<A, ShelfFault>,
    world: &[Asked],
) -> Result<Option<A>, AllocError> {
    let Ok(mut hub) = begun else {
        return Ok(None);
    };
    match is_refused(alloc, &mut hub, world) {
        Ok(false) => Ok(Some(hub)),
        Ok(true) => Ok(None),
        Err(refused) => Err(refused),
    }
}

/// Returns the world in memory.
pub fn in_lists(alloc: Global, world: &[Asked]) -> Result<Option<Lists>, AllocError> {
    let rows = first_rows(alloc, key_of(1))?;
    populate(alloc, Lists::with(alloc, &rows), world)
}

/// Returns the world in new tables, over a connection that has no plans yet.
pub fn in_tables(alloc: Global, world: &[Asked]) -> Result<Option<Tables>, AllocError> {
    let rows = first_rows(alloc, key_of(1))?;
    populate(alloc, Tables::with(alloc, &rows), world)
}

/// Returns the world in new tables whose rows are kept in memory, over a connection that has no plans yet.
pub fn in_rows(alloc: Global, world: &[Asked]) -> Result<Option<Rows>, AllocError> {
    let rows = first_rows(alloc, key_of(1))?;
    populate(alloc, Rows::with(alloc, &rows), world)
}

//! The rows in which the tables hold a report.

use crate::block::Block;
use crate::world::{begun_in_tables, lines_of, requests_of};
use std::alloc::{AllocError, Global};
use trying_shelves::{Asked, Asks, Store, Tables};

/// Returns the requests of the world, and these posts behind them.
fn requests_with(alloc: Global, world: &Block, posts: &[&str]) -> Result<Vec<Asked>, AllocError> {
    let mut block = Block::new(alloc);
    for post in posts {
        block.add(post)?;
    }
    requests_of(alloc, &lines_of(alloc, world, &block)?, None)
}

/// Returns the tables after these requests, or none if the memory doesn't suffice.
fn tables_after(alloc: Global, mut tables: Tables, asked: &[Asked]) -> Option<Tables> {
    match tables.run(alloc, asked) {
        Ok(_) => Some(tables),
        Err(_) => None,
    }
}

/// Returns the tables, once these are posted after the requests of the world, or none if they aren't made.
pub fn post_all(
    alloc: Global,
    world: &Block,
    posts: &[&str],
) -> Result<Option<Tables>, AllocError> {
    let asked = requests_with(alloc, world, posts)?;
    match begun_in_tables(alloc)? {
        Some(tables) => Ok(tables_after(alloc, tables, &asked)),
        None => Ok(None),
    }
}

/// Returns the names of the lines, in the order of their incidents and places.
fn names(alloc: Global, mut store: Store) -> Result<String, AllocError> {
    let query = "SELECT name FROM item ORDER BY incident, place";
    let Some(names) = store.column(alloc, query)? else {
        return String::from_str(alloc, "the tables failed");
    };
    let count = names.len();
    let mut all = format!(in alloc; "{count} lines:")?;
    for name in &names {
        all.push_str(" ")?;
        all.push_str(name.as_str())?;
    }
    Ok(all)
}

/// Returns what is printed for a report of two events.
pub fn describe(alloc: Global, world: &Block) -> Result<String, AllocError> {
    match post_all(alloc, world, &["p2|Post|3|-||DOC2"])? {
        Some(tables) => names(alloc, tables.release()),
        None => String::from_str(alloc, "not posted"),
    }
}

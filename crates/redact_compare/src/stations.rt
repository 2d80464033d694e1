//! The places of the gates and permissions of a generated case.

use crate::entry::Entry;
use crate::tally::Tally;
use crate::world::World;
use iodef_tree::{Kind, Path, Text};
use std::alloc::AllocError;

/// A name of so many bytes is long.
const LONG: usize = 100;

/// A path of so many tokens is deep.
const DEEP: usize = 12;

/// Returns the paths of the gates, and behind them those of the permissions.
fn stations<'r>(world: &World<'_, 'r>) -> Result<Vec<&'r Path>, AllocError> {
    let mut paths = Vec::new(world.alloc);
    for gate in world.case.gates.as_slice() {
        paths.push(&gate.path)?;
    }
    for permission in world.case.permissions.as_slice() {
        paths.push(&permission.path)?;
    }
    Ok(paths)
}

/// Returns whether they are elements of one array, or members of one class.
fn are_siblings(one: &[Text], other: &[Text]) -> bool {
    match (one.split_last(), other.split_last()) {
        (Some((last, above)), Some((last_too, above_too))) => above == above_too
            && last != last_too,
        _ => false,
    }
}

/// Returns whether the path is that of an array with this element.
fn is_array_of(path: &Path, entry: &Entry<'_>) -> bool {
    match entry.path.tokens().split_last() {
        Some((_, above)) => entry.line.in_array && above == path.tokens(),
        None => false,
    }
}

/// Notes what the line at the path is. Returns whether the line is at the path, or is an element of an array at it.
fn note_line(tally: &mut Tally, entry: &Entry<'_>, path: &Path) -> bool {
    let here = entry.path == *path;
    let class = entry.line.kind == Kind::Class;
    let inside = is_array_of(path, entry);
    tally.note(
        "gates or permissions at elements",
        here && class && entry.line.in_array,
    );
    tally.note("gates or permissions at plain members", here && !class);
    tally.note("gates or permissions at arrays", inside);
    here || inside
}

/// Notes what is at the path.
fn note_kind(tally: &mut Tally, world: &World<'_, '_>, path: &Path) {
    let mut nothing = !path.tokens().is_empty();
    for entry in world.entries {
        if note_line(tally, entry, path) {
            nothing = false;
        }
    }
    tally.note("gates or permissions at nothing", nothing);
}

/// Notes what is at the path, and how the other paths relate to it.
fn note_beside(tally: &mut Tally, world: &World<'_, '_>, path: &Path, others: &[&Path]) {
    note_kind(tally, world, path);
    for other in others {
        tally.note(
            "gates or permissions at siblings",
            are_siblings(path.tokens(), other.tokens()),
        );
        tally.note("several at one path", *path == **other);
    }
}

/// Notes what names and depths the case has.
fn note_entries(tally: &mut Tally, entries: &[Entry<'_>]) {
    for entry in entries {
        tally.note("long names", entry.line.name.as_str().len() > LONG);
        tally.note("deep chains", entry.path.tokens().len() > DEEP);
    }
}

/// Notes the places of gates and permissions, and the names and depths of the case.
pub fn note_stations(tally: &mut Tally, world: &World<'_, '_>) -> Result<(), AllocError> {
    let paths = stations(world)?;
    for (i, path) in paths.iter().enumerate() {
        note_beside(tally, world, path, &paths[..i]);
    }
    note_entries(tally, world.entries);
    Ok(())
}

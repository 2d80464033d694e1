//! The lines of an outline with their paths, each found by looking back over all lines before it.

use iodef_tree::{Line, Path, Text};
use std::alloc::{AllocError, Global};

/// A line with its path and its parent's path.
#[derive(Drop)]
pub struct Entry<'a> {
    pub parent: Path,
    pub path: Path,
    pub line: &'a Line,
}

/// Returns the path of the last line that is one less deep, else the root.
fn parent_of(alloc: Global, before: &[Entry<'_>], depth: u32) -> Result<Path, AllocError> {
    for entry in before.iter().rev() {
        if entry.line.depth.saturating_add(1) == depth {
            return entry.path.clone();
        }
    }
    Ok(Path::root(alloc))
}

/// Returns how many lines before have this parent and this name.
fn place_among(before: &[Entry<'_>], parent: &Path, name: &Text) -> usize {
    before
        .iter()
        .filter(|entry| entry.parent == *parent && entry.line.name == *name)
        .count()
}

/// Returns the path of an element of the array at the path.
pub fn element(alloc: Global, path: &Path, place: usize) -> Result<Path, AllocError> {
    let place = format!(in alloc; "{place}")?;
    path.member(alloc, place.as_str())
}

/// Returns a line behind these.
fn entry_of<'a>(
    alloc: Global,
    before: &[Entry<'a>],
    line: &'a Line,
) -> Result<Entry<'a>, AllocError> {
    let parent = parent_of(alloc, before, line.depth)?;
    let named = parent.member(alloc, line.name.as_str())?;
    let path = if line.in_array {
        element(alloc, &named, place_among(before, &parent, &line.name))?
    } else {
        named
    };
    Ok(Entry { parent, path, line })
}

fn push_entry<'a>(
    entries: &mut Vec<Entry<'a>>,
    alloc: Global,
    line: &'a Line,
) -> Result<(), AllocError> {
    let entry = entry_of(alloc, entries, line)?;
    entries.push(entry)?;
    Ok(())
}

/// Returns the lines of an outline with their paths.
pub fn located<'a>(alloc: Global, lines: &'a [Line]) -> Result<Vec<Entry<'a>>, AllocError> {
    let mut entries: Vec<Entry<'a>> = Vec::new(alloc);
    for line in lines {
        push_entry(&mut entries, alloc, line)?;
    }
    Ok(entries)
}

/// Returns whether one path is below another.
pub fn is_below(path: &[Text], above: &[Text]) -> bool {
    path.len() > above.len() && path.starts_with(above)
}

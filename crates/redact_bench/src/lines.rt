//! A view of a report by its lines, as they come from a table. A gate hides all except for a few.

use iodef_tree::{Document, Kind, Line, OutlineFault, Path, Text};
use policy::{Case, Gate, Gates, Permissions, Standing};
use redact::{Excerpt, RowPass, excerpt_if_marked};
use std::alloc::{AllocError, Global};

/// The number of the reader and of the reader's organisation.
const READER: u32 = 2;

/// The text of each line of the class behind the gate.
const SECRET: &str =
    "a line of a log that only the organisation that wrote it may read, and whoever it asks to look at it with it";

/// How the lines are taken.
#[derive(Clone, Copy, PartialEq, Eq)]
pub enum Way {
    /// By a pass that is fed each of them as it comes.
    Fed,
    /// All are kept, and the document of them is redacted.
    Kept,
}

impl Way {
    /// Returns the way of this word.
    pub fn of(word: &str) -> Option<Way> {
        match word {
            "fed" => Some(Way::Fed),
            "kept" => Some(Way::Kept),
            _ => None,
        }
    }
}

fn class(alloc: Global, depth: u32, name: &str) -> Result<Line, AllocError> {
    Ok(Line {
        depth,
        name: Text::new(String::from_str(alloc, name)?),
        in_array: true,
        kind: Kind::Class,
        text: Text::new(String::new(alloc)),
    })
}

fn text(
    alloc: Global,
    depth: u32,
    name: &str,
    in_array: bool,
    text: &str,
) -> Result<Line, AllocError> {
    Ok(Line {
        depth,
        name: Text::new(String::from_str(alloc, name)?),
        in_array,
        kind: Kind::Text,
        text: Text::new(String::from_str(alloc, text)?),
    })
}

/// Returns the line of this number: an Incident, the class behind the gate with so many lines, a class with ten, and
/// the Incident's label.
fn line_at(alloc: Global, number: u32, hidden: u32) -> Result<Line, AllocError> {
    match number.checked_sub(hidden.saturating_add(2)) {
        None if number == 0 => class(alloc, 1, "Incident"),
        None if number == 1 => class(alloc, 2, "EventData"),
        None => text(alloc, 3, "Description", true, SECRET),
        Some(0) => class(alloc, 2, "EventData"),
        Some(11) => text(alloc, 2, "restriction", false, "public"),
        Some(_) => text(alloc, 3, "Description", true, "open"),
    }
}

/// Returns how many lines there are in all.
fn count_of(hidden: u32) -> u32 {
    hidden.saturating_add(14)
}

/// Returns a case with a gate that only the source passes, at the first of the two classes.
fn case(alloc: Global) -> Result<Case, AllocError> {
    let path = Path::root(alloc).member(alloc, "Incident")?;
    let path = path.member(alloc, "0")?.member(alloc, "EventData")?;
    let mut gates = Vec::new(alloc);
    gates.push(Gate {
        path: path.member(alloc, "0")?,
        level: 0,
        group: None,
    })?;
    Ok(Case {
        source: 1,
        community: None,
        gates: Gates::new(gates),
        permissions: Permissions::new(Vec::new(alloc)),
    })
}

fn feed(alloc: Global, hidden: u32) -> Result<Option<Excerpt>, OutlineFault> {
    let reader = Standing::stranger(alloc, READER, READER);
    let mut pass = RowPass::new(alloc, case(alloc)?, reader)?;
    for number in 0..count_of(hidden) {
        pass.feed(line_at(alloc, number, hidden)?)?;
    }
    pass.finish()
}

fn keep(alloc: Global, hidden: u32) -> Result<Option<Excerpt>, OutlineFault> {
    let reader = Standing::stranger(alloc, READER, READER);
    let mut lines = Vec::new(alloc);
    for number in 0..count_of(hidden) {
        push(&mut lines, line_at(alloc, number, hidden)?)?;
    }
    let document = Document::from_outline(alloc, &lines)?;
    Ok(excerpt_if_marked(alloc, &document, &case(alloc)?, &reader)?)
}

fn push(lines: &mut Vec<Line>, line: Line) -> Result<(), AllocError> {
    lines.push(line)?;
    Ok(())
}

/// Returns how many classes are visible and how many pairs withheld, or none if the lines are no document or nothing is
/// visible.
pub fn serve_by(alloc: Global, way: Way, hidden: u32) -> Result<Option<(u32, usize)>, AllocError> {
    let served = match way {
        Way::Fed => feed(alloc, hidden),
        Way::Kept => keep(alloc, hidden),
    };
    match served {
        Ok(excerpt) => Ok(excerpt.map(|excerpt| (excerpt.classes, excerpt.withheld.len()))),
        Err(OutlineFault::NoMemory) => Err(AllocError),
        Err(OutlineFault::BadOutline) => Ok(None),
    }
}

//! Two worlds in which the same is asked.

use crate::asking::asked_by;
use crate::world::{Place, World, world_in};
use std::alloc::{AllocError, Global};
use std::str::from_utf8;
use trying_shelves::{AnyHub, Asked};

/// The blocks so far: the circle, the world with which others are compared, and the questions.
#[derive(Drop)]
pub struct Comparison {
    alloc: Global,
    circle: Option<String>,
    first: Option<String>,
    asked: Option<Vec<Asked>>,
}

/// Two worlds, and the questions in both.
#[derive(Clone, Copy)]
struct Pair<'a> {
    first: World<'a>,
    other: World<'a>,
    asked: &'a [Asked],
}

/// The shelves of the two worlds, of which at least one is over tables. Their rows are kept in memory or not.
const OVER_TABLES: [(Place, Place); 6] = [
    (Place::Tables, Place::Memory),
    (Place::Memory, Place::Tables),
    (Place::Tables, Place::Tables),
    (Place::Rows, Place::Memory),
    (Place::Memory, Place::Rows),
    (Place::Rows, Place::Rows),
];

/// Returns the bytes after the head of a reply, as text.
fn body_of(reply: &[u8]) -> &str {
    let text = from_utf8(reply).unwrap_or("not UTF-8");
    match text.split_once("\r\n\r\n") {
        Some((_, body)) => body,
        None => text,
    }
}

/// Returns the body of both replies if they are the same bytes, else that of each.
fn describe(alloc: Global, one: &[u8], other: &[u8]) -> Result<String, AllocError> {
    let first = body_of(one);
    let second = body_of(other);
    if one == other {
        String::from_str(alloc, first)
    } else {
        format!(in alloc; "{first} and {second}")
    }
}

/// Returns the line for a request to both hubs.
fn line_of(
    alloc: Global,
    first: &mut AnyHub,
    other: &mut AnyHub,
    asked: &Asked,
) -> Result<String, AllocError> {
    let (one, two) = first.told_beside(other, alloc, asked)?;
    describe(alloc, &one, &two)
}

/// Returns the line for each request to both hubs.
fn lines_of(
    alloc: Global,
    first: &mut AnyHub,
    other: &mut AnyHub,
    asked: &[Asked],
) -> Result<Vec<String>, AllocError> {
    let mut lines = Vec::new(alloc);
    for one in asked {
        lines.push(line_of(alloc, first, other, one)?)?;
    }
    Ok(lines)
}

impl<'a> Pair<'a> {
    /// Returns the line for each request to a hub and to the other world, or none if that one isn't made.
    fn lines_with(
        &self,
        alloc: Global,
        first: &mut AnyHub,
        place: Place,
    ) -> Result<Option<Vec<String>>, AllocError> {
        match world_in(alloc, place, self.other)? {
            Some(mut other) => lines_of(alloc, first, &mut other, self.asked).map(Some),
            None => Ok(None),
        }
    }

    /// Returns the line for each request to both worlds over these shelves, or none if one of them isn't made.
    fn lines_in(
        &self,
        alloc: Global,
        first: Place,
        other: Place,
    ) -> Result<Option<Vec<String>>, AllocError> {
        match world_in(alloc, first, self.first)? {
            Some(mut first) => self.lines_with(alloc, &mut first, other),
            None => Ok(None),
        }
    }

    /// Returns whether the lines are the same if the first world is in tables, the other, or both.
    fn is_told_over_tables(&self, alloc: Global, told: &[String]) -> Result<bool, AllocError> {
        for (first, other) in OVER_TABLES {
            if !is_told(&self.lines_in(alloc, first, other)?, told) {
                return Ok(false);
            }
        }
        Ok(true)
    }

    /// Returns the line for each request, and whether it is the same over tables.
    fn lines(&self, alloc: Global) -> Result<Vec<String>, AllocError> {
        let Some(mut lines) = self.lines_in(alloc, Place::Memory, Place::Memory)? else {
            return one_line(alloc, "a world wasn't made");
        };
        let last = if self.is_told_over_tables(alloc, &lines)? {
            "the same over tables"
        } else {
            "otherwise over tables"
        };
        lines.push(String::from_str(alloc, last)?)?;
        Ok(lines)
    }
}

fn is_told(lines: &Option<Vec<String>>, told: &[String]) -> bool {
    match lines {
        Some(lines) => lines.iter().eq(told.iter()),
        None => false,
    }
}

fn one_line(alloc: Global, line: &str) -> Result<Vec<String>, AllocError> {
    let mut lines = Vec::new(alloc);
    lines.push(String::from_str(alloc, line)?)?;
    Ok(lines)
}

impl Comparison {
    pub fn new(alloc: Global) -> Comparison {
        Comparison {
            alloc,
            circle: None,
            first: None,
            asked: None,
        }
    }

    /// Returns what is printed for a block.
    pub fn told_of(&mut self, block: &str) -> Result<Vec<String>, AllocError> {
        let alloc = self.alloc;
        if self.circle.is_none() {
            self.circle = Some(String::from_str(alloc, block)?);
            return Ok(Vec::new(alloc));
        }
        if self.first.is_none() {
            self.first = Some(String::from_str(alloc, block)?);
            return Ok(Vec::new(alloc));
        }
        if self.asked.is_none() {
            self.asked = asked_by(alloc, block)?;
            return self.lines_beside(self.first_block());
        }
        self.lines_beside(block)
    }

    fn first_block(&self) -> &str {
        match &self.first {
            Some(first) => first.as_str(),
            None => "",
        }
    }

    /// Returns the lines of the first world beside one that these requests make.
    fn lines_beside(&self, own: &str) -> Result<Vec<String>, AllocError> {
        let (Some(circle), Some(asked)) = (&self.circle, &self.asked) else {
            return one_line(self.alloc, "nothing is asked");
        };
        let circle = circle.as_str();
        let first = World {
            circle,
            own: self.first_block(),
        };
        let other = World { circle, own };
        let asked = asked.as_slice();
        Pair {
            first,
            other,
            asked,
        }
        .lines(self.alloc)
    }
}

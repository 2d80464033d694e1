//! Checks whether lines that come one at a time are an outline.

ghost use Rattle.std.specs.Prelude.{◌≡◌, ◌≤◌, ◌<◌, ◌-◌, List, [], ◌∷◌, IfOk, IsTrue, Some};
ghost use Rattle.std.specs.List.{slice_get};
ghost use Rattle.iodef_tree.specs.Paths.{is_class_kind};
ghost use Rattle.iodef_tree.specs.Sound.{is_label_line};
ghost use Rattle.iodef_tree.specs.Texts.{may_be_text};
ghost use Rattle.iodef_tree.specs.Outline.{sibling, deepest, may_follow, is_within_depth, may_come};
ghost use Rattle.iodef_tree.specs.declared.line.Line.{Line};

use crate::line::{Kind, Line};
use crate::value_text::is_value_text;
use crate::{DEPTH_LIMIT, LINE_LIMIT};
use json_pointer::Text;
use std::alloc::{AllocError, Global};

/// The parts of a line that the next one with the same parent has to follow.
#[derive(Drop)]
pub struct Sibling {
    /// The name of the line.
    pub name: Text,
    /// Whether the line is an element of an array.
    pub in_array: bool,
}

/// What is kept of the lines so far: the newest line of each depth that is still open, how deep the next may be, and
/// how many count for the limit.
#[derive(Drop)]
pub struct Shape {
    alloc: Global,
    last: Vec<Sibling>,
    deepest: usize,
    counted: usize,
}

/// Returns whether a line may follow this sibling.
fn follows(last: &Sibling, line: &Line) -> bool
    ensures { result ≡ may_follow (Some last.now) (sibling line.now) }
{
    last.name.as_str() < line.name.as_str()
        || (last.name.as_str() == line.name.as_str() && (last.in_array && line.in_array))
}

/// Returns whether a line may follow the newest line of its parent.
fn follows_last(last: &[Sibling], line: &Line) -> bool
    requires { 0 < line.now.depth }
    ensures { result ≡ may_follow (slice_get last.now (line.now.depth - 1)) (sibling line.now) }
{
    match last.get(line.depth as usize - 1) {
        None => true,
        Some(newest) => follows(newest, line),
    }
}

/// Returns whether a line is a class.
fn is_class(line: &Line) -> bool
    ensures { result ≡ is_class_kind line.now.kind }
{
    match line.kind {
        Kind::Class => true,
        Kind::Text | Kind::Value => false,
    }
}

/// Returns whether a line is within the limit of depth.
fn is_within_depth(line: &Line) -> bool
    ensures { result ≡ is_within_depth line.now }
{
    if is_class(line) {
        line.depth <= DEPTH_LIMIT
    } else {
        line.depth <= DEPTH_LIMIT + 1
    }
}

/// Returns whether a line is a label, which doesn't count for the limit of lines.
fn is_label(line: &Line) -> bool
    ensures { result ≡ is_label_line line.now }
{
    (!line.in_array && !is_class(line))
        && (line.name.as_str() == "restriction" || line.name.as_str() == "ext-restriction")
}

/// Returns whether the text of a line is one of its kind.
fn may_be_text(alloc: Global, line: &Line) -> Result<bool, AllocError>
    ensures { IfOk result (λ b. b ≡ may_be_text line.now.kind line.now.in_array line.now.text) }
{
    match line.kind {
        Kind::Class => Ok(line.text.as_str().is_empty()),
        Kind::Text => Ok(true),
        Kind::Value => is_value_text(alloc, line.in_array, line.text.as_str()),
    }
}

/// Returns how deep the next line may be.
fn next_depth(line: &Line) -> usize
    ensures { result ≡ deepest (line.now ∷ []) }
{
    if is_class(line) {
        line.depth as usize + 1
    } else {
        line.depth as usize
    }
}

impl Shape {
    ghost use Rattle.std.specs.Prelude.{◌∷◌, true, false};
    ghost use Rattle.iodef_tree.specs.Shown.{Shows, fits_edge, counted_with, if_short};

    /// Returns a checker that has seen no lines.
    pub fn new(alloc: Global) -> Shape
        ensures { Shows result [] }
    {
        Shape {
            alloc,
            last: Vec::new(alloc),
            deepest: 1,
            counted: 0,
        }
    }

    /// Returns how many lines count with this one, or `None` if they are above the limit.
    fn counted_with(&self, line: &Line) -> Option<usize>
        ensures { result ≡ if_short (counted_with line.now self.now.counted) }
    {
        if is_label(line) {
            if self.counted <= LINE_LIMIT {
                return Some(self.counted);
            }
            return None;
        }
        if self.counted < LINE_LIMIT {
            return Some(self.counted + 1);
        }
        None
    }

    /// Returns whether a line may come, apart from the limit of lines.
    fn fits(&self, line: &Line) -> Result<bool, AllocError>
        ensures { IfOk result (λ fits. fits ≡
            fits_edge self.now.last.items self.now.deepest line.now) }
    {
        if line.depth == 0 {
            return Ok(false);
        }
        if line.depth as usize > self.deepest {
            return Ok(false);
        }
        if !follows_last(&self.last, line) {
            return Ok(false);
        }
        if !is_within_depth(line) {
            return Ok(false);
        }
        may_be_text(self.alloc, line)
    }

    /// Returns whether the line may come behind those before it. If it may, it is the newest of them; if not, the
    /// checker is as it was.
    ///
    /// Fails if memory runs out; then nothing is promised of the checker.
    pub fn accept(&mut self, line: &Line) -> Result<bool, AllocError>
        ensures exact { IfOk result (λ fits. (before : List Line) → Shows self.old before
            → fits ≡ may_come before line.now) }
        ensures same { IfOk result (λ fits. fits ≡ false → self.new ≡ self.old) }
        ensures shows { IfOk result (λ fits. IsTrue fits → (before : List Line) →
            Shows self.old before
            → Shows self.new (line.now ∷ before)) }
    {
        let counted = match self.counted_with(line) {
            None => return Ok(false),
            Some(counted) => counted,
        };
        if !self.fits(line)? {
            return Ok(false);
        }
        let name = line.name.clone()?;
        let in_array = line.in_array;
        self.counted = counted;
        self.last.truncate(line.depth as usize - 1);
        self.last.push(Sibling { name, in_array })?;
        self.deepest = next_depth(line);
        Ok(true)
    }
}

//! The marking rule of lines that come one at a time. No line is kept: of each open class, what it holds as
//! `restriction` and as `ext-restriction` is enough. So the rule is asked of lines too that a pass drops.

ghost use Rattle.std.specs.Prelude.{◌≡◌, OnOk};
ghost use Rattle.std.specs.List.{list_all};
ghost use Rattle.redact.specs.Marked.{brief_text, brief, extension_brief, no_marking, held_with, marks_of, none_noted, closed_to, innermost_held_with};
ghost use Rattle.redact.specs.Marked.{with_opened_marking, with_marked_line, is_accepted};
ghost use Rattle.redact.specs.Marked as spec;

use iodef_tree::{Kind, Line};
use marking::Label;
use std::alloc::{AllocError, Global};

/// What a class holds as `restriction`, as far as the marking rule asks.
#[derive(Clone, Copy)]
pub(crate) enum Restriction {
    /// Nothing.
    Absent,
    /// A text that spells a label, whatever is beside it.
    Label,
    /// A text that spells a label with another text beside it.
    Extended,
    /// Something else.
    Other,
}

/// What a class holds as `ext-restriction`.
#[derive(Clone, Copy)]
pub(crate) enum Extension {
    /// Nothing.
    Absent,
    /// A text outside arrays.
    Text,
    /// Something else.
    Other,
}

/// What an open class holds so far.
#[derive(Clone, Copy)]
pub(crate) struct Marking {
    pub(crate) restriction: Restriction,
    pub(crate) extension: Extension,
}

/// The open classes, from the outermost on, and whether a class that is closed breaks the marking rule.
#[derive(Drop)]
pub(crate) struct Marks {
    pub(crate) classes: Vec<Marking>,
    pub(crate) broken: bool,
}

/// Returns what a text is as `restriction`.
fn restriction_in(text: &str) -> Restriction
    ensures { result ≡ brief_text text.now }
{
    if Label::of(text, None).is_some() {
        Restriction::Label
    } else if Label::of(text, Some("")).is_some() {
        Restriction::Extended
    } else {
        Restriction::Other
    }
}

/// Returns what a line with this name is as `restriction`.
fn restriction_by(line: &Line) -> Restriction
    ensures { result ≡ brief line.now }
{
    match line.kind {
        Kind::Text if !line.in_array => restriction_in(line.text.as_str()),
        _ => Restriction::Other,
    }
}

/// Returns what a line with this name is as `ext-restriction`.
fn extension_by(line: &Line) -> Extension
    ensures { result ≡ extension_brief line.now }
{
    match line.kind {
        Kind::Text if !line.in_array => Extension::Text,
        _ => Extension::Other,
    }
}

/// Returns what a class holds as `restriction` after one more member: the first of the name counts.
fn restriction_with(held: Restriction, line: &Line) -> Restriction
    ensures { result ≡ spec.restriction_with line.now held }
{
    if line.name.as_str() == "restriction" {
        return match held {
            Restriction::Absent => restriction_by(line),
            Restriction::Label | Restriction::Extended | Restriction::Other => held,
        };
    }
    held
}

/// Returns what a class holds as `ext-restriction` after one more member.
fn extension_with(held: Extension, line: &Line) -> Extension
    ensures { result ≡ spec.extension_with line.now held }
{
    if line.name.as_str() == "ext-restriction" {
        return match held {
            Extension::Absent => extension_by(line),
            Extension::Text | Extension::Other => held,
        };
    }
    held
}

impl Marking {
    /// Returns the state of a class without members.
    fn none() -> Marking
        ensures { result ≡ no_marking }
    {
        Marking {
            restriction: Restriction::Absent,
            extension: Extension::Absent,
        }
    }

    /// Returns the state after one more member.
    fn with(self, line: &Line) -> Marking
        ensures { result ≡ held_with line.now self }
    {
        Marking {
            restriction: restriction_with(self.restriction, line),
            extension: extension_with(self.extension, line),
        }
    }

    /// Returns whether the class keeps the marking rule, if no more members come.
    fn is_fine(self) -> bool
        ensures { result ≡ spec.is_fine self }
    {
        match (self.restriction, self.extension) {
            (Restriction::Absent, Extension::Absent) => true,
            (Restriction::Label, Extension::Absent | Extension::Text) => true,
            (Restriction::Extended, Extension::Text) => true,
            _ => false,
        }
    }
}

/// Returns whether each of these classes keeps the marking rule, if no more members come.
fn are_fine(classes: &[Marking]) -> bool
    ensures { result ≡ list_all spec.is_fine classes.now }
{
    classes.iter().all(|marking| marking.is_fine())
}

/// Notes a line in the innermost of these classes.
fn hold(classes: &mut [Marking], line: &Line)
    ensures { classes.new ≡ innermost_held_with line.now classes.old }
{
    if let Some(innermost) = classes.last_mut() {
        *innermost = innermost.with(line);
    }
}

/// Opens the class of a line behind these, if the line is a class.
fn open(classes: &mut Vec<Marking>, line: &Line) -> Result<(), AllocError>
    ensures { OnOk result (classes.new.items ≡ with_opened_marking line.now classes.old.items) }
{
    match line.kind {
        Kind::Class => classes.push(Marking::none())?,
        Kind::Text | Kind::Value => {}
    }
    Ok(())
}

impl Marks {
    /// Returns the state before the first line. Allocates nothing.
    pub(crate) fn new(alloc: Global) -> Marks
        ensures { marks_of result ≡ none_noted }
    {
        Marks {
            classes: Vec::new(alloc),
            broken: false,
        }
    }

    /// Closes all but `depth` classes, and asks the closed ones for the marking rule.
    fn close_to(&mut self, depth: usize)
        ensures { marks_of self.new ≡ closed_to depth (marks_of self.old) }
    {
        if depth < self.classes.len() {
            self.broken = self.broken || !are_fine(&self.classes[depth..]);
            self.classes.truncate(depth);
        }
    }

    /// Notes one more line.
    pub(crate) fn note(&mut self, line: &Line) -> Result<(), AllocError>
        ensures { OnOk result (marks_of self.new ≡ with_marked_line (marks_of self.old) line.now) }
    {
        self.close_to((line.depth as usize).saturating_sub(1));
        hold(self.classes.as_mut_slice(), line);
        open(&mut self.classes, line)
    }

    /// Returns whether every class keeps the marking rule, if no more lines come.
    pub(crate) fn are_accepted(&self) -> bool
        ensures { result ≡ is_accepted (marks_of self.now) }
    {
        !self.broken && are_fine(self.classes.as_slice())
    }
}

//! The verdict of a class.
use crate::rule::Rule;

/// Whether the reader sees a class, and the rule that shows or hides it.
#[derive(Clone, Copy)]
pub enum Verdict {
    /// The reader sees the class, by this rule.
    Shown(Rule),
    /// The class is hidden from the reader, by this rule.
    Hidden(Rule),
}

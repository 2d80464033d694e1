//! The lines of an outline.

ghost use Rattle.std.specs.Prelude.{◌≡◌};

use json_pointer::Text;
use std::alloc::AllocError;

/// The kind of value that a line holds.
#[derive(Clone, Copy, Debug, PartialEq, Eq)]
pub enum Kind {
    /// A JSON object below the root.
    Class,
    /// A JSON string.
    Text,
    /// Any other JSON value.
    Value,
}

/// One line of an outline.
#[derive(Drop)]
pub struct Line {
    /// 1 for a member of the root; for a member of a class, one more than the depth of the class.
    pub depth: u32,
    /// The member's name.
    pub name: Text,
    /// Whether it is an element of a non-empty array.
    pub in_array: bool,
    /// What kind of value the line holds.
    pub kind: Kind,
    /// The string itself of a text, the compact JSON of a value, and nothing of a class.
    pub text: Text,
}

impl Clone for Line {
    ghost is_clone = { λ line copy. copy ≡ line };

    fn clone(&self) -> Result<Line, AllocError> {
        let name = self.name.clone()?;
        let text = self.text.clone()?;
        Ok(Line {
            depth: self.depth,
            name,
            in_array: self.in_array,
            kind: self.kind,
            text,
        })
    }
}

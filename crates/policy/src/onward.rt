//! Gates and permissions with the rest of their paths.

use crate::rule::Rule;
use iodef_tree::Text;

/// A gate that refuses the reader: its rule, and the rest of its path from the place of a pass.
#[derive(Clone, Copy)]
pub(crate) struct Refusing<'a> {
    pub(crate) rest: &'a [Text],
    pub(crate) rule: Rule,
}

/// A permission that holds for the reader: the rest of its path from the place of a pass.
#[derive(Clone, Copy)]
pub(crate) struct Granting<'a> {
    pub(crate) rest: &'a [Text],
}

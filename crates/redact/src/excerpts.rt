//! The excerpt, which is what is served of a document.

use iodef_tree::{Document, Path};
use policy::Rule;

/// What a reader may see of a document.
#[derive(Drop)]
pub struct Excerpt {
    /// The document of the kept outline.
    pub document: Document,
    /// How many classes are visible.
    pub classes: u32,
    /// The places of the excerpt at which something is withheld, each with the rule. In order of the bytes of the
    /// place's JSON pointer and then of the rule's name, without repeats.
    pub withheld: Vec<(Path, Rule)>,
}

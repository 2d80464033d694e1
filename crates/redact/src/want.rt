//! What is looked for in an incident: a want.

ghost use Rattle.std.specs.Prelude.{◌≡◌, IfOk, option_map, string_bytes};
ghost use Rattle.redact.specs.Wants as spec;

use crate::search::{finds, is_listed};
use iodef_tree::Document;
use policy::{Case, Standing};
use std::alloc::{AllocError, Global};

/// What is looked for in an incident: a class that the reader may see. With a needle, the class must directly hold a
/// text that contains it, byte for byte, and have the name `class` if one is given. Without a needle a name asks for
/// nothing more.
#[derive(Drop)]
pub struct Want {
    /// The text to find.
    pub needle: Option<String>,
    /// The name of the classes that are searched.
    pub class: Option<String>,
}

// Written by hand, so that the clause names the words.
impl Clone for Want {
    ghost use Rattle.redact.specs.Wants.{HasSameWords};

    ghost is_clone = { λ want copy. HasSameWords copy want };

    fn clone(&self) -> Result<Want, AllocError> {
        Ok(Want {
            needle: self.needle.clone()?,
            class: self.class.clone()?,
        })
    }
}

/// Returns the string as a slice.
fn text_of(text: &Option<String>) -> Option<&str>
    ensures { option_map (λ t. t.now) result ≡ option_map string_bytes text.now }
{
    match text {
        None => None,
        Some(text) => Some(text.as_str()),
    }
}

/// Returns whether the document meets the want, for a reader: without a needle the answer of `is_listed`, else that of
/// `finds`. Fails if memory runs out.
pub fn meets(
    alloc: Global,
    document: &Document,
    case: &Case,
    standing: &Standing,
    want: &Want,
) -> Result<bool, AllocError>
    ensures { IfOk result (λ b. b ≡ spec.meets want.now document.now case.now standing.entry.now) }
{
    match &want.needle {
        None => is_listed(alloc, document, case, standing),
        Some(needle) => finds(
            alloc,
            document,
            case,
            standing,
            needle.as_str(),
            text_of(&want.class),
        ),
    }
}

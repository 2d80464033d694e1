//! The document of lines that are an outline.

ghost use Rattle.std.specs.Prelude.{◌≡◌, true, IfOk};
ghost use Rattle.iodef_tree.specs.Outline.{is_outline};

use iodef_tree::{Builder, Document, Line};
use std::alloc::{AllocError, Global};

/// Returns the document with these lines. Fails if memory runs out.
pub(crate) fn document_of(alloc: Global, lines: Vec<Line>) -> Result<Document, AllocError>
    requires { is_outline lines.items ≡ true }
    ensures { IfOk result (λ d. d ≡ lines.items) }
{
    let mut builder = Builder::new(alloc);
    for line in lines {
        builder.add(line)?;
    }
    builder.finish()
}

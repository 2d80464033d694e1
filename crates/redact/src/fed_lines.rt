//! The lines that were fed to a pass, for clauses only.

ghost use Rattle.std.specs.Prelude.{◌≡◌, List, [], ◌∷◌, ◌++◌};
ghost use Rattle.iodef_tree.specs.declared.line.Line.{Line as Row};
ghost use base.Fml.{ftrue};

use iodef_tree::Line;
use std::marker::{Model, PhantomData};

/// All lines so far, dropped ones too. A value of no bytes: only clauses read it.
pub(crate) struct Fed {
    marker: PhantomData<u8>,
    pub(crate) ghost lines: { List Row },
}

impl Model for Fed {
    ghost also_owns = { λ _. ftrue };
}

impl Fed {
    /// Returns the state before the first line.
    pub(crate) fn none() -> Fed
        ensures { result.lines ≡ [] }
    {
        Fed {
            marker: PhantomData,
        }
    }

    /// Returns the state with one more line.
    pub(crate) fn with_line(&self, line: &Line) -> Fed
        ensures { result.lines ≡ self.now.lines ++ line.now ∷ [] }
    {
        // For the proof: only the clause keeps the line.
        let _ = line;
        Fed {
            marker: PhantomData,
        }
    }
}

impl Drop for Fed {
    fn drop(self) {
        let Self { marker: _ } = self;
    }
}

//! Laws of labels and handlings, for any document. Each law is the contract of a function that does nothing.

ghost use Rattle.std.specs.Prelude.{◌≡◌};
ghost use Rattle.std.specs.Ordering.{nat_cmp};
ghost use Rattle.marking.specs.Label.{rank};
ghost use Rattle.marking.specs.declared.label.Handling.{Handling as TheHandling};

use crate::label::Handling;

/// Handlings ascend from the widest audience: CLEAR, GREEN, AMBER, STRICT, RED. So of two handlings the greater is the
/// stricter.
pub fn handlings_ascend()
    ensures { (a b : TheHandling) → ⟦<Handling as Ord>⟧.cmp a b ≡ nat_cmp (rank a) (rank b) }
{}

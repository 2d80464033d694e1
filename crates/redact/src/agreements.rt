//! A definition of `specs/` that is read and one of `specs/inner/` that proofs take are the same. Each is the contract of a
//! function that does nothing.

ghost use Rattle.redact.specs.inner.Paired.{PlacesArePaired};

/// The place of a class in the excerpt is the one that pairs of the kept classes and those of the excerpt give.
pub(crate) fn places_are_paired()
    ensures { PlacesArePaired }
{}

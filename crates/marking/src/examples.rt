//! The definitions computed on three small reports (`specs/Examples.antt`). A wrong definition would show here, with
//! no program between. Each example is the contract of a function that does nothing.

ghost use Rattle.marking.specs.Examples.{UnmarkedIsPrivate, NearestLabelHolds, PlainLinesAreNoClasses};

/// In a report without labels each class is private, by the Incident's default.
pub fn unmarked_is_private()
    ensures { UnmarkedIsPrivate }
{}

/// The nearest label holds, and a `restriction` at the root marks nothing.
pub fn nearest_label_holds()
    ensures { NearestLabelHolds }
{}

/// Texts and values in arrays are not classes.
pub fn plain_lines_are_no_classes()
    ensures { PlainLinesAreNoClasses }
{}

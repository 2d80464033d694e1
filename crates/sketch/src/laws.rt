//! Laws of sketches, for every document, case, reader and want. Each law is the contract of a function that does
//! nothing.

ghost use Rattle.sketch.specs.Laws.{SourceIsShown, ShutShowsNothing, AboveShowsNothing, WithinShowsSome, FoundIsHeld, FoundIsCleared, ContainedRuns};
ghost use Rattle.sketch.specs.Laws.{ShortHasNoRun, NameNeedsNeedle, NeedleIsLookedFor, UnacceptedIsUnmet, SketchIsSmall};

/// The source is shown something exactly if there is a class.
pub fn source_is_shown()
    ensures { SourceIsShown }
{}

/// A reader who isn't of the source is shown nothing if a gate at the root refuses.
pub fn shut_shows_nothing()
    ensures { ShutShowsNothing }
{}

/// A reader who isn't of the source, and is cleared for no class, is shown nothing unless a permission holds.
pub fn above_shows_nothing()
    ensures { AboveShowsNothing }
{}

/// A reader who is cleared for some class is shown something if no gate refuses.
pub fn within_shows_some()
    ensures { WithinShowsSome }
{}

/// What a search finds is a text that a class of the given name directly holds.
pub fn found_is_held()
    ensures { FoundIsHeld }
{}

/// What a search finds for a reader who isn't of the source, and for whom no permission holds, is a text of a class for
/// which the reader is cleared.
pub fn found_is_cleared()
    ensures { FoundIsCleared }
{}

/// A text has each three-byte run of a needle that it contains.
pub fn contained_runs()
    ensures { ContainedRuns }
{}

/// A needle of fewer than three bytes has no run.
pub fn short_has_no_run()
    ensures { ShortHasNoRun }
{}

/// Without a needle the class's name counts for nothing.
pub fn name_needs_needle()
    ensures { NameNeedsNeedle }
{}

/// A want with a needle is never met by the sketch alone.
pub fn needle_is_looked_for()
    ensures { NeedleIsLookedFor }
{}

/// If the markings of a document aren't accepted, its sketch says that no want is met.
pub fn unaccepted_is_unmet()
    ensures { UnacceptedIsUnmet }
{}

/// A sketch has from 64 to 65,536 bytes for the runs of texts, as many for those with a handling, and 32 for names of
/// classes.
pub fn sketch_is_small()
    ensures { SketchIsSmall }
{}

//! Laws of excerpts and searches, for every document, case and reader. Each law is the contract of a function that
//! does nothing.

ghost use Rattle.redact.specs.Alike.{AlikeIsToldAlike};
ghost use Rattle.redact.specs.Marked.{NotedIsAccepted};
ghost use Rattle.redact.specs.Matters.{WhatMattersIsTold};
ghost use Rattle.redact.specs.Laws.{ListedIsServed, FoundIsListed, KeptClassesStay, WithheldIsListed, RootGateTellsNothing, VerdictsAreServed};

/// An incident is listed exactly if an excerpt of it is served.
pub fn listed_is_served()
    ensures { ListedIsServed }
{}

/// An incident in which a search finds something is listed.
pub fn found_is_listed()
    ensures { FoundIsListed }
{}

/// The class lines of an excerpt are those of the kept classes, in their order. So each kept class has its place.
pub fn kept_classes_stay()
    ensures { KeptClassesStay }
{}

/// The list of what is withheld is in order and without repeats; it has all pairs, and no others.
pub fn withheld_is_listed()
    ensures { WithheldIsListed }
{}

/// If a gate at the root refuses a reader who isn't of the source, nothing is listed, found or served.
pub fn root_gate_tells_nothing()
    ensures { RootGateTellsNothing }
{}

/// The verdict of a class agrees with what is served. It is Shown exactly if the class is visible, and then an excerpt
/// is served. If not, its rule is the one that hides the class, and for a frame that rule is listed at its place.
pub fn verdicts_are_served()
    ensures { VerdictsAreServed }
{}

/// Two reports that differ by one step in what a reader may not see are served the same to that reader.
pub fn alike_is_told_alike()
    ensures { AlikeIsToldAlike }
{}

/// If a gate refuses a reader at a class, the lines below that class don't matter: the reader is served the same
/// without them.
pub fn what_matters_is_told()
    ensures { WhatMattersIsTold }
{}

/// The state that is kept of the lines of an outline, one at a time, says whether every class keeps the marking rule.
pub fn noted_is_accepted()
    ensures { NotedIsAccepted }
{}

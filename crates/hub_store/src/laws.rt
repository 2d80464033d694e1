//! Laws of the definitions, each the contract of a function that does nothing.
ghost use Rattle.hub_store.specs.Laws.{WhatIsLeftIsFound};

use sqlite::Alter;

/// A connection that finds what a stop of another one left, has the state that was left.
pub fn what_is_left_is_found<S: Alter, T: Alter>()
    ensures { WhatIsLeftIsFound S.Store T.Store }
{}

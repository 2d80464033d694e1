//! Worlds written by hand that are alike for a reader, and what a stop leaves, from `specs/Examples.antt`. A definition
//! that no worlds meet would show here. Each is the contract of a function that does nothing.
ghost use Rattle.hub.specs.Examples.{EachIsServed, EndsAreAlike, StepsJoin, StopsAreComputed};

/// In each of the worlds the reader's view is the same, and serves something.
pub fn each_is_served()
    ensures { EachIsServed }
{}

/// Each kind of step between worlds that are alike joins two of them.
pub fn steps_join()
    ensures { StepsJoin }
{}

/// A chain of sound worlds joins the first and the last.
pub fn ends_are_alike()
    ensures { EndsAreAlike }
{}

/// After a change that was made and one that was given up, a stop may leave the state after the first, with or without
/// the second, and not the state before.
pub fn stops_are_computed()
    ensures { StopsAreComputed }
{}

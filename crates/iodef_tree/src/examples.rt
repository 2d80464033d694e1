//! The definitions computed on small bodies (`specs/Examples.antt`). A wrong definition would show here, with no
//! program between. Each example is the contract of a function that does nothing.
#![tactic(auto, unfolding(crate::proofs::Computed::computed))]

ghost use Rattle.iodef_tree.specs.Examples.{ArraysAreSpread, ClassesStandInFrontOfTheirMembers, ElementsFollowOneAnother, ElementsJoinTheirArray};
ghost use Rattle.iodef_tree.specs.Examples.{PathsAreFound};

/// The lines of a document with arrays of classes, texts and values; one of the arrays is empty.
pub fn arrays_are_spread()
    ensures { ArraysAreSpread }
{}

/// The line of a class comes before those of its members and is one less deep.
pub fn classes_stand_in_front()
    ensures { ClassesStandInFrontOfTheirMembers }
{}

/// The elements of an array follow one another, each with its own members behind it.
pub fn elements_follow_one_another()
    ensures { ElementsFollowOneAnother }
{}

/// The lines of an array are its elements again, and those one deeper are the members of a class.
pub fn elements_join_their_array()
    ensures { ElementsJoinTheirArray }
{}

/// A walk down the tree of a document and a look back from each line find the same paths.
pub fn paths_are_found()
    ensures { PathsAreFound }
{}

//! Laws of sound trees, and so of documents, on which the definitions of later crates rely. Each law is the contract
//! of a function that does nothing.
#![tactic(auto, using(crate::proofs::Proven::laws))]

ghost use Rattle.std.specs.Prelude.{◌≡◌};
ghost use Rattle.iodef_tree.specs.declared.TheConstants.{DEPTH_LIMIT, LINE_LIMIT, REPORT_INCIDENT_LIMIT};
ghost use Rattle.iodef_tree.specs.Laws.{EntriesAreTheWalk, TreesComeBack, PathsAreWalked, SiblingsStandApart, ClassesAreBlocks, PathsAreDistinct};
ghost use Rattle.iodef_tree.specs.Laws.{ClassPathsAreDistinct, OutlineIsOneToOne, LinesAreAnOutline, ParentsAreNearestClasses, TextsReadBack};
ghost use Rattle.iodef_tree.specs.Laws.{ReadingsAreDocuments};

/// The lines of an outline, each with its path and its parent's path, are those that a walk down the tree meets.
pub fn entries_are_the_walk()
    ensures { EntriesAreTheWalk }
{}

/// The tree of the lines of a document is the tree that has these lines.
pub fn trees_come_back()
    ensures { TreesComeBack }
{}

/// The lines of a document, each with its path and its parent's path, are those that a walk down its tree meets.
pub fn paths_are_walked()
    ensures { PathsAreWalked }
{}

/// Of two siblings, no path at or below one is at or below the other.
pub fn siblings_stand_apart()
    ensures { SiblingsStandApart }
{}

/// The lines below the path of each class are those of its members, and no others.
pub fn classes_are_blocks()
    ensures { ClassesAreBlocks }
{}

/// No two lines of a document have the same path.
pub fn paths_are_distinct()
    ensures { PathsAreDistinct }
{}

/// No two classes of a document have the same path.
pub fn class_paths_are_distinct()
    ensures { ClassPathsAreDistinct }
{}

/// Two documents with the same lines are the same tree.
pub fn outline_is_one_to_one()
    ensures { OutlineIsOneToOne }
{}

/// A line's parent is the longest class whose path is a proper prefix of the line's, or else the root.
pub fn parents_are_nearest_classes()
    ensures { ParentsAreNearestClasses }
{}

/// The lines of a document are an outline.
pub fn lines_are_an_outline()
    ensures { LinesAreAnOutline }
{}

/// The text of each document of a body that is read is read as that one document.
pub fn texts_read_back()
    ensures { TextsReadBack }
{}

/// The lines of each document of a body that is read are those of a sound tree.
pub fn readings_are_documents()
    ensures { ReadingsAreDocuments }
{}

/// The limits of what is read: 32 classes one below the other, 4,096 lines of a document, 16 Incidents of a body.
pub fn limits_of_reading()
    ensures depth { DEPTH_LIMIT ≡ 32 }
    ensures lines { LINE_LIMIT ≡ 4096 }
    ensures incidents { REPORT_INCIDENT_LIMIT ≡ 16 }
{}

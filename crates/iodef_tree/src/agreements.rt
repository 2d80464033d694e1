//! A definition of `specs/` that is read and one of `specs/inner/` that proofs take are the same. Each is the contract of a
//! function that does nothing.
#![tactic(auto, using(crate::proofs::Proven::laws))]

ghost use Rattle.iodef_tree.specs.inner.FlatJson.{JsonIsFlat};

/// The JSON object of a document is the one that its lines mean, read one after another.
pub(crate) fn json_is_flat()
    ensures { JsonIsFlat }
{}

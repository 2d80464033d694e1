//! A definition of `specs/` that is read and one of `specs/inner/` that proofs take are the same. Each is the contract of a
//! function that does nothing.

ghost use Rattle.hub.specs.inner.Exchanged.{HiddenClassesAgree};
ghost use Rattle.hub.specs.inner.InTurn.{StopsAgree};

use hub_core::Shelf;

/// Two sound states are equal but for a hidden class exactly if that class of the one is exchanged in the other.
pub(crate) fn hidden_classes_agree()
    ensures { HiddenClassesAgree }
{}

/// What a stop may leave after a run is what it may leave if the requests are taken one after another.
pub(crate) fn stops_agree<Sh: Shelf>(_shelf: &Sh)
    ensures { StopsAgree (Sh.may_remain _shelf.now) }
{}

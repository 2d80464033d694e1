//! The definitions computed on small reports (`specs/Examples.antt`). A wrong definition would show here, with no
//! program between. Each example is the contract of a function that does nothing.
#![tactic(auto, unfolding(crate::proofs::Computed::computed))]

ghost use Rattle.redact.specs.Examples.{RedEventIsTakenOut, FrameIsBare, FrameInsideIsBare, SourceGetsAll, LabelIsAdded, ArraysCloseUp, GateIsTold};
ghost use Rattle.redact.specs.Examples.{SearchFindsWhatIsSeen, AddedLabelIsNotFound, NothingIsSeen};

/// A red class is taken out with all that it holds, and its rule is listed at its parent.
pub fn red_event_is_taken_out()
    ensures { RedEventIsTakenOut }
{}

/// A private Incident around a public class is left as a bare frame.
pub fn frame_is_bare()
    ensures { FrameIsBare }
{}

/// A frame inside a visible class is bare too.
pub fn frame_inside_is_bare()
    ensures { FrameInsideIsBare }
{}

/// The source gets its whole report, with the default label.
pub fn source_gets_all()
    ensures { SourceGetsAll }
{}

/// A label from above is added at its place by name.
pub fn label_is_added()
    ensures { LabelIsAdded }
{}

/// The elements of an array close up over those that are taken out.
pub fn arrays_close_up()
    ensures { ArraysCloseUp }
{}

/// The rule of a gate is listed.
pub fn gate_is_told()
    ensures { GateIsTold }
{}

/// A search finds only texts of visible classes.
pub fn search_finds_what_is_seen()
    ensures { SearchFindsWhatIsSeen }
{}

/// A search finds no label that an excerpt adds.
pub fn added_label_is_not_found()
    ensures { AddedLabelIsNotFound }
{}

/// A reader who sees no class finds nothing, and the report isn't listed.
pub fn nothing_is_seen()
    ensures { NothingIsSeen }
{}

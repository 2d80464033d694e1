//! Laws of every view and of every excerpt, and what each limit is. Each law is the contract of a function that does
//! nothing.

ghost use Rattle.std.specs.Prelude.{◌≡◌};
ghost use Rattle.redaction.specs.declared.TheConstants.{GATE_LIMIT, NUMBER_LIMIT, PERMISSION_LIMIT};
ghost use Rattle.redaction.specs.Laws.{ShortFormClears, OpenCaseRefusesNobody, ShortFormShowsUpToClearance, ReadableExactly, ExcerptsReadExactly};

/// The reader of the short form is cleared for the handling that is named, and for nothing stricter.
pub fn short_form_clears()
    ensures { ShortFormClears }
{}

/// No gate of the short form's case refuses anybody.
pub fn open_case_refuses_nobody()
    ensures { OpenCaseRefusesNobody }
{}

/// A class is visible by the short form exactly if its handling is at most the clearance.
pub fn short_form_shows_up_to_clearance()
    ensures { ShortFormShowsUpToClearance }
{}

/// The text of a document with at most one Incident can be read exactly if its outline is readable.
pub fn readable_exactly()
    ensures { ReadableExactly }
{}

/// The document of an excerpt can be read exactly if its outline is readable.
pub fn excerpts_read_exactly()
    ensures { ExcerptsReadExactly }
{}

/// The limits of a view: 16 gates besides the one at the root, 64 permissions, and 1,000 numbers in a list.
pub fn limits_of_a_view()
    ensures gates { GATE_LIMIT ≡ 16 }
    ensures permissions { PERMISSION_LIMIT ≡ 64 }
    ensures numbers { NUMBER_LIMIT ≡ 1000 }
{}

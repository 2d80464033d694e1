//! The library `redaction` for C: a static library with one function for each answer. `clients/c/iodef_redact.h`
//! declares and wraps them, and says what a caller has to do.
//!
//! Read first: `specs/Delivery`, what a caller gets.
//!
//! Each function returns 0 if there is an answer, and otherwise the number of its fault
//! ([`redaction::Fault::number`]). On 0, `needed` is the answer's length in bytes, and `out` begins with the answer if
//! it has room for all of it. Otherwise `out` stays as it is. On a fault `needed` is 0. Of several views, an [`Asked`] each,
//! the same is told of each, and `out` begins with all answers one behind the other.
//!
//! No function can return a name, so the header and the module for Python have the names of the faults.
//! `scripts/try/redact` compares them with those of `redaction`.
#![tactic(auto)]

ghost use Rattle.std.specs.Prelude.{◌≡◌, None, Some, Ok, Err, IfOk, IfErr, IsOk, not, ◌==◌};
ghost use Rattle.redact_c.specs.Delivery.{Delivers, DeliversEach, descriptions_of};
ghost use Rattle.redaction.specs.Answers.{excerpt_text, excerpt_texts, document_text, whole_text, finds_text, explain_text, marks_text};
ghost use Rattle.redaction.specs.Locating.{first_fault_text};

mod delivery;

use crate::delivery::{answers_of, deliver, deliver_each};
pub use delivery::Asked;
use redaction::{ExcerptDocument, Fault, Identifier};
use std::alloc::Global;

/// The answer of [`redaction::excerpt`]: what the reader of a view description may see, and what is withheld.
#[unsafe(no_mangle)]
pub extern "C" fn iodef_redact_excerpt_into(
    alloc: Global,
    report: &[u8],
    view: &[u8],
    out: &mut [u8],
    needed: &mut usize,
) -> u32
    ensures { Delivers result needed.new out.old out.new (excerpt_text report.now view.now) }
{
    deliver(redaction::excerpt(alloc, report, view), out, needed)
}

/// The answers of [`redaction::excerpts`] for several views, one behind the other. Each view is told the number of its
/// fault and the length of its answer.
#[unsafe(no_mangle)]
pub extern "C" fn iodef_redact_excerpts_into(
    alloc: Global,
    report: &[u8],
    asked: &mut [Asked<'_>],
    out: &mut [u8],
    needed: &mut usize,
) -> u32
    ensures { DeliversEach result needed.new asked.old asked.new out.old out.new
        (excerpt_texts report.now (descriptions_of asked.old)) }
{
    let answers = answers_of(alloc, report, asked);
    deliver_each(answers, asked, out, needed)
}

/// Returns the text of a document that was answered.
fn text_of(answer: Result<ExcerptDocument, Fault>) -> Result<Vec<u8>, Fault>
    ensures ok { IfOk answer (λ d. IfOk result (λ v. v.items ≡ d.text.items)) }
    ensures answered { IfOk answer (λ d. IsOk result) }
    ensures err { IfErr answer (λ e. result ≡ Err e) }
{
    match answer {
        Ok(document) => Ok(document.text),
        Err(fault) => Err(fault),
    }
}

/// The text of the answer of [`redaction::excerpt_document`]: what the reader of a view description may see. It is a
/// report if the member `readable` of the answer of [`redaction::excerpt`] is true.
#[unsafe(no_mangle)]
pub extern "C" fn iodef_redact_document_into(
    alloc: Global,
    report: &[u8],
    view: &[u8],
    out: &mut [u8],
    needed: &mut usize,
) -> u32
    ensures { Delivers result needed.new out.old out.new (document_text report.now view.now) }
{
    deliver(
        text_of(redaction::excerpt_document(alloc, report, view)),
        out,
        needed,
    )
}

/// The answer of [`redaction::excerpt_whole`] without an identifier: what the reader of a view description may see, made
/// a report by placeholders.
#[unsafe(no_mangle)]
pub extern "C" fn iodef_redact_whole_into(
    alloc: Global,
    report: &[u8],
    view: &[u8],
    out: &mut [u8],
    needed: &mut usize,
) -> u32
    ensures { Delivers result needed.new out.old out.new
        (whole_text report.now view.now None) }
{
    deliver(
        redaction::excerpt_whole(alloc, report, view, None),
        out,
        needed,
    )
}

/// The answer of [`redaction::excerpt_whole`] with an identifier, for a report whose own one may be withheld. It has a
/// function of its own, since a slice can't be absent.
#[unsafe(no_mangle)]
pub extern "C" fn iodef_redact_whole_with_id_into(
    alloc: Global,
    report: &[u8],
    view: &[u8],
    name: &[u8],
    id: &[u8],
    out: &mut [u8],
    needed: &mut usize,
) -> u32
    ensures { Delivers result needed.new out.old out.new
        (whole_text report.now view.now (Some (name.now, id.now))) }
{
    let id = Identifier { name, id };
    deliver(
        redaction::excerpt_whole(alloc, report, view, Some(id)),
        out,
        needed,
    )
}

/// The answer of [`redaction::first_fault`]: the first fault of a view description and a report, with its place. The
/// moment of the view is wanted unless `dated` is 0.
#[unsafe(no_mangle)]
pub extern "C" fn iodef_redact_first_fault_into(
    alloc: Global,
    report: &[u8],
    view: &[u8],
    dated: u32,
    out: &mut [u8],
    needed: &mut usize,
) -> u32
    ensures { Delivers result needed.new out.old out.new
        (Ok (first_fault_text (not (dated == 0)) report.now view.now)) }
{
    deliver(
        redaction::first_fault(alloc, dated != 0, report, view),
        out,
        needed,
    )
}

/// The answer of [`redaction::finds`] for a needle: whether a class that the reader may see directly holds it.
#[unsafe(no_mangle)]
pub extern "C" fn iodef_redact_finds_into(
    alloc: Global,
    report: &[u8],
    view: &[u8],
    needle: &[u8],
    out: &mut [u8],
    needed: &mut usize,
) -> u32
    ensures { Delivers result needed.new out.old out.new
        (finds_text report.now view.now needle.now None) }
{
    deliver(
        redaction::finds(alloc, report, view, needle, None),
        out,
        needed,
    )
}

/// The answer of [`redaction::finds`] for a needle in the classes of one name. It has a function of its own, since a
/// slice can't be absent, and a class may have an empty name.
#[unsafe(no_mangle)]
pub extern "C" fn iodef_redact_finds_in_class_into(
    alloc: Global,
    report: &[u8],
    view: &[u8],
    needle: &[u8],
    class: &[u8],
    out: &mut [u8],
    needed: &mut usize,
) -> u32
    ensures { Delivers result needed.new out.old out.new
        (finds_text report.now view.now needle.now (Some class.now)) }
{
    deliver(
        redaction::finds(alloc, report, view, needle, Some(class)),
        out,
        needed,
    )
}

/// The answer of [`redaction::explain`]: why the reader sees the class at a JSON pointer, or doesn't.
#[unsafe(no_mangle)]
pub extern "C" fn iodef_redact_explain_into(
    alloc: Global,
    report: &[u8],
    view: &[u8],
    pointer: &[u8],
    out: &mut [u8],
    needed: &mut usize,
) -> u32
    ensures { Delivers result needed.new out.old out.new
        (explain_text report.now view.now pointer.now) }
{
    deliver(
        redaction::explain(alloc, report, view, pointer),
        out,
        needed,
    )
}

/// The answer of [`redaction::marks`] for the Incident at a place of the report: the label of each class.
#[unsafe(no_mangle)]
pub extern "C" fn iodef_redact_marks_into(
    alloc: Global,
    report: &[u8],
    incident: u32,
    out: &mut [u8],
    needed: &mut usize,
) -> u32
    ensures { Delivers result needed.new out.old out.new (marks_text report.now incident) }
{
    deliver(redaction::marks(alloc, report, incident), out, needed)
}

//! Why a reader sees a class, or doesn't.
ghost use Rattle.std.specs.Prelude.{◌≡◌, None, string_bytes};
ghost use Rattle.iodef_tree.specs.Paths.{located};
ghost use Rattle.marking.specs.Marks.{first_bad_marking};
ghost use Rattle.redaction.specs.Outcome.{Yields, YieldsAs, both};
ghost use Rattle.redaction.specs.Described.{described};
ghost use Rattle.redaction.specs.Answers as spec;
ghost use Rattle.explain.specs.Explanation.{explanation};

use crate::asked::{Asked, read_asked};
use crate::both::{answer_of, beside};
use crate::fault::Fault;
use crate::finding::word_of;
use crate::value::path_of;
use crate::view::{View, read_view};
use explain::{ExplainFault, Trace};
use iodef_tree::Path;
use std::alloc::Global;

/// Returns the path of which the bytes are the JSON pointer.
#[tactic(auto, unfolding(crate::specs::Answers::pointer_of))]
fn pointer_of(alloc: Global, bytes: &[u8]) -> Result<Path, Fault>
    ensures { Yields result (spec.pointer_of bytes.now) }
{
    answer_of(path_of(alloc, word_of(bytes)?)?)
}

/// Returns why the reader sees the class at the path, or doesn't.
fn trace_of(alloc: Global, asked: &Asked, path: &Path) -> Result<Trace, Fault>
    requires { first_bad_marking (located asked.now.document) ≡ None }
    ensures { YieldsAs explanation result (spec.explained asked.now path.now) }
{
    match explain::explain(alloc, &asked.document, &asked.case, &asked.reader, path) {
        Ok(trace) => Ok(trace),
        Err(ExplainFault::NoClass) => Err(Fault::NoClass),
        Err(ExplainFault::NoMemory) => Err(Fault::NoMemory),
    }
}

/// Returns the view and the path of the question. Of two faults the earlier in the order is returned.
fn words_of(alloc: Global, description: &[u8], pointer: &[u8]) -> Result<(View, Path), Fault>
    ensures { Yields result (both (described description.now) (spec.pointer_of pointer.now)) }
{
    let view = read_view(alloc, false, description);
    beside(answer_of(view), pointer_of(alloc, pointer))
}

/// Returns why the reader of a view description sees the class at the JSON pointer, or doesn't: lines, each ended by a
/// newline. It answers whoever calls, who has the whole report.
///
/// Fails with the first fault in the order of [`Fault`]; with `NoClass` if there is no class at the pointer (the root
/// is no class).
#[tactic(auto, unfolding(crate::specs::Answers::explain_text))]
pub fn explain(
    alloc: Global,
    report: &[u8],
    description: &[u8],
    pointer: &[u8],
) -> Result<Vec<u8>, Fault>
    ensures { YieldsAs (λ v. v.items) result
        (spec.explain_text report.now description.now pointer.now) }
{
    let (view, path) = words_of(alloc, description, pointer)?;
    let asked = read_asked(alloc, report, view)?;
    let trace = trace_of(alloc, &asked, &path)?;
    let text = trace.text(alloc)?;
    Ok(text.into_bytes())
}

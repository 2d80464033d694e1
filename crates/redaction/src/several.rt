//! Excerpts of one report for several readers. The report is read once.
ghost use Rattle.std.specs.Prelude.{◌≡◌, ◌≢◌, true, length, map, IfOk, IfErr};
ghost use Rattle.std.specs.List.{list_all};
ghost use Rattle.redaction.specs.Asked.{is_well_marked};
ghost use Rattle.redaction.specs.Outcome.{YieldsAs};
ghost use Rattle.redaction.specs.inner.Among as among;
ghost use Rattle.redaction.specs.declared.fault.Fault.TheVariants as fault;
ghost use Rattle.redaction.specs.Answers as spec;

use crate::asked::read_reported;
use crate::body::excerpt_bytes;
use crate::excerpting::excerpt_among;
use crate::fault::Fault;
use crate::view::read_view;
use iodef_tree::Document;
use std::alloc::Global;

/// Returns the answer of [`excerpt`](crate::excerpt) for a view description, from the documents of the report.
#[tactic(auto, unfolding(crate::specs::inner::Among::text_among))]
fn text_among(alloc: Global, documents: &[Document], description: &[u8]) -> Result<Vec<u8>, Fault>
    requires { list_all is_well_marked documents.now ≡ true }
    ensures { YieldsAs (λ v. v.items) result (among.text_among documents.now description.now) }
{
    let view = read_view(alloc, false, description)?;
    let excerpt = excerpt_among(alloc, documents, &view)?;
    Ok(excerpt_bytes(alloc, &excerpt, view.reader.arrangement)?)
}

/// Returns an answer as it is, but fails for want of memory.
fn unless_no_memory(answer: Result<Vec<u8>, Fault>) -> Result<Result<Vec<u8>, Fault>, Fault>
    ensures same { IfOk result (λ kept. kept ≡ answer) }
    ensures told { IfOk result (λ kept. IfErr kept (λ e. e ≢ fault.NoMemory)) }
    ensures failed { IfErr result (λ e. e ≡ fault.NoMemory) }
{
    match answer {
        Ok(text) => Ok(Ok(text)),
        Err(Fault::NoMemory) => Err(Fault::NoMemory),
        Err(fault) => Ok(Err(fault)),
    }
}

/// Returns the answers of [`excerpt`](crate::excerpt) for several view descriptions, from the documents of the report.
fn texts_among(
    alloc: Global,
    documents: &[Document],
    descriptions: &[&[u8]],
) -> Result<Vec<Result<Vec<u8>, Fault>>, Fault>
    requires { list_all is_well_marked documents.now ≡ true }
    ensures same { IfOk result (λ v. spec.texts_by v.items ≡
        map (λ d. among.text_among documents.now d.now) descriptions.now) }
    ensures each { IfOk result (λ v. length v.items ≡ length descriptions.now) }
    ensures failed { IfErr result (λ e. e ≡ fault.NoMemory) }
{
    let mut answers = Vec::new(alloc);
    for description in descriptions {
        let answer = text_among(alloc, documents, description);
        answers.push(unless_no_memory(answer)?)?;
    }
    Ok(answers)
}

/// Returns for each of several view descriptions, in their order, what [`excerpt`](crate::excerpt) returns: the compact
/// JSON object, or the first fault. The report is read once.
///
/// Fails with the fault of the report, which comes before those of the descriptions, also if there is no description.
/// Fails with `NoMemory` if memory runs out for any of them.
#[tactic(auto, unfolding(crate::specs::Answers::excerpt_texts))]
pub fn excerpts(
    alloc: Global,
    report: &[u8],
    descriptions: &[&[u8]],
) -> Result<Vec<Result<Vec<u8>, Fault>>, Fault>
    ensures texts { YieldsAs (λ v. spec.texts_by v.items) result
        (spec.excerpt_texts report.now (map (λ d. d.now) descriptions.now)) }
    ensures each { IfOk result (λ v. length v.items ≡ length descriptions.now) }
{
    let documents = read_reported(alloc, report)?;
    texts_among(alloc, documents.as_slice(), descriptions)
}

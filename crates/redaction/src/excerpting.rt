//! Excerpts.
ghost use Rattle.std.specs.Prelude.{◌≡◌, [], true, IfOk, option_map, string_bytes, unwrap_or};
ghost use Rattle.std.specs.List.{list_all};
ghost use Rattle.redact.specs.Excerpts.{told_by};
ghost use Rattle.redaction.specs.Outcome.{Yields, YieldsAs};
ghost use Rattle.redaction.specs.Asked.{is_well_marked};
ghost use Rattle.redaction.specs.Whole.{identifier, named};
ghost use Rattle.redaction.specs.inner.Among as among;
ghost use Rattle.redaction.specs.Answers as spec;

use crate::asked::{document_among, read_reported};
use crate::body::{document_bytes, excerpt_bytes};
use crate::fault::Fault;
use crate::readable::is_readable;
use crate::view::{View, read_view};
use crate::whole::{Identifier, Named, some_texts, whole};
use iodef_tree::{Document, Text};
use redact::Excerpt;
use std::alloc::{AllocError, Global};

/// The document of an excerpt as compact JSON.
#[derive(Drop)]
pub struct ExcerptDocument {
    /// The JSON text (RFC 8727 section 2).
    pub text: Vec<u8>,
    /// Whether it is a report again: its Incident has each member that it must have (RFC 7970 section 3.2), and it is
    /// within the limits of lines and of depth.
    pub readable: bool,
}

/// Returns the excerpt of one of a report's documents for the reader of a view.
#[tactic(auto, unfolding(crate::specs::inner::Among::told_among))]
pub(crate) fn excerpt_among(
    alloc: Global,
    documents: &[Document],
    view: &View,
) -> Result<Excerpt, Fault>
    requires { list_all is_well_marked documents.now ≡ true }
    ensures { YieldsAs told_by result (among.told_among documents.now view.now) }
{
    let document = document_among(documents, view)?;
    match redact::excerpt(alloc, document, &view.case, &view.reader)? {
        Some(excerpt) => Ok(excerpt),
        None => Err(Fault::NothingVisible),
    }
}

/// Returns the excerpt of a report for the reader of a view.
fn excerpt_for(alloc: Global, report: &[u8], view: &View) -> Result<Excerpt, Fault>
    ensures { YieldsAs told_by result (spec.told_by_view report.now view.now) }
{
    let documents = read_reported(alloc, report)?;
    excerpt_among(alloc, documents.as_slice(), view)
}

/// Returns what the reader of a view description may see of a report, as a compact JSON object: `classes`, how many
/// classes are visible; `document`, the excerpt; `label`, the highest label of these classes, by its name in TLP 2.0;
/// `readable`, whether the excerpt is a report again; and `withheld`, a list of pairs of a place in the excerpt, as a
/// JSON pointer, and a rule by which something is withheld there.
///
/// Fails with the first fault in the order of [`Fault`].
#[tactic(auto, unfolding(crate::specs::Answers::excerpt_text))]
pub fn excerpt(alloc: Global, report: &[u8], description: &[u8]) -> Result<Vec<u8>, Fault>
    ensures { YieldsAs (λ v. v.items) result (spec.excerpt_text report.now description.now) }
{
    let view = read_view(alloc, false, description)?;
    let excerpt = excerpt_for(alloc, report, &view)?;
    Ok(excerpt_bytes(alloc, &excerpt, view.reader.arrangement)?)
}

/// Returns the members `document` and `readable` of the answer of [`excerpt`]. Fails as [`excerpt`] does.
#[tactic(auto, unfolding(crate::specs::Answers::document_answer, crate::specs::Answers::told_of))]
pub fn excerpt_document(
    alloc: Global,
    report: &[u8],
    description: &[u8],
) -> Result<ExcerptDocument, Fault>
    ensures { YieldsAs spec.document_by result (spec.document_answer report.now description.now) }
{
    let view = read_view(alloc, false, description)?;
    let excerpt = excerpt_for(alloc, report, &view)?;
    Ok(ExcerptDocument {
        text: document_bytes(alloc, &excerpt.document)?,
        readable: is_readable(&excerpt.document),
    })
}

/// Returns a copy of the text of a moment, or an empty one.
fn moment_of(alloc: Global, said: &Option<Text>) -> Result<String, AllocError>
    ensures { IfOk result (λ s. string_bytes s ≡ unwrap_or said.now []) }
{
    match said {
        Some(text) => String::from_str(alloc, text.as_str()),
        None => Ok(String::new(alloc)),
    }
}

/// Returns the document of the excerpt for the reader of a view, made a report again.
#[tactic(auto, unfolding(crate::specs::Answers::whole_by_view))]
fn whole_for(
    alloc: Global,
    report: &[u8],
    view: View,
    id: Option<Named<'_>>,
) -> Result<Document, Fault>
    ensures { Yields result (spec.whole_by_view report.now view (option_map named id.entry)) }
{
    let moment = moment_of(alloc, &view.said)?;
    match excerpt_for(alloc, report, &view) {
        Ok(excerpt) => whole(alloc, &excerpt.document, moment.as_str(), id),
        Err(fault) => Err(fault),
    }
}

/// Returns the document of the excerpt as a report again. Each member that an Incident must have (RFC 7970 section
/// 3.2) and that is withheld is there as a placeholder: the purpose, and the role, type and name of a Contact, say
/// "withheld"; GenerationTime is the moment of the view, which has to be said; IncidentID is `id`.
///
/// Fails with the first fault in the order of [`Fault`]: with `IdMissing` if the IncidentID is withheld and no `id` is
/// given, and with `NotReadable` if the excerpt can't be read as a report even so.
#[tactic(auto, unfolding(crate::specs::Answers::whole_text))]
pub fn excerpt_whole(
    alloc: Global,
    report: &[u8],
    description: &[u8],
    id: Option<Identifier<'_>>,
) -> Result<Vec<u8>, Fault>
    ensures { YieldsAs (λ v. v.items) result
        (spec.whole_text report.now description.now (option_map identifier id.entry)) }
{
    let view = read_view(alloc, true, description)?;
    let id = some_texts(id)?;
    let document = whole_for(alloc, report, view, id)?;
    Ok(document_bytes(alloc, &document)?)
}

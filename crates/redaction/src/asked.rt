//! The question about a report: one of its documents, with a case and a reader.
ghost use Rattle.std.specs.Prelude.{◌≡◌, None, true, IfOk};
ghost use Rattle.std.specs.List.{list_all};
ghost use Rattle.iodef_tree.specs.Paths.{located};
ghost use Rattle.marking.specs.Marks.{first_bad_marking};
ghost use Rattle.redaction.specs.Outcome.{Yields, YieldsAs, require};
ghost use Rattle.redaction.specs.inner.Among as among;
ghost use Rattle.redaction.specs.Asked as spec;

use crate::fault::{Fault, of_report};
use crate::view::View;
use iodef_tree::Document;
use marking::{MarkingFault, check};
use policy::{Case, Gate, Permission, Standing};
use std::alloc::Global;

/// The document of an Incident, the case that it is judged by, and a reader.
#[derive(Drop)]
pub(crate) struct Asked {
    pub(crate) document: Document,
    pub(crate) case: Case,
    pub(crate) reader: Standing,
}

/// Reads the report.
fn read_documents(alloc: Global, report: &[u8]) -> Result<Vec<Document>, Fault>
    ensures { YieldsAs (λ v. v.items) result (spec.read_of report.now) }
{
    match Document::read(alloc, report) {
        Ok(documents) => Ok(documents),
        Err(fault) => Err(of_report(&fault)),
    }
}

/// Fails with BadMarking unless each document keeps the marking rule.
fn check_markings(alloc: Global, documents: &[Document]) -> Result<(), Fault>
    ensures { Yields result (require (list_all spec.is_well_marked documents.now) Fault.BadMarking) }
{
    for document in documents {
        match check(alloc, document) {
            Ok(()) => {}
            Err(MarkingFault::BadMarking(_)) => return Err(Fault::BadMarking),
            Err(MarkingFault::NoMemory) => return Err(Fault::NoMemory),
        }
    }
    Ok(())
}

/// Reads the documents of the report, one for each Incident. Their markings were accepted.
#[tactic(auto, unfolding(crate::specs::Asked::reported))]
pub(crate) fn read_reported(alloc: Global, report: &[u8]) -> Result<Vec<Document>, Fault>
    ensures read { YieldsAs (λ v. v.items) result (spec.reported report.now) }
    ensures marked { IfOk result (λ v. list_all spec.is_well_marked v.items ≡ true) }
{
    let documents = read_documents(alloc, report)?;
    // The markings of all Incidents, as a hub asks for them in a post.
    check_markings(alloc, documents.as_slice())?;
    Ok(documents)
}

/// Reads the document of the Incident at a place of the report. Its markings were accepted.
///
/// Fails with NoIncident if there is none at that place.
#[tactic(auto, unfolding(crate::specs::Asked::incident_of))]
pub(crate) fn read_incident(alloc: Global, report: &[u8], place: u32) -> Result<Document, Fault>
    ensures read { Yields result (spec.incident_of report.now place) }
    ensures marked { IfOk result (λ d. first_bad_marking (located d) ≡ None) }
{
    let mut documents = read_reported(alloc, report)?;
    let place = place as usize;
    if place >= documents.len() {
        return Err(Fault::NoIncident);
    }
    Ok(documents.swap_remove(place))
}

/// Returns whether the gate is at the root or at a class.
pub(crate) fn gate_stands(document: &Document, gate: &Gate) -> bool
    ensures { result ≡ spec.gate_stands (located document.now) gate.now }
{
    gate.path.tokens().is_empty() || document.has_class(&gate.path)
}

/// Returns whether each gate is at the root or at a class.
fn gates_stand(document: &Document, gates: &[Gate]) -> bool
    ensures { result ≡ list_all (spec.gate_stands (located document.now)) gates.now }
{
    gates.iter().all(|gate| gate_stands(document, gate))
}

/// Returns whether the permission is at a class.
pub(crate) fn permission_stands(document: &Document, permission: &Permission) -> bool
    ensures { result ≡ spec.permission_stands (located document.now) permission.now }
{
    document.has_class(&permission.path)
}

/// Returns whether each permission is at a class.
fn permissions_stand(document: &Document, permissions: &[Permission]) -> bool
    ensures { result ≡ list_all (spec.permission_stands (located document.now)) permissions.now }
{
    permissions
        .iter()
        .all(|permission| permission_stands(document, permission))
}

/// Returns whether each gate is at the root or at a class, and each permission at a class.
fn case_stands(document: &Document, case: &Case) -> bool
    ensures { result ≡ spec.case_stands (located document.now) case.now }
{
    gates_stand(document, case.gates.as_slice())
        && permissions_stand(document, case.permissions.as_slice())
}

/// Reads the Incident that a view names, with its case and its reader. Fails with NoClass if a gate or a permission of
/// the case is at no class.
#[tactic(auto, unfolding(crate::specs::Asked::asked_of))]
pub(crate) fn read_asked(alloc: Global, report: &[u8], view: View) -> Result<Asked, Fault>
    ensures read { Yields result (spec.asked_of report.now view) }
    ensures marked { IfOk result (λ a. first_bad_marking (located a.document) ≡ None) }
{
    let document = read_incident(alloc, report, view.incident)?;
    // As a hub asks. With a slip in its pointer, a gate would hide nothing.
    if !case_stands(&document, &view.case) {
        return Err(Fault::NoClass);
    }
    Ok(Asked {
        document,
        case: view.case,
        reader: view.reader,
    })
}

/// Returns the one of a report's documents whose Incident a view names. Fails as [`read_asked`] does.
pub(crate) fn document_among<'a>(
    documents: &'a [Document],
    view: &View,
) -> Result<&'a Document, Fault>
    requires { list_all spec.is_well_marked documents.now ≡ true }
    ensures read { YieldsAs (λ d. d.now) result (among.document_among documents.now view.now) }
    ensures marked { IfOk result (λ d. first_bad_marking (located d.now) ≡ None) }
{
    let place = view.incident as usize;
    if place >= documents.len() {
        return Err(Fault::NoIncident);
    }
    let document = &documents[place];
    if !case_stands(document, &view.case) {
        return Err(Fault::NoClass);
    }
    Ok(document)
}

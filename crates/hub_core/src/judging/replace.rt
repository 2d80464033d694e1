//! Exchanging the document of an incident.
ghost use Rattle.std.specs.Prelude.{◌≡◌, ◌+◌, ◌≤◌, true, Some, length, IfOk};
ghost use Rattle.std.specs.List.{list_all};
ghost use Rattle.std.specs.Str.{bytes_eq};
ghost use Rattle.hub_state.specs.Documents.{Lines, documents_in, ident_of};
ghost use Rattle.hub_core.specs.Judgement.{grounds_by, replace_arguments, replace_facts};
ghost use Rattle.hub_state.specs.Aftermath.{edits_by, put_revision};
ghost use Rattle.hub_core.specs.inner.Asked.{Asks};
ghost use Rattle.hub_state.specs.declared.request.Request.TheVariants as ask;

use crate::judging::body::{documents, well_marked};
use crate::judging::class_gates::ClassGates;
use crate::judging::gate::root_level;
use crate::judging::posted::Posted;
use crate::judging::stop::{Stop, bad_if, other_than, own, poster, refuse_if, refuse_with};
use crate::{GATE_LIMIT, REVISION_LIMIT};
use circle::directory::Person;
use circle::refusal::Code;
use circle::text::Text;
use hub_state::{Edit, Facts, Incident, IncidentFacts, Naming, Replace};
use std::alloc::{AllocError, Global};

/// Returns the edits that put the incident in its next revision, with the request's community and gates, or the refusal
/// of the first ground that holds. They take its permissions out and keep its recipients.
pub fn replace(
    alloc: Global,
    actor: &Person,
    facts: &Facts,
    request: &Replace,
) -> Result<Vec<Edit>, Stop>
    ensures asked { Asks (grounds_by facts.now actor.now (ask.Replace request.now)) result }
    ensures made { IfOk result (λ edits.
        edits.items ≡ edits_by facts.now actor.now (ask.Replace request.now)) }
{
    poster(alloc, actor)?;
    let level = root_level(alloc, &request.distribution)?;
    let (gates, documents) = arguments(alloc, request)?;
    let known = check_facts(alloc, actor, facts, request.revision, &gates, &documents)?;
    let incident = request.incident;
    let community = request.distribution.community;
    let mut edits = next_revision(alloc, incident, known, community, documents)?;
    edits.push(Edit::TakePolicy(incident))?;
    gates.put(
        alloc,
        &mut edits,
        incident,
        level,
        request.distribution.group,
    )?;
    Ok(edits)
}

/// Reads the gates and the one document.
fn arguments(alloc: Global, request: &Replace) -> Result<(ClassGates, Vec<Posted>), Stop>
    ensures asked { Asks (replace_arguments request.now) result }
    ensures gates { IfOk result (λ both. both.0 ≡ request.now.distribution.gates) }
    ensures documents { IfOk result (λ both. both.1.items ≡ documents_in request.now.document) }
    ensures single { IfOk result (λ both. length both.1.items ≤ 1) }
{
    let gates = ClassGates::new(alloc, request.distribution.gates.as_slice())?;
    let documents = documents(alloc, request.document.as_slice())?;
    // several Incidents are refused here, so two equal IncidentIDs need no ground
    bad_if(alloc, documents.len() > 1, "document")?;
    well_marked(alloc, &documents)?;
    Ok((gates, documents))
}

/// Asks the grounds of the facts: an own incident, communities and groups, classes, ident, revision, limits.
fn check_facts<'a>(
    alloc: Global,
    actor: &Person,
    facts: &'a Facts,
    revision: u32,
    gates: &ClassGates,
    documents: &[Posted],
) -> Result<&'a IncidentFacts, Stop>
    ensures asked { Asks
        (replace_facts facts.now actor.now revision gates.now documents.now) result }
    ensures known { IfOk result (λ k. facts.now.incident ≡ Some k.now) }
    ensures ident { IfOk result (λ k.
        list_all (λ (doc : Lines). bytes_eq (ident_of doc) k.now.ident) documents.now ≡ true) }
    ensures room { IfOk result (λ k. k.now.revision + 1 ≤ REVISION_LIMIT) }
{
    let known = own(alloc, actor, facts)?;
    refuse_if(alloc, !facts.circle.exists, Code::N2)?;
    refuse_if(alloc, !gates.stand_at_classes(documents), Code::N3)?;
    refuse_if(alloc, !have_ident(documents, &known.ident), Code::S2)?;
    refuse_with(alloc, Code::S3, other_than(known.revision, revision))?;
    refuse_if(alloc, known.revision >= REVISION_LIMIT, Code::L1)?;
    refuse_if(alloc, facts.gates > GATE_LIMIT, Code::L1)?;
    Ok(known)
}

fn have_ident(documents: &[Posted], ident: &Text) -> bool
    ensures { result ≡ list_all (λ (doc : Lines). bytes_eq (ident_of doc) ident.now) documents.now }
{
    documents.iter().all(|document| document.ident() == ident)
}

/// The edits that take the incident's row out and put it back with this document.
fn next_revision(
    alloc: Global,
    incident: u32,
    known: &IncidentFacts,
    community: Option<u32>,
    mut documents: Vec<Posted>,
) -> Result<Vec<Edit>, AllocError>
    requires single { length documents.items ≤ 1 }
    requires ident { list_all (λ (doc : Lines).
        bytes_eq (ident_of doc) known.now.ident) documents.items ≡ true }
    requires room { known.now.revision + 1 ≤ REVISION_LIMIT }
    ensures { IfOk result (λ edits.
        edits.items ≡ put_revision incident known.now community documents.items) }
{
    let mut edits = Vec::new(alloc);
    if let Some(posted) = documents.pop() {
        let (document, ident) = posted.into_parts();
        edits.push(Edit::TakeIncident(incident))?;
        // written out field by field, so that a new field has to be decided here
        let naming = Naming {
            number: incident,
            source: known.source,
            ident,
            revision: known.revision + 1,
            community,
        };
        edits.push(Edit::PutIncident(Incident { naming, document }))?;
    }
    Ok(edits)
}

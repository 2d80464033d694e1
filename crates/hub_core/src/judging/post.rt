//! New incidents, one for each Incident of a body.
ghost use Rattle.std.specs.Prelude.{◌≡◌, ◌+◌, ◌<◌, ◌≤◌, ◌^◌, length, IfOk, OnOk};
ghost use Rattle.hub_state.specs.Documents.{documents_in};
ghost use Rattle.hub_state.specs.Aftermath.{edits_by};
ghost use Rattle.hub_state.specs.Aftermath as spec;
ghost use Rattle.hub_core.specs.Judgement.{grounds_by, post_arguments, post_facts};
ghost use Rattle.hub_core.specs.inner.Asked.{Asks};
ghost use Rattle.hub_state.specs.declared.request.Request.TheVariants as ask;

use crate::judging::body::{documents, have_twins, well_marked};
use crate::judging::class_gates::ClassGates;
use crate::judging::gate::root_level;
use crate::judging::posted::Posted;
use crate::judging::stop::{Stop, bad_if, poster, refuse_if, refuse_with};
use crate::{GATE_LIMIT, INCIDENT_LIMIT};
use circle::directory::Person;
use circle::refusal::Code;
use hub_state::{Edit, Facts, Incident, Naming, Post};
use std::alloc::{AllocError, Global};

/// Returns the edits that put an incident for each Incident of the body, or the refusal of the first ground that holds.
pub fn post(alloc: Global, actor: &Person, facts: &Facts, request: &Post) -> Result<Vec<Edit>, Stop>
    ensures asked { Asks (grounds_by facts.now actor.now (ask.Post request.now)) result }
    ensures made { IfOk result (λ edits.
        edits.items ≡ edits_by facts.now actor.now (ask.Post request.now)) }
{
    poster(alloc, actor)?;
    let level = root_level(alloc, &request.distribution)?;
    let (gates, documents) = arguments(alloc, request)?;
    check_facts(alloc, facts, &gates, &documents)?;
    let first = facts.circle.count + 1;
    let posting = Posting {
        source: actor.org,
        community: request.distribution.community,
        level,
        group: request.distribution.group,
    };
    Ok(put_incidents(alloc, &posting, first, &gates, documents)?)
}

/// Reads the gates and the documents.
fn arguments(alloc: Global, request: &Post) -> Result<(ClassGates, Vec<Posted>), Stop>
    ensures asked { Asks (post_arguments request.now) result }
    ensures gates { IfOk result (λ both. both.0 ≡ request.now.distribution.gates) }
    ensures documents { IfOk result (λ both. both.1.items ≡ documents_in request.now.document) }
{
    let wanted = request.distribution.gates.as_slice();
    let gates = ClassGates::new(alloc, wanted)?;
    let documents = documents(alloc, request.document.as_slice())?;
    // A gate's path would name another class in each document. This is asked after reading, so only of a body that can
    // be read.
    let is_ambiguous = documents.len() > 1 && !wanted.is_empty();
    bad_if(alloc, is_ambiguous, "gates")?;
    bad_if(alloc, have_twins(&documents), "IncidentID")?;
    well_marked(alloc, &documents)?;
    Ok((gates, documents))
}

/// Asks the grounds of the facts: communities and groups, classes, incidents of the same ident, limits.
fn check_facts(
    alloc: Global,
    facts: &Facts,
    gates: &ClassGates,
    documents: &[Posted],
) -> Result<(), Stop>
    ensures asked { Asks (post_facts facts.now gates.now documents.now) result }
    ensures room { OnOk result (facts.now.circle.count + length documents.now ≤ INCIDENT_LIMIT) }
{
    refuse_if(alloc, !facts.circle.exists, Code::N2)?;
    refuse_if(alloc, !gates.stand_at_classes(documents), Code::N3)?;
    refuse_with(alloc, Code::S1, facts.posted)?;
    let count = facts.circle.count as usize + documents.len();
    refuse_if(alloc, count > INCIDENT_LIMIT as usize, Code::L1)?;
    refuse_if(alloc, facts.gates > GATE_LIMIT, Code::L1)?;
    Ok(())
}

/// What the incidents of a body have in common, without the gates at classes.
#[derive(Drop)]
struct Posting {
    source: u32,
    community: Option<u32>,
    level: u8,
    group: Option<u32>,
}

/// The edits that put the incidents in the order of the body, numbered from `first` on, each with its gates.
fn put_incidents(
    alloc: Global,
    posting: &Posting,
    first: u32,
    gates: &ClassGates,
    documents: Vec<Posted>,
) -> Result<Vec<Edit>, AllocError>
    requires { first + length documents.items < 2 ^ 32 }
    ensures { IfOk result (λ edits.
        edits.items ≡
        spec.put_incidents posting.now.source first
        (record {
          community = posting.now.community;
          level = posting.now.level;
          group = posting.now.group;
          gates = gates.now;
        }) documents.items) }
{
    let mut edits = Vec::new(alloc);
    let mut number = first;
    for posted in documents {
        let (document, ident) = posted.into_parts();
        let naming = Naming {
            number,
            source: posting.source,
            ident,
            revision: 1,
            community: posting.community,
        };
        edits.push(Edit::PutIncident(Incident { naming, document }))?;
        gates.put(alloc, &mut edits, number, posting.level, posting.group)?;
        number += 1;
    }
    Ok(edits)
}

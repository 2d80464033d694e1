//! From bytes to documents.

ghost use Rattle.std.specs.Prelude.{◌≡◌, ◌≤◌, option_map, option_and_then, IfOk, codes};
ghost use Rattle.serde_json.specs.Data.{null, put};
ghost use Rattle.serde_json.specs.Data as spec;
ghost use Rattle.serde_json.specs.Find.{as_array, as_object, get_member};
ghost use Rattle.serde_json.specs.Read.{max_depth};
ghost use Rattle.serde_json.specs.View.{view, items_view, members_view};
ghost use Rattle.iodef_tree.specs.Reading.{Returns, parsed, lacking, all_objects, are_incidents, incidents_of, incident_at, all_complete, all_fit};
ghost use Rattle.iodef_tree.specs.Reading.{with_incident, document_of, if_short, documents, reading};
ghost use Rattle.iodef_tree.specs.inner.FitValues.{IsFit, AreFit, taken};
ghost use Rattle.iodef_tree.specs.Tree.{lines};

use crate::convert::object_from;
use crate::document::Document;
use crate::fault::{ReadFault, Required};
use crate::line_limit::room_left;
use crate::unfit_values::{Sought, first_in, is_plain};
use crate::{LINE_LIMIT, REPORT_INCIDENT_LIMIT};
use json_pointer::Path;
use serde_json::{Map, Value};
use std::alloc::{AllocError, Global};

/// Reads a body and returns one document for each Incident, or the first fault.
#[tactic(auto, unfolding(crate::specs::Reading::reading))]
pub(crate) fn read(alloc: Global, bytes: &[u8]) -> Result<Vec<Document>, ReadFault>
    ensures { Returns (λ v. v.items) result (reading bytes.now) }
{
    let body = parse(alloc, bytes)?;
    let Some(incidents) = incidents_in(&body) else {
        return Err(ReadFault::NotDocument);
    };
    check_members(alloc, incidents)?;
    check_values(alloc, &body)?;
    match take_incidents(alloc, body)? {
        Some((root, incidents)) => documents_from(alloc, root, incidents),
        None => Err(ReadFault::NotDocument),
    }
}

/// Reads the bytes as JSON. Fails with NotJson if they are no JSON text, and with NoMemory.
fn parse(alloc: Global, bytes: &[u8]) -> Result<Value, ReadFault>
    ensures gives { Returns view result (parsed bytes.now) }
    ensures nests { IfOk result (λ v. spec.depth (view v) ≤ max_depth) }
{
    match Value::from_slice(alloc, bytes) {
        Ok(value) => Ok(value),
        Err(e) => {
            if e.is_memory() {
                Err(ReadFault::NoMemory)
            } else {
                Err(ReadFault::NotJson)
            }
        }
    }
}

/// Returns the Incidents of a body, if it has 1 to 16 and each is an object.
fn incidents_in(body: &Value) -> Option<&Vec<Value>>
    ensures { option_map (λ v. items_view v.now.items) result
        ≡ option_and_then incidents_of (as_object (view body.now)) }
{
    let incidents = body.get("Incident")?;
    let incidents = incidents.as_array()?;
    if are_incidents(incidents) {
        Some(incidents)
    } else {
        None
    }
}

/// Returns whether there are 1 to 16 elements, and each is an object.
#[tactic(auto, using(crate::proofs::Steps::are_incidents_steps))]
fn are_incidents(items: &Vec<Value>) -> bool
    ensures { result ≡ are_incidents (items_view items.now.items) }
{
    let count = items.as_slice().len();
    if count == 0 {
        return false;
    }
    if count > REPORT_INCIDENT_LIMIT {
        return false;
    }
    all_are_objects(items)
}

/// Returns whether each element is an object.
fn all_are_objects(items: &Vec<Value>) -> bool
    ensures { result ≡ all_objects (items_view items.now.items) }
{
    for item in items {
        if !item.is_object() {
            return false;
        }
    }
    true
}

/// Fails with Missing if an Incident lacks a member that it must have.
fn check_members(alloc: Global, incidents: &Vec<Value>) -> Result<(), ReadFault>
    ensures { Returns (λ _. tt) result (all_complete 0 (items_view incidents.now.items)) }
{
    for (index, incident) in incidents.iter().enumerate() {
        if let Some(required) = first_lacking(incident) {
            return Err(ReadFault::Missing(incident_path(alloc, index)?, required));
        }
    }
    Ok(())
}

/// Returns the path of the Incident at this place.
fn incident_path(alloc: Global, index: usize) -> Result<Path, AllocError>
    ensures { IfOk result (λ p. p ≡ incident_at index) }
{
    let place = format!(in alloc; "{index}")?;
    Path::root(alloc)
        .member(alloc, "Incident")?
        .member(alloc, place.as_str())
}

/// Returns the first member that the Incident lacks, if it lacks one.
fn first_lacking(incident: &Value) -> Option<Required>
    ensures { result ≡ lacking (view incident.now) }
{
    if incident.get("Contact").is_none() {
        return Some(Required::Contact);
    }
    if incident.get("GenerationTime").is_none() {
        return Some(Required::GenerationTime);
    }
    if incident.get("IncidentID").is_none() {
        return Some(Required::IncidentId);
    }
    if incident.get("purpose").is_none() {
        return Some(Required::Purpose);
    }
    None
}

/// Fails with the first value that no document can hold.
#[tactic(auto, using(crate::proofs::Steps::check_values_steps))]
fn check_values(alloc: Global, body: &Value) -> Result<(), ReadFault>
    requires { spec.depth (view body.now) ≤ max_depth }
    ensures { Returns (λ _. tt) result (all_fit (view body.now)) }
{
    // One pass finds out whether there is any fault; only then each kind is looked for, in its order.
    if is_plain(0, 0, body) {
        return Ok(());
    }
    find_fault(alloc, body)
}

/// Looks for each kind of fault in its order: NotWhole, NestedClass, TooDeep.
#[tactic(auto, unfolding(crate::specs::Reading::all_fit))]
fn find_fault(alloc: Global, body: &Value) -> Result<(), ReadFault>
    requires { spec.depth (view body.now) ≤ max_depth }
    ensures { Returns (λ _. tt) result (all_fit (view body.now)) }
{
    if let Some(pointer) = first_in(alloc, Sought::NotWhole, 0, 0, body)? {
        return Err(ReadFault::NotWhole(Path::new(pointer)));
    }
    if let Some(pointer) = first_in(alloc, Sought::NestedClass, 0, 0, body)? {
        return Err(ReadFault::NestedClass(Path::new(pointer)));
    }
    if first_in(alloc, Sought::TooDeep, 0, 0, body)?.is_some() {
        return Err(ReadFault::TooDeep);
    }
    Ok(())
}

/// Returns the members of the root, with null in place of the Incidents, and the Incidents.
fn take_incidents(
    alloc: Global,
    body: Value,
) -> Result<Option<(Map<String, Value>, Vec<Value>)>, ReadFault>
    ensures { Returns (option_map (λ p. (members_view p.0.entries, items_view p.1.items))) result
        (Ok (taken (view body))) }
{
    let Value::Object(mut root) = body else {
        return Ok(None);
    };
    let name = String::from_str(alloc, "Incident")?;
    let Some(member) = root.insert(name, Value::Null)? else {
        return Ok(None);
    };
    match array_in(member) {
        Some(incidents) => Ok(Some((root, incidents))),
        None => Ok(None),
    }
}

/// Returns the elements of a value that is an array.
fn array_in(value: Value) -> Option<Vec<Value>>
    ensures { option_map (λ v. items_view v.items) result ≡ as_array (view value) }
{
    match value {
        Value::Array(items) => Some(items),
        Value::Object(_members) => None,
        Value::String(_text) => None,
        Value::Number(_) | Value::Bool(_) | Value::Null => None,
    }
}

/// Returns one document for each Incident.
fn documents_from(
    alloc: Global,
    root: Map<String, Value>,
    mut incidents: Vec<Value>,
) -> Result<Vec<Document>, ReadFault>
    requires { AreFit (members_view root.entries) (items_view incidents.items) }
    ensures { Returns (λ v.
        v.items) result (documents (members_view root.entries) (items_view incidents.items)) }
{
    let Some(last) = incidents.pop() else {
        return Ok(Vec::new(alloc));
    };
    // The last document takes the root itself, so a body with one Incident copies nothing.
    let mut all = documents_beside(alloc, &root, incidents)?;
    let document = document_from(alloc, root, last)?;
    all.push(document)?;
    Ok(all)
}

/// Returns one document for each Incident, each with a copy of the root. The vector has room for one document more.
fn documents_beside(
    alloc: Global,
    root: &Map<String, Value>,
    incidents: Vec<Value>,
) -> Result<Vec<Document>, ReadFault>
    requires { AreFit (members_view root.now.entries) (items_view incidents.items) }
    ensures { Returns (λ v.
        v.items) result (documents (members_view root.now.entries) (items_view incidents.items)) }
{
    let mut all = Vec::with_capacity(alloc, incidents.as_slice().len() + 1)?;
    for incident in incidents {
        let document = document_from(alloc, root.clone()?, incident)?;
        all.push(document)?;
    }
    Ok(all)
}

/// Returns the document of a root and an Incident. Fails with TooManyLines above the limit of lines.
fn document_from(
    alloc: Global,
    root: Map<String, Value>,
    incident: Value,
) -> Result<Document, ReadFault>
    requires { IsFit (members_view root.entries) (view incident) }
    ensures { Returns (λ d.
        d) result (if_short (lines 1 (document_of (view incident) (members_view root.entries)))) }
{
    let root = object_from(alloc, with_incident(alloc, root, incident)?)?;
    if room_left(&root, LINE_LIMIT).is_none() {
        return Err(ReadFault::TooManyLines);
    }
    Ok(Document::new(root))
}

/// Returns the members of the root with this one Incident.
#[tactic(auto, using(crate::proofs::Exchanged::put_in))]
fn with_incident(
    alloc: Global,
    mut root: Map<String, Value>,
    incident: Value,
) -> Result<Map<String, Value>, AllocError>
    ensures { IfOk result (λ m.
        members_view m.entries ≡ with_incident (view incident) (members_view root.entries)) }
{
    let mut incidents = Vec::with_capacity(alloc, 1)?;
    incidents.push(incident)?;
    let name = String::from_str(alloc, "Incident")?;
    drop(root.insert(name, Value::Array(incidents))?);
    Ok(root)
}

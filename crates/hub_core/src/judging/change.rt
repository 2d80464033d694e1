//! Requests that change one recipient, permission or gate.
ghost use Rattle.std.specs.Prelude.{◌≡◌, [], ◌∷◌, IfOk};
ghost use Rattle.hub_core.specs.Judgement.{grounds_by, is_class_at, is_place_at};
ghost use Rattle.hub_state.specs.Aftermath.{edits_by, put_permission};
ghost use Rattle.hub_core.specs.inner.Asked.{Asks};
ghost use Rattle.hub_state.specs.declared.request.Request.TheVariants as ask;

use crate::judging::gate::{is_bad_group, is_bad_level, is_root};
use crate::judging::stop::{
    Stop, bad_if, other_than, own, path_of, poster, refuse_if, refuse_with,
};
use crate::{GATE_LIMIT, PERMISSION_LIMIT, RECIPIENT_LIMIT};
use circle::directory::Person;
use circle::refusal::Code;
use hub_state::{
    Address, Edit, Facts, Gate, GateKey, Grant, Permission, PermissionKey, Recipient, Redistribute,
    Unaddress, Withdraw,
};
use iodef_tree::Path;
use std::alloc::{AllocError, AllocFailed, Global};

fn one(alloc: Global, edit: Edit) -> Result<Vec<Edit>, AllocFailed<Edit>>
    ensures { IfOk result (λ edits. edits.items ≡ edit ∷ []) }
{
    let mut edits = Vec::new(alloc);
    edits.push(edit)?;
    Ok(edits)
}

/// Returns the edit that puts a recipient, or the refusal of the first ground that holds.
pub fn address(
    alloc: Global,
    actor: &Person,
    facts: &Facts,
    request: &Address,
) -> Result<Vec<Edit>, Stop>
    ensures asked { Asks (grounds_by facts.now actor.now (ask.Address request.now)) result }
    ensures made { IfOk result (λ edits.
        edits.items ≡ edits_by facts.now actor.now (ask.Address request.now)) }
{
    poster(alloc, actor)?;
    own(alloc, actor, facts)?;
    refuse_if(alloc, !facts.circle.exists, Code::N2)?;
    refuse_if(alloc, facts.circle.stands, Code::S1)?;
    refuse_if(alloc, facts.recipients > RECIPIENT_LIMIT, Code::L1)?;
    Ok(one(
        alloc,
        Edit::PutRecipient(Recipient {
            incident: request.incident,
            target: request.target,
        }),
    )?)
}

/// Returns the edit that takes a recipient out, or the refusal of the first ground that holds. Whether the person or
/// organisation is there isn't asked.
pub fn unaddress(
    alloc: Global,
    actor: &Person,
    facts: &Facts,
    request: &Unaddress,
) -> Result<Vec<Edit>, Stop>
    ensures asked { Asks (grounds_by facts.now actor.now (ask.Unaddress request.now)) result }
    ensures made { IfOk result (λ edits.
        edits.items ≡ edits_by facts.now actor.now (ask.Unaddress request.now)) }
{
    poster(alloc, actor)?;
    own(alloc, actor, facts)?;
    refuse_if(alloc, !facts.circle.stands, Code::S2)?;
    Ok(one(
        alloc,
        Edit::TakeRecipient(Recipient {
            incident: request.incident,
            target: request.target,
        }),
    )?)
}

/// Returns the edits that put a permission at a class, in place of one with another end, or the refusal of the first
/// ground that holds. The revision must be the one that the source has seen.
pub fn grant(
    alloc: Global,
    actor: &Person,
    facts: &Facts,
    request: &Grant,
) -> Result<Vec<Edit>, Stop>
    ensures asked { Asks (grounds_by facts.now actor.now (ask.Grant request.now)) result }
    ensures made { IfOk result (λ edits.
        edits.items ≡ edits_by facts.now actor.now (ask.Grant request.now)) }
{
    poster(alloc, actor)?;
    let path = path_of(alloc, request.path.as_str(), "path")?;
    let known = own(alloc, actor, facts)?;
    refuse_if(alloc, !facts.circle.exists, Code::N2)?;
    refuse_if(alloc, !is_class(facts, &path), Code::N3)?;
    refuse_if(alloc, facts.circle.stands, Code::S1)?;
    refuse_with(
        alloc,
        Code::S3,
        other_than(known.revision, request.revision),
    )?;
    refuse_if(alloc, facts.permissions > PERMISSION_LIMIT, Code::L1)?;
    Ok(put_in_place(alloc, request, path)?)
}

/// The edits that put the permission.
fn put_in_place(alloc: Global, request: &Grant, path: Path) -> Result<Vec<Edit>, AllocError>
    ensures { IfOk result (λ edits.
        edits.items ≡
        put_permission
        (record {
          incident = request.now.incident;
          path = path;
          grantee = request.now.grantee;
        }) request.now.until) }
{
    let (incident, grantee) = (request.incident, request.grantee);
    let mut edits = Vec::with_capacity(alloc, 2)?;
    // The key is taken out first, whether or not a permission has it, so an exchange counts once and meets no limit.
    edits.push(Edit::TakePermission(PermissionKey {
        incident,
        path: path.clone()?,
        grantee,
    }))?;
    edits.push(Edit::PutPermission(Permission {
        incident,
        permission: policy::Permission {
            path,
            grantee,
            until: request.until,
        },
    }))?;
    Ok(edits)
}

/// Returns the edit that takes a permission out, ended or not, or the refusal of the first ground that holds. Whether
/// the grantee is there isn't asked.
pub fn withdraw(
    alloc: Global,
    actor: &Person,
    facts: &Facts,
    request: &Withdraw,
) -> Result<Vec<Edit>, Stop>
    ensures asked { Asks (grounds_by facts.now actor.now (ask.Withdraw request.now)) result }
    ensures made { IfOk result (λ edits.
        edits.items ≡ edits_by facts.now actor.now (ask.Withdraw request.now)) }
{
    poster(alloc, actor)?;
    let path = path_of(alloc, request.path.as_str(), "path")?;
    own(alloc, actor, facts)?;
    refuse_if(alloc, !facts.circle.stands, Code::S2)?;
    Ok(one(
        alloc,
        Edit::TakePermission(PermissionKey {
            incident: request.incident,
            path,
            grantee: request.grantee,
        }),
    )?)
}

/// Returns the edits that put a gate at the root or at a class, in place of the one at that path, or the refusal of the
/// first ground that holds.
pub fn redistribute(
    alloc: Global,
    actor: &Person,
    facts: &Facts,
    request: &Redistribute,
) -> Result<Vec<Edit>, Stop>
    ensures asked { Asks (grounds_by facts.now actor.now (ask.Redistribute request.now)) result }
    ensures made { IfOk result (λ edits.
        edits.items ≡ edits_by facts.now actor.now (ask.Redistribute request.now)) }
{
    poster(alloc, actor)?;
    let path = path_of(alloc, request.path.as_str(), "path")?;
    let (incident, level, group) = (request.incident, request.level, request.group);
    bad_if(alloc, is_bad_level(is_root(&path), level), "level")?;
    bad_if(alloc, is_bad_group(level, group), "group")?;
    let known = own(alloc, actor, facts)?;
    refuse_if(alloc, !facts.circle.exists, Code::N2)?;
    refuse_if(alloc, !is_place(facts, &path), Code::N3)?;
    refuse_if(alloc, facts.circle.stands, Code::S1)?;
    refuse_with(
        alloc,
        Code::S3,
        other_than(known.revision, request.revision),
    )?;
    refuse_if(alloc, facts.gates > GATE_LIMIT, Code::L1)?;
    let mut edits = Vec::with_capacity(alloc, 2)?;
    edits.push(Edit::TakeGate(GateKey {
        incident,
        path: path.clone()?,
    }))?;
    edits.push(Edit::PutGate(Gate {
        incident,
        gate: policy::Gate {
            path,
            level: level as u8,
            group,
        },
    }))?;
    Ok(edits)
}

/// Whether the incident that the request names has a class at the path.
pub fn is_class(facts: &Facts, path: &Path) -> bool
    ensures { result ≡ is_class_at facts.now.document path.now }
{
    match &facts.document {
        Some(document) => document.has_class(path),
        None => false,
    }
}

/// Whether the path is the root of the incident or one of its classes.
fn is_place(facts: &Facts, path: &Path) -> bool
    ensures { result ≡ is_place_at facts.now.document path.now }
{
    match &facts.document {
        Some(document) => is_root(path) || document.has_class(path),
        None => false,
    }
}

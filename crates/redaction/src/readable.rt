//! Whether an excerpt is a report again. Nothing is allocated.

ghost use Rattle.std.specs.Prelude.{◌≡◌, option_map, IfSome};
ghost use Rattle.iodef_tree.specs.Filled.{IsFilled, IsMemberFilled, IsItemFilled};
ghost use Rattle.iodef_tree.specs.View.{forest, bodies, body};
ghost use Rattle.iodef_tree.specs.inner.SoundParts.{kids_of};
ghost use Rattle.redaction.specs.inner.Trees as tree;
ghost use Rattle.redaction.specs.Readable as spec;

use crate::limits::is_within_limits;
use iodef_tree::{Document, Item, Member, Object};

/// Returns whether a document has one Incident, with each member that an Incident must have, and is within the limits
/// of lines and of depth that a report has (RFC 7970 section 3.2).
pub(crate) fn is_readable(document: &Document) -> bool
    ensures { result ≡ spec.is_readable document.now }
{
    let root = document.root();
    has_complete_incident(root) && is_within_limits(root)
}

/// Returns whether the tree of a document has one Incident, with each member that an Incident must have.
fn has_complete_incident(root: &Object) -> bool
    requires { IsFilled root.now }
    ensures { result ≡ tree.has_complete_incident_in (forest root.now) }
{
    match incident_of(root) {
        Some(incident) => is_complete(incident),
        None => false,
    }
}

/// Returns whether a class has each member that an Incident must have.
fn is_complete(incident: &Object) -> bool
    requires { IsFilled incident.now }
    ensures { result ≡ tree.is_complete (forest incident.now) }
{
    (has(incident, "Contact") && has(incident, "GenerationTime"))
        && (has(incident, "IncidentID") && has(incident, "purpose"))
}

/// Returns whether a class has a member of this name.
fn has(object: &Object, name: &str) -> bool
    requires { IsFilled object.now }
    ensures { result ≡ tree.has_name name.now (forest object.now) }
{
    for (key, _member) in &object.members {
        if key.as_str() == name {
            return true;
        }
    }
    false
}

/// Returns the Incident, if the first member of that name is an array of one class.
fn incident_of(root: &Object) -> Option<&Object>
    requires { IsFilled root.now }
    ensures found { option_map (λ o. forest o.now) result ≡ tree.incident_in (forest root.now) }
    ensures filled { IfSome result (λ o. IsFilled o.now) }
{
    for (key, member) in &root.members {
        if key.as_str() == "Incident" {
            return only_class(member);
        }
    }
    None
}

/// Returns the class that is the only element of a member's array.
fn only_class(member: &Member) -> Option<&Object>
    requires { IsMemberFilled member.now }
    ensures found { option_map (λ o. forest o.now) result ≡ tree.only_class (bodies member.now) }
    ensures filled { IfSome result (λ o. IsFilled o.now) }
{
    let Member::Many(items) = member else {
        return None;
    };
    if items.len() != 1 {
        return None;
    }
    class_of(items.as_slice().first()?)
}

/// Returns the class that the item is, if it is one.
fn class_of(item: &Item) -> Option<&Object>
    requires { IsItemFilled item.now }
    ensures found { option_map (λ o. forest o.now) result ≡ kids_of (body item.now) }
    ensures filled { IfSome result (λ o. IsFilled o.now) }
{
    match item {
        Item::Class(object) => Some(object),
        Item::Text(_) | Item::Value(_) => None,
    }
}

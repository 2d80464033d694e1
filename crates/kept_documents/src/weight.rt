//! The weight of a document, up to a limit.
#![tactic(auto, using(crate::proofs::Trees::weighing))]

ghost use Rattle.std.specs.Prelude.{◌≡◌, ◌+◌, ◌<◌, IfSome, IfNone};
ghost use Rattle.iodef_tree.specs.View.{forest, bodies, body};
ghost use Rattle.kept_documents.specs.Kept.{own_weight, text_weight};
ghost use Rattle.kept_documents.specs.Trees.{forest_weight, bodies_weight, body_weight};

use iodef_tree::{Item, Member, Object};

/// What a kept document takes besides its lines: an entry of 56 bytes, at most 60 in the tables by number, and the block
/// of the root's members.
pub(crate) const DOCUMENT_WEIGHT: usize = 192;

/// What a line takes without its name and its text: the 64 bytes of a member, and twice the most that the C library adds
/// to a block: once for the name, and once for the text or for the members of the class. It adds 8 bytes, rounds up to a
/// multiple of 16, and may leave 16 more: 47.
const LINE_WEIGHT: usize = 160;

/// The same for an element of an array, which takes 32 bytes of another block.
const ELEMENT_WEIGHT: usize = 240;

/// Returns the weight of a line without its name and its text.
fn own_weight(in_array: bool) -> usize
    ensures { result ≡ own_weight in_array }
{
    if in_array {
        ELEMENT_WEIGHT
    } else {
        LINE_WEIGHT
    }
}

/// Returns the room that a name or a text of so many bytes leaves, or `None` if it weighs more. One of 128 KiB takes
/// whole pages: what is lost of the last one is less than a 32nd.
fn text_room(bytes: usize, room: usize) -> Option<usize>
    ensures some { IfSome result (λ left. left + text_weight bytes ≡ room) }
    ensures none { IfNone result (room < text_weight bytes) }
{
    room.checked_sub(bytes)?.checked_sub(bytes / 32)
}

/// Returns the room that the object's lines leave, or `None` if they weigh more. Takes no memory, and stops at the
/// first line without room.
#[cycle(room)]
pub(crate) fn room_left(object: &Object, room: usize) -> Option<usize>
    ensures some { IfSome result (λ left. left + forest_weight (forest object.now) ≡ room) }
    ensures none { IfNone result (room < forest_weight (forest object.now)) }
{
    let mut left = room;
    for (name, member) in &object.members {
        left = member_room(name.as_str().len(), member, left)?;
    }
    Some(left)
}

/// The same for a member whose name has so many bytes. Each element of an array is a line with that name.
#[cycle(room)]
fn member_room(name: usize, member: &Member, room: usize) -> Option<usize>
    ensures some { IfSome result (λ left. left + bodies_weight name (bodies member.now) ≡ room) }
    ensures none { IfNone result (room < bodies_weight name (bodies member.now)) }
{
    match member {
        Member::One(item) => item_room(false, name, item, room),
        Member::Many(items) => {
            let mut left = room;
            for item in items {
                left = item_room(true, name, item, left)?;
            }
            Some(left)
        }
    }
}

/// The same for the line of an item, and for the lines below it.
#[cycle(room)]
fn item_room(in_array: bool, name: usize, item: &Item, room: usize) -> Option<usize>
    ensures some { IfSome result (λ left. left + body_weight in_array name (body item.now) ≡ room) }
    ensures none { IfNone result (room < body_weight in_array name (body item.now)) }
{
    let left = text_room(name, room.checked_sub(own_weight(in_array))?)?;
    match item {
        Item::Class(object) => room_left(object, left),
        Item::Text(text) | Item::Value(text) => text_room(text.as_str().len(), left),
    }
}

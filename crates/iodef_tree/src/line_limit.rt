//! Counts the lines of a tree against a limit.
#![tactic(auto, using(crate::proofs::Counts::counting))]

ghost use Rattle.std.specs.Prelude.{◌≡◌, ◌+◌, ◌<◌, IfSome, IfNone};
ghost use Rattle.iodef_tree.specs.inner.FitValues.{line_count, bodies_count, body_count};
ghost use Rattle.iodef_tree.specs.View.{forest, bodies, body};

use crate::object::{Item, Member, Object};

/// Returns how many lines there is still room for behind those of the object, or `None` if the object has more than
/// `room`. Allocates nothing.
#[cycle(room)]
pub(crate) fn room_left(object: &Object, room: usize) -> Option<usize>
    ensures some { IfSome result (λ left. left + line_count (forest object.now) ≡ room) }
    ensures none { IfNone result (room < line_count (forest object.now)) }
{
    let mut left = room;
    for (_name, member) in &object.members {
        left = member_room(member, left)?;
    }
    Some(left)
}

/// The same for a member.
#[cycle(room)]
fn member_room(member: &Member, room: usize) -> Option<usize>
    ensures some { IfSome result (λ left. left + bodies_count (bodies member.now) ≡ room) }
    ensures none { IfNone result (room < bodies_count (bodies member.now)) }
{
    match member {
        Member::One(item) => item_room(item, room),
        Member::Many(items) => {
            let mut left = room;
            for item in items {
                left = item_room(item, left)?;
            }
            Some(left)
        }
    }
}

/// The same for an item.
#[cycle(room)]
fn item_room(item: &Item, room: usize) -> Option<usize>
    ensures some { IfSome result (λ left. left + body_count (body item.now) ≡ room) }
    ensures none { IfNone result (room < body_count (body item.now)) }
{
    let left = room.checked_sub(1)?;
    match item {
        Item::Class(object) => room_left(object, left),
        Item::Text(_) | Item::Value(_) => Some(left),
    }
}

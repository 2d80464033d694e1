//! Whether a tree is within the limits of lines and of depth that a report has. Nothing is allocated.

ghost use Rattle.std.specs.Prelude.{◌≡◌, ◌+◌, ◌<◌, ◌&&◌, nat_le, map, IfSome, IfNone};
ghost use Rattle.iodef_tree.specs.Tree.{height};
ghost use Rattle.iodef_tree.specs.View.{forest, bodies, body};
ghost use Rattle.iodef_tree.specs.inner.FitValues.{line_count, bodies_count, body_count};
ghost use Rattle.iodef_tree.specs.declared.TheConstants.{DEPTH_LIMIT as MOST_DEPTH, LINE_LIMIT as MOST_LINES};
ghost use Rattle.redaction.specs.inner.Trees.{bodies_height, body_height};

use iodef_tree::{DEPTH_LIMIT, Item, LINE_LIMIT, Member, Object};

/// Returns whether the tree of a document is within both limits.
pub(crate) fn is_within_limits(root: &Object) -> bool
    ensures { result ≡ (nat_le (line_count (forest root.now)) MOST_LINES && nat_le (height (forest root.now)) MOST_DEPTH) }
{
    room_left(root, LINE_LIMIT).is_some() && is_low(root, DEPTH_LIMIT)
}

/// Returns how many lines there is still room for behind those of the object, or `None` if the object has more than
/// `room`.
#[cycle(room)]
fn room_left(object: &Object, room: usize) -> Option<usize>
    ensures some { IfSome result (λ left. left + line_count (forest object.now) ≡ room) }
    ensures none { IfNone result (room < line_count (forest object.now)) }
{
    let mut left = room;
    for (_name, member) in &object.members {
        left = member_room(member, left)?;
    }
    Some(left)
}

/// The same for a member.
#[cycle(room)]
fn member_room(member: &Member, room: usize) -> Option<usize>
    ensures some { IfSome result (λ left. left + bodies_count (bodies member.now) ≡ room) }
    ensures none { IfNone result (room < bodies_count (bodies member.now)) }
{
    match member {
        Member::One(item) => item_room(item, room),
        Member::Many(items) => {
            let mut left = room;
            for item in items {
                left = item_room(item, left)?;
            }
            Some(left)
        }
    }
}

/// The same for an item.
#[cycle(room)]
fn item_room(item: &Item, room: usize) -> Option<usize>
    ensures some { IfSome result (λ left. left + body_count (body item.now) ≡ room) }
    ensures none { IfNone result (room < body_count (body item.now)) }
{
    let left = room.checked_sub(1)?;
    match item {
        Item::Class(object) => room_left(object, left),
        Item::Text(_) | Item::Value(_) => Some(left),
    }
}

/// Returns whether at most `depth` lines of the object are one below the other.
#[cycle(depth)]
fn is_low(object: &Object, depth: u32) -> bool
    ensures { result ≡ nat_le (height (forest object.now)) depth }
{
    for (_name, member) in &object.members {
        if !is_member_low(member, depth) {
            return false;
        }
    }
    true
}

/// The same for a member.
#[cycle(depth)]
fn is_member_low(member: &Member, depth: u32) -> bool
    ensures { result ≡ nat_le (bodies_height (bodies member.now)) depth }
{
    match member {
        Member::One(item) => is_item_low(item, depth),
        Member::Many(items) => {
            for item in items {
                if !is_item_low(item, depth) {
                    return false;
                }
            }
            true
        }
    }
}

/// The same for an item.
#[cycle(depth)]
fn is_item_low(item: &Item, depth: u32) -> bool
    ensures { result ≡ nat_le (body_height (body item.now)) depth }
{
    let Some(inside) = depth.checked_sub(1) else {
        return false;
    };
    match item {
        Item::Class(object) => is_low(object, inside),
        Item::Text(_) | Item::Value(_) => true,
    }
}

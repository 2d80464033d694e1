//! The lines of a tree.

ghost use Rattle.std.specs.Prelude.{◌≡◌, ◌+◌, ◌^◌, ◌<◌, ◌++◌, ◌∷◌, [], Option, Some, None, OnOk, IfOk};
ghost use Rattle.iodef_tree.specs.Tree.{end, in_front, member_front, height};
ghost use Rattle.iodef_tree.specs.Tree as spec;
ghost use Rattle.iodef_tree.specs.View.{forest, bodies, body};
ghost use Rattle.iodef_tree.specs.Tree.{place_of};

use crate::line::{Kind, Line};
use crate::object::{Item, Member, Object};
use json_pointer::Text;
use std::alloc::{AllocError, Global};

/// Returns the outline of a tree whose members are those of the root.
pub(crate) fn outline_of(alloc: Global, object: &Object) -> Result<Vec<Line>, AllocError>
    requires { height (forest object.now) < 2 ^ 31 }
    ensures { IfOk result (λ v. v.items ≡ spec.lines 1 (forest object.now)) }
{
    let mut lines = Vec::new(alloc);
    push_object(&mut lines, alloc, 1, object)?;
    Ok(lines)
}

/// Appends the lines of the members of an object, at this depth.
#[cycle(outline)]
fn push_object(
    lines: &mut Vec<Line>,
    alloc: Global,
    depth: u32,
    object: &Object,
) -> Result<(), AllocError>
    requires { depth + height (forest object.now) < 2 ^ 32 }
    ensures { OnOk result (lines.new.items ≡
        lines.old.items ++ spec.lines depth (forest object.now)) }
{
    for (name, member) in &object.members {
        push_member(lines, alloc, depth, name, member)?;
    }
    Ok(())
}

/// Appends the lines of a member.
#[cycle(outline)]
fn push_member(
    lines: &mut Vec<Line>,
    alloc: Global,
    depth: u32,
    name: &Text,
    member: &Member,
) -> Result<(), AllocError>
    requires { depth + height (member_front name.now (bodies member.now) end) < 2 ^ 32 }
    ensures { OnOk result
        (lines.new.items ≡
        lines.old.items ++ spec.lines depth (member_front name.now (bodies member.now) end)) }
{
    match member {
        Member::One(item) => push_item(lines, alloc, depth, name, false, item),
        Member::Many(items) => {
            for item in items {
                push_item(lines, alloc, depth, name, true, item)?;
            }
            Ok(())
        }
    }
}

/// Appends the lines of an item: one, and for a class those of its members behind it.
#[cycle(outline)]
fn push_item(
    lines: &mut Vec<Line>,
    alloc: Global,
    depth: u32,
    name: &Text,
    in_array: bool,
    item: &Item,
) -> Result<(), AllocError>
    requires { depth + height (in_front name.now None (body item.now) end) < 2 ^ 32 }
    ensures { OnOk result (lines.new.items ≡ lines.old.items
        ++ spec.lines depth (in_front name.now (place_of in_array 0) (body item.now) end)) }
{
    match item {
        Item::Class(object) => {
            let text = Text::new(String::new(alloc));
            push_line(lines, depth, name, in_array, Kind::Class, text)?;
            push_object(lines, alloc, depth + 1, object)
        }
        Item::Text(text) => push_plain(lines, depth, name, in_array, Kind::Text, text),
        Item::Value(text) => push_plain(lines, depth, name, in_array, Kind::Value, text),
    }
}

/// Appends a line under a copy of its name.
fn push_line(
    lines: &mut Vec<Line>,
    depth: u32,
    name: &Text,
    in_array: bool,
    kind: Kind,
    text: Text,
) -> Result<(), AllocError>
    ensures { OnOk result (lines.new.items ≡ lines.old.items
        ++ record {
          depth = depth;
          name = name.now;
          in_array = in_array;
          kind = kind;
          text = text;
        } ∷ []) }
{
    let name = name.clone()?;
    lines.push(Line {
        depth,
        name,
        in_array,
        kind,
        text,
    })?;
    Ok(())
}

/// Appends a plain line with a copy of its text.
fn push_plain(
    lines: &mut Vec<Line>,
    depth: u32,
    name: &Text,
    in_array: bool,
    kind: Kind,
    text: &Text,
) -> Result<(), AllocError>
    ensures { OnOk result (lines.new.items ≡ lines.old.items
        ++ record {
          depth = depth;
          name = name.now;
          in_array = in_array;
          kind = kind;
          text = text.now;
        } ∷ []) }
{
    push_line(lines, depth, name, in_array, kind, text.clone()?)
}

//! The paths of the classes. One walk goes down the tree and changes one path as it goes.

ghost use Rattle.std.specs.Prelude.{◌≡◌, ◌++◌, ◌∷◌, [], OnOk, IfOk, Option, Some, None};
ghost use Rattle.iodef_tree.specs.Tree.{end, in_front, member_front, steps};
ghost use Rattle.iodef_tree.specs.Walk.{classes_below};
ghost use Rattle.iodef_tree.specs.View.{forest, bodies, body};

use crate::object::{Item, Member, Object};
use json_pointer::{Path, Text};
use std::alloc::{AllocError, Global};

/// Returns the paths of the classes below an object whose path is empty, in stored order.
pub(crate) fn classes_of(alloc: Global, object: &Object) -> Result<Vec<Path>, AllocError>
    ensures { IfOk result (λ v. v.items ≡ classes_below [] (forest object.now)) }
{
    let mut paths = Vec::new(alloc);
    let mut above = Vec::new(alloc);
    push_object(&mut paths, alloc, &mut above, object)?;
    Ok(paths)
}

/// Appends the paths of the classes in an object whose path is `above`.
#[cycle(classes)]
fn push_object(
    paths: &mut Vec<Path>,
    alloc: Global,
    above: &mut Vec<Text>,
    object: &Object,
) -> Result<(), AllocError>
    ensures pushed { OnOk result (paths.new.items ≡
        paths.old.items ++ classes_below above.old.items (forest object.now)) }
    ensures kept { OnOk result (above.new.items ≡ above.old.items) }
{
    for (name, member) in &object.members {
        push_member(paths, alloc, above, name, member)?;
    }
    Ok(())
}

/// Appends the paths of the classes in a member.
#[cycle(classes)]
fn push_member(
    paths: &mut Vec<Path>,
    alloc: Global,
    above: &mut Vec<Text>,
    name: &Text,
    member: &Member,
) -> Result<(), AllocError>
    ensures pushed { OnOk result (paths.new.items
        ≡ paths.old.items ++
        classes_below above.old.items (member_front name.now (bodies member.now) end)) }
    ensures kept { OnOk result (above.new.items ≡ above.old.items) }
{
    match member {
        Member::One(item) => push_item(paths, alloc, above, name, None, item),
        Member::Many(items) => {
            for (place, item) in items.iter().enumerate() {
                push_item(paths, alloc, above, name, Some(place), item)?;
            }
            Ok(())
        }
    }
}

/// Appends the path of an item that is a class, and those of the classes in it.
#[cycle(classes)]
fn push_item(
    paths: &mut Vec<Path>,
    alloc: Global,
    above: &mut Vec<Text>,
    name: &Text,
    place: Option<usize>,
    item: &Item,
) -> Result<(), AllocError>
    ensures pushed { OnOk result (paths.new.items
        ≡ paths.old.items ++
        classes_below above.old.items (in_front name.now place (body item.now) end)) }
    ensures kept { OnOk result (above.new.items ≡ above.old.items) }
{
    match item {
        Item::Class(object) => {
            let depth = above.len();
            push_path(paths, alloc, above, name, place)?;
            push_object(paths, alloc, above, object)?;
            above.truncate(depth);
            Ok(())
        }
        Item::Text(_) | Item::Value(_) => Ok(()),
    }
}

/// Goes down to a class and appends its path.
fn push_path(
    paths: &mut Vec<Path>,
    alloc: Global,
    above: &mut Vec<Text>,
    name: &Text,
    place: Option<usize>,
) -> Result<(), AllocError>
    ensures pushed { OnOk result (paths.new.items ≡
        paths.old.items ++ (above.old.items ++ steps name.now place) ∷ []) }
    ensures above { OnOk result (above.new.items ≡ above.old.items ++ steps name.now place) }
{
    push_steps(above, alloc, name, place)?;
    paths.push(path_of(alloc, above)?)?;
    Ok(())
}

/// Adds to the path the name of a member and, in an array, a place.
fn push_steps(
    above: &mut Vec<Text>,
    alloc: Global,
    name: &Text,
    place: Option<usize>,
) -> Result<(), AllocError>
    ensures { OnOk result (above.new.items ≡ above.old.items ++ steps name.now place) }
{
    above.push(name.clone()?)?;
    if let Some(place) = place {
        above.push(Text::new(format!(in alloc; "{place}")?))?;
    }
    Ok(())
}

/// Returns the path of these tokens, which are copied.
fn path_of(alloc: Global, tokens: &[Text]) -> Result<Path, AllocError>
    ensures { IfOk result (λ p. p ≡ tokens.now) }
{
    let mut copy = Vec::with_capacity(alloc, tokens.len())?;
    for token in tokens {
        copy.push(token.clone()?)?;
    }
    Ok(Path::new(copy))
}

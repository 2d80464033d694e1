//! Copies of a tree, which contracts see as the same tree.

ghost use Rattle.std.specs.Prelude.{◌≡◌, ◌++◌, ◌∷◌, [], IfOk, OnOk, map};
ghost use Rattle.iodef_tree.specs.Filled.{is_object_filled, is_member_filled, is_item_filled, IsItemFilled};
ghost use Rattle.iodef_tree.specs.Tree.{says, value};
ghost use Rattle.iodef_tree.specs.Tree as spec;
ghost use Rattle.iodef_tree.specs.View.{forest, bodies, body, named};

use crate::object::{Item, Member, Object};
use json_pointer::Text;
use std::alloc::{AllocError, Global};

/// Returns a copy of an object.
#[cycle(copy)]
pub(crate) fn copy_object(alloc: Global, object: &Object) -> Result<Object, AllocError>
    ensures same { IfOk result (λ o. forest o ≡ forest object.now) }
    ensures filled { IfOk result (λ o. is_object_filled o ≡ is_object_filled object.now) }
{
    Ok(Object {
        members: copy_members(alloc, &object.members)?,
    })
}

/// Returns a copy of the members of an object.
#[cycle(copy)]
fn copy_members(
    alloc: Global,
    members: &Vec<(Text, Member)>,
) -> Result<Vec<(Text, Member)>, AllocError>
    ensures same { IfOk result (λ v. map named v.items ≡ map named members.now.items) }
    ensures filled { IfOk result (λ v.
        map (λ m. is_member_filled m.1) v.items ≡
        map (λ m. is_member_filled m.1) members.now.items) }
{
    let mut made = Vec::with_capacity(alloc, members.len())?;
    for (name, member) in members {
        push_copied(&mut made, name, copy_member(alloc, member)?)?;
    }
    Ok(made)
}

/// Returns a copy of a member.
#[cycle(copy)]
fn copy_member(alloc: Global, member: &Member) -> Result<Member, AllocError>
    ensures same { IfOk result (λ m. bodies m ≡ bodies member.now) }
    ensures filled { IfOk result (λ m. is_member_filled m ≡ is_member_filled member.now) }
{
    match member {
        Member::One(item) => Ok(Member::One(copy_item(alloc, item)?)),
        Member::Many(items) => Ok(Member::Many(copy_items(alloc, items)?)),
    }
}

/// Returns a copy of the elements of an array.
#[cycle(copy)]
fn copy_items(alloc: Global, items: &Vec<Item>) -> Result<Vec<Item>, AllocError>
    ensures same { IfOk result (λ v. map body v.items ≡ map body items.now.items) }
    ensures filled { IfOk result (λ v.
        map is_item_filled v.items ≡ map is_item_filled items.now.items) }
{
    let mut made = Vec::with_capacity(alloc, items.len())?;
    for item in items {
        made.push(copy_item(alloc, item)?)?;
    }
    Ok(made)
}

/// Returns a copy of an item.
#[cycle(copy)]
fn copy_item(alloc: Global, item: &Item) -> Result<Item, AllocError>
    ensures same { IfOk result (λ i. body i ≡ body item.now) }
    ensures filled { IfOk result (λ i. is_item_filled i ≡ is_item_filled item.now) }
{
    match item {
        Item::Class(object) => Ok(Item::Class(copy_object(alloc, object)?)),
        Item::Text(text) => copy_text(text),
        Item::Value(text) => copy_value(text),
    }
}

/// Appends a member under a copy of its name.
fn push_copied(
    made: &mut Vec<(Text, Member)>,
    name: &Text,
    member: Member,
) -> Result<(), AllocError>
    ensures { OnOk result (made.new.items ≡ made.old.items ++ (name.now, member) ∷ []) }
{
    made.push((name.clone()?, member))?;
    Ok(())
}

/// Returns a text with a copy of its bytes.
fn copy_text(text: &Text) -> Result<Item, AllocError>
    ensures same { IfOk result (λ i. body i ≡ says (spec.text text.now)) }
    ensures filled { IfOk result (λ i. IsItemFilled i) }
{
    Ok(Item::Text(text.clone()?))
}

/// Returns a value with a copy of its text.
fn copy_value(text: &Text) -> Result<Item, AllocError>
    ensures same { IfOk result (λ i. body i ≡ says (value text.now)) }
    ensures filled { IfOk result (λ i. IsItemFilled i) }
{
    Ok(Item::Value(text.clone()?))
}

//! A tree as compact JSON.

ghost use Rattle.std.specs.Prelude.{◌≡◌, ◌++◌, ◌∷◌, [], map, false, string_bytes, IfOk, OnOk};
ghost use Rattle.std.specs.List.{AllByRecursion};
ghost use Rattle.json.specs.Print.{quoted};
ghost use Rattle.serde_json.specs.Written.{comma_if};
ghost use Rattle.iodef_tree.specs.View.{forest, bodies, body};
ghost use Rattle.iodef_tree.specs.Filled.{IsFilled, IsMemberFilled, IsItemFilled};
ghost use Rattle.iodef_tree.specs.inner.Written.{written, body_text, array_text, bodies_text, member_text};

use crate::object::{Item, Member, Object};
use crate::string::push_quoted;
use json_pointer::Text;
use std::alloc::{AllocError, Global};

/// Returns the object as compact JSON.
pub(crate) fn object_text(alloc: Global, object: &Object) -> Result<String, AllocError>
    requires { IsFilled object.now }
    ensures { IfOk result (λ s.
        string_bytes s ≡ 123 ∷ (written false (forest object.now) ++ 125 ∷ [])) }
{
    let mut out = String::new(alloc);
    write_object(alloc, &mut out, object)?;
    Ok(out)
}

/// Appends the object.
#[cycle(write)]
fn write_object(alloc: Global, out: &mut String, object: &Object) -> Result<(), AllocError>
    requires { IsFilled object.now }
    ensures { OnOk result (string_bytes out.new ≡
        string_bytes out.old ++ 123 ∷ (written false (forest object.now) ++ 125 ∷ [])) }
{
    out.push('{')?;
    let mut later = false;
    for (name, member) in &object.members {
        write_member(alloc, out, later, name, member)?;
        later = true;
    }
    out.push('}')
}

/// Appends a member, after a comma if it isn't the first.
#[cycle(write)]
fn write_member(
    alloc: Global,
    out: &mut String,
    later: bool,
    name: &Text,
    member: &Member,
) -> Result<(), AllocError>
    requires { IsMemberFilled member.now }
    ensures { OnOk result (string_bytes out.new ≡
        string_bytes out.old ++ member_text later name.now (bodies member.now)) }
{
    write_front(alloc, out, later, name)?;
    write_bodies(alloc, out, member)
}

/// Appends what comes before the value of a member: a comma if the member isn't the first, the name and a colon.
fn write_front(alloc: Global, out: &mut String, later: bool, name: &Text) -> Result<(), AllocError>
    ensures { OnOk result (string_bytes out.new ≡
        string_bytes out.old ++ (comma_if later ++ (quoted name.now ++ 58 ∷ []))) }
{
    write_comma(out, later)?;
    push_quoted(alloc, out, name.as_str())?;
    out.push(':')
}

/// Appends a comma if something comes before.
fn write_comma(out: &mut String, later: bool) -> Result<(), AllocError>
    ensures { OnOk result (string_bytes out.new ≡ string_bytes out.old ++ comma_if later) }
{
    if later {
        out.push(',')?;
    }
    Ok(())
}

/// Appends the value of a member.
#[cycle(write)]
fn write_bodies(alloc: Global, out: &mut String, member: &Member) -> Result<(), AllocError>
    requires { IsMemberFilled member.now }
    ensures { OnOk result (string_bytes out.new ≡
        string_bytes out.old ++ bodies_text (bodies member.now)) }
{
    match member {
        Member::One(item) => write_item(alloc, out, item),
        Member::Many(items) => write_items(alloc, out, items),
    }
}

/// Appends the items as an array.
#[cycle(write)]
fn write_items(alloc: Global, out: &mut String, items: &Vec<Item>) -> Result<(), AllocError>
    requires { AllByRecursion IsItemFilled items.now.items }
    ensures { OnOk result (string_bytes out.new ≡
        string_bytes out.old ++ 91 ∷ array_text false (map body items.now.items)) }
{
    out.push('[')?;
    let mut later = false;
    for item in items {
        write_comma(out, later)?;
        write_item(alloc, out, item)?;
        later = true;
    }
    out.push(']')
}

/// Appends the item. A value is appended as its text.
#[cycle(write)]
fn write_item(alloc: Global, out: &mut String, item: &Item) -> Result<(), AllocError>
    requires { IsItemFilled item.now }
    ensures { OnOk result (string_bytes out.new ≡
        string_bytes out.old ++ body_text (body item.now)) }
{
    match item {
        Item::Class(object) => write_object(alloc, out, object),
        Item::Text(text) => push_quoted(alloc, out, text.as_str()),
        Item::Value(text) => out.push_str(text.as_str()),
    }
}

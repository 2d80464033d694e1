//! The texts that the classes of a document directly hold, by one walk down its tree. Copies no text.

ghost use Rattle.std.specs.Prelude.{◌≡◌, ◌++◌, map, IfOk, OnOk};
ghost use Rattle.iodef_tree.specs.View.{forest, bodies, body};
ghost use Rattle.sketch.specs.Holdings.{held_in};
ghost use Rattle.sketch.specs.Holdings as spec;
ghost use Rattle.sketch.specs.Labels.{handlings as of_classes};
ghost use Rattle.sketch.specs.inner.Held.{shown, body_texts, bodies_texts, texts_in, front, behind, left_below, holdings_below, body_left, body_holdings};
ghost use Rattle.sketch.specs.inner.Held.{bodies_left, bodies_holdings};

use iodef_tree::{Document, Item, Member, Object};
use marking::Handling;
use std::alloc::{AllocError, Global};

/// A text with the class that directly holds it.
#[derive(Clone, Copy)]
pub(crate) struct Holding<'a> {
    /// The name of the class.
    pub class: &'a str,
    /// How the label in force there is handled; `None` for `default`.
    pub handling: Option<Handling>,
    /// The text.
    pub text: &'a str,
}

/// Returns the texts that the classes of the document directly hold, class by class in stored order. `handlings` are
/// those of its classes. Fails if memory runs out.
pub(crate) fn holdings<'a>(
    alloc: Global,
    document: &'a Document,
    handlings: &[Option<Handling>],
) -> Result<Vec<Holding<'a>>, AllocError>
    requires { handlings.now ≡ of_classes document.now }
    ensures { IfOk result (λ v. map shown v.items ≡ spec.holdings document.now) }
{
    let mut held = Vec::new(alloc);
    push_below(&mut held, handlings, document.root())?;
    Ok(held)
}

/// Appends what the classes in an object hold. Returns the handlings behind theirs.
#[cycle(holdings)]
fn push_below<'a, 'h>(
    held: &mut Vec<Holding<'a>>,
    handlings: &'h [Option<Handling>],
    object: &'a Object,
) -> Result<&'h [Option<Handling>], AllocError>
    ensures held { OnOk result (map shown held.new.items ≡
        map shown held.old.items ++ holdings_below handlings.now (forest object.now)) }
    ensures left { IfOk result (λ left. left.now ≡ left_below handlings.now (forest object.now)) }
{
    let mut left = handlings;
    for (name, member) in &object.members {
        left = push_member(held, left, name.as_str(), member)?;
    }
    Ok(left)
}

/// Appends what the classes in a member hold. Returns the handlings behind theirs.
#[cycle(holdings)]
fn push_member<'a, 'h>(
    held: &mut Vec<Holding<'a>>,
    handlings: &'h [Option<Handling>],
    name: &'a str,
    member: &'a Member,
) -> Result<&'h [Option<Handling>], AllocError>
    ensures held { OnOk result (map shown held.new.items ≡
        map shown held.old.items ++ bodies_holdings handlings.now name.now (bodies member.now)) }
    ensures left { IfOk result (λ left. left.now ≡ bodies_left handlings.now (bodies member.now)) }
{
    match member {
        Member::One(item) => push_item(held, handlings, name, item),
        Member::Many(items) => {
            let mut left = handlings;
            for item in items {
                left = push_item(held, left, name, item)?;
            }
            Ok(left)
        }
    }
}

/// Appends what an item that is a class holds, and the classes in it. Returns the handlings behind theirs.
#[cycle(holdings)]
fn push_item<'a, 'h>(
    held: &mut Vec<Holding<'a>>,
    handlings: &'h [Option<Handling>],
    name: &'a str,
    item: &'a Item,
) -> Result<&'h [Option<Handling>], AllocError>
    ensures held { OnOk result (map shown held.new.items ≡
        map shown held.old.items ++ body_holdings handlings.now name.now (body item.now)) }
    ensures left { IfOk result (λ left. left.now ≡ body_left handlings.now (body item.now)) }
{
    match item {
        Item::Class(object) => push_class(held, handlings, name, object),
        Item::Text(_) => Ok(handlings),
        Item::Value(_) => Ok(handlings),
    }
}

/// Appends what a class holds, and the classes in it. Returns the handlings behind theirs.
#[cycle(holdings)]
fn push_class<'a, 'h>(
    held: &mut Vec<Holding<'a>>,
    handlings: &'h [Option<Handling>],
    name: &'a str,
    object: &'a Object,
) -> Result<&'h [Option<Handling>], AllocError>
    ensures held { OnOk result (map shown held.new.items ≡
        map shown held.old.items ++
        (map (held_in name.now (front handlings.now)) (texts_in (forest object.now))
        ++ holdings_below (behind handlings.now) (forest object.now))) }
    ensures left { IfOk result (λ left. left.now ≡
        left_below (behind handlings.now) (forest object.now)) }
{
    let (handling, behind) = split(handlings);
    push_texts(held, name, handling, object)?;
    push_below(held, behind, object)
}

/// Returns the front one of some handlings, and those behind it.
fn split(handlings: &[Option<Handling>]) -> (Option<Handling>, &[Option<Handling>])
    ensures front { result.0 ≡ front handlings.now }
    ensures behind { result.1.now ≡ behind handlings.now }
{
    match handlings.split_first() {
        Some((handling, behind)) => (*handling, behind),
        None => (None, handlings),
    }
}

/// Appends the texts that a class directly holds.
fn push_texts<'a>(
    held: &mut Vec<Holding<'a>>,
    class: &'a str,
    handling: Option<Handling>,
    object: &'a Object,
) -> Result<(), AllocError>
    ensures { OnOk result (map shown held.new.items ≡
        map shown held.old.items ++ map (held_in class.now handling) (texts_in (forest object.now))) }
{
    for (_, member) in &object.members {
        push_member_texts(held, class, handling, member)?;
    }
    Ok(())
}

/// Appends the texts of a member of a class.
fn push_member_texts<'a>(
    held: &mut Vec<Holding<'a>>,
    class: &'a str,
    handling: Option<Handling>,
    member: &'a Member,
) -> Result<(), AllocError>
    ensures { OnOk result (map shown held.new.items ≡
        map shown held.old.items ++ map (held_in class.now handling) (bodies_texts (bodies member.now))) }
{
    match member {
        Member::One(item) => push_text(held, class, handling, item),
        Member::Many(items) => {
            for item in items {
                push_text(held, class, handling, item)?;
            }
            Ok(())
        }
    }
}

/// Appends an item of a class if it is a text.
fn push_text<'a>(
    held: &mut Vec<Holding<'a>>,
    class: &'a str,
    handling: Option<Handling>,
    item: &'a Item,
) -> Result<(), AllocError>
    ensures { OnOk result (map shown held.new.items ≡
        map shown held.old.items ++ map (held_in class.now handling) (body_texts (body item.now))) }
{
    match item {
        Item::Class(_) => Ok(()),
        Item::Text(text) => {
            held.push(Holding {
                class,
                handling,
                text: text.as_str(),
            })?;
            Ok(())
        }
        Item::Value(_) => Ok(()),
    }
}

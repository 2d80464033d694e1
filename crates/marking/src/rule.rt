//! The marking rule over a whole document.

ghost use Rattle.std.specs.Prelude.{◌≡◌, ◌++◌, option_map, IfOk, OnOk};
ghost use Rattle.iodef_tree.specs.Filled.{IsFilled, IsMemberFilled, IsItemFilled};
ghost use Rattle.iodef_tree.specs.Tree.{end, holds, in_front, member_front, steps};
ghost use Rattle.iodef_tree.specs.View.{forest, bodies, body};
ghost use Rattle.iodef_tree.specs.Paths.{located};
ghost use Rattle.marking.specs.Marks.{first_bad_marking};
ghost use Rattle.marking.specs.inner.Pass.{bad_below, bad_in_body, tokens_of};
ghost use Rattle.marking.specs.Checked.{Checks};

use crate::class::is_well_marked;
use crate::fault::MarkingFault;
use iodef_tree::{Document, Item, Member, Object, Path, Text};
use std::alloc::{AllocError, Global};

/// Checks that each class of the document keeps the marking rule: it has neither `restriction` nor `ext-restriction`,
/// or the two spell a label (RFC 7970 sections 3.3.1 and 5.1.1). What the root holds under these names marks nothing.
///
/// Fails with BadMarking and the path of the first class, in stored order, that breaks the rule. Allocates only that
/// path; fails with NoMemory if it can't.
pub fn check(alloc: Global, document: &Document) -> Result<(), MarkingFault>
    ensures { Checks result (first_bad_marking (located document.now)) }
{
    match bad_below(alloc, document.root())? {
        None => Ok(()),
        Some(mut trail) => {
            trail.as_mut_slice().reverse();
            Err(MarkingFault::BadMarking(Path::new(trail)))
        }
    }
}

/// Returns the tokens from the object down to the first class below it that breaks the marking rule, the last token
/// first.
#[cycle(check)]
#[tactic(auto, using(crate::proofs::Fronts::bad_steps))]
fn bad_below(alloc: Global, object: &Object) -> Result<Option<Vec<Text>>, AllocError>
    requires filled { IsFilled object.now }
    ensures { IfOk result (λ o. option_map tokens_of o ≡ bad_below (forest object.now)) }
{
    for (name, member) in &object.members {
        if let Some(trail) = bad_in_member(alloc, name, member)? {
            return Ok(Some(trail));
        }
    }
    Ok(None)
}

/// The same for the classes in a member.
#[cycle(check)]
#[tactic(auto, using(crate::proofs::Fronts::bad_steps))]
fn bad_in_member(
    alloc: Global,
    name: &Text,
    member: &Member,
) -> Result<Option<Vec<Text>>, AllocError>
    requires filled { IsMemberFilled member.now }
    ensures { IfOk result (λ o.
        option_map tokens_of o ≡ bad_below (member_front name.now (bodies member.now) end)) }
{
    match member {
        Member::One(item) => bad_in_item(alloc, name, None, item),
        Member::Many(items) => {
            for (index, item) in items.iter().enumerate() {
                if let Some(trail) = bad_in_item(alloc, name, Some(index), item)? {
                    return Ok(Some(trail));
                }
            }
            Ok(None)
        }
    }
}

/// The same for an item, itself included.
#[cycle(check)]
#[tactic(auto, using(crate::proofs::Fronts::bad_steps))]
fn bad_in_item(
    alloc: Global,
    name: &Text,
    index: Option<usize>,
    item: &Item,
) -> Result<Option<Vec<Text>>, AllocError>
    requires filled { IsItemFilled item.now }
    ensures { IfOk result (λ o.
        option_map tokens_of o ≡ bad_below (in_front name.now index (body item.now) end)) }
{
    match item {
        Item::Class(object) => match bad_in_class(alloc, object)? {
            None => Ok(None),
            Some(mut trail) => {
                push_steps(alloc, &mut trail, name, index)?;
                Ok(Some(trail))
            }
        },
        Item::Text(_) => Ok(None),
        Item::Value(_) => Ok(None),
    }
}

/// The same for a class, itself included.
#[cycle(check)]
#[tactic(auto, using(crate::proofs::Fronts::bad_steps))]
fn bad_in_class(alloc: Global, object: &Object) -> Result<Option<Vec<Text>>, AllocError>
    requires filled { IsFilled object.now }
    ensures { IfOk result (λ o. option_map tokens_of o ≡ bad_in_body (holds (forest object.now))) }
{
    if is_well_marked(object) {
        bad_below(alloc, object)
    } else {
        Ok(Some(Vec::new(alloc)))
    }
}

/// Appends the tokens that lead from the class above to a class, in reverse order: in an array the place comes first.
fn push_steps(
    alloc: Global,
    trail: &mut Vec<Text>,
    name: &Text,
    index: Option<usize>,
) -> Result<(), AllocError>
    ensures { OnOk result (tokens_of trail.new ≡ steps name.now index ++ tokens_of trail.old) }
{
    if let Some(index) = index {
        trail.push(Text::new(format!(in alloc; "{index}")?))?;
    }
    trail.push(name.clone()?)?;
    Ok(())
}

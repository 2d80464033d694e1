//! The label that holds at each class, in one pass down the tree.

ghost use Rattle.std.specs.Prelude.{◌≡◌, ◌++◌, map, Some, None, option_map, IfOk, OnOk, string_bytes};
ghost use Rattle.std.specs.List.{flat_map};
ghost use Rattle.iodef_tree.specs.Text.{Bytes};
ghost use Rattle.iodef_tree.specs.Filled.{IsFilled, IsMemberFilled, IsItemFilled};
ghost use Rattle.iodef_tree.specs.Tree.{end, in_front, member_front, steps};
ghost use Rattle.iodef_tree.specs.View.{forest, bodies, body};
ghost use Rattle.iodef_tree.specs.Paths.{located, class_paths};
ghost use Rattle.iodef_tree.specs.Pointer.{pointer_text};
ghost use Rattle.marking.specs.Label.{marking_of};
ghost use Rattle.marking.specs.Marks.{Marked, first_bad_marking, marked_at, marked_by};
ghost use Rattle.marking.specs.inner.Pass.{marked_step, marked_below};
ghost use Rattle.marking.specs.inner.Pass as spec;

use crate::class::written;
use crate::label::Label;
use iodef_tree::{Document, Item, Member, Object, push_token};
use std::alloc::{AllocError, Global};

/// A class with the label that holds at it. Its members inherit the label and the site.
#[derive(Clone, Copy)]
pub struct Mark<'a> {
    /// The class's path as a JSON pointer.
    pub path: &'a str,
    /// The label that holds at the class.
    pub label: Label<'a>,
    /// The path of the nearest class or root with an own label, as a JSON pointer.
    pub site: &'a str,
}

/// Room for two slashes and a place in an array.
const ROOM: usize = 22;

/// Writes the classes of a document, one after another.
pub trait MarkWriter {
    /// What was written.
    ghost text: { Self → Bytes };

    /// What is written of a class.
    ghost line: { Marked → Bytes };

    /// Writes the class. Fails if memory runs out.
    fn write(&mut self, alloc: Global, mark: Mark<'_>) -> Result<(), AllocError>
        ensures { OnOk result (text self.new ≡ text self.old ++ line (marked_by mark.entry)) };
}

/// Hands each class to the writer, in stored order, with the label that holds at it and the site of that label.
///
/// One pass, linear in the number of lines. The writer borrows each mark and keeps none. Fails if the writer fails or
/// memory runs out.
pub fn write_marks<W: MarkWriter>(
    alloc: Global,
    document: &Document,
    writer: &mut W,
) -> Result<(), AllocError>
    requires { first_bad_marking (located document.now) ≡ None }
    ensures { OnOk result (let es = located document.now in
        W.text writer.new ≡
        W.text writer.old ++ flat_map W.line (map (marked_at es) (class_paths es))) }
{
    let root = Mark {
        path: "",
        label: Label::Private,
        site: "",
    };
    write_members(alloc, writer, root, document.root())
}

/// Hands the classes in an object to the writer.
#[cycle(marks)]
#[tactic(auto, using(crate::proofs::Fronts::marked_steps))]
fn write_members<W: MarkWriter>(
    alloc: Global,
    writer: &mut W,
    above: Mark<'_>,
    object: &Object,
) -> Result<(), AllocError>
    requires filled { IsFilled object.now }
    ensures { OnOk result (W.text writer.new
        ≡ W.text writer.old ++
        flat_map W.line (marked_below (marked_by above.entry) (forest object.now))) }
{
    for (name, member) in &object.members {
        write_member(alloc, writer, above, name.as_str(), member)?;
    }
    Ok(())
}

/// Hands the classes in a member to the writer.
#[cycle(marks)]
#[tactic(auto, using(crate::proofs::Fronts::marked_steps))]
fn write_member<W: MarkWriter>(
    alloc: Global,
    writer: &mut W,
    above: Mark<'_>,
    name: &str,
    member: &Member,
) -> Result<(), AllocError>
    requires filled { IsMemberFilled member.now }
    ensures { OnOk result (W.text writer.new
        ≡ W.text writer.old ++
        flat_map W.line (marked_below (marked_by above.entry)
        (member_front name.now (bodies member.now) end))) }
{
    match member {
        Member::One(item) => write_item(alloc, writer, above, name, None, item),
        Member::Many(items) => {
            for (index, item) in items.iter().enumerate() {
                write_item(alloc, writer, above, name, Some(index), item)?;
            }
            Ok(())
        }
    }
}

/// Hands an item that is a class, and the classes in it, to the writer.
#[cycle(marks)]
#[tactic(auto, using(crate::proofs::Fronts::marked_steps))]
fn write_item<W: MarkWriter>(
    alloc: Global,
    writer: &mut W,
    above: Mark<'_>,
    name: &str,
    index: Option<usize>,
    item: &Item,
) -> Result<(), AllocError>
    requires filled { IsItemFilled item.now }
    ensures { OnOk result (W.text writer.new
        ≡ W.text writer.old ++
        flat_map W.line (marked_below (marked_by above.entry)
        (in_front name.now index (body item.now) end))) }
{
    match item {
        Item::Class(object) => {
            // The pointer of each class is built once, from the pointer of the class above.
            let path = path_below(alloc, above.path, name, index)?;
            write_class(alloc, writer, above, path.as_str(), object)
        }
        _ => Ok(()),
    }
}

/// Hands a class and the classes in it to the writer.
#[cycle(marks)]
#[tactic(auto, using(crate::proofs::Fronts::marked_steps))]
fn write_class<W: MarkWriter>(
    alloc: Global,
    writer: &mut W,
    above: Mark<'_>,
    path: &str,
    object: &Object,
) -> Result<(), AllocError>
    requires filled { IsFilled object.now }
    ensures { OnOk result
        (let own = spec.own_below path.now (forest object.now) in
        let here = marked_step (marked_by above.entry) path.now own in
        W.text writer.new ≡
        W.text writer.old ++ W.line here ++
        flat_map W.line (marked_below here (forest object.now))) }
{
    let here = below(above, path, own_below(path, object));
    writer.write(alloc, here)?;
    write_members(alloc, writer, here, object)
}

/// Returns the pointer of a member, or of an element, of the class above.
fn path_below(
    alloc: Global,
    above: &str,
    name: &str,
    index: Option<usize>,
) -> Result<String, AllocError>
    ensures { IfOk result (λ s. string_bytes s ≡ above.now ++ pointer_text (steps name.now index)) }
{
    let room = above.len().saturating_add(name.len()).saturating_add(ROOM);
    let mut path = String::with_capacity(alloc, room)?;
    path.push_str(above)?;
    push_token(&mut path, name)?;
    if let Some(index) = index {
        let mut digits = itoa::Buffer::new();
        push_token(&mut path, digits.format(index))?;
    }
    Ok(path)
}

/// Returns the own label of a class: the label written in it, or the default of the Incident.
fn own_below<'a>(path: &str, object: &'a Object) -> Option<Label<'a>>
    requires { IsFilled object.now }
    ensures { option_map marking_of result ≡ spec.own_below path.now (forest object.now) }
{
    match written(object) {
        Some(label) => Some(label),
        None => {
            // The pass has no path, only its pointer; a pointer is that of one path.
            if path == "/Incident/0" {
                Some(Label::Private)
            } else {
                None
            }
        }
    }
}

/// Returns the mark of a class below: with an own label it is its own site.
fn below<'a>(above: Mark<'a>, path: &'a str, own: Option<Label<'a>>) -> Mark<'a>
    ensures { marked_by result ≡
        marked_step (marked_by above.entry) path.now (option_map marking_of own.entry) }
{
    match own {
        Some(label) => Mark {
            path,
            label,
            site: path,
        },
        None => Mark {
            path,
            label: above.label,
            site: above.site,
        },
    }
}

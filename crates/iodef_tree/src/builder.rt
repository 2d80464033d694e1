//! A document that is made of lines that come one at a time.

ghost use Rattle.std.specs.Prelude.{◌≡◌, ℕ, suc, ◌-◌, ◌≤◌, List, [], ◌∷◌, ◌++◌, length, true, Some, None, IfOk, OnOk, OnErr};
ghost use Rattle.iodef_tree.specs.Tree.{lines, in_front, end, holds, place_of};
ghost use Rattle.iodef_tree.specs.View.{forest, body, members_forest};
ghost use Rattle.iodef_tree.specs.Built.{is_numbered, IsBodyNumbered, last_place, IsGrown, Grows, open_line, lines_of, IsSpineGrown, Extends, IsBuilt, HasLine};
ghost use Rattle.iodef_tree.specs.Filled.{IsItemFilled};
ghost use Rattle.iodef_tree.specs.Outline.{back, may_come};

use crate::document::Document;
use crate::line::{Kind, Line};
use crate::object::{Item, Member, Object};
use json_pointer::Text;
use std::alloc::{AllocError, Global};
use std::marker::Model;
use std::mem;

/// A class that may still get members.
#[derive(Drop)]
pub struct Open {
    name: Text,
    in_array: bool,
    object: Object,
}

/// The root, and the open classes from the outermost to the innermost. An open class isn't among the members above it
/// yet.
#[derive(Drop)]
pub struct Spine {
    root: Object,
    classes: Vec<Open>,
}

/// Returns the members with the item at their end. If `in_array`, the item becomes an element of the last member, if
/// that is an array of this name, or else a new array.
fn attach(
    alloc: Global,
    mut members: Vec<(Text, Member)>,
    name: Text,
    in_array: bool,
    item: Item,
) -> Result<Vec<(Text, Member)>, AllocError>
    requires grown { IsGrown members.items }
    requires numbered { IsBodyNumbered (body item) }
    requires filled { IsItemFilled item }
    ensures { IfOk result (λ new. Grows members.items name in_array (body item) new.items) }
{
    if in_array {
        return attach_element(alloc, members, name, item);
    }
    members.push((name, Member::One(item)))?;
    Ok(members)
}

/// Returns the members with the item as an element of the last array, or in a new one.
fn attach_element(
    alloc: Global,
    mut members: Vec<(Text, Member)>,
    name: Text,
    item: Item,
) -> Result<Vec<(Text, Member)>, AllocError>
    requires grown { IsGrown members.items }
    requires numbered { IsBodyNumbered (body item) }
    requires filled { IsItemFilled item }
    ensures { IfOk result (λ new. Grows members.items name true (body item) new.items) }
{
    match members.pop() {
        None => attach_array(alloc, members, name, item),
        Some((last, member)) => match member {
            Member::One(one) => {
                members.push((last, Member::One(one)))?;
                attach_array(alloc, members, name, item)
            }
            Member::Many(mut items) => {
                if last.as_str() == name.as_str() {
                    items.push(item)?;
                    members.push((last, Member::Many(items)))?;
                    return Ok(members);
                }
                members.push((last, Member::Many(items)))?;
                attach_array(alloc, members, name, item)
            }
        },
    }
}

/// Returns the members with a new array of one element at their end.
fn attach_array(
    alloc: Global,
    mut members: Vec<(Text, Member)>,
    name: Text,
    item: Item,
) -> Result<Vec<(Text, Member)>, AllocError>
    requires grown { IsGrown members.items }
    requires numbered { IsBodyNumbered (body item) }
    requires filled { IsItemFilled item }
    requires first { is_numbered (last_place None (members_forest members.items)) name
        (Some 0) ≡ true }
    ensures { IfOk result (λ new. Grows members.items name true (body item) new.items) }
{
    let mut items = Vec::new(alloc);
    items.push(item)?;
    members.push((name, Member::Many(items)))?;
    Ok(members)
}

impl Spine {
    /// Returns a root without members and without open classes.
    fn new(alloc: Global) -> Spine
        ensures lines { lines_of result ≡ [] }
        ensures grown { IsSpineGrown result }
        ensures depth { length result.classes.items ≡ 0 }
    {
        Spine {
            root: Object {
                members: Vec::new(alloc),
            },
            classes: Vec::new(alloc),
        }
    }

    /// Returns the spine with an item at the end of the innermost class.
    fn put(self, alloc: Global, name: Text, in_array: bool, item: Item) -> Result<Spine, AllocError>
        requires grown { IsSpineGrown self }
        requires numbered { IsBodyNumbered (body item) }
        requires filled { IsItemFilled item }
        ensures { IfOk result (λ new. Extends self
            (lines (suc (length self.classes.items))
            (in_front name (place_of in_array 0) (body item) end))
            (length self.classes.items) new) }
    {
        let Spine { root, mut classes } = self;
        match classes.pop() {
            None => {
                let Object { members } = root;
                let members = attach(alloc, members, name, in_array, item)?;
                Ok(Spine {
                    root: Object { members },
                    classes,
                })
            }
            Some(class) => {
                let Open {
                    name: class_name,
                    in_array: class_in_array,
                    object,
                } = class;
                let Object { members } = object;
                let members = attach(alloc, members, name, in_array, item)?;
                let object = Object { members };
                classes.push(Open {
                    name: class_name,
                    in_array: class_in_array,
                    object,
                })?;
                Ok(Spine { root, classes })
            }
        }
    }

    /// Returns the spine with a new open class.
    fn open(self, alloc: Global, name: Text, in_array: bool) -> Result<Spine, AllocError>
        requires { IsSpineGrown self }
        ensures { IfOk result (λ new. Extends self
            (lines (suc (length self.classes.items))
            (in_front name (place_of in_array 0) (holds end) end))
            (suc (length self.classes.items)) new) }
    {
        let Spine { root, mut classes } = self;
        let object = Object {
            members: Vec::new(alloc),
        };
        classes.push(Open {
            name,
            in_array,
            object,
        })?;
        Ok(Spine { root, classes })
    }

    /// Returns the spine with its innermost class put among the members above it.
    fn close(self, alloc: Global) -> Result<Spine, AllocError>
        requires { IsSpineGrown self }
        ensures { IfOk result (λ new. Extends self [] (length self.classes.items - 1) new) }
    {
        let Spine { root, mut classes } = self;
        match classes.pop() {
            None => Ok(Spine { root, classes }),
            Some(class) => {
                let Open {
                    name,
                    in_array,
                    object,
                } = class;
                let outer = Spine { root, classes };
                outer.put(alloc, name, in_array, Item::Class(object))
            }
        }
    }

    /// Returns the spine with no more than `depth` classes open.
    fn close_to(self, alloc: Global, depth: usize) -> Result<Spine, AllocError>
        requires grown { IsSpineGrown self }
        requires depth { depth ≤ length self.classes.items }
        ensures { IfOk result (λ new. Extends self [] depth new) }
    {
        let count = self.classes.as_slice().len();
        let mut spine = self;
        for _closed in depth..count {
            spine = spine.close(alloc)?;
        }
        Ok(spine)
    }

    /// Returns the spine with one line more, which may come.
    fn with_line(self, alloc: Global, line: Line) -> Result<Spine, AllocError>
        requires built { IsBuilt self }
        requires fits { may_come (back (lines_of self)) line ≡ true }
        ensures { IfOk result (λ new. HasLine self line new) }
    {
        let Line {
            depth,
            name,
            in_array,
            kind,
            text,
        } = line;
        let spine = self.close_to(alloc, depth as usize - 1)?;
        match kind {
            Kind::Class => spine.open(alloc, name, in_array),
            Kind::Text => spine.put(alloc, name, in_array, Item::Text(text)),
            Kind::Value => spine.put(alloc, name, in_array, Item::Value(text)),
        }
    }
}

/// A document that is made of lines that come one at a time. Contracts see the list of these lines.
#[derive(Drop)]
pub struct Builder {
    alloc: Global,
    spine: Spine,
}

impl Model for Builder {
    ghost use Rattle.std.specs.Prelude.{List};
    ghost use Rattle.iodef_tree.specs.declared.line.Line.{Line};
    ghost use Rattle.iodef_tree.specs.Built.{lines_of, IsBuilt};

    ghost Value = { List Line };

    ghost view = { λ b. lines_of b.spine };

    ghost invariant = { λ b. IsBuilt b.spine };
}

impl Builder {
    ghost use Rattle.iodef_tree.specs.Outline.{is_outline};

    /// Returns a builder without lines.
    pub fn new(alloc: Global) -> Builder
        ensures { result ≡ [] }
    {
        Builder {
            alloc,
            spine: Spine::new(alloc),
        }
    }

    /// Appends a line, which may come behind the others. Fails if memory runs out; then the builder has no lines.
    pub fn add(&mut self, line: Line) -> Result<(), AllocError>
        requires { may_come (back self.old) line ≡ true }
        ensures ok { OnOk result (self.new ≡ self.old ++ line ∷ []) }
        ensures err { OnErr result (self.new ≡ []) }
    {
        let spine = mem::replace(&mut self.spine, Spine::new(self.alloc));
        self.spine = spine.with_line(self.alloc, line)?;
        Ok(())
    }

    /// Returns the document with these lines. Fails if memory runs out.
    pub fn finish(self) -> Result<Document, AllocError>
        requires { is_outline self ≡ true }
        ensures { IfOk result (λ d. d ≡ self) }
    {
        let Builder { alloc, spine } = self;
        let spine = spine.close_to(alloc, 0)?;
        let Spine { root, classes: _ } = spine;
        Ok(Document::new(root))
    }
}

//! Documents: the type that the crates above hold, and its calls.

ghost use Rattle.std.specs.Prelude.{◌≡◌, ◌||◌, ◌++◌, ◌∷◌, [], IfOk, IfSome, IsTrue, is_some};
ghost use Rattle.iodef_tree.specs.Filled.{IsFilled};
ghost use Rattle.iodef_tree.specs.Outline.{back, may_come};
ghost use Rattle.iodef_tree.specs.Paths.{located};
ghost use Rattle.iodef_tree.specs.Paths as spec;
ghost use Rattle.iodef_tree.specs.Shown.{Shows};
ghost use Rattle.json_pointer.specs.Text.{is_root};
ghost use Rattle.iodef_tree.specs.Tree.{lines};
ghost use Rattle.iodef_tree.specs.View.{forest};
ghost use Rattle.iodef_tree.specs.Walk.{IsBlock};

use crate::builder::Builder;
use crate::classes::classes_of;
use crate::copy::copy_object;
use crate::fault::{OutlineFault, ReadFault};
use crate::line::Line;
use crate::lookup::object_at;
use crate::object::Object;
use crate::outline::outline_of;
use crate::read::read;
use crate::shape::Shape;
use crate::value::{id_in, member_text, object_value};
use crate::writer::object_text;
use json_pointer::Path;
use serde_json::Value;
use std::alloc::{AllocError, Global};
use std::marker::Model;

/// A document with one Incident. Contracts see its outline: the list of its lines in stored order.
#[derive(Drop)]
pub struct Document {
    root: Object,
}

impl Model for Document {
    ghost use Rattle.std.specs.Prelude.{List};
    ghost use Rattle.iodef_tree.specs.declared.line.Line.{Line};
    ghost use Rattle.iodef_tree.specs.Filled.{IsFilled};
    ghost use Rattle.iodef_tree.specs.Tree.{lines};
    ghost use Rattle.iodef_tree.specs.Sound.{IsSound};
    ghost use Rattle.iodef_tree.specs.View.{forest};

    ghost Value = { List Line };

    ghost view = { λ d. lines 1 (forest d.root) };

    ghost invariant = { λ d. IsSound (forest d.root) × IsFilled d.root };
}

/// Appends the line to the builder if it may come behind the lines before it, and returns whether it may.
fn add_line(shape: &mut Shape, builder: &mut Builder, line: &Line) -> Result<bool, AllocError>
    requires { Shows shape.old (back builder.old) }
    ensures exact { IfOk result (λ fits. fits ≡ may_come (back builder.old) line.now) }
    ensures added { IfOk result (λ fits. IsTrue fits → builder.new ≡ builder.old ++ line.now ∷ []) }
    ensures shown { IfOk result (λ fits. IsTrue fits → Shows shape.new (back builder.new)) }
{
    if !shape.accept(line)? {
        return Ok(false);
    }
    builder.add(line.clone()?)?;
    Ok(true)
}

impl Document {
    ghost use Rattle.std.specs.Prelude.{true, false, string_bytes, IfErr, option_map};
    ghost use Rattle.serde_json.specs.Data.{object};
    ghost use Rattle.serde_json.specs.Written.{compact_text};
    ghost use Rattle.serde_json.specs.View.{view};
    ghost use Rattle.iodef_tree.specs.Json.{data_of, incident_id as incident_id_of};
    ghost use Rattle.iodef_tree.specs.Sound.{IsSound};
    ghost use Rattle.iodef_tree.specs.Outline.{is_outline};
    ghost use Rattle.iodef_tree.specs.declared.fault.OutlineFault.TheVariants.{BadOutline};
    ghost use Rattle.iodef_tree.specs.Reading.{Returns, reading};

    /// Reads a body (RFC 8727 section 2.1) and returns one document for each Incident. Each has all other members of
    /// the root, and its Incident alone at place 0.
    ///
    /// Fails with the first of the faults, in the order of [`ReadFault`].
    pub fn read(alloc: Global, bytes: &[u8]) -> Result<Vec<Document>, ReadFault>
        ensures { Returns (λ v. v.items) result (reading bytes.now) }
    {
        read(alloc, bytes)
    }

    /// Returns the document of a sound tree in which no array is empty. Allocates nothing.
    pub fn new(root: Object) -> Document
        requires sound { IsSound (forest root) }
        requires filled { IsFilled root }
        ensures { result ≡ lines 1 (forest root) }
    {
        Document { root }
    }

    /// Returns the document with these lines. Fails with BadOutline exactly if they are no outline.
    pub fn from_outline(alloc: Global, lines: &[Line]) -> Result<Document, OutlineFault>
        ensures ok { IfOk result (λ d. (is_outline lines.now ≡ true) × (d ≡ lines.now)) }
        ensures err { IfErr result (λ e. e ≡ BadOutline → is_outline lines.now ≡ false) }
    {
        let mut shape = Shape::new(alloc);
        let mut builder = Builder::new(alloc);
        for line in lines {
            if !add_line(&mut shape, &mut builder, line)? {
                return Err(OutlineFault::BadOutline);
            }
        }
        Ok(builder.finish()?)
    }

    /// Returns the lines of the document in stored order. [`Document::from_outline`] makes the document of them again.
    #[tactic(auto, using(crate::proofs::Steps::outline_steps))]
    pub fn outline(&self, alloc: Global) -> Result<Vec<Line>, AllocError>
        ensures lines { IfOk result (λ v. v.items ≡ self.now) }
        ensures outline { IfOk result (λ v. is_outline v.items ≡ true) }
    {
        outline_of(alloc, &self.root)
    }

    /// Returns the document as compact JSON (RFC 8727 section 2).
    #[tactic(auto, using(crate::proofs::Steps::text_steps))]
    pub fn text(&self, alloc: Global) -> Result<String, AllocError>
        ensures { IfOk result (λ s. string_bytes s ≡ compact_text (object (data_of self.now))) }
    {
        object_text(alloc, &self.root)
    }

    /// Returns the document as a JSON object (RFC 8727 section 2).
    #[tactic(auto, using(crate::proofs::Steps::value_steps))]
    pub fn value(&self, alloc: Global) -> Result<Value, AllocError>
        ensures { IfOk result (λ v. view v ≡ object (data_of self.now)) }
    {
        Ok(Value::Object(object_value(alloc, &self.root)?))
    }

    /// Returns the member `IncidentID` of the value at `/Incident/0`, as compact JSON (RFC 7970 section 3.4). Returns
    /// `None` exactly if there is none.
    pub fn incident_id(&self, alloc: Global) -> Result<Option<String>, AllocError>
        ensures { IfOk result (λ o. option_map (λ s. string_bytes s) o ≡ incident_id_of self.now) }
    {
        match id_in(&self.root) {
            None => Ok(None),
            Some(id) => Ok(Some(member_text(alloc, id)?)),
        }
    }

    /// Returns the paths of the classes, in stored order.
    #[tactic(auto, using(crate::proofs::Steps::classes_steps))]
    pub fn classes(&self, alloc: Global) -> Result<Vec<Path>, AllocError>
        ensures { IfOk result (λ v. v.items ≡ spec.classes_of self.now) }
    {
        classes_of(alloc, &self.root)
    }

    /// Returns whether there is a class at the path. The root is no class. Allocates nothing.
    #[tactic(auto, using(crate::proofs::Steps::has_class_steps))]
    pub fn has_class(&self, path: &Path) -> bool
        ensures { result ≡ spec.has_class (located self.now) path.now }
    {
        !path.tokens().is_empty() && self.class(path).is_some()
    }

    /// Returns the class at the path, or the root at the empty path. The lines below the path are those of its
    /// members.
    ///
    /// Returns `None` exactly if the path is neither that of a class nor the root's. Allocates nothing.
    pub fn class(&self, path: &Path) -> Option<&Object>
        ensures found { is_some result ≡
            (is_root path.now || spec.has_class (located self.now) path.now) }
        ensures block { IfSome result (λ o. IsBlock path.now (located self.now) (forest o.now)) }
        ensures filled { IfSome result (λ o. IsFilled o.now) }
    {
        object_at(&self.root, path.tokens())
    }

    /// Returns a copy of the document.
    pub fn copy(&self, alloc: Global) -> Result<Document, AllocError>
        ensures { IfOk result (λ d. d ≡ self.now) }
    {
        Ok(Document {
            root: copy_object(alloc, &self.root)?,
        })
    }

    /// Returns the tree whose lines are the outline. Each array in it, at any depth, has at least one element.
    pub fn root(&self) -> &Object
        ensures lines { lines 1 (forest result.now) ≡ self.now }
        ensures sound { IsSound (forest result.now) }
        ensures filled { IsFilled result.now }
    {
        &self.root
    }
}

//! A document as a tree of JSON objects.

ghost use Rattle.std.specs.Prelude.{◌≡◌, ◌||◌, ◌++◌, List, IfSome, is_some};
ghost use Rattle.iodef_tree.specs.Filled.{IsFilled};
ghost use Rattle.iodef_tree.specs.Laws.{StandsAt};
ghost use Rattle.iodef_tree.specs.Paths.{LocatedLine, has_class};
ghost use Rattle.json_pointer.specs.Text.{Tokens, is_root};
ghost use Rattle.iodef_tree.specs.View.{forest};

use crate::lookup::object_at;
use json_pointer::Text;

/// A JSON object: its members in the byte order of their names.
#[derive(Drop)]
#[cycle(tree)]
pub struct Object {
    /// The members, each with its name.
    pub members: Vec<(Text, Member)>,
}

/// What a member holds.
#[derive(Drop)]
#[cycle(tree)]
pub enum Member {
    /// Anything but a non-empty array.
    One(Item),
    /// The elements of an array, of which there is at least one.
    Many(Vec<Item>),
}

/// What one member that is no array, or one element of an array, is.
#[derive(Drop)]
#[cycle(tree)]
pub enum Item {
    /// A JSON object.
    Class(Object),
    /// A JSON string.
    Text(Text),
    /// The compact JSON of null, a truth value, a whole number, an empty array, or an array inside an array.
    Value(Text),
}

impl Object {
    /// Returns the class at a path that begins at this object, or the object itself if the path is empty.
    ///
    /// Returns `None` exactly if there is no such class in the document that holds the object. Allocates nothing.
    pub fn class(&self, path: &[Text]) -> Option<&Object>
        requires { IsFilled self.now }
        ensures found { (es : List LocatedLine) (p : Tokens) → StandsAt es p (forest self.now) →
            is_some result ≡ (is_root path.now || has_class es (p ++ path.now)) }
        ensures class { (es : List LocatedLine) (p : Tokens) → StandsAt es p (forest self.now) →
            IfSome result (λ o. StandsAt es (p ++ path.now) (forest o.now)) }
        ensures filled { IfSome result (λ o. IsFilled o.now) }
    {
        object_at(self, path)
    }
}

//! A walk from the root of a document to a class. Each class on the way is found from the one above it.

ghost use Rattle.std.specs.Prelude.{◌≡◌, ◌≤◌, ◌<◌, ◌++◌, ◌∷◌, [], List, length};
ghost use Rattle.iodef_tree.specs.Filled.{IsFilled};
ghost use Rattle.iodef_tree.specs.Paths.{located};
ghost use Rattle.iodef_tree.specs.Text.{Bytes, Tokens, same_path};
ghost use Rattle.iodef_tree.specs.declared.line.Line.{Line};
ghost use Rattle.marking.specs.Marks.{incident_path};
ghost use Rattle.policy.specs.Ahead.{ahead_of, met_by};
ghost use Rattle.policy.specs.inner.Descent.{Reaches};
ghost use Rattle.policy.specs.declared.standing.Standing.{Standing as TheStanding};
ghost use Rattle.policy.specs.declared.case.Case.{Case as TheCase};

use crate::ahead::Ahead;
use crate::inherited::Carried;
use crate::spot::Spot;
use iodef_tree::{Document, Object, Text};
use marking::class::written;
use marking::is_incident;

/// The first tokens of a path.
#[derive(Clone, Copy)]
struct Front<'p> {
    tokens: &'p [Text],
}

impl<'p> Spot for Front<'p> {
    ghost tokens = { λ f. f.tokens.now };

    fn is_at_incident(&self) -> bool {
        match self.tokens {
            [first, second] => is_incident(first.as_str(), second.as_str()),
            _ => false,
        }
    }
}

/// The state of a walk: the nearest class at or above its path, or the root; how many tokens lead to it; and what the
/// policy says at the path.
#[derive(Clone, Copy)]
pub struct Descent<'a> {
    class: &'a Object,
    depth: usize,
    /// What the policy says at the path of the walk.
    pub said: Carried<'a>,
}

impl<'a> Descent<'a> {
    /// Returns the state at the root.
    pub fn at_root(document: &'a Document, ahead: &Ahead<'_>) -> Descent<'a>
        ensures { (c : TheCase) (s : TheStanding) → met_by ahead.now ≡ ahead_of c s [] →
            Reaches (located document.now) c s [] result }
    {
        Descent {
            class: document.root(),
            depth: 0,
            said: Carried::at_root(ahead),
        }
    }

    /// Returns the state one token further down, at the path `here`.
    pub fn below(self, ahead: &Ahead<'_>, here: &[Text]) -> Descent<'a>
        requires depth { self.depth < length here.now }
        requires filled { IsFilled self.class.now }
        ensures { (ls : List Line) (c : TheCase) (s : TheStanding) (p : Tokens) (x : Bytes) →
            here.now ≡ p ++ x ∷ [] → met_by ahead.now ≡ ahead_of c s here.now →
            Reaches (located ls) c s p self.entry → Reaches (located ls) c s here.now result }
    {
        // The tokens since the nearest class: a name, or a name and a place.
        match self.class.class(&here[self.depth..]) {
            Some(class) => Descent {
                class,
                depth: here.len(),
                said: self
                    .said
                    .in_class(ahead, &Front { tokens: here }, written(class)),
            },
            None => Descent {
                class: self.class,
                depth: self.depth,
                said: self.said.in_array(ahead),
            },
        }
    }
}

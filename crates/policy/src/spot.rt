//! The place of a pass down a document.

ghost use Rattle.std.specs.Prelude.{◌≡◌};
ghost use Rattle.iodef_tree.specs.Text.{Tokens, same_path};
ghost use Rattle.marking.specs.Marks.{incident_path};

/// A place in a document. A pass that holds no `Path` says by this trait whether it is at the Incident.
pub trait Spot {
    /// The path of the place.
    ghost tokens: { Self → Tokens };

    /// Returns whether the place is the Incident. Allocates nothing.
    fn is_at_incident(&self) -> bool
        ensures { result ≡ same_path (tokens self.now) incident_path };
}

//! The directory's handlings as the handlings of labels.
ghost use Rattle.std.specs.Prelude.{◌≡◌};
ghost use Rattle.hub_state.specs.Handlings as spec;

use circle::directory::Handling as Arranged;
use marking::Handling;

/// Returns the handling of labels with the same name.
pub fn handling_in(arranged: Arranged) -> Handling
    ensures { result ≡ spec.handling_in arranged }
{
    match arranged {
        Arranged::Clear => Handling::Clear,
        Arranged::Green => Handling::Green,
        Arranged::Amber => Handling::Amber,
        Arranged::Strict => Handling::Strict,
        Arranged::Red => Handling::Red,
    }
}

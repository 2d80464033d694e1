//! How the labels in force at the classes of a document are handled.

ghost use Rattle.std.specs.Prelude.{◌≡◌, None, IfOk};
ghost use Rattle.iodef_tree.specs.Paths.{located};
ghost use Rattle.marking.specs.Label.{marking_of};
ghost use Rattle.marking.specs.Marks.{first_bad_marking};
ghost use Rattle.sketch.specs.Labels.{fixed_handling, least_of};
ghost use Rattle.sketch.specs.Labels as spec;

use iodef_tree::Document;
use marking::{Handling, Label, Mark, MarkWriter, write_marks};
use std::alloc::{AllocError, Global};

/// The handlings of the classes that were written.
#[derive(Drop)]
struct HandlingWriter {
    found: Vec<Option<Handling>>,
}

impl MarkWriter for HandlingWriter {
    ghost use Rattle.std.specs.Prelude.{map, [], ◌∷◌};
    ghost use Rattle.sketch.specs.Labels.{fixed_handling, code_of};

    ghost text = { λ w. map code_of w.found.items };

    ghost line = { λ m. code_of (fixed_handling m.label) ∷ [] };

    fn write(&mut self, _alloc: Global, mark: Mark<'_>) -> Result<(), AllocError> {
        self.found.push(handling(&mark.label))?;
        Ok(())
    }
}

/// Returns how a label is handled whoever reads; `None` for `default`.
fn handling(label: &Label<'_>) -> Option<Handling>
    ensures { result ≡ fixed_handling (marking_of label.now) }
{
    match label {
        Label::Default => None,
        Label::Public | Label::White | Label::Partner | Label::Green | Label::NeedToKnow => {
            Some(label.handling(None))
        }
        Label::Amber | Label::Private | Label::Red | Label::Ext(_) => Some(label.handling(None)),
    }
}

/// Returns how the label in force at each class is handled, in stored order; `None` for `default`. Fails if memory runs
/// out.
pub(crate) fn handlings(
    alloc: Global,
    document: &Document,
) -> Result<Vec<Option<Handling>>, AllocError>
    requires { first_bad_marking (located document.now) ≡ None }
    ensures { IfOk result (λ v. v.items ≡ spec.handlings document.now) }
{
    let mut writer = HandlingWriter {
        found: Vec::new(alloc),
    };
    write_marks(alloc, document, &mut writer)?;
    Ok(writer.found)
}

/// Returns the lesser of two handlings, or the one that there is.
pub(crate) fn lesser(one: Option<Handling>, other: Option<Handling>) -> Option<Handling>
    ensures { result ≡ spec.lesser one other }
{
    match (one, other) {
        (None, _) => other,
        (Some(_), None) => one,
        (Some(a), Some(b)) => Some(if a.is_at_most(b) { a } else { b }),
    }
}

/// Returns the least of some handlings, if there is one.
pub(crate) fn least(handlings: &[Option<Handling>]) -> Option<Handling>
    ensures { result ≡ least_of handlings.now }
{
    let mut least = None;
    for handling in handlings {
        least = lesser(least, *handling);
    }
    least
}

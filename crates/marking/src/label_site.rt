//! The own label of a class, and the nearest class or root that has one.

ghost use Rattle.std.specs.Prelude.{◌≡◌, ◌-◌, ◌∷◌, [], false, None, Some, option_map, take, length};
ghost use Rattle.iodef_tree.specs.Text.{same_path, is_root};
ghost use Rattle.iodef_tree.specs.Filled.{IsFilled};
ghost use Rattle.iodef_tree.specs.Paths.{located};
ghost use Rattle.iodef_tree.specs.View.{forest};
ghost use Rattle.marking.specs.Label.{marking_of};
ghost use Rattle.marking.specs.Marks.{incident_path, first_bad_marking, own_label, written_label, site_of, label_at};
ghost use Rattle.marking.specs.Sited.{Sites, own_in};

use crate::class::written;
use crate::fault::SiteFault;
use crate::label::Label;
use iodef_tree::{Document, Object, Path, Text};
use std::alloc::Global;

/// Returns the label written in the class at the path, or private, the default, at the Incident and at the root if
/// none is written. Returns `None` for any other class without a label, and if there is no class at the path.
/// Allocates nothing.
pub fn own<'a>(document: &'a Document, path: &Path) -> Option<Label<'a>>
    requires { first_bad_marking (located document.now) ≡ None }
    ensures { option_map marking_of result ≡ own_label (located document.now) path.now }
{
    let object = document.class(path)?;
    own_of(path.tokens(), object)
}

/// Returns the label written in the class at the path, if there is one. Allocates nothing.
pub fn written_at<'a>(document: &'a Document, path: &Path) -> Option<Label<'a>>
    ensures { option_map marking_of result ≡ written_label (located document.now) path.now }
{
    if !document.has_class(path) {
        return None;
    }
    let object = document.class(path)?;
    written(object)
}

/// Returns the class or root whose label holds at the path, by its path, and that label: the nearest one at or above
/// the path that has an own label (RFC 7970 section 3.3.1).
///
/// Fails with NoClass if the path is neither that of a class nor the root's; with NoMemory if memory runs out.
pub fn site<'a>(
    alloc: Global,
    document: &'a Document,
    path: &Path,
) -> Result<(Path, Label<'a>), SiteFault>
    requires { first_bad_marking (located document.now) ≡ None }
    ensures { Sites result (located document.now) path.now }
{
    // The paths are copied by `Path::clone`, which takes the global allocator by itself.
    let _ = alloc;
    if document.class(path).is_none() {
        return Err(SiteFault::NoClass);
    }
    Ok(nearest(document, path.clone()?))
}

/// Goes up from the path to the nearest class or root with an own label.
fn nearest<'a>(document: &'a Document, path: Path) -> (Path, Label<'a>)
    requires { first_bad_marking (located document.now) ≡ None }
    ensures site { result.0 ≡ site_of (located document.now) path }
    ensures label { marking_of result.1 ≡ label_at (located document.now) path }
{
    match own(document, &path) {
        Some(label) => (path, label),
        None => nearest(document, without_last(path)),
    }
}

/// Returns the path without its last token.
fn without_last(path: Path) -> Path
    requires { is_root path ≡ false }
    ensures { result ≡ take (length path - 1) path }
{
    let mut tokens = path.into_tokens();
    let count = tokens.as_slice().len();
    tokens.truncate(count - 1);
    Path::new(tokens)
}

/// Returns the own label of the class or root at the path of these tokens.
fn own_of<'a>(tokens: &[Text], object: &'a Object) -> Option<Label<'a>>
    requires { IsFilled object.now }
    ensures { option_map marking_of result ≡ own_in tokens.now (forest object.now) }
{
    if tokens.is_empty() {
        return Some(Label::Private);
    }
    match written(object) {
        Some(label) => Some(label),
        None => {
            match tokens {
                [first, second] if is_incident(first.as_str(), second.as_str()) => {
                    Some(Label::Private)
                }
                _ => None,
            }
        }
    }
}

/// Returns whether the path of these two reference tokens is that of the Incident of a document. No path with fewer or
/// more tokens is. Allocates nothing.
pub fn is_incident(first: &str, second: &str) -> bool
    ensures { result ≡ same_path (first.now ∷ second.now ∷ []) incident_path }
{
    first == "Incident" && second == "0"
}

//! Whether a permission covers a class.

ghost use Rattle.std.specs.Prelude.{◌≡◌, ◌&&◌, ◌||◌, ◌++◌, [], ◌∷◌, is_none, IfOk};
ghost use Rattle.iodef_tree.specs.Text.{same_path};
ghost use Rattle.iodef_tree.specs.Paths.{located};
ghost use Rattle.marking.specs.Marks.{written_label};
ghost use Rattle.policy.specs.Permissions as spec;

use crate::permission::{Permission, holds_for};
use crate::standing::Standing;
use iodef_tree::{Document, Path, Text};
use marking::written_at;
use std::alloc::{AllocError, Global};

/// Returns whether the permission covers the class at the path for the reader. It has to include the reader, must not
/// have ended, and has to be at the path or above. No label may be written below it down to the path (RFC 7970 section
/// 3.3.1). Fails if memory runs out.
pub fn covers(
    alloc: Global,
    document: &Document,
    standing: &Standing,
    path: &Path,
    permission: &Permission,
) -> Result<bool, AllocError>
    ensures { IfOk result (λ b. b ≡
        spec.covers (located document.now) standing.entry.now path.now permission.now) }
{
    if !holds_for(standing, permission) {
        return Ok(false);
    }
    reaches(alloc, document, &permission.path, path)
}

/// Returns whether `to` is `from` or below it, and no label is written on the way down to it.
fn reaches(alloc: Global, document: &Document, from: &Path, to: &Path) -> Result<bool, AllocError>
    ensures { IfOk result (λ b. b ≡ spec.reaches (located document.now) from.now to.now) }
{
    if !from.is_prefix_of(to) {
        return Ok(false);
    }
    let mut here = Path::root(alloc);
    let mut reached = *from == here;
    for token in to.tokens() {
        here = longer(here, token)?;
        reached = goes_on(document, from, &here, reached);
    }
    Ok(reached)
}

/// Returns whether a permission that reaches the path above reaches this one, or begins here.
fn goes_on(document: &Document, from: &Path, here: &Path, above: bool) -> bool
    ensures { result ≡ ((above &&
        is_none (written_label (located document.now) here.now)) || same_path from.now here.now) }
{
    (above && written_at(document, here).is_none()) || *from == *here
}

/// Returns the path with one token more.
fn longer(path: Path, token: &Text) -> Result<Path, AllocError>
    ensures { IfOk result (λ p. p ≡ path ++ token.now ∷ []) }
{
    let mut tokens = path.into_tokens();
    tokens.push(token.clone()?)?;
    Ok(Path::new(tokens))
}

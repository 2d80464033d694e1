//! The verdict of a class.

ghost use Rattle.std.specs.Prelude.{◌≡◌, None, IfOk};
ghost use Rattle.iodef_tree.specs.Paths.{located};
ghost use Rattle.marking.specs.Marks.{first_bad_marking};
ghost use Rattle.policy.specs.Inherited.{carried, inherited_at};
ghost use Rattle.policy.specs.Decided.{Decides};

use crate::ahead::Ahead;
use crate::case::Case;
use crate::descent::Descent;
use crate::fault::DecideFault;
use crate::inherited::Carried;
use crate::standing::Standing;
use crate::verdict::Verdict;
use iodef_tree::{Document, Path};
use std::alloc::{AllocError, Global};

/// Returns whether the reader sees the class at the path, and the rule that shows or hides it. The markings of the
/// document must have been accepted.
///
/// Fails with NoClass exactly if there is no class at the path (the root is none); with NoMemory if memory runs out.
pub fn decide(
    alloc: Global,
    document: &Document,
    case: &Case,
    standing: &Standing,
    path: &Path,
) -> Result<Verdict, DecideFault>
    requires { first_bad_marking (located document.now) ≡ None }
    ensures { Decides result (located document.now) case.now standing.entry.now path.now }
{
    // Asked first, by one look-up that allocates nothing, so that NoClass needs no memory.
    if !document.has_class(path) {
        return Err(DecideFault::NoClass);
    }
    let said = said_at(alloc, document, case, standing, path)?;
    Ok(said.verdict(standing))
}

/// Returns what the policy says at the path, by a walk from the root.
fn said_at<'a>(
    alloc: Global,
    document: &'a Document,
    case: &Case,
    standing: &Standing,
    path: &Path,
) -> Result<Carried<'a>, AllocError>
    ensures { IfOk result (λ h.
        carried path.now h ≡
        inherited_at (located document.now) case.now standing.entry.now path.now) }
{
    let tokens = path.tokens();
    let mut ahead = Ahead::at_root(alloc, case, standing)?;
    // One walk down: each class is looked up from the nearest class above it, so each token is looked up once or
    // twice.
    let mut descent = Descent::at_root(document, &ahead);
    for (place, token) in tokens.iter().enumerate() {
        ahead = ahead.below(alloc, token.as_str())?;
        descent = descent.below(&ahead, &tokens[..place + 1]);
    }
    Ok(descent.said)
}

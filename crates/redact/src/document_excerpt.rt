//! The excerpt of a whole document.

ghost use Rattle.std.specs.Prelude.{◌≡◌, None, option_map, IfOk, IfSome};
ghost use Rattle.iodef_tree.specs.Paths.{located};
ghost use Rattle.marking.specs.Marks.{first_bad_marking};
ghost use Rattle.redact.specs.Told.{excerpt_of};
ghost use Rattle.redact.specs.Excerpts.{told_by, LabelsSurvive};

use crate::excerpts::Excerpt;
use crate::pass::{State, Surrounding, tell};
use crate::reader::Reader;
use crate::sorted_withheld::sorted_withheld;
use iodef_tree::Document;
use policy::{Case, Standing};
use std::alloc::{AllocError, Global};
use std::mem::replace;

/// Returns what a reader may see of an incident: the visible classes with their plain members, the classes that hold
/// visible ones as bare frames, and the header. A visible class whose label would not show any more says it itself.
/// Returns `None` exactly if no class is visible.
///
/// The markings of the document must have been accepted by `check`, since an added label may meet no member of its
/// name. The markings of the excerpt are accepted then too, and the label of each visible class is the same as before.
/// Fails if memory runs out.
///
/// An excerpt may be one line deeper than a report that is read, and have more lines by its added labels.
pub fn excerpt<'a>(
    alloc: Global,
    document: &'a Document,
    case: &'a Case,
    standing: &'a Standing,
) -> Result<Option<Excerpt>, AllocError>
    requires { first_bad_marking (located document.now) ≡ None }
    ensures told { IfOk result (λ r.
        option_map told_by r ≡ excerpt_of document.now case.now standing.entry.now) }
    ensures checked { IfOk result (λ r.
        IfSome r (λ e. first_bad_marking (located e.document) ≡ None)) }
    ensures labels { IfOk result (λ r.
        IfSome r (λ e. LabelsSurvive document.now case.now standing.entry.now e.document)) }
{
    let reader = Reader { case, standing };
    let mut state = State {
        alloc,
        path: Vec::new(alloc),
        place: Vec::new(alloc),
        classes: 0,
        withheld: Vec::new(alloc),
        rules_met: Vec::new(alloc),
    };
    let ahead = reader.ahead(alloc)?;
    let above = reader.at_root(&ahead);
    let kept = reader.cut(
        &mut state,
        Surrounding::Root,
        &ahead,
        above,
        document.root(),
    )?;
    if state.classes == 0 {
        return Ok(None);
    }
    let classes = state.classes;
    // The rules met at the root, which is always kept.
    let gone = replace(&mut state.rules_met, Vec::new(alloc));
    tell(&mut state, gone.as_slice())?;
    let withheld = sorted_withheld(alloc, state.withheld)?;
    let document = Document::new(kept);
    Ok(Some(Excerpt {
        document,
        classes,
        withheld,
    }))
}

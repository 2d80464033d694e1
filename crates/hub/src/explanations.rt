//! Why a person sees a class of an incident, or doesn't.
ghost use Rattle.std.specs.Prelude.{◌≡◌, ℕ, List, None, Some, IfOk, IfErr};
ghost use Rattle.iodef_tree.specs.Paths.{located};
ghost use Rattle.iodef_tree.specs.Pointer.{pointer_tokens};
ghost use Rattle.marking.specs.Marks.{first_bad_marking};
ghost use Rattle.circle.specs.Reads.{person_of};
ghost use Rattle.hub_core.specs.State.{State, incident_of};
ghost use Rattle.hub_core.specs.Sound.{IsSound};
ghost use Rattle.hub_core.specs.Facts.{facts_of};
ghost use Rattle.hub_core.specs.Refusals.{refusal_of};
ghost use Rattle.hub_state.specs.declared.reply.Reply.TheVariants.{Trace};
ghost use Rattle.hub_state.specs.declared.request.Request.TheVariants as ask;
ghost use Rattle.hub_core.specs.Shelves.{Finds};
ghost use Rattle.hub.specs.inner.Explaining.{text_at};
ghost use Rattle.hub.specs.inner.Explaining as spec;
ghost use Rattle.hub.specs.Replies.{refused_or};
ghost use Rattle.hub.specs.Told.{trace_of};

use crate::asker::{Asker, case_of, standing_of_person};
use crate::fault::{ample, refuse};
use circle::text::Text;
use explain::{ExplainFault, explain};
use hub_core::{Code, Explain, Facts, Refusal, Reply, Request, Shelf, ShelfFault, judge};
use iodef_tree::{Document, Path, PathFault};
use marking::{MarkingFault, check};
use policy::{Case, Standing};
use std::alloc::Global;

/// The explanation of a class as text. None if there is no class at the path, or if the markings of the document aren't
/// accepted. A shelf has no such document unless its disk returned what wasn't written.
fn text_of(
    alloc: Global,
    document: &Document,
    case: &Case,
    standing: &Standing,
    path: &Path,
) -> Result<Option<Text>, ShelfFault>
    ensures told { first_bad_marking (located document.now) ≡ None →
        IfOk result (λ text. text ≡ text_at document.now case.now standing.entry.now path.now) }
    ensures fault { IfErr result (λ e. e ≡ ShelfFault.NoMemory) }
{
    match check(alloc, document) {
        Ok(()) => trace_at(alloc, document, case, standing, path),
        Err(MarkingFault::BadMarking(_)) => Ok(None),
        Err(MarkingFault::NoMemory) => Err(ShelfFault::NoMemory),
    }
}

fn trace_at(
    alloc: Global,
    document: &Document,
    case: &Case,
    standing: &Standing,
    path: &Path,
) -> Result<Option<Text>, ShelfFault>
    requires { first_bad_marking (located document.now) ≡ None }
    ensures told { IfOk result (λ text. text ≡
        text_at document.now case.now standing.entry.now path.now) }
    ensures fault { IfErr result (λ e. e ≡ ShelfFault.NoMemory) }
{
    match explain(alloc, document, case, standing, path) {
        Ok(trace) => {
            let text = ample(trace.text(alloc))?;
            Ok(Some(Text::new(text)))
        }
        Err(ExplainFault::NoClass) => Ok(None),
        Err(ExplainFault::NoMemory) => Err(ShelfFault::NoMemory),
    }
}

fn path_of(alloc: Global, text: &Text) -> Result<Option<Path>, ShelfFault>
    ensures value { IfOk result (λ path. path ≡ pointer_tokens text.now) }
    ensures fault { IfErr result (λ e. e ≡ ShelfFault.NoMemory) }
{
    match Path::parse(alloc, text.as_str()) {
        Ok(path) => Ok(Some(path)),
        Err(PathFault::BadPath) => Ok(None),
        Err(PathFault::NoMemory) => Err(ShelfFault::NoMemory),
    }
}

/// The explanation, by the facts of the request. None if the person, the incident or the class is missing.
fn find_text<Sh: Shelf>(
    shelf: &mut Sh,
    alloc: Global,
    asker: Asker<'_>,
    facts: &Facts,
    asked: &Explain,
) -> Result<Option<Text>, ShelfFault>
    ensures { Finds Sh.has Sh.doubts Sh.failed Sh.may_remain shelf.old shelf.new result (λ s.
        IsSound s → facts.now ≡ facts_of s asker.entry.person.now (ask.Explain asked.now) →
        IfOk result (λ text. text ≡
        spec.text_of s asker.entry.now (person_of asked.now.person s.directory)
        (incident_of asked.now.incident s) (pointer_tokens asked.now.path))) }
{
    let Some(standing) = standing_of_person(shelf, asker, asked.person, asked.incident)? else {
        return Ok(None);
    };
    let Some(case) = case_of(shelf, asked.incident)? else {
        return Ok(None);
    };
    let Some(document) = &facts.document else {
        return Ok(None);
    };
    let Some(path) = path_of(alloc, &asked.path)? else {
        return Ok(None);
    };
    text_of(alloc, document, &case, &standing, &path)
}

/// The reply with the explanation. There is one whenever the request isn't refused.
fn reply_of(alloc: Global, text: Option<Text>) -> Reply
    ensures { (told : List ℕ) → text ≡ Some told → result ≡ Trace told }
{
    match text {
        Some(text) => Reply::Trace(text),
        None => Reply::Refused(Refusal::bare(alloc, Code::N3)),
    }
}

/// Answers why a person sees a class of an incident, or doesn't, unless the request is refused.
pub fn explain_to<Sh: Shelf>(
    shelf: &mut Sh,
    alloc: Global,
    asker: Asker<'_>,
    request: &Request,
    asked: &Explain,
) -> Result<Reply, ShelfFault>
    ensures { Finds Sh.has Sh.doubts Sh.failed Sh.may_remain shelf.old shelf.new result (λ s.
        IsSound s → request.now ≡ ask.Explain asked.now →
        IfOk result (λ reply. reply ≡
        refused_or (refusal_of s asker.entry.person.now request.now)
        (Trace (trace_of s asker.entry.now (person_of asked.now.person s.directory)
        (incident_of asked.now.incident s) (pointer_tokens asked.now.path))))) }
{
    let facts = shelf.facts(asker.person, request)?;
    match judge(alloc, asker.person, &facts, request) {
        Err(refusal) => refuse(refusal),
        Ok(_) => {
            let text = find_text(shelf, alloc, asker, &facts, asked)?;
            Ok(reply_of(alloc, text))
        }
    }
}

//! What a reader is served of a document whose lines come one at a time.

ghost use Rattle.std.specs.Prelude.{◌≡◌, ◌++◌, ◌∷◌, [], List, true, false, None, Err, is_some, option_map, IfOk, IfErr, IfSome, OnOk};
ghost use Rattle.iodef_tree.specs.Paths.{located};
ghost use Rattle.iodef_tree.specs.Outline.{is_outline};
ghost use Rattle.iodef_tree.specs.declared.line.Line.{Line as Row};
ghost use Rattle.iodef_tree.specs.declared.fault.OutlineFault.TheVariants.{BadOutline, NoMemory};
ghost use Rattle.marking.specs.Marks.{first_bad_marking};
ghost use Rattle.policy.specs.declared.standing.Standing.{Standing as TheStanding};
ghost use Rattle.policy.specs.declared.case.Case.{Case as TheCase};
ghost use Rattle.redact.specs.Told.{excerpt_of};
ghost use Rattle.redact.specs.Excerpts.{told_by, LabelsSurvive};
ghost use Rattle.redact.specs.Feeding.{FeedsLine};
ghost use Rattle.redact.specs.Sifted.{Knows};

use crate::document_excerpt::excerpt;
use crate::excerpts::Excerpt;
use crate::fed_lines::Fed;
use crate::marks::Marks;
use crate::outline_document::document_of;
use crate::sieve::Sieve;
use iodef_tree::{Document, Line, OutlineFault, Shape};
use marking::{MarkingFault, check};
use policy::{Case, Standing};
use std::alloc::{AllocError, Global};
use std::marker::Model;

/// Returns the excerpt of a document for a reader, or `None` if the markings of the document aren't accepted or no
/// class is visible. Fails if memory runs out.
pub fn excerpt_if_marked(
    alloc: Global,
    document: &Document,
    case: &Case,
    standing: &Standing,
) -> Result<Option<Excerpt>, AllocError>
    ensures told { first_bad_marking (located document.now) ≡ None →
        IfOk result (λ r.
        option_map told_by r ≡ excerpt_of document.now case.now standing.entry.now) }
    ensures refused { is_some (first_bad_marking (located document.now)) ≡ true →
        IfOk result (λ r. r ≡ None) }
    ensures checked { IfOk result (λ r.
        IfSome r (λ e. first_bad_marking (located e.document) ≡ None)) }
    ensures labels { first_bad_marking (located document.now) ≡ None →
        IfOk result (λ r.
        IfSome r (λ e. LabelsSurvive document.now case.now standing.entry.now e.document)) }
{
    match check(alloc, document) {
        Ok(()) => excerpt(alloc, document, case, standing),
        Err(MarkingFault::BadMarking(_)) => Ok(None),
        Err(MarkingFault::NoMemory) => Err(AllocError),
    }
}

/// What is known of the lines so far. Those that matter to the reader are kept.
#[derive(Drop)]
struct Progress {
    shape: Shape,
    marks: Marks,
    sieve: Sieve,
}

impl Progress {
    /// Returns the state before the first line.
    fn new(alloc: Global) -> Progress
        ensures { (c : TheCase) (s : TheStanding) →
            Knows c s [] result.shape result.marks result.sieve }
    {
        Progress {
            shape: Shape::new(alloc),
            marks: Marks::new(alloc),
            sieve: Sieve::new(alloc),
        }
    }

    /// Takes one more line. Fails with BadOutline if the line may not come.
    fn take(&mut self, case: &Case, standing: &Standing, line: Line) -> Result<(), OutlineFault>
        ensures ok { OnOk result ((ls : List Row) →
            Knows case.now standing.entry.now ls self.old.shape self.old.marks self.old.sieve →
            (is_outline (ls ++ line ∷ []) ≡ true) ×
            Knows case.now standing.entry.now
            (ls ++ line ∷ []) self.new.shape self.new.marks self.new.sieve) }
        ensures bad { IfErr result (λ f. f ≡ BadOutline → (ls : List Row) →
            Knows case.now standing.entry.now ls self.old.shape self.old.marks self.old.sieve →
            is_outline (ls ++ line ∷ []) ≡ false) }
    {
        let fits = self.shape.accept(&line)?;
        if !fits {
            return Err(OutlineFault::BadOutline);
        }
        self.marks.note(&line)?;
        // A class is decided by its label or by the one above, and `restriction` sorts behind every capitalised
        // member. So the lines that no gate hides are kept, and `excerpt` decides when all have come.
        self.sieve.take(case, standing, line)?;
        Ok(())
    }
}

/// A pass over lines that come one at a time, for a reader. It keeps those that matter to the reader.
///
/// Contracts see its case, its standing, all lines so far, and the fault that was returned, if any.
#[derive(Drop)]
pub struct RowPass {
    alloc: Global,
    case: Case,
    standing: Standing,
    fed: Fed,
    progress: Progress,
    fault: Option<OutlineFault>,
}

impl Model for RowPass {
    ghost use Rattle.std.specs.Prelude.{◌≡◌, None};
    ghost use Rattle.redact.specs.Feeding.{PassState};
    ghost use Rattle.redact.specs.Sifted.{Knows};

    ghost Value = { PassState };

    ghost view = { λ p.
        record {
          case = p.case;
          standing = p.standing;
          fed = record { lines = p.fed.lines; fault = p.fault };
        } };

    ghost invariant = { λ p. p.fault ≡ None →
        Knows p.case p.standing p.fed.lines p.progress.shape p.progress.marks p.progress.sieve };
}

impl RowPass {
    ghost use Rattle.std.specs.Prelude.{[]};

    /// Returns a pass before its first line. It allocates nothing; the `Result` leaves room for a pass that does.
    pub fn new(alloc: Global, case: Case, standing: Standing) -> Result<RowPass, AllocError>
        ensures { IfOk result (λ p. p ≡
            record {
              case = case;
              standing = standing;
              fed = record { lines = []; fault = None };
            }) }
    {
        let progress = Progress::new(alloc);
        Ok(RowPass {
            alloc,
            case,
            standing,
            fed: Fed::none(),
            progress,
            fault: None,
        })
    }

    /// Takes one more line. Fails with BadOutline exactly if the lines with it are no outline; with NoMemory if memory
    /// runs out. After a fault each call returns that fault.
    pub fn feed(&mut self, line: Line) -> Result<(), OutlineFault>
        ensures { FeedsLine self.old line result self.new }
    {
        if let Some(fault) = self.fault {
            return Err(fault);
        }
        let fed = self.fed.with_line(&line);
        match self.progress.take(&self.case, &self.standing, line) {
            Ok(()) => {
                self.fed = fed;
                Ok(())
            }
            Err(fault) => {
                self.fault = Some(fault);
                Err(fault)
            }
        }
    }

    /// Returns what the reader is served of the document with these lines. Returns `None` if no class is visible or
    /// the markings aren't accepted.
    ///
    /// Fails with the fault that was returned, if one was, or with NoMemory.
    pub fn finish(self) -> Result<Option<Excerpt>, OutlineFault>
        ensures ended { IfSome self.fed.fault (λ f. result ≡ Err f) }
        ensures told { self.fed.fault ≡ None → first_bad_marking (located self.fed.lines) ≡ None →
            IfOk result (λ r.
            option_map told_by r ≡ excerpt_of self.fed.lines self.case self.standing) }
        ensures refused { self.fed.fault ≡ None →
            is_some (first_bad_marking (located self.fed.lines)) ≡ true →
            IfOk result (λ r. r ≡ None) }
        ensures checked { IfOk result (λ r.
            IfSome r (λ e. first_bad_marking (located e.document) ≡ None)) }
        ensures labels { self.fed.fault ≡ None → first_bad_marking (located self.fed.lines) ≡ None →
            IfOk result (λ r.
            IfSome r (λ e. LabelsSurvive self.fed.lines self.case self.standing e.document)) }
        ensures memory { self.fed.fault ≡ None → IfErr result (λ f. f ≡ NoMemory) }
    {
        let RowPass {
            alloc,
            case,
            standing,
            fed: _,
            progress,
            fault,
        } = self;
        if let Some(fault) = fault {
            return Err(fault);
        }
        let Progress {
            shape: _,
            marks,
            sieve,
        } = progress;
        // `excerpt` takes accepted markings, and nobody has checked those of the lines.
        if !marks.are_accepted() {
            return Ok(None);
        }
        let lines = sieve.into_lines();
        let document = document_of(alloc, lines)?;
        Ok(excerpt(alloc, &document, &case, &standing)?)
    }
}

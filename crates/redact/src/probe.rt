//! Whether a report whose lines come one at a time meets a want, as soon as that is sure.

ghost use Rattle.std.specs.Prelude.{◌≡◌, true, None, Err, IfOk, IfErr, IfSome};
ghost use Rattle.iodef_tree.specs.Paths.{located};
ghost use Rattle.iodef_tree.specs.declared.fault.OutlineFault.TheVariants.{NoMemory};
ghost use Rattle.marking.specs.Marks.{first_bad_marking};
ghost use Rattle.redact.specs.Wants as spec;
ghost use Rattle.redact.specs.Probed.{ProbesLine};

use crate::fed_lines::Fed;
use crate::open_classes::Seeker;
use crate::outline_document::document_of;
use crate::want::{Want, meets};
use iodef_tree::{Line, OutlineFault};
use policy::{Case, Standing};
use std::alloc::{AllocError, Global};
use std::marker::Model;

/// A search of a report whose lines come one at a time, for a reader. It returns true as soon as it is sure that the
/// want is met.
///
/// Contracts see its case, its standing, its want, all lines so far, the fault that was returned, if any, and whether
/// true was returned.
#[derive(Drop)]
pub struct Probe {
    alloc: Global,
    case: Case,
    standing: Standing,
    want: Want,
    fed: Fed,
    seeker: Seeker,
    fault: Option<OutlineFault>,
    met: bool,
}

impl Model for Probe {
    ghost use Rattle.std.specs.Prelude.{◌≡◌, true, None};
    ghost use Rattle.redact.specs.Probed.{ProbeState, IsSure};
    ghost use Rattle.redact.specs.inner.Seeking.{IsKnown};

    ghost Value = { ProbeState };

    ghost view = { λ p.
        record {
          case = p.case;
          standing = p.standing;
          want = p.want;
          fed = record { lines = p.fed.lines; fault = p.fault };
          met = p.met;
        } };

    ghost invariant = { λ p.
        (p.met ≡ true → IsSure p.want p.fed.lines p.case p.standing) ×
        (p.fault ≡ None → IsKnown p.want p.case p.standing p.fed.lines p.met p.seeker) };
}

impl Probe {
    ghost use Rattle.std.specs.Prelude.{[], false};

    /// Returns a search before its first line. Fails if memory runs out.
    pub fn new(
        alloc: Global,
        case: Case,
        standing: Standing,
        want: Want,
    ) -> Result<Probe, AllocError>
        ensures { IfOk result (λ p. p ≡
            record {
              case = case;
              standing = standing;
              want = want;
              fed = record { lines = []; fault = None };
              met = false;
            }) }
    {
        let seeker = Seeker::new(alloc, &case, &standing);
        Ok(Probe {
            alloc,
            case,
            standing,
            want,
            fed: Fed::none(),
            seeker,
            fault: None,
            met: false,
        })
    }

    /// Takes one more line. Returns true as soon as it is sure that every report that begins with these lines, and
    /// whose markings are accepted, meets the want.
    ///
    /// Fails with BadOutline exactly if the lines with it are no outline; with NoMemory if memory runs out. After a
    /// fault each call returns that fault.
    pub fn feed(&mut self, line: Line) -> Result<bool, OutlineFault>
        ensures { ProbesLine self.old line result self.new }
    {
        if let Some(fault) = self.fault {
            return Err(fault);
        }
        let fed = self.fed.with_line(&line);
        match self
            .seeker
            .take(&self.case, &self.standing, &self.want, self.met, line)
        {
            Ok(met) => {
                self.fed = fed;
                self.met = met;
                Ok(met)
            }
            Err(fault) => {
                self.fault = Some(fault);
                Err(fault)
            }
        }
    }

    /// Returns whether the report with these lines meets the want. If [`Probe::feed`] returned true, this returns
    /// true, also for a report whose markings aren't accepted.
    ///
    /// Fails with the fault that was returned, if one was, or with NoMemory.
    pub fn finish(self) -> Result<bool, OutlineFault>
        ensures ended { IfSome self.fed.fault (λ f. result ≡ Err f) }
        ensures told { self.fed.fault ≡ None → first_bad_marking (located self.fed.lines) ≡ None →
            IfOk result (λ b. b ≡ spec.meets self.want self.fed.lines self.case self.standing) }
        ensures stays { self.fed.fault ≡ None → self.met ≡ true → IfOk result (λ b. b ≡ true) }
        ensures memory { self.fed.fault ≡ None → IfErr result (λ f. f ≡ NoMemory) }
    {
        let Probe {
            alloc,
            case,
            standing,
            want,
            fed: _,
            seeker,
            fault,
            met,
        } = self;
        if let Some(fault) = fault {
            return Err(fault);
        }
        if met {
            return Ok(true);
        }
        let Seeker {
            shape: _,
            lines,
            classes: _,
            sight: _,
            follows: _,
            steps: _,
        } = seeker;
        let document = document_of(alloc, lines)?;
        Ok(meets(alloc, &document, &case, &standing, &want)?)
    }
}

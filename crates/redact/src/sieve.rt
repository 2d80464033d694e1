//! The lines that matter to a reader, of lines that come one at a time.

ghost use Rattle.std.specs.Prelude.{◌≡◌, ◌++◌, ◌∷◌, [], List, true, IfOk, OnOk};
ghost use Rattle.iodef_tree.specs.declared.line.Line.{Line as Row};
ghost use Rattle.iodef_tree.specs.Outline.{back, may_come};
ghost use Rattle.policy.specs.declared.standing.Standing.{Standing as TheStanding};
ghost use Rattle.policy.specs.declared.case.Case.{Case as TheCase};
ghost use Rattle.redact.specs.Sifted.{IsCounted, is_stopped, went_on, is_beyond, shut_by, Sifts};

use crate::gate_refusals::refuses;
use crate::steps::{Step, step_to};
use iodef_tree::Line;
use policy::{Case, Standing};
use std::alloc::{AllocError, Global};

/// The lines that matter. A line below a class at which a gate refuses the reader doesn't matter, and is dropped as it
/// comes.
#[derive(Drop)]
pub(crate) struct Sieve {
    /// The steps to the newest of them.
    pub(crate) steps: Vec<Step>,
    /// The lines that matter.
    pub(crate) lines: Vec<Line>,
    /// The depth of the newest line, if it is that of a class at which a gate refuses the reader.
    pub(crate) shut: Option<u32>,
}

/// Goes on to one more line, which is then the newest of its depth; no deeper line is open any more. Returns whether
/// it is that of a class at which a gate refuses the reader, if none refuses above it.
fn go_on(
    steps: &mut Vec<Step>,
    case: &Case,
    standing: &Standing,
    line: &Line,
) -> Result<bool, AllocError>
    ensures refused { IfOk result (λ refused.
        IsCounted steps.old.items line.now →
        refused ≡ is_stopped case.now standing.entry.now steps.old.items line.now) }
    ensures steps { OnOk result (IsCounted steps.old.items line.now →
        steps.new.items ≡ went_on steps.old.items line.now) }
{
    let step = step_to(steps.as_slice(), line)?;
    steps.truncate((line.depth as usize).saturating_sub(1));
    let refused = refuses(case, standing, steps.as_slice(), &step, line);
    steps.push(step)?;
    Ok(refused)
}

/// Returns the depth of a line below which lines are dropped, if they are.
fn shut_by(refused: bool, depth: u32) -> Option<u32>
    ensures { result ≡ shut_by refused depth }
{
    if refused { Some(depth) } else { None }
}

impl Sieve {
    /// Returns the state before the first line.
    pub(crate) fn new(alloc: Global) -> Sieve
        ensures { (c : TheCase) (s : TheStanding) → Sifts c s [] result }
    {
        Sieve {
            steps: Vec::new(alloc),
            lines: Vec::new(alloc),
            shut: None,
        }
    }

    /// Returns whether a line is below the class at which a gate refused last.
    fn is_shut(&self, line: &Line) -> bool
        ensures { result ≡ is_beyond self.now.shut line.now.depth }
    {
        match self.shut {
            Some(depth) => line.depth > depth,
            None => false,
        }
    }

    /// Takes one more line, which may come behind those before it.
    pub(crate) fn take(
        &mut self,
        case: &Case,
        standing: &Standing,
        line: Line,
    ) -> Result<(), AllocError>
        ensures { OnOk result ((ls : List Row) → Sifts case.now standing.entry.now ls self.old →
            may_come (back ls) line ≡ true →
            Sifts case.now standing.entry.now (ls ++ line ∷ []) self.new) }
    {
        // Gates depend on paths only, so whatever their labels are, no class below is visible and nothing is listed of
        // them. The line of the refused class itself stays: its rule is listed at the place of its parent.
        if self.is_shut(&line) {
            return Ok(());
        }
        let refused = go_on(&mut self.steps, case, standing, &line)?;
        self.shut = shut_by(refused, line.depth);
        self.lines.push(line)?;
        Ok(())
    }

    /// Returns the lines that matter, of those that came.
    pub(crate) fn into_lines(self) -> Vec<Line>
        ensures { result ≡ self.lines }
    {
        let Sieve {
            steps: _,
            lines,
            shut: _,
        } = self;
        lines
    }
}

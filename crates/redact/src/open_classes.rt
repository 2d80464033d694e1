//! What is sure of a report whose lines come one at a time, after the lines so far.

ghost use Rattle.std.specs.Prelude.{◌≡◌, ◌&&◌, true, option_map, ◌++◌, ◌∷◌, [], List, false, OnOk, IfOk, IfErr};
ghost use Rattle.std.specs.List.{list_any};
ghost use Rattle.iodef_tree.specs.Outline.{is_outline};
ghost use Rattle.iodef_tree.specs.Paths.{is_class_kind};
ghost use Rattle.iodef_tree.specs.declared.line.Line.{Line as Row};
ghost use Rattle.iodef_tree.specs.declared.fault.OutlineFault.TheVariants.{BadOutline};
ghost use Rattle.redact.specs.declared.want.Want.{Want as TheWant};
ghost use Rattle.marking.specs.Label.{marking_of};
ghost use Rattle.policy.specs.Verdict.{is_cleared_for};
ghost use Rattle.redact.specs.Told.{is_hit};
ghost use Rattle.redact.specs.inner.Seeking.{sight_of, is_everything, is_cleared_sight, beside_by, beside_with, is_cleared_text, is_cleared_if, shows_class};
ghost use Rattle.redact.specs.inner.Seeking.{innermost_holding, with_opened_class, open_with_line, is_settled, IsKnown, TakesTo};
ghost use Rattle.redact.specs.inner.Seeking as spec;
ghost use Rattle.redact.specs.Sifted.{way, IsCounted, went_on};

use crate::class_permissions::{is_permitted, some_permits};
use crate::steps::{Step, step_to};
use crate::want::Want;
use iodef_tree::{Kind, Line, OutlineFault, Shape};
use marking::{Handling, Label};
use memchr::memmem::Finder;
use policy::{Case, Standing, clearance, passes};
use std::alloc::{AllocError, Global};

/// What the reader surely sees without permissions, whatever lines come.
#[derive(Clone, Copy)]
pub(crate) enum Sight {
    /// Every class.
    Everything,
    /// Each class with a written label for which the reader is cleared.
    Cleared,
    /// Nothing.
    Unsure,
}

/// What a class holds as `ext-restriction`, so far.
#[derive(Clone, Copy)]
pub(crate) enum Beside {
    /// Nothing.
    Absent,
    /// A text for which the reader is cleared, if it is the label.
    Cleared,
    /// Something else.
    Other,
}

/// A class that may still get lines, and what is sure of it, whatever lines come.
#[derive(Clone, Copy)]
pub(crate) struct Open {
    /// It has the name that is wanted, if one is wanted.
    pub(crate) fits: bool,
    /// It directly holds a text with the needle, if one is wanted.
    pub(crate) holds: bool,
    /// The reader surely sees it.
    pub(crate) shown: bool,
    /// It holds something as `restriction`.
    pub(crate) labelled: bool,
    /// What it holds as `ext-restriction`.
    pub(crate) beside: Beside,
}

/// Returns whether a class of this name is wanted. Without a needle every class is, whatever name is given.
fn wants_name(want: &Want, name: &str) -> bool
    ensures { result ≡ spec.wants_name want.now name.now }
{
    if want.needle.is_none() {
        return true;
    }
    match &want.class {
        None => true,
        Some(class) => class.as_str() == name,
    }
}

/// Returns whether the line is a text that contains the needle.
#[tactic(auto, using(crate::proofs::Needles::finds_has))]
fn contains(line: &Line, needle: &str) -> bool
    ensures { result ≡ is_hit needle.now line.now }
{
    match line.kind {
        Kind::Class => false,
        Kind::Text => Finder::new(needle.as_bytes())
            .find(line.text.as_str().as_bytes())
            .is_some(),
        Kind::Value => false,
    }
}

/// Returns whether the line is a text with the needle that is wanted.
fn wants_line(want: &Want, line: &Line) -> bool
    ensures { result ≡ spec.wants_line want.now line.now }
{
    match &want.needle {
        None => false,
        Some(needle) => contains(line, needle.as_str()),
    }
}

/// Returns the text of a line, if it is a text outside arrays.
fn plain_text(line: &Line) -> Option<&str>
    ensures { option_map (λ t. t.now) result ≡ spec.plain_text line.now }
{
    match line.kind {
        Kind::Text if !line.in_array => Some(line.text.as_str()),
        _ => None,
    }
}

/// Returns whether the reader is cleared for a label.
fn is_cleared(standing: &Standing, label: Label<'_>) -> bool
    ensures { result ≡ is_cleared_for standing.entry.now (marking_of label.entry) }
{
    let most = clearance(standing).0;
    label.handling(standing.arrangement).is_at_most(most)
}

impl Beside {
    /// Returns what the first line named `ext-restriction` is.
    fn of(standing: &Standing, line: &Line) -> Beside
        ensures { result ≡ beside_by standing.entry.now (spec.plain_text line.now) }
    {
        match plain_text(line) {
            Some(text) => {
                if is_cleared(standing, Label::Ext(text)) {
                    Beside::Cleared
                } else {
                    Beside::Other
                }
            }
            None => Beside::Other,
        }
    }

    /// Returns the state after one more line.
    fn with(self, standing: &Standing, line: &Line) -> Beside
        ensures { result ≡ beside_with standing.entry.now line.now self }
    {
        if line.name.as_str() == "ext-restriction" {
            return match self {
                Beside::Absent => Beside::of(standing, line),
                Beside::Cleared => Beside::Cleared,
                Beside::Other => Beside::Other,
            };
        }
        self
    }

    /// Returns whether a text as `restriction`, with this beside it, spells a label for which the reader is cleared.
    fn clears(self, standing: &Standing, restriction: &str) -> bool
        ensures { result ≡ is_cleared_text standing.entry.now self restriction.now }
    {
        match Label::of(restriction, None) {
            Some(label) => is_cleared(standing, label),
            None => restriction == "ext-value" && matches!(self, Beside::Cleared),
        }
    }

    /// Returns the same of a line as `restriction`.
    fn clears_line(self, standing: &Standing, line: &Line) -> bool
        ensures { result ≡ is_cleared_if standing.entry.now self (spec.plain_text line.now) }
    {
        match plain_text(line) {
            Some(text) => self.clears(standing, text),
            None => false,
        }
    }
}

/// Returns whether the line is named `restriction`.
fn is_restriction(line: &Line) -> bool
    ensures { result ≡ spec.is_restriction line.now }
{
    line.name.as_str() == "restriction"
}

impl Sight {
    /// Returns what the reader surely sees without permissions. If no gate refuses the reader, a label that a class
    /// says itself is enough, once it is known that the reader is cleared for it.
    fn new(case: &Case, standing: &Standing) -> Sight
        ensures { result ≡ sight_of case.now standing.entry.now }
    {
        if sees_all(case, standing) {
            Sight::Everything
        } else if some_refuses(case, standing) {
            Sight::Unsure
        } else {
            Sight::Cleared
        }
    }

    /// Returns whether the reader surely sees every class.
    fn is_everything(self) -> bool
        ensures { result ≡ is_everything self }
    {
        match self {
            Sight::Everything => true,
            Sight::Cleared | Sight::Unsure => false,
        }
    }

    /// Returns whether the reader surely sees each class with a written label for which it is cleared, and no other.
    fn is_cleared(self) -> bool
        ensures { result ≡ is_cleared_sight self }
    {
        match self {
            Sight::Cleared => true,
            Sight::Everything | Sight::Unsure => false,
        }
    }
}

impl Open {
    /// Returns the class of this line; `opened` says whether a permission shows it.
    fn new(sight: Sight, want: &Want, line: &Line, opened: bool) -> Open
        ensures { result ≡ spec.entered sight want.now line.now opened }
    {
        Open {
            fits: wants_name(want, line.name.as_str()),
            holds: want.needle.is_none(),
            shown: sight.is_everything() || opened,
            labelled: false,
            beside: Beside::Absent,
        }
    }

    /// Returns whether a line in the class shows it: the first that is named `restriction`.
    fn is_shown_by(self, sight: Sight, standing: &Standing, line: &Line) -> bool
        ensures { result ≡ shows_class sight standing.entry.now line.now self }
    {
        is_restriction(line)
            && (!self.labelled && (sight.is_cleared() && self.beside.clears_line(standing, line)))
    }

    /// Returns the state after one more line in the class.
    fn with(self, sight: Sight, standing: &Standing, want: &Want, line: &Line) -> Open
        ensures { result ≡ spec.holding sight standing.entry.now want.now line.now self }
    {
        Open {
            fits: self.fits,
            holds: self.holds || wants_line(want, line),
            shown: self.shown || self.is_shown_by(sight, standing, line),
            labelled: self.labelled || is_restriction(line),
            beside: self.beside.with(standing, line),
        }
    }

    /// Returns whether the class surely meets the want.
    fn is_settled(self) -> bool
        ensures { result ≡ is_settled self }
    {
        self.shown && (self.holds && self.fits)
    }
}

/// Notes a line in the innermost of these classes.
fn hold(classes: &mut [Open], sight: Sight, standing: &Standing, want: &Want, line: &Line)
    ensures { classes.new ≡
        innermost_holding sight standing.entry.now want.now line.now classes.old }
{
    if let Some(innermost) = classes.last_mut() {
        *innermost = innermost.with(sight, standing, want, line);
    }
}

/// Opens the class of a line behind these, if the line is a class.
fn enter(
    classes: &mut Vec<Open>,
    sight: Sight,
    want: &Want,
    line: &Line,
    is_permitted: bool,
) -> Result<(), AllocError>
    ensures { OnOk result (classes.new.items ≡
        with_opened_class sight want.now line.now is_permitted classes.old.items) }
{
    match line.kind {
        Kind::Class => classes.push(Open::new(sight, want, line, is_permitted))?,
        Kind::Text | Kind::Value => {}
    }
    Ok(())
}

/// Notes a line in the open classes, of which the outermost is first.
fn note(
    classes: &mut Vec<Open>,
    sight: Sight,
    standing: &Standing,
    want: &Want,
    line: &Line,
    is_permitted: bool,
) -> Result<(), AllocError>
    ensures { OnOk result (classes.new.items ≡
        open_with_line sight standing.entry.now want.now line.now is_permitted classes.old.items) }
{
    classes.truncate((line.depth as usize).saturating_sub(1));
    hold(classes.as_mut_slice(), sight, standing, want, line);
    enter(classes, sight, want, line, is_permitted)
}

/// Returns whether one of the classes surely meets the want.
fn is_found(classes: &[Open]) -> bool
    ensures { result ≡ list_any is_settled classes.now }
{
    classes.iter().any(|class| class.is_settled())
}

/// Returns whether a gate of the case refuses the reader.
fn some_refuses(case: &Case, standing: &Standing) -> bool
    ensures { result ≡ spec.some_refuses case.now standing.entry.now }
{
    case.gates
        .as_slice()
        .iter()
        .any(|gate| passes(standing, gate).is_err())
}

/// Returns whether the reader sees every class of every report.
fn sees_all(case: &Case, standing: &Standing) -> bool
    ensures { result ≡ spec.sees_all case.now standing.entry.now }
{
    standing.source
        || (!some_refuses(case, standing) && Handling::Red.is_at_most(clearance(standing).0))
}

/// Appends a line.
fn keep(lines: &mut Vec<Line>, line: Line) -> Result<(), AllocError>
    ensures { OnOk result (lines.new.items ≡ lines.old.items ++ line ∷ []) }
{
    lines.push(line)?;
    Ok(())
}

/// Goes on from the newest line to the next one.
fn step_on(steps: &mut Vec<Step>, line: &Line) -> Result<(), AllocError>
    ensures { OnOk result (IsCounted steps.old.items line.now →
        steps.new.items ≡ went_on steps.old.items line.now) }
{
    let step = step_to(steps.as_slice(), line)?;
    steps.truncate((line.depth as usize).saturating_sub(1));
    steps.push(step)?;
    Ok(())
}

/// Returns whether the line of the steps is that of a class that a permission surely shows.
fn permits_class(case: &Case, standing: &Standing, steps: &[Step], line: &Line) -> bool
    ensures { result ≡ (is_class_kind line.now.kind &&
        spec.is_permitted case.now standing.entry.now (way steps.now)) }
{
    match line.kind {
        Kind::Class => is_permitted(case, standing, steps),
        Kind::Text | Kind::Value => false,
    }
}

/// Goes on to the next line if the steps are kept, and returns whether that is a class that a permission surely shows.
fn follow(
    steps: &mut Vec<Step>,
    follows: bool,
    case: &Case,
    standing: &Standing,
    line: &Line,
) -> Result<bool, AllocError>
    ensures steps { OnOk result (follows ≡ true → IsCounted steps.old.items line.now →
        steps.new.items ≡ went_on steps.old.items line.now) }
    ensures opened { IfOk result (λ b. b ≡
        (follows && (is_class_kind line.now.kind &&
        spec.is_permitted case.now standing.entry.now (way steps.new.items)))) }
{
    if !follows {
        return Ok(false);
    }
    step_on(steps, line)?;
    Ok(permits_class(case, standing, steps.as_slice(), line))
}

/// What is known of the lines so far. Once it is sure that the want is met, only their shape still matters.
#[derive(Drop)]
pub(crate) struct Seeker {
    pub(crate) shape: Shape,
    pub(crate) lines: Vec<Line>,
    pub(crate) classes: Vec<Open>,
    pub(crate) sight: Sight,
    /// Whether a permission may show a class that isn't surely seen without it. Only then are the steps to the newest
    /// line kept; otherwise a line costs nothing more.
    pub(crate) follows: bool,
    pub(crate) steps: Vec<Step>,
}

impl Seeker {
    /// Returns the state before the first line.
    pub(crate) fn new(alloc: Global, case: &Case, standing: &Standing) -> Seeker
        ensures { (w : TheWant) → IsKnown w case.now standing.entry.now [] false result }
    {
        let sight = Sight::new(case, standing);
        Seeker {
            shape: Shape::new(alloc),
            lines: Vec::new(alloc),
            classes: Vec::new(alloc),
            sight,
            follows: !sight.is_everything() && some_permits(case, standing),
            steps: Vec::new(alloc),
        }
    }

    /// Takes one more line, and returns whether it is now sure that the want is met. Fails with BadOutline if the line
    /// may not come.
    pub(crate) fn take(
        &mut self,
        case: &Case,
        standing: &Standing,
        want: &Want,
        met: bool,
        line: Line,
    ) -> Result<bool, OutlineFault>
        ensures ok { IfOk result (λ b. (ls : List Row) →
            IsKnown want.now case.now standing.entry.now ls met self.old →
            TakesTo want.now case.now standing.entry.now ls met line b self.new) }
        ensures bad { IfErr result (λ f. f ≡ BadOutline → (ls : List Row) →
            IsKnown want.now case.now standing.entry.now ls met self.old →
            is_outline (ls ++ line ∷ []) ≡ false) }
    {
        if !self.shape.accept(&line)? {
            return Err(OutlineFault::BadOutline);
        }
        if met {
            return Ok(true);
        }
        // A permission at the class itself shows it, whatever label is written in it. One further up covers only down
        // to the next label, and `restriction` sorts behind every capitalised member; so that is left to the end.
        let opened = follow(&mut self.steps, self.follows, case, standing, &line)?;
        note(&mut self.classes, self.sight, standing, want, &line, opened)?;
        keep(&mut self.lines, line)?;
        Ok(is_found(self.classes.as_slice()))
    }
}

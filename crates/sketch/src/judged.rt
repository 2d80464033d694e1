//! What a sketch says of a want.

ghost use Rattle.std.specs.Prelude.{◌≡◌, ◌&&◌, List, true, false, option_map, string_bytes};
ghost use Rattle.iodef_tree.specs.declared.line.Line.{Line};
ghost use Rattle.policy.specs.declared.standing.Standing.{Standing as TheStanding};
ghost use Rattle.policy.specs.declared.case.Case.{Case as TheCase};
ghost use Rattle.policy.specs.Reach.{reach_of};
ghost use Rattle.sketch.specs.Sketched.{IsSketchOf};
ghost use Rattle.sketch.specs.Judged.{meets_marked, cleared_for, has_runs_at, judged};
ghost use Rattle.sketch.specs.Judged as spec;

use crate::labels::lesser;
use crate::runs::{base_of, has_runs, number};
use crate::sketch::{Sketch, Summary};
use marking::{Handling, Label};
use policy::{Reach, Standing, clearance};
use redact::Want;

/// What a sketch alone says of a want, for a case and a reader.
#[derive(Clone, Copy)]
pub enum Judged {
    /// The want is met.
    Met,
    /// The want isn't met.
    Unmet,
    /// The document has to be read.
    Unsure,
}

impl Sketch {
    /// Returns false only if no reader's want is met: the markings aren't accepted, or the want has a needle and a
    /// three-byte run of it, or the name of its class, is missing. Allocates nothing.
    pub fn may_hold(&self, want: &Want) -> bool
        ensures exact { result ≡ spec.may_hold self.now want.now }
        ensures missing { (ls : List Line) (c : TheCase) (s : TheStanding) →
            IsSketchOf self.now ls → result ≡ false → meets_marked want.now ls c s ≡ false }
    {
        match &self.summary {
            None => false,
            Some(summary) => has_words(summary, want),
        }
    }

    /// Returns whether the want of a reader is met, as far as the sketch alone says it. `reach` is how the incident's case
    /// stands to the reader. Allocates nothing.
    pub fn judge(&self, reach: Reach, standing: &Standing, want: &Want) -> Judged
        ensures exact { result ≡ judged self.now reach standing.entry.now want.now }
        ensures met { (ls : List Line) (c : TheCase) → IsSketchOf self.now ls →
            reach ≡ reach_of c.gates c.permissions standing.entry.now → result ≡ Judged.Met →
            meets_marked want.now ls c standing.entry.now ≡ true }
        ensures unmet { (ls : List Line) (c : TheCase) → IsSketchOf self.now ls →
            reach ≡ reach_of c.gates c.permissions standing.entry.now → result ≡ Judged.Unmet →
            meets_marked want.now ls c standing.entry.now ≡ false }
    {
        match &self.summary {
            None => Judged::Unmet,
            Some(summary) => judge_by(summary, reach, standing, want),
        }
    }
}

/// Returns whether no run of the want's needle is missing, nor the name of its class.
fn has_words(summary: &Summary, want: &Want) -> bool
    ensures { result ≡ spec.has_words summary.now (option_map string_bytes want.now.needle)
        (option_map string_bytes want.now.class) }
{
    match &want.needle {
        None => true,
        Some(needle) => {
            has_runs(&summary.run_bits, 0, needle.as_str().as_bytes())
                && has_name(summary, &want.class)
        }
    }
}

/// Returns whether the name of the class isn't missing, if a class is named.
fn has_name(summary: &Summary, class: &Option<String>) -> bool
    ensures { result ≡ spec.has_name summary.now (option_map string_bytes class.now) }
{
    let Some(name) = class else {
        return true;
    };
    summary.name_bits.holds(number(name.as_str().as_bytes()))
}

/// Returns whether the want is met, by what is kept of the document.
fn judge_by(summary: &Summary, reach: Reach, standing: &Standing, want: &Want) -> Judged
    ensures { result ≡ spec.judged_by summary.now reach standing.entry.now
        (option_map string_bytes want.now.needle) (option_map string_bytes want.now.class) }
{
    if !has_words(summary, want) {
        return Judged::Unmet;
    }
    let shown = judge_shown(summary, reach, standing);
    match &want.needle {
        None => shown,
        Some(needle) => if may_show(summary, reach, standing, needle.as_str().as_bytes()) {
            look_for(shown)
        } else {
            Judged::Unmet
        },
    }
}

/// Returns what is known of a needle if this is known of all that the reader is shown.
fn look_for(shown: Judged) -> Judged
    ensures { result ≡ spec.looked_for shown }
{
    match shown {
        Judged::Met => Judged::Unsure,
        Judged::Unmet => Judged::Unmet,
        Judged::Unsure => Judged::Unsure,
    }
}

/// Returns whether a class that the reader is shown may hold the needle.
fn may_show(summary: &Summary, reach: Reach, standing: &Standing, needle: &[u8]) -> bool
    ensures { result ≡ spec.may_show summary.now reach standing.entry.now needle.now }
{
    standing.source || reach.permitted || has_cleared_runs(summary, standing, needle)
}

/// Returns whether a class for which the reader is cleared may hold the needle.
fn has_cleared_runs(summary: &Summary, standing: &Standing, needle: &[u8]) -> bool
    ensures { result ≡ spec.has_cleared_runs summary.now standing.entry.now needle.now }
{
    may_hold_at(summary, standing, needle, Some(Handling::Clear))
        || may_hold_at(summary, standing, needle, Some(Handling::Green))
        || may_hold_at(summary, standing, needle, Some(Handling::Amber))
        || may_hold_at(summary, standing, needle, Some(Handling::Strict))
        || may_hold_at(summary, standing, needle, Some(Handling::Red))
        || may_hold_at(summary, standing, needle, None)
}

/// Returns whether the reader is cleared for classes that are handled so, and one of them may hold the needle.
fn may_hold_at(
    summary: &Summary,
    standing: &Standing,
    needle: &[u8],
    handling: Option<Handling>,
) -> bool
    ensures { result ≡ (cleared_for standing.entry.now handling
        && has_runs_at summary.now needle.now handling) }
{
    is_cleared_for(standing, handling) && has_runs(&summary.handled_bits, base_of(handling), needle)
}

/// Returns whether the reader is cleared for classes that are handled so; for `default`, as it is arranged.
fn is_cleared_for(standing: &Standing, handling: Option<Handling>) -> bool
    ensures { result ≡ cleared_for standing.entry.now handling }
{
    let handling = match handling {
        Some(handling) => handling,
        None => Label::Default.handling(standing.arrangement),
    };
    handling.is_at_most(clearance(standing).0)
}

/// Returns whether the reader is shown some class.
fn judge_shown(summary: &Summary, reach: Reach, standing: &Standing) -> Judged
    ensures { result ≡ spec.judged_shown summary.now reach standing.entry.now }
{
    if !summary.classes {
        return Judged::Unmet;
    }
    if standing.source {
        return Judged::Met;
    }
    judge_least(reader_least(summary, standing), reach, standing)
}

/// Returns whether a reader who isn't of the source is shown some class, by the least handling.
fn judge_least(least: Option<Handling>, reach: Reach, standing: &Standing) -> Judged
    ensures { result ≡ spec.judged_least least reach standing.entry.now }
{
    if reach.shut {
        return Judged::Unmet;
    }
    if is_cleared(standing, least) {
        return if reach.refused {
            Judged::Unsure
        } else {
            Judged::Met
        };
    }
    if reach.permitted {
        Judged::Unsure
    } else {
        Judged::Unmet
    }
}

/// Returns the least handling for the reader.
fn reader_least(summary: &Summary, standing: &Standing) -> Option<Handling>
    ensures { result ≡ spec.reader_least summary.now.arranged summary.now.least standing.entry.now }
{
    if summary.arranged {
        lesser(
            summary.least,
            Some(Label::Default.handling(standing.arrangement)),
        )
    } else {
        lesser(summary.least, None)
    }
}

/// Returns whether the reader is cleared for a handling, if there is one.
fn is_cleared(standing: &Standing, handling: Option<Handling>) -> bool
    ensures { result ≡ spec.is_cleared standing.entry.now handling }
{
    match handling {
        None => false,
        Some(handling) => handling.is_at_most(clearance(standing).0),
    }
}

//! What the policy says at a path, for a pass down a document that inherits it from the path above.

ghost use Rattle.std.specs.Prelude.{◌≡◌, ◌&&◌, ◌||◌, [], is_none, option_map};
ghost use Rattle.std.specs.Option.{option_or};
ghost use Rattle.iodef_tree.specs.Text.{Tokens};
ghost use Rattle.marking.specs.Label.{marking_of};
ghost use Rattle.policy.specs.Ahead.{ahead_of, met_by};
ghost use Rattle.policy.specs.Verdict.{handling_for, is_cleared_for, showing_rule, hidden_by as hides_by};
ghost use Rattle.policy.specs.Inherited.{carried, array_step, class_step, label_step, verdict_by};
ghost use Rattle.policy.specs.Inherited as spec;
ghost use Rattle.policy.specs.declared.standing.Standing.{Standing as TheStanding};
ghost use Rattle.policy.specs.declared.case.Case.{Case as TheCase};

use crate::ahead::Ahead;
use crate::cleared::clearance;
use crate::rule::Rule;
use crate::spot::Spot;
use crate::standing::Standing;
use crate::verdict::Verdict;
use marking::{Handling, Label};

/// What holds at a path, as a pass down the document carries it. The verdict of one class, the redaction and the
/// search all step with these few calls, which are proved once against the definitions.
#[derive(Clone, Copy)]
pub struct Carried<'a> {
    /// The rule of the first gate, from the root down, that refuses the reader.
    pub refusal: Option<Rule>,
    /// The nearest label.
    pub label: Label<'a>,
    /// Whether a permission covers the path for the reader.
    pub covered: bool,
}

impl<'a> Carried<'a> {
    /// Returns what holds at the root, given what lies ahead. Allocates nothing, as all calls here.
    pub fn at_root(ahead: &Ahead<'_>) -> Carried<'a>
        ensures { (c : TheCase) (s : TheStanding) → met_by ahead.now ≡ ahead_of c s [] →
            carried [] result ≡ spec.at_root c s }
    {
        Carried {
            refusal: ahead.refusal(),
            label: Label::Private,
            covered: ahead.is_granted(),
        }
    }

    /// Returns what holds one token further down in an array, given what lies ahead of that path. An array's own path
    /// has no label.
    pub fn in_array(self, ahead: &Ahead<'_>) -> Carried<'a>
        ensures { (c : TheCase) (s : TheStanding) (p : Tokens) → met_by ahead.now ≡ ahead_of c s p →
            carried p result ≡ array_step c s (carried p self.entry) p }
    {
        Carried {
            refusal: first_refusal(self.refusal, ahead),
            label: self.label,
            covered: is_covered(self.covered, ahead),
        }
    }

    /// Returns what holds one token further down in a class, given where that is, what lies ahead of it, and the label
    /// written in the class.
    pub fn in_class<S: Spot>(
        self,
        ahead: &Ahead<'_>,
        spot: &S,
        written: Option<Label<'a>>,
    ) -> Carried<'a>
        ensures { (c : TheCase) (s : TheStanding) →
            met_by ahead.now ≡ ahead_of c s (S.tokens spot.now) →
            carried (S.tokens spot.now) result ≡
            class_step c s (carried (S.tokens spot.now) self.entry) (S.tokens spot.now)
            (option_map marking_of written.entry) }
    {
        Carried {
            refusal: first_refusal(self.refusal, ahead),
            label: label_below(self.label, spot, written),
            covered: is_covered(outlives(self.covered, written), ahead),
        }
    }

    /// Returns whether the reader sees the class here.
    pub fn is_seen(self, standing: &Standing) -> bool
        ensures { result ≡ spec.is_seen standing.entry.now (carried [] self.entry) }
    {
        standing.source
            || (self.refusal.is_none() && (is_cleared(standing, self.label) || self.covered))
    }

    /// Returns the verdict of the class here.
    pub fn verdict(self, standing: &Standing) -> Verdict
        ensures { result ≡ verdict_by standing.entry.now (carried [] self.entry) }
    {
        if self.is_seen(standing) {
            Verdict::Shown(shown_by(standing, self.label))
        } else {
            Verdict::Hidden(self.hiding_rule(standing))
        }
    }

    /// Returns the rule that hides the class here, if the reader doesn't see it.
    pub fn hiding_rule(self, standing: &Standing) -> Rule
        ensures { result ≡ spec.hides standing.entry.now (carried [] self.entry) }
    {
        match self.refusal {
            Some(rule) => rule,
            None => hidden_by(handling(standing, self.label)),
        }
    }
}

/// Returns how the reader is to handle the label.
fn handling(standing: &Standing, label: Label) -> Handling
    ensures { result ≡ handling_for standing.entry.now (marking_of label.entry) }
{
    label.handling(standing.arrangement)
}

/// Returns whether the reader is cleared for the label.
fn is_cleared(standing: &Standing, label: Label) -> bool
    ensures { result ≡ is_cleared_for standing.entry.now (marking_of label.entry) }
{
    handling(standing, label).is_at_most(clearance(standing).0)
}

/// Returns the rule that shows a class with this label.
fn shown_by(standing: &Standing, label: Label) -> Rule
    ensures { result ≡ showing_rule standing.entry.now (marking_of label.entry) }
{
    if standing.source {
        Rule::Src
    } else if is_cleared(standing, label) {
        clearance(standing).1
    } else {
        Rule::X
    }
}

/// Returns the rule of a handling that hides a class.
fn hidden_by(handling: Handling) -> Rule
    ensures { result ≡ hides_by handling }
{
    match handling {
        // Everybody is cleared for CLEAR, so it never hides a class and has no rule of its own.
        Handling::Clear | Handling::Green => Rule::HGreen,
        Handling::Amber => Rule::HAmber,
        Handling::Strict => Rule::HStrict,
        Handling::Red => Rule::HRed,
    }
}

/// Returns the refusal above, or else that of a gate here.
fn first_refusal(above: Option<Rule>, ahead: &Ahead<'_>) -> Option<Rule>
    ensures { result ≡ option_or above (met_by ahead.now []).refusal }
{
    match above {
        Some(rule) => Some(rule),
        None => ahead.refusal(),
    }
}

/// Returns whether a permission above still covers a class in which this label is written.
fn outlives(above: bool, written: Option<Label<'_>>) -> bool
    ensures { result ≡ (above && is_none (option_map marking_of written.entry)) }
{
    above && written.is_none()
}

/// Returns whether a permission above covers this place, or there is one here.
fn is_covered(above: bool, ahead: &Ahead<'_>) -> bool
    ensures { result ≡ (above || (met_by ahead.now []).granted) }
{
    above || ahead.is_granted()
}

/// Returns the label of a class: the one written in it, else the default of the Incident, else the label above.
fn label_below<'a, S: Spot>(above: Label<'a>, spot: &S, written: Option<Label<'a>>) -> Label<'a>
    ensures { marking_of result ≡
        label_step (marking_of above.entry) (S.tokens spot.now)
        (option_map marking_of written.entry) }
{
    match written {
        Some(label) => label,
        None => {
            if spot.is_at_incident() {
                Label::Private
            } else {
                above
            }
        }
    }
}

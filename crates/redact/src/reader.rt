//! The reader for whom classes are judged, and what each class inherits from above.

ghost use Rattle.std.specs.Prelude.{◌≡◌, ◌++◌, ◌∷◌, [], IfOk, OnOk, option_map};
ghost use Rattle.marking.specs.Label.{marking_of};
ghost use Rattle.policy.specs.Ahead.{ahead_of, met_by};
ghost use Rattle.policy.specs.Inherited.{carried, array_step, class_step, is_seen};
ghost use Rattle.policy.specs.Inherited as spec;
ghost use Rattle.iodef_tree.specs.Text.{Tokens};
ghost use Rattle.policy.specs.declared.standing.Standing.{Standing as TheStanding};
ghost use Rattle.policy.specs.declared.case.Case.{Case as TheCase};
ghost use Rattle.redact.specs.inner.Here.{carries, LiesAhead};
ghost use Rattle.redact.specs.inner.Tokens.{token_of, path_of};

use crate::trail::{Token, Trail};
use marking::Label;
use policy::{Ahead, Carried, Case, Rule, Standing};
use std::alloc::{AllocError, Global};

/// The reader for whom classes are judged, and the gates and permissions.
#[derive(Clone, Copy)]
pub struct Reader<'a> {
    pub case: &'a Case,
    pub standing: &'a Standing,
}

impl<'a> Reader<'a> {
    /// Returns what lies ahead of the root.
    pub fn ahead(&self, alloc: Global) -> Result<Ahead<'a>, AllocError>
        ensures { IfOk result (λ a. met_by a ≡
            ahead_of self.now.case.now self.now.standing.now []) }
    {
        Ahead::at_root(alloc, self.case, self.standing)
    }

    /// Goes one token further down, and returns what lies ahead there.
    pub fn step(
        &self,
        alloc: Global,
        trail: &mut Vec<Token<'a>>,
        ahead: &Ahead<'a>,
        token: Token<'a>,
    ) -> Result<Ahead<'a>, AllocError>
        requires { LiesAhead self.now trail.old.items ahead.now }
        ensures trail { OnOk result (trail.new.items ≡ trail.old.items ++ token.entry ∷ []) }
        ensures ahead { IfOk result (λ a. LiesAhead self.now trail.new.items a) }
    {
        trail.push(token)?;
        further(alloc, ahead, token)
    }

    /// Returns what holds at the root.
    pub fn at_root(&self, ahead: &Ahead<'a>) -> Carried<'a>
        requires { met_by ahead.now ≡ ahead_of self.now.case.now self.now.standing.now [] }
        ensures { carried [] result ≡ spec.at_root self.now.case.now self.now.standing.now }
    {
        Carried::at_root(ahead)
    }

    /// Returns what holds at the array at this path, given what lies ahead of it.
    pub fn at_array(
        &self,
        trail: &[Token<'a>],
        ahead: &Ahead<'a>,
        above: Carried<'a>,
    ) -> Carried<'a>
        requires { LiesAhead self.now trail.now ahead.now }
        ensures { carries trail.now result
            ≡ array_step self.now.case.now self.now.standing.now (carries trail.now above.entry)
            (path_of trail.now) }
    {
        // For the proof: the clauses name the path, which the code needn't know.
        let _ = trail;
        above.in_array(ahead)
    }

    /// Returns what holds at the class at this path, given what lies ahead of it and the label written in it.
    pub fn at_class(
        &self,
        trail: &[Token<'a>],
        ahead: &Ahead<'a>,
        above: Carried<'a>,
        written: Option<Label<'a>>,
    ) -> Carried<'a>
        requires { LiesAhead self.now trail.now ahead.now }
        ensures { carries trail.now result
            ≡ class_step self.now.case.now self.now.standing.now (carries trail.now above.entry)
            (path_of trail.now) (option_map marking_of written.entry) }
    {
        above.in_class(ahead, &Trail { tokens: trail }, written)
    }

    /// Returns whether a class is visible.
    pub fn sees(&self, at: Carried<'a>) -> bool
        ensures { result ≡ is_seen self.now.standing.now (carried [] at.entry) }
    {
        at.is_seen(self.standing)
    }

    /// Returns the rule that hides a class that isn't visible.
    pub fn hides(&self, at: Carried<'a>) -> Rule
        ensures { result ≡ spec.hides self.now.standing.now (carried [] at.entry) }
    {
        at.hiding_rule(self.standing)
    }
}

/// Returns what lies ahead one token further down.
fn further<'a>(alloc: Global, ahead: &Ahead<'a>, token: Token<'a>) -> Result<Ahead<'a>, AllocError>
    ensures { IfOk result (λ a.
        (c : TheCase) (s : TheStanding) (p : Tokens) → met_by ahead.now ≡ ahead_of c s p →
        met_by a ≡ ahead_of c s (p ++ token_of token.entry ∷ [])) }
{
    if ahead.is_empty() {
        return Ok(Ahead::none(alloc));
    }
    match token {
        Token::Name(name) => Ok(ahead.below(alloc, name)?),
        Token::Index(place) => {
            let mut digits = itoa::Buffer::new();
            Ok(ahead.below(alloc, digits.format(place))?)
        }
    }
}

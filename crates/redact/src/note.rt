//! What is withheld, as a pass notes it on its way.

ghost use Rattle.std.specs.Prelude.{◌≡◌, IfOk, OnOk};
ghost use Rattle.std.proofs.Common.{rules};
ghost use Rattle.std.specs.Cmp.Rules.{comparing};
ghost use Rattle.redact.specs.inner.Tokens.{path_of};
ghost use Rattle.redact.specs.Withheld.{has_rule, with_rule, withheld_cmp};

use crate::order::compare;
use crate::trail::{Token, path_at};
use iodef_tree::Path;
use policy::Rule;
use std::alloc::{AllocError, Global};
use std::cmp::Ordering;
use std::marker::Model;

/// A place of the excerpt and the rule by which something is withheld there. Notes are in order of the bytes of the
/// place's JSON pointer and then of the rule's name.
///
/// A note holds tokens; a path is made only when it is listed. Contracts see the path and the rule.
#[derive(Drop)]
pub struct Note<'a> {
    place: Vec<Token<'a>>,
    rule: Rule,
}

impl<'a> Model for Note<'a> {
    ghost use Rattle.redact.specs.inner.Tokens.{path_of};
    ghost use Rattle.redact.specs.Withheld.{Withheld};

    ghost Value = { Withheld };

    ghost view = { λ n. (path_of n.place.items, n.rule) };
}

impl<'a> Note<'a> {
    /// Returns a note at the place of these tokens. Fails if memory runs out.
    pub fn new(alloc: Global, place: &[Token<'a>], rule: Rule) -> Result<Note<'a>, AllocError>
        ensures { IfOk result (λ n. n ≡ (path_of place.now, rule)) }
    {
        let place = Vec::from_slice(alloc, place)?;
        Ok(Note { place, rule })
    }

    /// Compares the places and then the rules. Allocates nothing.
    fn compare(&self, other: &Note<'_>) -> Ordering
        ensures { result ≡ withheld_cmp self.now other.now }
    {
        let places = compare(self.place.as_slice(), other.place.as_slice());
        places.then(self.rule.name().cmp(other.rule.name()))
    }

    /// Returns the place as a path, with the rule. Fails if memory runs out.
    pub fn into_pair(self, alloc: Global) -> Result<(Path, Rule), AllocError>
        ensures { IfOk result (λ p. p ≡ self.entry) }
    {
        let place = path_at(alloc, self.place.as_slice())?;
        Ok((place, self.rule))
    }
}

impl<'a> PartialEq for Note<'a> {
    ghost use Rattle.std.specs.Cmp.{partial_equiv_from_equiv};
    ghost use Rattle.redact.specs.Withheld.{same_withheld};

    ghost eq = { same_withheld };

    ghost laws = { partial_equiv_from_equiv (Prim.search (comparing, rules)) };

    fn eq(&self, other: &Note<'a>) -> bool {
        self.compare(other).is_eq()
    }
}

impl<'a> Eq for Note<'a> {
    ghost laws = { Prim.search (comparing, rules) };
}

impl<'a> Ord for Note<'a> {
    ghost use Rattle.redact.specs.Withheld.{withheld_cmp};
    ghost use Rattle.redact.specs.inner.Ties.{withheld-ties};

    ghost cmp = { withheld_cmp };

    ghost total = { Prim.search (comparing, rules) };

    ghost matches_partial_cmp = { Prim.search (comparing, rules) };

    ghost matches_eq = { withheld-ties };

    fn cmp(&self, other: &Note<'a>) -> Ordering {
        self.compare(other)
    }
}

impl<'a> PartialOrd for Note<'a> {
    ghost use Rattle.std.specs.Cmp.{partial_order_from_own_ties};
    ghost use Rattle.std.specs.Ordering.{as_partial_cmp};
    ghost use Rattle.redact.specs.Withheld.{withheld_cmp};
    ghost use Rattle.redact.specs.inner.Ties.{withheld-ties};

    ghost partial_cmp = { as_partial_cmp withheld_cmp };

    ghost laws = { partial_order_from_own_ties (Prim.search (comparing, rules)) withheld-ties };

    fn partial_cmp(&self, other: &Note<'a>) -> Option<Ordering> {
        Some(self.compare(other))
    }
}

/// Returns whether a rule is among these.
fn has(rules: &[Rule], rule: Rule) -> bool
    ensures { result ≡ has_rule rules.now rule }
{
    rules.iter().any(|x| x.name() == rule.name())
}

/// Adds a rule, unless it is there already.
pub fn add(rules: &mut Vec<Rule>, rule: Rule) -> Result<(), AllocError>
    ensures { OnOk result (rules.new.items ≡ with_rule rules.old.items rule) }
{
    if !has(rules.as_slice(), rule) {
        rules.push(rule)?;
    }
    Ok(())
}

//! The gates and permissions of a case that a pass can still meet.

ghost use Rattle.std.specs.Prelude.{◌≡◌, ◌↔◌, ◌++◌, ◌∷◌, [], IfOk, true, false};
ghost use Rattle.std.specs.Option.{option_map_or};
ghost use Rattle.iodef_tree.specs.Text.{Tokens, same_path};
ghost use Rattle.policy.specs.Verdict.{first_of, refusals_at};
ghost use Rattle.policy.specs.Inherited.{is_granted};
ghost use Rattle.policy.specs.Ahead.{ahead_of, met_by, nothing_met, refused_with, granted_with};
ghost use Rattle.policy.specs.declared.standing.Standing.{Standing as TheStanding};
ghost use Rattle.policy.specs.declared.case.Case.{Case as TheCase};

use crate::case::Case;
use crate::gate::passes;
use crate::onward::{Granting, Refusing};
use crate::permission::holds_for;
use crate::rule::Rule;
use crate::standing::Standing;
use iodef_tree::Text;
use std::alloc::{AllocError, Global};

/// The gates that refuse a reader, and the permissions that hold for it, at or below the place of a pass. Each is kept
/// with the rest of its path. A step by one token compares one token of each and drops those whose path goes another
/// way.
///
/// Contracts see what is met at each path behind.
#[derive(Drop)]
pub struct Ahead<'a> {
    refusing: Vec<Refusing<'a>>,
    granting: Vec<Granting<'a>>,
}

impl<'a> Ahead<'a> {
    /// Returns what lies ahead of the root. Fails if memory runs out.
    pub fn at_root(
        alloc: Global,
        case: &'a Case,
        standing: &Standing,
    ) -> Result<Ahead<'a>, AllocError>
        ensures { IfOk result (λ a. met_by a ≡ ahead_of case.now standing.entry.now []) }
    {
        let refusing = refusing(alloc, case, standing)?;
        let granting = granting(alloc, case, standing)?;
        Ok(Ahead { refusing, granting })
    }

    /// Returns the state in which nothing can be met. Allocates nothing.
    pub fn none(alloc: Global) -> Ahead<'a>
        ensures { met_by result ≡ nothing_met }
    {
        Ahead {
            refusing: Vec::new(alloc),
            granting: Vec::new(alloc),
        }
    }

    /// Returns what lies ahead one token further down. Allocates nothing if nothing is left. Fails if memory runs out.
    pub fn below(&self, alloc: Global, token: &str) -> Result<Ahead<'a>, AllocError>
        ensures { IfOk result (λ a.
            (c : TheCase) (s : TheStanding) (p : Tokens) → met_by self.now ≡ ahead_of c s p →
            met_by a ≡ ahead_of c s (p ++ token.now ∷ [])) }
    {
        let refusing = refusing_below(alloc, self.refusing.as_slice(), token)?;
        let granting = granting_below(alloc, self.granting.as_slice(), token)?;
        Ok(Ahead { refusing, granting })
    }

    /// Returns whether nothing can be met any more, here or below.
    pub fn is_empty(&self) -> bool
        ensures { (result ≡ true) ↔ (met_by self.now ≡ nothing_met) }
    {
        self.refusing.is_empty() && self.granting.is_empty()
    }

    /// Returns the rule of the first gate here that refuses.
    pub fn refusal(&self) -> Option<Rule>
        ensures { result ≡ (met_by self.now []).refusal }
    {
        first_here(self.refusing.as_slice())
    }

    /// Returns whether there is a permission here.
    pub fn is_granted(&self) -> bool
        ensures { result ≡ (met_by self.now []).granted }
    {
        self.granting.as_slice().iter().any(|x| is_here(x.rest))
    }
}

/// Returns whether nothing is left of a path.
fn is_here(rest: &[Text]) -> bool
    ensures { result ≡ same_path rest.now [] }
{
    rest.is_empty()
}

/// Returns the rule of the first gate of whose path nothing is left.
fn first_here(gates: &[Refusing<'_>]) -> Option<Rule>
    ensures { result ≡ first_of (refused_with gates.now []) }
{
    for gate in gates {
        if is_here(gate.rest) {
            return Some(gate.rule);
        }
    }
    None
}

/// Returns the gates that refuse the reader, each with its whole path.
fn refusing<'a>(
    alloc: Global,
    case: &'a Case,
    standing: &Standing,
) -> Result<Vec<Refusing<'a>>, AllocError>
    ensures { IfOk result (λ v.
        (z : Tokens) → refused_with v.items z ≡ refusals_at case.now standing.entry.now z) }
{
    let mut refusing = Vec::new(alloc);
    for gate in case.gates.as_slice() {
        if let Err(rule) = passes(standing, gate) {
            let rest = gate.path.tokens();
            refusing.push(Refusing { rest, rule })?;
        }
    }
    Ok(refusing)
}

/// Returns the permissions that hold for the reader, each with its whole path.
fn granting<'a>(
    alloc: Global,
    case: &'a Case,
    standing: &Standing,
) -> Result<Vec<Granting<'a>>, AllocError>
    ensures { IfOk result (λ v.
        (z : Tokens) → granted_with v.items z ≡ is_granted case.now standing.entry.now z) }
{
    let mut granting = Vec::new(alloc);
    for permission in case.permissions.as_slice() {
        if holds_for(standing, permission) {
            let rest = permission.path.tokens();
            granting.push(Granting { rest })?;
        }
    }
    Ok(granting)
}

/// Returns the path behind the token, if the token comes first.
#[inline(always)]
fn behind<'a>(rest: &'a [Text], token: &str) -> Option<&'a [Text]>
    ensures { (z : Tokens) →
        option_map_or (λ r. same_path r.now z) result false ≡ same_path rest.now (token.now ∷ z) }
{
    if !rest.is_empty() && rest[0].as_str() == token {
        Some(&rest[1..])
    } else {
        None
    }
}

/// Returns the gates whose path begins with the token, without that token.
fn refusing_below<'a>(
    alloc: Global,
    gates: &[Refusing<'a>],
    token: &str,
) -> Result<Vec<Refusing<'a>>, AllocError>
    ensures { IfOk result (λ v.
        (z : Tokens) → refused_with v.items z ≡ refused_with gates.now (token.now ∷ z)) }
{
    let mut below = Vec::new(alloc);
    for gate in gates {
        if let Some(rest) = behind(gate.rest, token) {
            let rule = gate.rule;
            below.push(Refusing { rest, rule })?;
        }
    }
    Ok(below)
}

/// Returns the permissions whose path begins with the token, without that token.
fn granting_below<'a>(
    alloc: Global,
    permissions: &[Granting<'a>],
    token: &str,
) -> Result<Vec<Granting<'a>>, AllocError>
    ensures { IfOk result (λ v.
        (z : Tokens) → granted_with v.items z ≡ granted_with permissions.now (token.now ∷ z)) }
{
    let mut below = Vec::new(alloc);
    for permission in permissions {
        if let Some(rest) = behind(permission.rest, token) {
            below.push(Granting { rest })?;
        }
    }
    Ok(below)
}

//! Clearances, gates, grantees and verdicts.

ghost use Rattle.std.specs.Prelude.{◌≡◌, None};
ghost use Rattle.iodef_tree.specs.Paths.{located};
ghost use Rattle.marking.specs.Marks.{first_bad_marking};

use iodef_tree::{Document, Path};
use policy::{Case, DecideFault, Gate, Permission, Standing, Verdict, clearance, decide, passes};
use std::alloc::{AllocError, Global};
use trying_policy::{Asker, Unfit, gate_word, permission_word};

pub fn describe_clearance(alloc: Global, standing: &Standing) -> Result<String, Unfit> {
    let (handling, rule) = clearance(standing);
    let handling = handling.name();
    let rule = rule.name();
    Ok(format!(in alloc; "{handling} by {rule}")?)
}

pub fn passed(standing: &Standing, gate: &Gate) -> &'static str {
    match passes(standing, gate) {
        Ok(()) => "passes",
        Err(rule) => rule.name(),
    }
}

fn decided(
    alloc: Global,
    document: &Document,
    asker: &Asker,
    path: &Path,
) -> (&'static str, &'static str)
    requires { first_bad_marking (located document.now) ≡ None }
{
    match decide(alloc, document, &asker.case, &asker.standing, path) {
        Ok(Verdict::Shown(rule)) => ("Shown ", rule.name()),
        Ok(Verdict::Hidden(rule)) => ("Hidden ", rule.name()),
        Err(DecideFault::NoClass) => ("", "NoClass"),
        Err(DecideFault::NoMemory) => ("", "NoMemory"),
    }
}

fn push_words(told: &mut String, side: &str, rule: &str) -> Result<(), Unfit> {
    told.push_str(side)?;
    told.push_str(rule)?;
    Ok(told.push_str("; ")?)
}

fn push_verdict(
    told: &mut String,
    alloc: Global,
    document: &Document,
    asker: &Asker,
    pointer: &str,
) -> Result<(), Unfit>
    requires { first_bad_marking (located document.now) ≡ None }
{
    let path = Path::parse(alloc, pointer)?;
    let (side, rule) = decided(alloc, document, asker, &path);
    push_words(told, side, rule)
}

/// Returns the verdict of each pointer, with commas between them.
pub fn verdicts(
    alloc: Global,
    document: &Document,
    asker: &Asker,
    pointers: &str,
) -> Result<String, Unfit>
    requires { first_bad_marking (located document.now) ≡ None }
{
    let mut told = String::new(alloc);
    for pointer in pointers.split(',') {
        push_verdict(&mut told, alloc, document, asker, pointer)?;
    }
    Ok(told)
}

fn push_gates(alloc: Global, told: &mut String, gates: &[Gate]) -> Result<(), AllocError> {
    for gate in gates {
        let word = gate_word(alloc, gate)?;
        push_row(told, word.as_str())?;
    }
    Ok(())
}

fn push_permissions(
    alloc: Global,
    told: &mut String,
    permissions: &[Permission],
) -> Result<(), AllocError> {
    for permission in permissions {
        let word = permission_word(alloc, permission)?;
        push_row(told, word.as_str())?;
    }
    Ok(())
}

fn push_row(told: &mut String, word: &str) -> Result<(), AllocError> {
    told.push_str("; ")?;
    Ok(told.push_str(word)?)
}

/// Returns the gates and permissions that a case gives back.
pub fn given_back(alloc: Global, case: Case) -> Result<String, AllocError> {
    let source = case.source;
    let mut told = format!(in alloc; "source {source}")?;
    push_gates(alloc, &mut told, &case.gates.into_vec())?;
    push_permissions(alloc, &mut told, &case.permissions.into_vec())?;
    Ok(told)
}

fn groups_told(alloc: Global, groups: &[u32]) -> Result<String, AllocError> {
    let mut told = String::from_str(alloc, "groups")?;
    for number in groups {
        let word = format!(in alloc; " {number}")?;
        told.push_str(word.as_str())?;
    }
    Ok(told)
}

/// Returns the numbers of the groups that a standing gives back.
pub fn groups_given_back(alloc: Global, standing: Standing) -> Result<String, AllocError> {
    let groups = standing.groups.into_vec();
    groups_told(alloc, &groups)
}

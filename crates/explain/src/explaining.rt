//! The explanation of a verdict.

ghost use Rattle.std.specs.Prelude.{◌≡◌, ◌++◌, None, IfOk, OnOk};
ghost use Rattle.iodef_tree.specs.Paths.{located};
ghost use Rattle.marking.specs.Marks.{first_bad_marking};
ghost use Rattle.explain.specs.Explanation.{passages_at, passages_on};
ghost use Rattle.explain.specs.Explanation as spec;
ghost use Rattle.explain.specs.Explained.{Explains};

use crate::fault::ExplainFault;
use crate::trace::Trace;
use iodef_tree::{Document, Path};
use marking::site;
use policy::{Case, Gate, Permission, Rule, Standing, clearance, covers, decide, passes};
use std::alloc::{AllocError, Global};

/// Returns why the reader sees the class at the path, or doesn't. The markings of the document must have been
/// accepted.
///
/// Fails with NoClass exactly if there is no class at the path (the root is none); with NoMemory if memory runs out.
pub fn explain(
    alloc: Global,
    document: &Document,
    case: &Case,
    standing: &Standing,
    path: &Path,
) -> Result<Trace, ExplainFault>
    requires { first_bad_marking (located document.now) ≡ None }
    ensures { Explains result (located document.now) case.now standing.entry.now path.now }
{
    let verdict = decide(alloc, document, case, standing, path)?;
    let sited = site(alloc, document, path)?;
    let (site, label) = sited;
    let gates = passages(alloc, case, standing, path)?;
    let permissions = covering(alloc, document, case, standing, path)?;
    let text = label.text(alloc)?;
    let copy = path.clone()?;
    Ok(Trace {
        verdict,
        path: copy,
        community: case.community,
        gates,
        site,
        label: text,
        handling: label.handling(standing.arrangement),
        clearance: clearance(standing),
        permissions,
    })
}

/// Returns every gate at a prefix of the path with its result, the shortest path first.
fn passages(
    alloc: Global,
    case: &Case,
    standing: &Standing,
    path: &Path,
) -> Result<Vec<(Gate, Option<Rule>)>, AllocError>
    ensures { IfOk result (λ v. v.items ≡ passages_on case.now standing.entry.now path.now) }
{
    let mut here = Path::root(alloc);
    let mut passages = Vec::new(alloc);
    push_passages(&mut passages, case, standing, &here)?;
    for token in path.tokens() {
        here = here.member(alloc, token.as_str())?;
        push_passages(&mut passages, case, standing, &here)?;
    }
    Ok(passages)
}

/// Appends the gates at this very path with their results, in the order of the case.
fn push_passages(
    passages: &mut Vec<(Gate, Option<Rule>)>,
    case: &Case,
    standing: &Standing,
    here: &Path,
) -> Result<(), AllocError>
    ensures { OnOk result (passages.new.items ≡
        passages.old.items ++ passages_at case.now standing.entry.now here.now) }
{
    for gate in case.gates.as_slice() {
        if gate.path == *here {
            passages.push(passage(standing, gate)?)?;
        }
    }
    Ok(())
}

/// Returns a copy of the gate, with the rule by which it refuses the reader, if it refuses.
fn passage(standing: &Standing, gate: &Gate) -> Result<(Gate, Option<Rule>), AllocError>
    ensures { IfOk result (λ p. p ≡ spec.passage standing.entry.now gate.now) }
{
    let copy = Gate {
        path: gate.path.clone()?,
        level: gate.level,
        group: gate.group,
    };
    Ok((copy, passes(standing, gate).err()))
}

/// Returns the permissions that cover the class at the path, in the order of the case.
fn covering(
    alloc: Global,
    document: &Document,
    case: &Case,
    standing: &Standing,
    path: &Path,
) -> Result<Vec<Permission>, AllocError>
    ensures { IfOk result (λ v.
        v.items ≡ spec.covering (located document.now) case.now standing.entry.now path.now) }
{
    let mut covering = Vec::new(alloc);
    for permission in case.permissions.as_slice() {
        if covers(alloc, document, standing, path, permission)? {
            covering.push(copy_of(permission)?)?;
        }
    }
    Ok(covering)
}

/// Returns a copy of the permission.
fn copy_of(permission: &Permission) -> Result<Permission, AllocError>
    ensures { IfOk result (λ p. p ≡ permission.now) }
{
    Ok(Permission {
        path: permission.path.clone()?,
        grantee: permission.grantee,
        until: permission.until,
    })
}

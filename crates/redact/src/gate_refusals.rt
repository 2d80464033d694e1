//! Whether a gate refuses a reader at a class, if none refuses above it.

ghost use Rattle.std.specs.Prelude.{◌≡◌, ◌&&◌, ◌++◌, ◌∷◌, [], not, false};
ghost use Rattle.std.specs.List.{list_any};
ghost use Rattle.std.specs.Option.{option_map_or};
ghost use Rattle.iodef_tree.specs.Text.{Tokens, same_path, is_root};
ghost use Rattle.iodef_tree.specs.Paths.{is_class_kind};
ghost use Rattle.redact.specs.Sifted.{step_tokens, way, stands, stops};

use crate::steps::Step;
use crate::trail::is_place;
use iodef_tree::{Kind, Line, Text};
use policy::{Case, Gate, Standing, passes};

/// Returns whether no token is left.
fn is_root(path: &[Text]) -> bool
    ensures { result ≡ is_root path.now }
{
    path.is_empty()
}

/// Returns the tokens of a path before a name, if the path ends with that name.
fn before_name<'a>(path: &'a [Text], name: &str) -> Option<&'a [Text]>
    ensures { (z : Tokens) →
        option_map_or (λ r. same_path r.now z) result false ≡
        same_path path.now (z ++ name.now ∷ []) }
{
    match path.split_last() {
        Some((last, rest)) if last.as_str() == name => Some(rest),
        _ => None,
    }
}

/// Returns the tokens of a path before a step, if the path ends with that step.
fn before<'a>(path: &'a [Text], step: &Step) -> Option<&'a [Text]>
    ensures { (z : Tokens) →
        option_map_or (λ r. same_path r.now z) result false ≡
        same_path path.now (z ++ step_tokens step.now) }
{
    // The place in the array is compared first, as two elements of one array differ in it.
    if !step.in_array {
        return before_name(path, step.name.as_str());
    }
    match path.split_last() {
        Some((last, rest)) if is_place(last.as_str(), step.place) => {
            before_name(rest, step.name.as_str())
        }
        _ => None,
    }
}

/// Returns whether a path is that of the steps.
#[tactic(auto, using(crate::proofs::Ends::way_more))]
pub(crate) fn is_at(path: &[Text], steps: &[Step]) -> bool
    ensures { result ≡ same_path path.now (way steps.now) }
{
    // From the end on: paths that differ mostly differ there.
    match steps.split_last() {
        None => is_root(path),
        Some((step, above)) => match before(path, step) {
            None => false,
            Some(rest) => is_at(rest, above),
        },
    }
}

/// Returns whether the rest of a path, if there is one, is that of the steps.
fn is_rest(rest: Option<&[Text]>, steps: &[Step]) -> bool
    ensures { result ≡ option_map_or (λ r. same_path r.now (way steps.now)) rest.entry false }
{
    match rest {
        None => false,
        Some(path) => is_at(path, steps),
    }
}

/// Returns whether this path is the root's, that of the class one step more leads to, or that of the array around that
/// class.
fn stands(path: &[Text], above: &[Step], step: &Step) -> bool
    ensures { result ≡ stands (way above.now) step.now path.now }
{
    is_root(path)
        || (is_rest(before_name(path, step.name.as_str()), above)
            || is_rest(before(path, step), above))
}

/// Returns whether the gate is there and refuses.
fn stops(standing: &Standing, above: &[Step], step: &Step, gate: &Gate) -> bool
    ensures { result ≡ stops standing.entry.now (way above.now) step.now gate.now }
{
    stands(gate.path.tokens(), above, step) && passes(standing, gate).is_err()
}

/// Returns whether one of the gates is there and refuses.
fn is_stopped(case: &Case, standing: &Standing, above: &[Step], step: &Step) -> bool
    ensures { result ≡ list_any (stops standing.entry.now (way above.now) step.now) case.now.gates }
{
    case.gates
        .as_slice()
        .iter()
        .any(|gate| stops(standing, above, step, gate))
}

/// Returns whether the line, to which one step more leads, is that of a class at which a gate refuses the reader. No
/// gate refuses a reader of the source, who sees every class.
pub(crate) fn refuses(
    case: &Case,
    standing: &Standing,
    above: &[Step],
    step: &Step,
    line: &Line,
) -> bool
    ensures { result ≡ (is_class_kind line.now.kind &&
        (not standing.entry.now.source &&
        list_any (stops standing.entry.now (way above.now) step.now) case.now.gates)) }
{
    match line.kind {
        // No gate refuses above, so the gates at the class or its array decide. No gate is followed on the way: a pass
        // owns its case, so it can't keep references into it, as `policy::Ahead` does.
        Kind::Class => !standing.source && is_stopped(case, standing, above, step),
        Kind::Text | Kind::Value => false,
    }
}

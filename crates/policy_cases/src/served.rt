//! The answers to a reader about a report: verdicts, its excerpt, whether it is listed, and what a search finds in it.

ghost use Rattle.std.specs.Prelude.{◌≡◌, None};
ghost use Rattle.iodef_tree.specs.Paths.{located};
ghost use Rattle.marking.specs.Marks.{first_bad_marking};

use crate::labels::sited;
use crate::line::Line;
use crate::rows::served_by_lines;
use crate::verdicts::verdicts;
use iodef_tree::{Document, Path};
use redact::{Excerpt, excerpt, finds, is_listed};
use std::alloc::Global;
use trying_policy::{Asker, Unfit, said, served_text};

/// Returns the reader and the case of the line.
pub fn asker_of(alloc: Global, line: &Line<'_>) -> Result<Asker, Unfit> {
    Asker::of(alloc, line.first, line.second, line.third.unwrap_or(""))
}

/// Returns how many classes are visible, the document, and each withheld pair.
pub fn show(alloc: Global, excerpt: &Excerpt) -> Result<String, Unfit> {
    Ok(served_text(alloc, excerpt.classes, &excerpt.document, &excerpt.withheld)?)
}

fn serve(alloc: Global, document: &Document, asker: &Asker) -> Result<String, Unfit>
    requires { first_bad_marking (located document.now) ≡ None }
{
    match excerpt(alloc, document, &asker.case, &asker.standing)? {
        Some(excerpt) => show(alloc, &excerpt),
        None => said(alloc, "none"),
    }
}

/// Returns what the reader is served if it is the same line by line, else both.
fn served_twice(
    alloc: Global,
    document: &Document,
    asker: &Asker,
    line: &Line<'_>,
) -> Result<String, Unfit>
    requires { first_bad_marking (located document.now) ≡ None }
{
    let served = serve(alloc, document, asker)?;
    let by_lines = served_by_lines(alloc, document, asker_of(alloc, line)?)?;
    if served == by_lines {
        return Ok(served);
    }
    Ok(format!(in alloc; "{served} and line by line {by_lines}")?)
}

/// Returns the labels at a path of what the reader is served.
fn kept_labels(
    alloc: Global,
    document: &Document,
    asker: &Asker,
    pointer: &str,
) -> Result<String, Unfit>
    requires { first_bad_marking (located document.now) ≡ None }
{
    let path = Path::parse(alloc, pointer)?;
    match excerpt(alloc, document, &asker.case, &asker.standing)? {
        Some(excerpt) => sited(alloc, &excerpt.document, &path),
        None => said(alloc, "none"),
    }
}

fn listed(alloc: Global, document: &Document, asker: &Asker) -> Result<String, Unfit> {
    if is_listed(alloc, document, &asker.case, &asker.standing)? {
        said(alloc, "listed")
    } else {
        said(alloc, "not listed")
    }
}

fn found(
    alloc: Global,
    document: &Document,
    asker: &Asker,
    needle: &str,
    class: Option<&str>,
) -> Result<String, Unfit> {
    if finds(alloc, document, &asker.case, &asker.standing, needle, class)? {
        said(alloc, "found")
    } else {
        said(alloc, "not found")
    }
}

/// Returns the answer to a line that asks about a report.
pub fn answer_to(
    alloc: Global,
    document: &Document,
    asker: &Asker,
    line: &Line<'_>,
) -> Result<String, Unfit>
    requires { first_bad_marking (located document.now) ≡ None }
{
    match line.kind {
        "decide" => verdicts(alloc, document, asker, line.fourth),
        "excerpt" => served_twice(alloc, document, asker, line),
        "kept" => kept_labels(alloc, document, asker, line.fourth),
        "listed" => listed(alloc, document, asker),
        _ => found(alloc, document, asker, line.fourth, line.fifth),
    }
}

//! Labels, handlings and markings.

ghost use Rattle.std.specs.Prelude.{◌≡◌, [], None};
ghost use Rattle.iodef_tree.specs.Paths.{located};
ghost use Rattle.marking.specs.Marks.{first_bad_marking};

use iodef_tree::{Document, Path};
use marking::{Handling, Label, Mark, MarkWriter, SiteFault, own, site, write_marks, written_at};
use std::alloc::{AllocError, Global};
use std::cmp::Ordering;
use trying_policy::Unfit;

/// Returns the label that the two texts spell, and how it is handled.
pub fn read_label(
    alloc: Global,
    restriction: &str,
    ext: Option<&str>,
    arranged: Option<Handling>,
) -> Result<String, AllocError> {
    let Some(label) = Label::of(restriction, ext) else {
        return String::from_str(alloc, "no label");
    };
    let text = label.text(alloc)?;
    let handling = label.handling(arranged).name();
    format!(in alloc; "{text}: {handling}")
}

/// Returns how two handlings compare, and whether the first is at most the second.
pub fn compared(alloc: Global, first: Handling, second: Handling) -> Result<String, AllocError> {
    let order = match first.cmp(&second) {
        Ordering::Less => "less",
        Ordering::Equal => "equal",
        Ordering::Greater => "greater",
    };
    let at_most = first.is_at_most(second);
    format!(in alloc; "{order}, at most: {at_most}")
}

/// Returns each class with its label, that label's handling and its site.
pub fn marked(alloc: Global, document: &Document) -> Result<String, Unfit>
    requires { first_bad_marking (located document.now) ≡ None }
{
    let mut told = Told {
        text: String::new(alloc),
    };
    write_marks(alloc, document, &mut told)?;
    Ok(told.text)
}

/// The classes of a report, as the table shows them.
#[derive(Drop)]
struct Told {
    text: String,
}

/// It has no contract for the text, which the table compares.
impl MarkWriter for Told {
    ghost text = { λ _. [] };

    ghost line = { λ _. [] };

    fn write(&mut self, alloc: Global, mark: Mark<'_>) -> Result<(), AllocError> {
        let line = line_of(alloc, mark)?;
        self.text.push_str(line.as_str())
    }
}

fn line_of(alloc: Global, mark: Mark<'_>) -> Result<String, AllocError> {
    let Mark { path, label, site } = mark;
    let text = label.text(alloc)?;
    let handling = label.handling(None).name();
    format!(in alloc; "[{path}] {text}: {handling} by [{site}]; ")
}

fn text_of(alloc: Global, label: Option<Label<'_>>) -> Result<String, AllocError> {
    match label {
        Some(label) => label.text(alloc),
        None => String::from_str(alloc, "none"),
    }
}

/// Returns the label that holds at a path, and its site.
fn placed(alloc: Global, site: &Path, label: Label<'_>) -> Result<String, AllocError> {
    let site = site.print(alloc)?;
    let label = label.text(alloc)?;
    format!(in alloc; "{label} by [{site}]")
}

fn site_of(alloc: Global, document: &Document, path: &Path) -> Result<String, AllocError>
    requires { first_bad_marking (located document.now) ≡ None }
{
    match site(alloc, document, path) {
        Ok((site, label)) => placed(alloc, &site, label),
        Err(SiteFault::NoClass) => String::from_str(alloc, "NoClass"),
        Err(SiteFault::NoMemory) => String::from_str(alloc, "NoMemory"),
    }
}

/// Returns what is written at the path, its own label, and the site with the label that holds there.
pub fn sited(alloc: Global, document: &Document, path: &Path) -> Result<String, Unfit>
    requires { first_bad_marking (located document.now) ≡ None }
{
    let written = text_of(alloc, written_at(document, path))?;
    let own = text_of(alloc, own(document, path))?;
    let site = site_of(alloc, document, path)?;
    Ok(format!(in alloc; "written: {written}, own: {own}, {site}")?)
}

//! `mark`: the label of each class of a report.

ghost use Rattle.std.specs.Prelude.{◌≡◌, ◌++◌, string_bytes, IfOk, OnOk, None, codes};
ghost use Rattle.json.specs.Print.{quoted};
ghost use Rattle.marking.specs.Label.{marking_of, text_of};
ghost use Rattle.marking.specs.Marks.{first_bad_marking, marked_by};
ghost use Rattle.hub_service.specs.Lines.{line_of};
ghost use Rattle.hub_service.specs.Mark.{IsMarked, fault_name, text_of_class, text_of_document};
ghost use Rattle.hub_service.specs.Hints.{fault_hint};
ghost use Rattle.hub_service.specs.Mark as spec;
ghost use Rattle.iodef_tree.specs.Paths.{located};
ghost use Rattle.hub_service.specs.declared.mark.MarkFault.TheVariants.{NoMemory};

use input_hints::{placed, read_hint};
use iodef_tree::{Document, Path, ReadFault, push_quoted};
use marking::{Label, Mark, MarkWriter, MarkingFault, SiteFault, check, site, write_marks};
use std::alloc::{AllocError, Global};

/// Why a body has no labels to print.
#[derive(Drop)]
pub enum MarkFault {
    /// The body can't be read as documents.
    Body(ReadFault),
    /// The class at this path of the Incident's document is the first with a bad marking.
    BadMarking(Path),
    /// The body has no Incident at the place that is wanted, or its document has no class at the path.
    NoClass,
    NoMemory,
}

impl MarkFault {
    /// Returns the fault's name, as it is printed.
    pub fn name(&self) -> &'static str
        ensures { result.now ≡ fault_name self.now }
    {
        match self {
            MarkFault::Body(fault) => fault.name(),
            MarkFault::BadMarking(_) => "BadMarking",
            MarkFault::NoClass => "NoClass",
            MarkFault::NoMemory => "NoMemory",
        }
    }

    /// Returns where in the body the fault is, and what helps.
    pub fn hint(&self, alloc: Global, body: &[u8]) -> Result<String, AllocError>
        ensures { IfOk result (λ s. string_bytes s ≡ fault_hint self.now body.now) }
    {
        match self {
            MarkFault::Body(fault) => read_hint(alloc, fault, body),
            MarkFault::BadMarking(path) => placed(alloc, path, BAD_MARKING),
            MarkFault::NoClass => String::from_str(alloc, NO_CLASS),
            MarkFault::NoMemory => String::from_str(alloc, "memory ran out"),
        }
    }
}

const BAD_MARKING: &str =
    "its restriction is none of the ten texts, or its ext-restriction doesn't fit: TLP:AMBER is restriction ext-value with ext-restriction TLP:AMBER";

const NO_CLASS: &str =
    "the report has no Incident K, counted from 0, or its document, in which that is /Incident/0, has no class at POINTER";

impl From<AllocError> for MarkFault {
    ghost from_gives = { λ _ fault. fault ≡ NoMemory };

    fn from(_refused: AllocError) -> MarkFault {
        MarkFault::NoMemory
    }
}

/// What to print: the labels of one Incident's document, by the Incident's place in the body, of all its classes or of
/// the one at a path.
#[derive(Drop)]
pub struct Selection {
    pub place: u32,
    pub class: Option<Path>,
}

/// Returns a line for each class that is wanted, in stored order. A line is the compact JSON array of the class's path,
/// its label, the label's handling if nothing is arranged, and the path of the class that has the label. Fails with the
/// first fault of reading, then of the Incident's place, then of the markings, then of the class.
pub fn mark_text(alloc: Global, body: &[u8], selection: &Selection) -> Result<String, MarkFault>
    ensures { IsMarked result (spec.mark_text selection.now body.now) }
{
    let documents = match Document::read(alloc, body) {
        Ok(documents) => documents,
        Err(ReadFault::NoMemory) => return Err(MarkFault::NoMemory),
        Err(fault) => return Err(MarkFault::Body(fault)),
    };
    let Some(document) = documents.as_slice().get(selection.place as usize) else {
        return Err(MarkFault::NoClass);
    };
    document_text(alloc, document, &selection.class)
}

fn document_text(
    alloc: Global,
    document: &Document,
    class: &Option<Path>,
) -> Result<String, MarkFault>
    ensures { IsMarked result (text_of_document class.now document.now) }
{
    // first, since the site of a class is only known if the markings are accepted
    match check(alloc, document) {
        Ok(()) => {}
        Err(MarkingFault::BadMarking(path)) => return Err(MarkFault::BadMarking(path)),
        Err(MarkingFault::NoMemory) => return Err(MarkFault::NoMemory),
    }
    match class {
        Some(path) => class_text(alloc, document, path),
        None => {
            let mut lines = Lines {
                text: String::new(alloc),
            };
            write_marks(alloc, document, &mut lines)?;
            Ok(lines.text)
        }
    }
}

/// The line of one class.
fn class_text(alloc: Global, document: &Document, path: &Path) -> Result<String, MarkFault>
    requires { first_bad_marking (located document.now) ≡ None }
    ensures { IsMarked result (text_of_class path.now (located document.now)) }
{
    // the root is no class, so the empty pointer names none
    if !document.has_class(path) {
        return Err(MarkFault::NoClass);
    }
    match site(alloc, document, path) {
        Ok((site, label)) => {
            let path = path.print(alloc)?;
            let site = site.print(alloc)?;
            let mark = Mark {
                path: path.as_str(),
                label,
                site: site.as_str(),
            };
            let mut line = String::new(alloc);
            push_line(alloc, &mut line, mark)?;
            Ok(line)
        }
        Err(SiteFault::NoClass) => Err(MarkFault::NoClass),
        Err(SiteFault::NoMemory) => Err(MarkFault::NoMemory),
    }
}

/// The lines of the classes written so far.
#[derive(Drop)]
struct Lines {
    text: String,
}

impl MarkWriter for Lines {
    ghost text = { λ l. string_bytes l.text };

    ghost line = { line_of };

    fn write(&mut self, alloc: Global, mark: Mark<'_>) -> Result<(), AllocError> {
        push_line(alloc, &mut self.text, mark)
    }
}

/// Appends the compact JSON array of the path, the label, its handling and the site, and a newline.
fn push_line(alloc: Global, out: &mut String, mark: Mark<'_>) -> Result<(), AllocError>
    ensures { OnOk result (string_bytes out.new ≡
        string_bytes out.old ++ line_of (marked_by mark.entry)) }
{
    push_cell(alloc, out, "[", mark.path)?;
    push_label(alloc, out, mark.label)?;
    push_cell(alloc, out, ",", mark.label.handling(None).name())?;
    push_cell(alloc, out, ",", mark.site)?;
    out.push_str("]\n")?;
    Ok(())
}

/// Appends a comma and the label as a JSON string. Only an extended label takes memory of its own.
fn push_label(alloc: Global, out: &mut String, label: Label<'_>) -> Result<(), AllocError>
    ensures { OnOk result (string_bytes out.new ≡
        string_bytes out.old ++ (codes "," ++ quoted (text_of (marking_of label.entry)))) }
{
    match label {
        Label::Ext(_) => {
            let text = label.text(alloc)?;
            push_cell(alloc, out, ",", text.as_str())
        }
        Label::Public | Label::White | Label::Partner | Label::Green | Label::NeedToKnow => {
            push_cell(alloc, out, ",", label.restriction())
        }
        Label::Amber | Label::Private | Label::Red | Label::Default => {
            push_cell(alloc, out, ",", label.restriction())
        }
    }
}

/// Appends `before`, and the text as a JSON string.
fn push_cell(alloc: Global, out: &mut String, before: &str, text: &str) -> Result<(), AllocError>
    ensures { OnOk result (string_bytes out.new ≡
        string_bytes out.old ++ (before.now ++ quoted text.now)) }
{
    out.push_str(before)?;
    push_quoted(alloc, out, text)
}

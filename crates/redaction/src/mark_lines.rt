//! The label of each class of a report. The crate `hub_service` prints the same lines; neither crate uses the other,
//! and the tables of both have the same lines.
ghost use Rattle.std.specs.Prelude.{◌≡◌, ◌++◌, string_bytes, OnOk, codes};
ghost use Rattle.json.specs.Print.{quoted};
ghost use Rattle.marking.specs.Label.{marking_of, text_of};
ghost use Rattle.marking.specs.Marks.{marked_by};
ghost use Rattle.redaction.specs.Answers as spec;
ghost use Rattle.redaction.specs.Answers.{mark_line};
ghost use Rattle.redaction.specs.Outcome.{YieldsAs};

use crate::asked::read_incident;
use crate::fault::Fault;
use iodef_tree::push_quoted;
use marking::{Label, Mark, MarkWriter, write_marks};
use std::alloc::{AllocError, Global};

/// The lines of the classes so far.
#[derive(Drop)]
struct Lines {
    text: String,
}

impl MarkWriter for Lines {
    ghost text = { λ l. string_bytes l.text };

    ghost line = { mark_line };

    fn write(&mut self, alloc: Global, mark: Mark<'_>) -> Result<(), AllocError> {
        push_line(alloc, &mut self.text, mark)
    }
}

/// Appends the line of a class: the compact JSON array of the path, the label, its handling and the site, and a
/// newline.
fn push_line(alloc: Global, out: &mut String, mark: Mark<'_>) -> Result<(), AllocError>
    ensures { OnOk result (string_bytes out.new ≡
        string_bytes out.old ++ mark_line (marked_by mark.entry)) }
{
    push_cell(alloc, out, "[", mark.path)?;
    push_label(alloc, out, mark.label)?;
    push_cell(alloc, out, ",", mark.label.handling(None).name())?;
    push_cell(alloc, out, ",", mark.site)?;
    out.push_str("]\n")?;
    Ok(())
}

/// Appends a comma and the label as a JSON string. Allocates a text of its own only for an extended label.
fn push_label(alloc: Global, out: &mut String, label: Label<'_>) -> Result<(), AllocError>
    ensures { OnOk result (string_bytes out.new ≡
        string_bytes out.old ++ (codes "," ++ quoted (text_of (marking_of label.entry)))) }
{
    match label {
        Label::Ext(_) => {
            let text = label.text(alloc)?;
            push_cell(alloc, out, ",", text.as_str())
        }
        Label::Public | Label::White | Label::Partner | Label::Green | Label::NeedToKnow => {
            push_cell(alloc, out, ",", label.restriction())
        }
        Label::Amber | Label::Private | Label::Red | Label::Default => {
            push_cell(alloc, out, ",", label.restriction())
        }
    }
}

/// Appends a prefix and a text as a JSON string to `out`.
fn push_cell(alloc: Global, out: &mut String, before: &str, text: &str) -> Result<(), AllocError>
    ensures { OnOk result (string_bytes out.new ≡
        string_bytes out.old ++ (before.now ++ quoted text.now)) }
{
    out.push_str(before)?;
    push_quoted(alloc, out, text)
}

/// Returns a line for each class of the Incident at a place of the report, in stored order. A line is a compact JSON
/// array: the class's path, its label, how the label is handled if nothing is arranged, and the path of its site.
///
/// Fails with the first fault in the order of [`Fault`].
#[tactic(auto, unfolding(crate::specs::Answers::marks_text))]
pub fn marks(alloc: Global, report: &[u8], incident: u32) -> Result<Vec<u8>, Fault>
    ensures { YieldsAs (λ v. v.items) result (spec.marks_text report.now incident) }
{
    let document = read_incident(alloc, report, incident)?;
    let mut lines = Lines {
        text: String::new(alloc),
    };
    write_marks(alloc, &document, &mut lines)?;
    Ok(lines.text.into_bytes())
}

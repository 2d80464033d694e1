//! The lines of the table, with bars between their words:
//!
//!     label|ARRANGED|RESTRICTION            the label that it spells, and its handling; ARRANGED is a handling or -
//!     label|ARRANGED|RESTRICTION|EXT        the same with a text in ext-restriction
//!     order|HANDLING|HANDLING               how the two compare
//!     incident|TOKEN|TOKEN                  whether the path of the two tokens is the Incident's
//!     report|JSON                           reads the report for the lines behind, and checks its markings
//!     marks                                 each class of the report with its label
//!     site|POINTER                          the labels at a path of it
//!     clearance|STANDING                    what the reader is cleared for
//!     gate|STANDING|LEVEL                   whether it passes the gate; LEVEL may have a group, as 4:7
//!     grantee|STANDING|GRANTEE              whether the grantee includes it
//!     decide|STANDING|GATES|PERMISSIONS|POINTERS      the verdict of each pointer
//!     excerpt|STANDING|GATES|PERMISSIONS              what the reader is served of it, at once and line by line
//!     kept|STANDING|GATES|PERMISSIONS|POINTER         the labels at a path of what the reader is served
//!     feed|STANDING|GATES|PERMISSIONS|LINES           what a pass answers to lines and at the end, of no report
//!     listed|STANDING|GATES|PERMISSIONS               whether it is listed to the reader
//!     find|STANDING|GATES|PERMISSIONS|NEEDLE          whether the reader finds the needle in it
//!     find|STANDING|GATES|PERMISSIONS|NEEDLE|CLASS    the same, in classes of this name
//!     probe|STANDING|GATES|PERMISSIONS                at which of its lines a search is sure it's listed, and the end
//!     probe|STANDING|GATES|PERMISSIONS|NEEDLE         the same for the needle, if there is one
//!     probe|STANDING|GATES|PERMISSIONS|NEEDLE|CLASS   the same, in classes of this name
//!     seek|STANDING|GATES|PERMISSIONS|LINES           what a search answers to lines and at the end, of no report
//!     seek|STANDING|GATES|PERMISSIONS|LINES|NEEDLE    the same for a needle
//!     sketch|STANDING|GATES|PERMISSIONS               what its sketch says: whether it may hold it, and is listed
//!     sketch|STANDING|GATES|PERMISSIONS|NEEDLE        the same for the needle, if there is one
//!     sketch|STANDING|GATES|PERMISSIONS|NEEDLE|CLASS  the same, in classes of this name
//!     lists|GATES|PERMISSIONS               the gates and permissions that a case gives back
//!     numbers|STANDING                      the groups that the reader's standing gives back
//!     moment|TEXT                           the moment that the text says
//!
//! `words` of `trying_policy` says how standings, gates, permissions and grantees are written. Lines that begin with #
//! are headings, which are printed as they are; empty lines are skipped.

use crate::alone::answer_alone;
use crate::labels::{marked, sited};
use crate::line::Line;
use crate::probing::{probe_of, probed, sought};
use crate::rows::feed_words;
use crate::served::{answer_to, asker_of};
use crate::sketching::sketched;
use iodef_tree::Path;
use std::alloc::Global;
use trying_policy::{Report, Unfit};

/// Returns the labels at a path of the report.
fn sited_at(report: &Report, alloc: Global, pointer: &str) -> Result<String, Unfit> {
    let document = report.document()?;
    let path = Path::parse(alloc, pointer)?;
    sited(alloc, document, &path)
}

/// Returns the answer to a reader about the report.
fn answer_of_report(report: &Report, alloc: Global, line: &Line<'_>) -> Result<String, Unfit> {
    let document = report.document()?;
    let asker = asker_of(alloc, line)?;
    answer_to(alloc, document, &asker, line)
}

/// Returns at which line of the report a search is sure, and what it answers at the end.
fn probe(report: &Report, alloc: Global, line: &Line<'_>) -> Result<String, Unfit> {
    let probe = probe_of(alloc, asker_of(alloc, line)?, line.fourth, line.fifth)?;
    probed(alloc, report.document()?, probe)
}

/// Returns what the sketch of the report says.
fn sketch(report: &Report, alloc: Global, line: &Line<'_>) -> Result<String, Unfit> {
    let asker = asker_of(alloc, line)?;
    sketched(alloc, report.document()?, &asker, line.fourth, line.fifth)
}

/// Returns what a search answers to the lines.
fn seek(alloc: Global, line: &Line<'_>) -> Result<String, Unfit> {
    let needle = line.fifth.unwrap_or("");
    let probe = probe_of(alloc, asker_of(alloc, line)?, needle, None)?;
    sought(alloc, probe, line.fourth)
}

/// Returns the answer of a line. The report is the one of the last line with one.
pub fn answer(report: &mut Report, alloc: Global, line: &str) -> Result<String, Unfit> {
    let line = Line::of(line)?;
    match line.kind {
        "report" => report.read(alloc, line.first),
        "marks" => marked(alloc, report.document()?),
        "site" => sited_at(report, alloc, line.first),
        "decide" | "excerpt" | "kept" | "listed" | "find" => answer_of_report(report, alloc, &line),
        "feed" => feed_words(alloc, asker_of(alloc, &line)?, line.fourth),
        "probe" => probe(report, alloc, &line),
        "seek" => seek(alloc, &line),
        "sketch" => sketch(report, alloc, &line),
        _ => answer_alone(alloc, &line),
    }
}

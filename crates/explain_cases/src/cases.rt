//! The lines of the table, with bars between their words:
//!
//!     report|JSON                                  reads the report for the lines behind, and checks its markings
//!     explain|STANDING|GATES|PERMISSIONS|POINTER   the text of the trace of the pointer, or NoClass
//!     fields|STANDING|GATES|PERMISSIONS|POINTER    the gates and permissions of the trace, in its own order
//!
//! `words` of `trying_policy` says how standings, gates and permissions are written. Lines that begin with # are
//! headings, which are printed as they are; empty lines are skipped.

use explain::{ExplainFault, Trace, explain};
use iodef_tree::Path;
use policy::{Gate, Rule};
use std::alloc::{AllocError, Global};
use trying_policy::{Asker, Report, Unfit, gate_word, permission_word};

/// Returns the answer of a line, with its newlines. The report is the one of the last line with one.
pub fn answer(report: &mut Report, alloc: Global, line: &str) -> Result<String, Unfit> {
    let words: Vec<&str> = line.split('|').collect(alloc)?;
    match words.as_slice() {
        ["report", body] => {
            let told = report.read(alloc, body)?;
            Ok(format!(in alloc; "{told}\n")?)
        }
        ["explain", standing, gates, permissions, pointer] => {
            let trace = trace_of(report, alloc, standing, gates, permissions, pointer)?;
            Ok(trace.text(alloc)?)
        }
        ["fields", standing, gates, permissions, pointer] => {
            let trace = trace_of(report, alloc, standing, gates, permissions, pointer)?;
            Ok(fields_of(alloc, &trace)?)
        }
        _ => Err(Unfit::NoCase),
    }
}

fn trace_of(
    report: &Report,
    alloc: Global,
    standing: &str,
    gates: &str,
    permissions: &str,
    pointer: &str,
) -> Result<Trace, Unfit> {
    let document = report.document()?;
    let asker = Asker::of(alloc, standing, gates, permissions)?;
    let path = Path::parse(alloc, pointer)?;
    match explain(alloc, document, &asker.case, &asker.standing, &path) {
        Ok(trace) => Ok(trace),
        Err(ExplainFault::NoClass) => Err(Unfit::NoClass),
        Err(ExplainFault::NoMemory) => Err(Unfit::NoMemory),
    }
}

/// Returns a gate as a word, and the rule by which it refuses, or `passes`.
fn gate_told(alloc: Global, gate: &Gate, refusal: Option<Rule>) -> Result<String, AllocError> {
    let word = gate_word(alloc, gate)?;
    let result = match refusal {
        Some(rule) => rule.name(),
        None => "passes",
    };
    format!(in alloc; "{word} {result}; ")
}

/// Returns the gates and the permissions of a trace, as its fields have them.
fn fields_of(alloc: Global, trace: &Trace) -> Result<String, AllocError> {
    let mut told = String::from_str(alloc, "gates ")?;
    for (gate, refusal) in trace.gates.as_slice() {
        told.push_str(gate_told(alloc, gate, *refusal)?.as_str())?;
    }
    told.push_str("permissions ")?;
    for permission in trace.permissions.as_slice() {
        told.push_str(permission_word(alloc, permission)?.as_str())?;
        told.push_str("; ")?;
    }
    told.push('\n')?;
    Ok(told)
}

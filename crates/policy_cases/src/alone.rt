//! The answers of the lines that ask about no report.

use crate::labels::{compared, read_label};
use crate::line::Line;
use crate::verdicts::{describe_clearance, given_back, groups_given_back, passed};
use iodef_tree::Path;
use marking::is_incident;
use policy::{Gate, MomentFault, Standing, includes, read_moment};
use std::alloc::Global;
use trying_policy::{
    SOURCE, Unfit, arranged_of, case_of, grantee_of, handling_of, passage_of, said, standing_of,
};

fn truth(alloc: Global, holds: bool) -> Result<String, Unfit> {
    said(alloc, if holds { "yes" } else { "no" })
}

fn label(
    alloc: Global,
    arranged: &str,
    restriction: &str,
    ext: Option<&str>,
) -> Result<String, Unfit> {
    let arranged = arranged_of(arranged)?;
    Ok(read_label(alloc, restriction, ext, arranged)?)
}

fn order(alloc: Global, first: &str, second: &str) -> Result<String, Unfit> {
    let first = handling_of(first)?;
    let second = handling_of(second)?;
    Ok(compared(alloc, first, second)?)
}

/// Returns how the reader passes a gate of this level at the root.
fn gate(alloc: Global, standing: &Standing, passage: &str) -> Result<String, Unfit> {
    let (level, group) = passage_of(passage)?;
    let path = Path::root(alloc);
    said(alloc, passed(standing, &Gate { path, level, group }))
}

fn grantee(alloc: Global, standing: &Standing, grantee: &str) -> Result<String, Unfit> {
    let grantee = grantee_of(grantee)?;
    truth(alloc, includes(standing, &grantee))
}

fn lists(alloc: Global, gates: &str, permissions: &str) -> Result<String, Unfit> {
    let case = case_of(alloc, SOURCE, gates, permissions)?;
    Ok(given_back(alloc, case)?)
}

fn numbers(alloc: Global, standing: &str) -> Result<String, Unfit> {
    let standing = standing_of(alloc, standing)?;
    Ok(groups_given_back(alloc, standing)?)
}

/// Returns the moment that the text says.
fn moment(alloc: Global, text: &str) -> Result<String, Unfit> {
    match read_moment(text) {
        Ok(seconds) => Ok(format!(in alloc; "{seconds}")?),
        Err(MomentFault::BadMoment) => said(alloc, "BadMoment"),
        Err(MomentFault::NoMemory) => Err(Unfit::NoMemory),
    }
}

/// Returns the answer of a line that asks about a reader.
fn answer_of_reader(alloc: Global, line: &Line<'_>) -> Result<String, Unfit> {
    let standing = standing_of(alloc, line.first)?;
    match line.kind {
        "clearance" => describe_clearance(alloc, &standing),
        "gate" => gate(alloc, &standing, line.second),
        "grantee" => grantee(alloc, &standing, line.second),
        _ => Err(Unfit::NoCase),
    }
}

/// Returns the answer of a line that asks about no report.
pub fn answer_alone(alloc: Global, line: &Line<'_>) -> Result<String, Unfit> {
    match line.kind {
        "label" => label(alloc, line.first, line.second, line.third),
        "order" => order(alloc, line.first, line.second),
        "incident" => truth(alloc, is_incident(line.first, line.second)),
        "lists" => lists(alloc, line.first, line.second),
        "numbers" => numbers(alloc, line.first),
        "moment" => moment(alloc, line.first),
        _ => answer_of_reader(alloc, line),
    }
}

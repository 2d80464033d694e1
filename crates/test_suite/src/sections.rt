//! The sections of standard input.

use std::io;
use trying::number_of;

/// What a heading begins with.
const MARK: &str = "== ";

/// What separates two sections, with the mark of the second.
const BETWEEN: &str = "\n== ";

/// Returns the first word, and those behind it: the crate that a heading names, and its words.
fn parts_of(words: &str) -> (&str, &str) {
    words.split_once(' ').unwrap_or((words, ""))
}

/// Prints that a heading names nothing. Returns that something is wrong.
fn tell_unknown(rt: &HostRuntime) -> io::Result<bool> {
    println!(rt; "nothing has this name")?;
    Ok(false)
}

/// Returns the two numbers of the words, of which one may be missing.
fn numbers_of(words: &str) -> (u64, u64) {
    let (first, second) = parts_of(words);
    (u64::from(number_of(first)), u64::from(number_of(second)))
}

/// Runs a comparison. Returns whether nothing is wrong.
fn compare(rt: &HostRuntime, name: &str, words: &str) -> io::Result<bool> {
    let (count, every) = numbers_of(words);
    match name {
        "redact_compare" => redact_compare::run(rt, count, every),
        "circle_compare" => circle_compare::run(rt, count),
        "alike_compare" => alike_compare::run(rt, count),
        "hub_compare" => hub_compare::run(rt, count),
        _ => tell_unknown(rt),
    }
}

/// Runs a table over the hub, or a comparison. Returns whether nothing is wrong.
fn run_over_hub(rt: &HostRuntime, name: &str, words: &str, table: &str) -> io::Result<bool> {
    match name {
        "hub_core_cases" => hub_core_cases::run(rt, table)?,
        "hub_cases" => hub_cases::run(rt, table)?,
        "hub_http_cases" => hub_http_cases::run(rt, table)?,
        "program_cases" => program_cases::run(rt, table)?,
        "alike_cases" => alike_cases::run(rt, table)?,
        "growth_cases" => growth_cases::run(rt, words, table)?,
        "stop_cases" => stop_cases::run(rt, table)?,
        _ => return compare(rt, name, words),
    }
    Ok(true)
}

/// Runs a table or a comparison. Returns whether nothing is wrong.
fn run(rt: &HostRuntime, heading: &str, table: &str) -> io::Result<bool> {
    let (name, words) = parts_of(heading);
    match name {
        "document_cases" => document_cases::run(rt, table)?,
        "policy_cases" => policy_cases::run(rt, table)?,
        "explain_cases" => explain_cases::run(rt, table)?,
        "redaction_cases" => redaction_cases::run(rt, table)?,
        "circle_cases" => circle_cases::run(rt, table)?,
        _ => return run_over_hub(rt, name, words, table),
    }
    Ok(true)
}

/// Returns the heading to run a section with: its own if none is asked for, or its name alone. Else the one asked for, if
/// that names the same crate.
fn heading_for<'a>(asked: Option<&'a str>, own: &'a str) -> Option<&'a str> {
    match asked {
        None => Some(own),
        Some(asked) if asked == parts_of(own).0 => Some(own),
        Some(asked) if parts_of(asked).0 == parts_of(own).0 => Some(asked),
        Some(_) => None,
    }
}

/// Prints a heading, and runs the section. Returns whether nothing is wrong.
fn run_section(rt: &HostRuntime, heading: &str, table: &str) -> io::Result<bool> {
    println!(rt; "{MARK}{heading}")?;
    run(rt, heading, table)
}

/// Runs each section of a text, or the one that is asked for. Returns whether nothing is wrong.
pub fn run_all(rt: &HostRuntime, asked: Option<&str>, text: &str) -> io::Result<bool> {
    let mut is_met = false;
    let mut is_right = true;
    for section in text.strip_prefix(MARK).unwrap_or(text).split(BETWEEN) {
        let (own, table) = section.split_once('\n').unwrap_or((section, ""));
        if let Some(heading) = heading_for(asked, own) {
            is_met = true;
            is_right = run_section(rt, heading, table)? && is_right;
        }
    }
    if is_met {
        Ok(is_right)
    } else {
        tell_unknown(rt)
    }
}

//! A trace as lines of text.

ghost use Rattle.std.specs.Prelude.{◌≡◌, ◌++◌, IfOk, OnOk, decimal, string_bytes};
ghost use Rattle.std.specs.List.{flat_map};
ghost use Rattle.json.specs.Print as spec;
ghost use Rattle.explain.specs.Explanation.{explanation};
ghost use Rattle.explain.specs.Lines.{space, newline, path_text, result_text, side_text, rule_in, verdict_line, path_line, community_line, gate_line};
ghost use Rattle.explain.specs.Lines.{site_line, clearance_line, grantee_text, end_text, permission_line, permission_lines, trace_text};

use crate::listing::{PrintedPermission, grantee_number, kind_name, sort_permissions};
use crate::trace::Trace;
use iodef_tree::{Path, push_quoted};
use marking::Handling;
use policy::{Gate, Grantee, Permission, Rule, Verdict};
use std::alloc::{AllocError, Global};

impl Trace {
    /// Returns the trace as lines, each ended by a newline: the verdict, the path, the community if the incident names
    /// one, each gate, the site with its label and handling, the clearance, and each permission. Permissions are in
    /// order of the bytes of their paths, then by kind and number; one with an end says it.
    ///
    /// Paths, as JSON pointers, and the label are JSON strings. Fails if memory runs out.
    pub fn text(&self, alloc: Global) -> Result<String, AllocError>
        ensures { IfOk result (λ s. string_bytes s ≡ trace_text (explanation self.now)) }
    {
        let mut out = String::new(alloc);
        push_verdict(&mut out, self.verdict)?;
        push_path(alloc, &mut out, &self.path)?;
        push_community(&mut out, self.community)?;
        push_gates(alloc, &mut out, self.gates.as_slice())?;
        push_site(
            alloc,
            &mut out,
            &self.site,
            self.label.as_str(),
            self.handling,
        )?;
        push_clearance(&mut out, self.clearance)?;
        push_permissions(alloc, &mut out, self.permissions.as_slice())?;
        Ok(out)
    }
}

/// Appends a prefix, and a text as a JSON string.
fn push_text(alloc: Global, out: &mut String, before: &str, text: &str) -> Result<(), AllocError>
    ensures { OnOk result (string_bytes out.new ≡
        string_bytes out.old ++ (before.now ++ spec.quoted text.now)) }
{
    out.push_str(before)?;
    push_quoted(alloc, out, text)
}

/// Appends a prefix, and the JSON pointer of a path as a JSON string.
fn push_pointer(
    alloc: Global,
    out: &mut String,
    before: &str,
    path: &Path,
) -> Result<(), AllocError>
    ensures { OnOk result (string_bytes out.new ≡
        string_bytes out.old ++ (before.now ++ path_text path.now)) }
{
    let pointer = path.print(alloc)?;
    push_text(alloc, out, before, pointer.as_str())
}

/// Appends a space and a word.
fn push_word(out: &mut String, word: &str) -> Result<(), AllocError>
    ensures { OnOk result (string_bytes out.new ≡ string_bytes out.old ++ (space ++ word.now)) }
{
    out.push_str(" ")?;
    out.push_str(word)
}

/// Appends a space and a number in decimal digits.
fn push_number(out: &mut String, number: u32) -> Result<(), AllocError>
    ensures { OnOk result (string_bytes out.new ≡
        string_bytes out.old ++ (space ++ decimal number)) }
{
    out.push_str(" ")?;
    write!(out, "{number}")
}

/// Returns the word for a verdict.
fn side_of(verdict: Verdict) -> &'static str
    ensures { result.now ≡ side_text verdict }
{
    match verdict {
        Verdict::Shown(_) => "Shown",
        Verdict::Hidden(_) => "Hidden",
    }
}

/// Returns the rule of a verdict.
fn rule_of(verdict: Verdict) -> Rule
    ensures { result ≡ rule_in verdict }
{
    match verdict {
        Verdict::Shown(rule) => rule,
        Verdict::Hidden(rule) => rule,
    }
}

/// Appends the line of the verdict.
fn push_verdict(out: &mut String, verdict: Verdict) -> Result<(), AllocError>
    ensures { OnOk result (string_bytes out.new ≡ string_bytes out.old ++ verdict_line verdict) }
{
    out.push_str("verdict")?;
    push_word(out, side_of(verdict))?;
    push_word(out, rule_of(verdict).name())?;
    out.push_str("\n")
}

/// Appends the line of the path.
fn push_path(alloc: Global, out: &mut String, path: &Path) -> Result<(), AllocError>
    ensures { OnOk result (string_bytes out.new ≡ string_bytes out.old ++ path_line path.now) }
{
    push_pointer(alloc, out, "path ", path)?;
    out.push_str("\n")
}

/// Appends the line of the community, if one is named.
fn push_community(out: &mut String, community: Option<u32>) -> Result<(), AllocError>
    ensures { OnOk result (string_bytes out.new ≡
        string_bytes out.old ++ community_line community) }
{
    match community {
        None => Ok(()),
        Some(number) => {
            out.push_str("community")?;
            push_number(out, number)?;
            out.push_str("\n")
        }
    }
}

/// Returns the result of a gate: the rule that refuses, or `pass`.
fn result_name(refusal: Option<Rule>) -> &'static str
    ensures { result.now ≡ result_text refusal }
{
    match refusal {
        None => "pass",
        Some(rule) => rule.name(),
    }
}

/// Appends the line of a gate.
fn push_gate(
    alloc: Global,
    out: &mut String,
    passage: &(Gate, Option<Rule>),
) -> Result<(), AllocError>
    ensures { OnOk result (string_bytes out.new ≡ string_bytes out.old ++ gate_line passage.now) }
{
    push_pointer(alloc, out, "gate ", &passage.0.path)?;
    push_number(out, passage.0.level as u32)?;
    push_number(out, passage.0.group.unwrap_or(0))?;
    push_word(out, result_name(passage.1))?;
    out.push_str("\n")
}

/// Appends the lines of the gates.
fn push_gates(
    alloc: Global,
    out: &mut String,
    passages: &[(Gate, Option<Rule>)],
) -> Result<(), AllocError>
    ensures { OnOk result (string_bytes out.new ≡
        string_bytes out.old ++ flat_map gate_line passages.now) }
{
    for passage in passages {
        push_gate(alloc, out, passage)?;
    }
    Ok(())
}

/// Appends the line of the site.
fn push_site(
    alloc: Global,
    out: &mut String,
    site: &Path,
    label: &str,
    handling: Handling,
) -> Result<(), AllocError>
    ensures { OnOk result (string_bytes out.new ≡
        string_bytes out.old ++ site_line site.now label.now handling) }
{
    push_pointer(alloc, out, "site ", site)?;
    push_text(alloc, out, " ", label)?;
    push_word(out, handling.name())?;
    out.push_str("\n")
}

/// Appends the line of the clearance.
fn push_clearance(out: &mut String, clearance: (Handling, Rule)) -> Result<(), AllocError>
    ensures { OnOk result (string_bytes out.new ≡
        string_bytes out.old ++ clearance_line clearance) }
{
    out.push_str("clearance")?;
    push_word(out, clearance.0.name())?;
    push_word(out, clearance.1.name())?;
    out.push_str("\n")
}

/// Appends the kind and the number of a grantee.
fn push_grantee(out: &mut String, grantee: Grantee) -> Result<(), AllocError>
    ensures { OnOk result (string_bytes out.new ≡
        string_bytes out.old ++ (space ++ grantee_text grantee)) }
{
    push_word(out, kind_name(grantee))?;
    push_number(out, grantee_number(grantee))
}

/// Appends the end of a permission, if it has one.
fn push_end(out: &mut String, until: Option<i64>) -> Result<(), AllocError>
    ensures { OnOk result (string_bytes out.new ≡ string_bytes out.old ++ end_text until) }
{
    match until {
        None => Ok(()),
        Some(end) => write!(out, " until {end}"),
    }
}

/// Appends a prefix and a permission.
fn push_entry(
    alloc: Global,
    out: &mut String,
    before: &str,
    entry: &PrintedPermission,
) -> Result<(), AllocError>
    ensures { OnOk result (string_bytes out.new ≡
        string_bytes out.old ++
        (before.now ++ spec.quoted entry.now.pointer ++ space ++ grantee_text entry.now.grantee ++
        end_text entry.now.until ++ newline)) }
{
    push_text(alloc, out, before, entry.pointer.as_str())?;
    push_grantee(out, entry.grantee)?;
    push_end(out, entry.until)?;
    out.push_str("\n")
}

/// Appends the line of a permission.
fn push_permission(
    alloc: Global,
    out: &mut String,
    entry: &PrintedPermission,
) -> Result<(), AllocError>
    ensures { OnOk result (string_bytes out.new ≡
        string_bytes out.old ++ permission_line entry.now) }
{
    push_entry(alloc, out, "permission ", entry)
}

/// Appends the lines of permissions that are in order.
fn push_entries(
    alloc: Global,
    out: &mut String,
    entries: &[PrintedPermission],
) -> Result<(), AllocError>
    ensures { OnOk result (string_bytes out.new ≡
        string_bytes out.old ++ flat_map permission_line entries.now) }
{
    for entry in entries {
        push_permission(alloc, out, entry)?;
    }
    Ok(())
}

/// Appends the lines of the permissions, in order.
fn push_permissions(
    alloc: Global,
    out: &mut String,
    permissions: &[Permission],
) -> Result<(), AllocError>
    ensures { OnOk result (string_bytes out.new ≡
        string_bytes out.old ++ permission_lines permissions.now) }
{
    let entries = sort_permissions(alloc, permissions)?;
    push_entries(alloc, out, entries.as_slice())
}

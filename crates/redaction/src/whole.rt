//! An excerpt made a report again, by placeholders that say so.
ghost use Rattle.std.specs.Prelude.{◌≡◌, ◌≤◌, ◌++◌, ◌∷◌, [], false, IfOk, OnOk, length, option_map};
ghost use Rattle.redaction.specs.Outcome.{Yields, YieldsAs};
ghost use Rattle.redaction.specs.Whole as spec;

use crate::fault::Fault;
use crate::finding::word_of;
use crate::readable::is_readable;
use iodef_tree::{Document, Kind, Line, OutlineFault, Text};
use std::alloc::{AllocError, Global};

/// An identifier for a report whose own one is withheld, as texts in UTF-8 (RFC 7970 section 3.4).
#[derive(Clone, Copy, Debug)]
pub struct Identifier<'a> {
    /// The name of whoever gives the identifier, such as a CSIRT's domain name.
    pub name: &'a [u8],
    /// The identifier itself.
    pub id: &'a [u8],
}

/// The same as texts.
#[derive(Clone, Copy, Debug)]
pub(crate) struct Named<'a> {
    pub(crate) name: &'a str,
    pub(crate) id: &'a str,
}

impl<'a> Identifier<'a> {
    ghost use Rattle.redaction.specs.Outcome.{YieldsAs};
    ghost use Rattle.redaction.specs.Whole as spec;

    /// Returns the identifier as texts. Fails with NotUtf8.
    pub(crate) fn texts(self) -> Result<Named<'a>, Fault>
        ensures { YieldsAs spec.named result (spec.id_of (spec.identifier self.entry)) }
    {
        let name = word_of(self.name)?;
        let id = word_of(self.id)?;
        Ok(Named { name, id })
    }
}

/// Returns the texts of an identifier, if one is given. Fails with NotUtf8.
pub(crate) fn some_texts(id: Option<Identifier<'_>>) -> Result<Option<Named<'_>>, Fault>
    ensures { YieldsAs (option_map spec.named) result
        (spec.some_id_of (option_map spec.identifier id.entry)) }
{
    match id {
        None => Ok(None),
        Some(id) => Ok(Some(id.texts()?)),
    }
}

/// The text that says that something is withheld.
const WITHHELD: &str = "withheld";

/// The value of an enumerated attribute whose text is in the one beside it (RFC 7970 section 5.1.1).
const EXTENDED: &str = "ext-value";

/// Returns a copy of a text.
fn copy_of(alloc: Global, text: &str) -> Result<Text, AllocError>
    ensures { IfOk result (λ t. t ≡ text.now) }
{
    Ok(Text::new(String::from_str(alloc, text)?))
}

/// Appends the line of a class.
fn push_class(
    alloc: Global,
    lines: &mut Vec<Line>,
    depth: u32,
    in_array: bool,
    name: &str,
) -> Result<(), AllocError>
    ensures { OnOk result (lines.new.items ≡
        lines.old.items ++ spec.class_line depth in_array name.now ∷ []) }
{
    lines.push(Line {
        depth,
        name: copy_of(alloc, name)?,
        in_array,
        kind: Kind::Class,
        text: copy_of(alloc, "")?,
    })?;
    Ok(())
}

/// Appends the line of a text.
fn push_text(
    alloc: Global,
    lines: &mut Vec<Line>,
    depth: u32,
    in_array: bool,
    name: &str,
    text: &str,
) -> Result<(), AllocError>
    ensures { OnOk result (lines.new.items ≡
        lines.old.items ++ spec.text_line depth in_array name.now text.now ∷ []) }
{
    lines.push(Line {
        depth,
        name: copy_of(alloc, name)?,
        in_array,
        kind: Kind::Text,
        text: copy_of(alloc, text)?,
    })?;
    Ok(())
}

/// Returns an Incident without members.
fn incident(alloc: Global) -> Result<Vec<Line>, AllocError>
    ensures { IfOk result (λ v. v.items ≡ spec.incident) }
{
    let mut lines = Vec::new(alloc);
    push_class(alloc, &mut lines, 1, true, "Incident")?;
    Ok(lines)
}

/// Returns a Contact of which nothing is said (RFC 7970 section 3.9).
fn contact(alloc: Global) -> Result<Vec<Line>, AllocError>
    ensures { IfOk result (λ v. v.items ≡ spec.contact) }
{
    let mut lines = Vec::new(alloc);
    push_class(alloc, &mut lines, 2, true, "Contact")?;
    push_text(alloc, &mut lines, 3, true, "ContactName", WITHHELD)?;
    push_text(alloc, &mut lines, 3, false, "ext-role", WITHHELD)?;
    push_text(alloc, &mut lines, 3, false, "ext-type", WITHHELD)?;
    push_text(alloc, &mut lines, 3, false, "role", EXTENDED)?;
    push_text(alloc, &mut lines, 3, false, "type", EXTENDED)?;
    Ok(lines)
}

/// Returns the one line of a text that is a member of the Incident.
fn member(alloc: Global, name: &str, text: &str) -> Result<Vec<Line>, AllocError>
    ensures { IfOk result (λ v. v.items ≡ spec.text_line 2 false name.now text.now ∷ []) }
{
    let mut lines = Vec::new(alloc);
    push_text(alloc, &mut lines, 2, false, name, text)?;
    Ok(lines)
}

/// Returns an identifier.
fn incident_id(alloc: Global, id: Named<'_>) -> Result<Vec<Line>, AllocError>
    ensures { IfOk result (λ v. v.items ≡ spec.incident_id (spec.named id.entry)) }
{
    let mut lines = Vec::new(alloc);
    push_class(alloc, &mut lines, 2, false, "IncidentID")?;
    push_text(alloc, &mut lines, 3, false, "id", id.id)?;
    push_text(alloc, &mut lines, 3, false, "name", id.name)?;
    Ok(lines)
}

/// Returns how many of these lines are those of one class: those before the first that is less deep.
fn block_length(depth: u32, lines: &[Line]) -> usize
    ensures value { result ≡ spec.block_length depth lines.now }
    ensures within { result ≤ length lines.now }
{
    let mut place = 0;
    for line in lines {
        if line.depth < depth {
            return place;
        }
        place += 1;
    }
    place
}

/// Returns whether a line is that of a member with this name.
fn is_member(depth: u32, name: &str, line: &Line) -> bool
    ensures { result ≡ spec.is_member depth name.now line.now }
{
    line.depth == depth && line.name.as_str() == name
}

/// Returns whether a class with these lines has a member with this name.
fn has_member(depth: u32, name: &str, lines: &[Line]) -> bool
    ensures { result ≡ spec.has_member depth name.now lines.now }
{
    lines[..block_length(depth, lines)]
        .iter()
        .any(|line| is_member(depth, name, line))
}

/// Returns whether a member with this name comes before a line.
fn comes_before(depth: u32, name: &str, line: &Line) -> bool
    ensures { result ≡ spec.comes_before depth name.now line.now }
{
    line.depth < depth || (line.depth == depth && name < line.name.as_str())
}

/// Returns how many lines of a class come before those of a member with this name.
fn place_in(depth: u32, name: &str, lines: &[Line]) -> usize
    ensures value { result ≡ spec.place_in depth name.now lines.now }
    ensures within { result ≤ length lines.now }
{
    let mut place = 0;
    for line in lines {
        if comes_before(depth, name, line) {
            return place;
        }
        place += 1;
    }
    place
}

/// Puts lines in at a place.
fn put_at(place: usize, mut group: Vec<Line>, lines: Vec<Line>) -> Result<Vec<Line>, AllocError>
    requires { place ≤ length lines.items }
    ensures { IfOk result (λ v. v.items ≡ spec.put_at place group.items lines.items) }
{
    let mut lines = lines;
    let mut rest = lines.split_off(place)?;
    lines.append(&mut group)?;
    lines.append(&mut rest)?;
    Ok(lines)
}

/// Puts the lines of a member into those of a class, at its place by name.
fn put_in(
    depth: u32,
    name: &str,
    group: Vec<Line>,
    lines: Vec<Line>,
) -> Result<Vec<Line>, AllocError>
    ensures { IfOk result (λ v. v.items ≡ spec.put_in depth name.now group.items lines.items) }
{
    let place = place_in(depth, name, lines.as_slice());
    put_at(place, group, lines)
}

/// The same, unless the class has a member with this name.
fn put_missing(
    depth: u32,
    name: &str,
    group: Vec<Line>,
    lines: Vec<Line>,
) -> Result<Vec<Line>, AllocError>
    ensures { IfOk result (λ v.
        v.items ≡ spec.put_missing depth name.now group.items lines.items) }
{
    if has_member(depth, name, lines.as_slice()) {
        return Ok(lines);
    }
    put_in(depth, name, group, lines)
}

/// Returns how many lines come before those of the first Incident's members.
fn incident_begin(lines: &[Line]) -> usize
    ensures value { result ≡ spec.incident_begin lines.now }
    ensures within { result ≤ length lines.now }
{
    let mut place = 0;
    for line in lines {
        place += 1;
        if is_member(1, "Incident", line) {
            return place;
        }
    }
    place
}

/// Puts the placeholder for the extended purpose into the lines of an Incident, if it has none.
#[tactic(auto, unfolding(crate::specs::Whole::put_ext_purpose))]
fn put_ext_purpose(alloc: Global, lines: Vec<Line>) -> Result<Vec<Line>, AllocError>
    ensures { IfOk result (λ v. v.items ≡ spec.put_ext_purpose lines.items) }
{
    let group = member(alloc, "ext-purpose", WITHHELD)?;
    put_missing(2, "ext-purpose", group, lines)
}

/// Puts the placeholder for the purpose into the lines of an Incident.
#[tactic(auto, unfolding(crate::specs::Whole::put_purpose))]
fn put_purpose(alloc: Global, lines: Vec<Line>) -> Result<Vec<Line>, AllocError>
    ensures { IfOk result (λ v. v.items ≡ spec.put_purpose lines.items) }
{
    let group = member(alloc, "purpose", EXTENDED)?;
    put_in(2, "purpose", group, lines)
}

/// Puts placeholders for the purpose into the lines of an Incident, if it has none.
fn with_purpose(alloc: Global, lines: Vec<Line>) -> Result<Vec<Line>, AllocError>
    ensures { IfOk result (λ v. v.items ≡ spec.with_purpose lines.items) }
{
    if has_member(2, "purpose", lines.as_slice()) {
        return Ok(lines);
    }
    put_purpose(alloc, put_ext_purpose(alloc, lines)?)
}

/// Puts an identifier into the lines of an Incident, if one is given and the Incident has none.
fn with_id(alloc: Global, id: Option<Named<'_>>, lines: Vec<Line>) -> Result<Vec<Line>, AllocError>
    ensures { IfOk result (λ v.
        v.items ≡ spec.with_id (option_map spec.named id.entry) lines.items) }
{
    match id {
        Some(id) => put_missing(2, "IncidentID", incident_id(alloc, id)?, lines),
        None => Ok(lines),
    }
}

/// Puts a placeholder into the lines of an Incident for each of the four members that it lacks.
fn completed(
    alloc: Global,
    moment: &str,
    id: Option<Named<'_>>,
    lines: Vec<Line>,
) -> Result<Vec<Line>, AllocError>
    ensures { IfOk result (λ v.
        v.items ≡ spec.completed moment.now (option_map spec.named id.entry) lines.items) }
{
    let lines = put_missing(2, "Contact", contact(alloc)?, lines)?;
    let time = member(alloc, "GenerationTime", moment)?;
    let lines = put_missing(2, "GenerationTime", time, lines)?;
    let lines = with_id(alloc, id, lines)?;
    with_purpose(alloc, lines)
}

/// Returns the lines of an excerpt with placeholders.
fn filled(
    alloc: Global,
    moment: &str,
    id: Option<Named<'_>>,
    lines: Vec<Line>,
) -> Result<Vec<Line>, AllocError>
    ensures { IfOk result (λ v.
        v.items ≡ spec.filled moment.now (option_map spec.named id.entry) lines.items) }
{
    let mut lines = put_missing(1, "Incident", incident(alloc)?, lines)?;
    let begin = incident_begin(lines.as_slice());
    let members = lines.split_off(begin)?;
    let mut members = completed(alloc, moment, id, members)?;
    lines.append(&mut members)?;
    Ok(lines)
}

/// Returns whether the first Incident has a member with this name.
fn incident_has(name: &str, lines: &[Line]) -> bool
    ensures { result ≡ spec.incident_has name.now lines.now }
{
    has_member(2, name, &lines[incident_begin(lines)..])
}

/// Returns the document with these lines. Fails with NotReadable if it can't be read as a report.
fn document_of(alloc: Global, lines: &[Line]) -> Result<Document, Fault>
    ensures { Yields result (spec.readable_of lines.now) }
{
    match Document::from_outline(alloc, lines) {
        Ok(document) if is_readable(&document) => Ok(document),
        Ok(_) => Err(Fault::NotReadable),
        Err(OutlineFault::BadOutline) => Err(Fault::NotReadable),
        Err(OutlineFault::NoMemory) => Err(Fault::NoMemory),
    }
}

/// Returns the document of an excerpt made a report again: with a placeholder for each member that an Incident must
/// have and that is withheld. It depends on the excerpt, the text of a moment and the identifier alone.
///
/// Fails with IdMissing if the identifier is withheld and none is given, and with NotReadable if the document can't be
/// read as a report even so, as it has too many lines or is too deep.
#[tactic(auto, unfolding(crate::specs::Whole::whole_of))]
pub(crate) fn whole(
    alloc: Global,
    document: &Document,
    moment: &str,
    id: Option<Named<'_>>,
) -> Result<Document, Fault>
    ensures { Yields result (spec.whole_of moment.now (option_map spec.named id.entry) document.now) }
{
    let lines = filled(alloc, moment, id, document.outline(alloc)?)?;
    if !incident_has("IncidentID", lines.as_slice()) {
        return Err(Fault::IdMissing);
    }
    document_of(alloc, lines.as_slice())
}

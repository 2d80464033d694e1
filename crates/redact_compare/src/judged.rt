//! The lines that are kept and withheld of a document, from the verdict of each path.

use crate::entry::{Entry, is_below};
use crate::world::World;
use iodef_tree::{Kind, Line, Path, Text};
use std::alloc::{AllocError, Global};

/// A line. For a class it has whether the class is visible, and the rule that hides it otherwise.
#[derive(Drop)]
pub struct Judged<'a> {
    pub parent: &'a Path,
    pub path: &'a Path,
    pub line: &'a Line,
    pub visible: bool,
    pub rule: &'static str,
}

/// A kept class: its path, and the path of its line in the kept outline.
#[derive(Clone, Copy)]
pub struct Moved<'a> {
    pub path: &'a Path,
    pub place: &'a Path,
}

/// A withheld pair: the printed place, and the rule.
#[derive(Drop)]
pub struct Told {
    pub place: String,
    pub rule: &'static str,
}

fn verdict<'a>(world: &World<'_, '_>, entry: &'a Entry<'_>) -> Judged<'a> {
    let class = entry.line.kind == Kind::Class;
    let path = entry.path.tokens();
    Judged {
        parent: &entry.parent,
        path: &entry.path,
        line: entry.line,
        visible: class && world.is_visible(path),
        rule: if class { world.hiding_rule(path) } else { "" },
    }
}

pub fn judge<'r>(world: &World<'_, 'r>) -> Result<Vec<Judged<'r>>, AllocError> {
    let mut list = Vec::new(world.alloc);
    for entry in world.entries {
        list.push(verdict(world, entry))?;
    }
    Ok(list)
}

/// Returns whether a visible class is at the path.
pub fn is_seen(list: &[Judged<'_>], path: &[Text]) -> bool {
    list.iter()
        .any(|judged| judged.visible && judged.path.tokens() == path)
}

/// Returns whether a visible class is below the path.
pub fn holds_seen(list: &[Judged<'_>], path: &[Text]) -> bool {
    list.iter().any(|judged| judged.visible && is_below(judged.path.tokens(), path))
}

pub fn is_frame(list: &[Judged<'_>], path: &[Text]) -> bool {
    !is_seen(list, path) && holds_seen(list, path)
}

pub fn is_wholly_hidden(list: &[Judged<'_>], path: &[Text]) -> bool {
    !path.is_empty() && !is_seen(list, path) && !holds_seen(list, path)
}

pub fn is_kept(list: &[Judged<'_>], judged: &Judged<'_>) -> bool {
    let parent = judged.parent.tokens();
    if judged.line.kind == Kind::Class {
        judged.visible || is_frame(list, judged.path.tokens())
    } else {
        parent.is_empty() || is_seen(list, parent)
    }
}

/// Returns whether a class has its label added.
pub fn says_label(world: &World<'_, '_>, list: &[Judged<'_>], judged: &Judged<'_>) -> bool {
    judged.visible
        && world.written(judged.path.tokens()).is_none()
        && !is_seen(list, judged.parent.tokens())
}

fn copy(line: &Line) -> Result<Line, AllocError> {
    Ok(Line {
        depth: line.depth,
        name: line.name.clone()?,
        in_array: line.in_array,
        kind: line.kind,
        text: line.text.clone()?,
    })
}

fn text_line(alloc: Global, depth: u32, name: &str, text: &str) -> Result<Line, AllocError> {
    Ok(Line {
        depth,
        name: Text::new(String::from_str(alloc, name)?),
        in_array: false,
        kind: Kind::Text,
        text: Text::new(String::from_str(alloc, text)?),
    })
}

/// Returns whether the line isn't below the class of the other, or is a member of a later name.
fn comes_behind(line: &Line, other: &Line) -> bool {
    line.depth < other.depth
        || (line.depth == other.depth && other.name.as_str() < line.name.as_str())
}

/// Puts a line in front of the first that comes behind it.
fn put(lines: &mut Vec<Line>, line: Line) -> Result<(), AllocError> {
    let place = lines.iter().position(|other| comes_behind(other, &line));
    let place = place.unwrap_or(lines.len()).min(lines.len());
    lines.insert(place, line)?;
    Ok(())
}

/// Puts a text of the class one above this depth among the lines behind the class's own.
fn put_text(
    lines: &mut Vec<Line>,
    alloc: Global,
    depth: u32,
    name: &str,
    text: &str,
) -> Result<(), AllocError> {
    let line = text_line(alloc, depth, name, text)?;
    put(lines, line)
}

/// Puts the label of a class among the lines behind the class's own.
fn add_label(
    world: &World<'_, '_>,
    judged: &Judged<'_>,
    lines: &mut Vec<Line>,
) -> Result<(), AllocError> {
    let label = world.label(judged.path.tokens());
    let depth = judged.line.depth.saturating_add(1);
    put_text(lines, world.alloc, depth, "restriction", label.word)?;
    match label.ext {
        Some(text) if label.word == "ext-value" => {
            put_text(lines, world.alloc, depth, "ext-restriction", text)
        }
        _ => Ok(()),
    }
}

/// Puts a kept line in front and, if it says its label, the label behind it.
fn put_kept(
    world: &World<'_, '_>,
    list: &[Judged<'_>],
    judged: &Judged<'_>,
    lines: &mut Vec<Line>,
) -> Result<(), AllocError> {
    if says_label(world, list, judged) {
        add_label(world, judged, lines)?;
    }
    lines.insert(0, copy(judged.line)?)?;
    Ok(())
}

/// Returns the kept outline.
pub fn kept_outline(world: &World<'_, '_>, list: &[Judged<'_>]) -> Result<Vec<Line>, AllocError> {
    let mut lines = Vec::new(world.alloc);
    for judged in list.iter().rev() {
        if is_kept(list, judged) {
            put_kept(world, list, judged, &mut lines)?;
        }
    }
    Ok(lines)
}

pub fn count_seen(list: &[Judged<'_>]) -> usize {
    list.iter().filter(|judged| judged.visible).count()
}

/// Returns the kept classes, by the lines of the kept outline.
pub fn places<'a>(
    alloc: Global,
    list: &[Judged<'a>],
    kept: &'a [Entry<'_>],
) -> Result<Vec<Moved<'a>>, AllocError> {
    let mut pairs = Vec::new(alloc);
    let mut classes = kept.iter().filter(|entry| entry.line.kind == Kind::Class);
    for judged in list {
        if judged.line.kind == Kind::Class && is_kept(list, judged) {
            if let Some(entry) = classes.next() {
                pairs.push(Moved {
                    path: judged.path,
                    place: &entry.path,
                })?;
            }
        }
    }
    Ok(pairs)
}

/// Returns the printed place of a kept class; the root's is the root's path.
fn place_of(alloc: Global, pairs: &[Moved<'_>], path: &Path) -> Result<String, AllocError> {
    for pair in pairs {
        if *pair.path == *path {
            return pair.place.print(alloc);
        }
    }
    Ok(String::new(alloc))
}

/// Returns the path at which the rule of a class is reported, if it is.
fn told_at<'a>(list: &[Judged<'_>], judged: &Judged<'a>) -> Option<&'a Path> {
    let path = judged.path.tokens();
    if judged.line.kind != Kind::Class {
        return None;
    }
    if is_frame(list, path) {
        return Some(judged.path);
    }
    if is_wholly_hidden(list, path) && !is_wholly_hidden(list, judged.parent.tokens()) {
        return Some(judged.parent);
    }
    None
}

/// Returns what is withheld, in stored order and with repeats.
pub fn withheld(
    alloc: Global,
    list: &[Judged<'_>],
    pairs: &[Moved<'_>],
) -> Result<Vec<Told>, AllocError> {
    let mut told = Vec::new(alloc);
    for judged in list {
        if let Some(path) = told_at(list, judged) {
            let place = place_of(alloc, pairs, path)?;
            let rule = judged.rule;
            told.push(Told { place, rule })?;
        }
    }
    Ok(told)
}

fn is_before(one: &Told, other: &Told) -> bool {
    one.place.as_str() < other.place.as_str()
        || (one.place.as_str() == other.place.as_str() && one.rule < other.rule)
}

/// Puts a pair at its place in order, unless it is there.
fn put_told(list: &mut Vec<Told>, pair: Told) -> Result<(), AllocError> {
    let place = list.iter().position(|other| !is_before(other, &pair));
    let place = place.unwrap_or(list.len()).min(list.len());
    if list.get(place).is_none_or(|other| is_before(&pair, other)) {
        list.insert(place, pair)?;
    }
    Ok(())
}

/// Returns the pairs by place and rule, without repeats.
pub fn withheld_in_order(alloc: Global, pairs: Vec<Told>) -> Result<Vec<Told>, AllocError> {
    let mut list = Vec::new(alloc);
    for pair in pairs {
        put_told(&mut list, pair)?;
    }
    Ok(list)
}

/// The needle, and the name of the class that is searched, if one is given.
#[derive(Clone, Copy)]
pub struct Sought<'a> {
    pub needle: &'a str,
    pub class: Option<&'a str>,
}

/// Returns whether it is a visible class, of the sought name if there is one, that directly holds the text.
fn is_holder(judged: &Judged<'_>, text: &Judged<'_>, sought: &Sought<'_>) -> bool {
    judged.visible
        && *judged.path == *text.parent
        && (sought.class.is_none() || sought.class == Some(judged.line.name.as_str()))
}

/// Returns whether a visible class, of this name if one is given, directly holds a text with the needle.
pub fn search(list: &[Judged<'_>], sought: &Sought<'_>) -> bool {
    for text in list {
        if text.line.kind == Kind::Text && text.line.text.as_str().contains(sought.needle) {
            if list.iter().any(|judged| is_holder(judged, text, sought)) {
                return true;
            }
        }
    }
    false
}

//! The words of a line.

use trying_policy::Unfit;

/// The kind of a line, and the words behind it. Words that aren't there are empty.
#[derive(Clone, Copy)]
pub struct Line<'a> {
    pub kind: &'a str,
    pub first: &'a str,
    pub second: &'a str,
    /// The extended text of a label, if there is one; for a report the permissions.
    pub third: Option<&'a str>,
    pub fourth: &'a str,
    /// In a search of the report the name of the class, if there is one; in a search of lines the needle, if there is
    /// one.
    pub fifth: Option<&'a str>,
}

/// Returns the least and the greatest number of words behind the kind, or none for another kind.
fn words_of(kind: &str) -> Option<(usize, usize)> {
    match kind {
        "marks" => Some((0, 0)),
        "report" | "site" | "clearance" | "numbers" | "moment" => Some((1, 1)),
        "order" | "incident" | "gate" | "grantee" | "lists" => Some((2, 2)),
        "label" => Some((2, 3)),
        "excerpt" | "listed" => Some((3, 3)),
        "decide" | "kept" | "feed" => Some((4, 4)),
        "probe" | "sketch" => Some((3, 5)),
        "find" | "seek" => Some((4, 5)),
        _ => None,
    }
}

/// Returns whether the line is of a known kind, with as many words as its kind wants.
fn is_whole(kind: &str, words: usize) -> bool {
    match words_of(kind) {
        Some((least, most)) => least <= words && words <= most,
        None => false,
    }
}

fn parts<'a>(line: &'a str) -> Line<'a> {
    let mut words = line.split('|');
    Line {
        kind: words.next().unwrap_or(""),
        first: words.next().unwrap_or(""),
        second: words.next().unwrap_or(""),
        third: words.next(),
        fourth: words.next().unwrap_or(""),
        fifth: words.next(),
    }
}

impl<'a> Line<'a> {
    pub fn of(line: &'a str) -> Result<Line<'a>, Unfit> {
        let parts = parts(line);
        if is_whole(parts.kind, line.split('|').count().saturating_sub(1)) {
            Ok(parts)
        } else {
            Err(Unfit::NoCase)
        }
    }
}

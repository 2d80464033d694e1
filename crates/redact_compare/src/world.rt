//! The verdict of each path, judged by itself against all its prefixes over the flat outline.

use crate::entry::Entry;
use crate::policy_tables::{Written, clearance, is_meant, refusal, rule_of, strictness};
use iodef_tree::{Kind, Text};
use policy::{Case, Permission, Standing};
use std::alloc::Global;

const PRIVATE: Written<'static> = Written {
    word: "private",
    ext: None,
};

/// The lines of a document, and the case and the reader by which they are judged.
#[derive(Clone, Copy)]
pub struct World<'a, 'r> {
    pub alloc: Global,
    pub entries: &'r [Entry<'a>],
    pub case: &'r Case,
    pub standing: &'r Standing,
}

fn is_incident(path: &[Text]) -> bool {
    match path {
        [first, second] => first.as_str() == "Incident" && second.as_str() == "0",
        _ => false,
    }
}

impl<'a, 'r> World<'a, 'r> {
    fn is_class(&self, path: &[Text]) -> bool {
        self.entries.iter().any(|entry| entry.line.kind == Kind::Class
            && entry.path.tokens() == path)
    }

    /// Returns the text of this name directly in the class at the path.
    fn text_in(&self, path: &[Text], name: &str) -> Option<&'a str> {
        for entry in self.entries {
            if entry.line.kind == Kind::Text
                && !entry.line.in_array
                && entry.line.name.as_str() == name
                && entry.parent.tokens() == path
            {
                return Some(entry.line.text.as_str());
            }
        }
        None
    }

    /// Returns the label that is written in the class at the path.
    pub fn written(&self, path: &[Text]) -> Option<Written<'a>> {
        if !self.is_class(path) {
            return None;
        }
        let word = self.text_in(path, "restriction")?;
        let ext = self.text_in(path, "ext-restriction");
        Some(Written { word, ext })
    }

    /// Returns that label, or the default of the root and of the Incident.
    fn own(&self, path: &[Text]) -> Option<Written<'a>> {
        let written = self.written(path);
        if written.is_some() {
            return written;
        }
        if path.is_empty() || (is_incident(path) && self.is_class(path)) {
            return Some(PRIVATE);
        }
        None
    }

    /// Returns the own label of the longest prefix that has one.
    pub fn label(&self, path: &[Text]) -> Written<'a> {
        for cut in 0..=path.len() {
            if let Some(label) = self.own(&path[..path.len() - cut]) {
                return label;
            }
        }
        PRIVATE
    }

    /// Returns the first refusal of a gate at this very path.
    pub fn refused_at(&self, path: &[Text]) -> Option<&'static str> {
        for gate in self.case.gates.as_slice() {
            if gate.path.tokens() == path {
                if let Some(rule) = refusal(self.standing, gate) {
                    return Some(rule);
                }
            }
        }
        None
    }

    /// Returns the refusal of the shortest prefix.
    pub fn refusal(&self, path: &[Text]) -> Option<&'static str> {
        for length in 0..=path.len() {
            if let Some(rule) = self.refused_at(&path[..length]) {
                return Some(rule);
            }
        }
        None
    }

    /// Returns whether the permission is at the path or above it, and includes this reader.
    pub fn reaches(&self, permission: &Permission, path: &[Text]) -> bool {
        is_meant(self.standing, permission.grantee) && path.starts_with(permission.path.tokens())
    }

    /// Returns whether its last moment is past.
    pub fn is_over(&self, permission: &Permission) -> bool {
        match permission.until {
            Some(end) => end <= self.standing.now,
            None => false,
        }
    }

    /// Returns whether a label is written below the permission, down to the path.
    pub fn is_ended(&self, permission: &Permission, path: &[Text]) -> bool {
        for length in 0..=path.len() {
            if length > permission.path.tokens().len() && self.written(&path[..length]).is_some() {
                return true;
            }
        }
        false
    }

    pub fn is_covered(&self, path: &[Text]) -> bool {
        for permission in self.case.permissions.as_slice() {
            if self.reaches(permission, path)
                && !self.is_over(permission)
                && !self.is_ended(permission, path)
            {
                return true;
            }
        }
        false
    }

    /// Returns how strictly the class at the path is handled.
    pub fn strictness(&self, path: &[Text]) -> u32 {
        strictness(self.label(path), self.standing.arrangement)
    }

    pub fn is_cleared(&self, path: &[Text]) -> bool {
        self.strictness(path) <= clearance(self.standing)
    }

    pub fn is_visible(&self, path: &[Text]) -> bool {
        if self.standing.source {
            return true;
        }
        self.refusal(path).is_none() && (self.is_cleared(path) || self.is_covered(path))
    }

    /// Returns the rule that hides the class at the path, if it isn't visible.
    pub fn hiding_rule(&self, path: &[Text]) -> &'static str {
        match self.refusal(path) {
            Some(rule) => rule,
            None => rule_of(self.strictness(path)),
        }
    }
}

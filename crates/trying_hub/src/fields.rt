//! The fields of a line.

use circle::text::Text;
use std::alloc::{AllocError, Global};
use std::str::Split;
use trying::{number_if_any, number_of};

/// The fields of a request that are still to be read.
#[derive(Drop)]
pub struct Fields<'a> {
    rest: Split<'a, char>,
}

impl<'a> Fields<'a> {
    pub fn new(line: &'a str) -> Fields<'a> {
        Fields {
            rest: line.split('|'),
        }
    }

    /// Returns the next field, empty behind the last.
    pub fn word(&mut self) -> &'a str {
        self.rest.next().unwrap_or("")
    }

    pub fn number(&mut self) -> u32 {
        number_of(self.word())
    }

    /// Returns the next field as a number, or none for `-`.
    pub fn number_if_any(&mut self) -> Option<u32> {
        number_if_any(self.word())
    }

    /// Returns a moment, in seconds since the beginning of 1970, or none for `-` and behind the last field.
    pub fn moment_if_any(&mut self) -> Option<i64> {
        self.word().parse::<i64>().ok()
    }

    /// Returns whether a flag holds: the next field isn't empty, `0` or `-`.
    pub fn flag(&mut self) -> bool {
        !matches!(self.word(), "" | "0" | "-")
    }

    /// Returns the number of a person, also for `key-4`.
    pub fn owner(&mut self) -> u32 {
        let word = self.word();
        number_of(word.strip_prefix("key-").unwrap_or(word))
    }

    pub fn text(&mut self, alloc: Global) -> Result<Text, AllocError> {
        Text::of(alloc, self.word())
    }
}

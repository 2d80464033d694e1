//! Texts that are written piece by piece.

use std::alloc::{AllocError, Global};

/// A text that is written piece by piece. If a piece found no memory, `done` fails at the end.
#[derive(Drop)]
pub struct Writing {
    text: String,
    is_whole: bool,
}

impl Writing {
    pub fn new(alloc: Global) -> Writing {
        Writing {
            text: String::new(alloc),
            is_whole: true,
        }
    }

    pub fn put(&mut self, piece: &str) {
        if self.text.push_str(piece).is_err() {
            self.is_whole = false;
        }
    }

    /// Returns a comma, unless an object was just opened.
    pub fn comma(&self) -> &'static str {
        if self.text.as_str().ends_with('{') {
            ""
        } else {
            ","
        }
    }

    pub fn len(&self) -> usize {
        self.text.len()
    }

    /// Returns the text. Fails if there was no memory for a piece.
    pub fn done(self) -> Result<String, AllocError> {
        let Writing { text, is_whole } = self;
        if is_whole { Ok(text) } else { Err(AllocError) }
    }
}

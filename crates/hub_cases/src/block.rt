//! The requests of a block of lines, each filled in.

use std::alloc::{AllocError, Global};
use trying::number_of;

/// A block of the table.
#[derive(Drop)]
pub struct Block {
    alloc: Global,
    /// One line for each request, with its fields.
    pub lines: Vec<String>,
    /// Whether each call of the shelf must fail in turn.
    pub fails: bool,
    /// Whether the steps of statements are limited, to more and more.
    pub limits: bool,
    /// Whether each page is printed with how many reports the shelf was asked about.
    pub counts: bool,
    /// Whether each page is printed with how many reports were asked for below kept rows.
    pub below: bool,
}

impl Block {
    pub fn new(alloc: Global) -> Block {
        Block {
            alloc,
            lines: Vec::new(alloc),
            fails: false,
            limits: false,
            counts: false,
            below: false,
        }
    }

    pub fn is_empty(&self) -> bool {
        self.lines.is_empty()
    }

    /// Sets what a line says of the whole block. Returns false for a line of requests.
    fn is_set_by(&mut self, line: &str) -> bool {
        match line {
            "every call fails" => self.fails = true,
            "steps are limited" => self.limits = true,
            "searches are counted" => self.counts = true,
            "searches below the rows are counted" => self.below = true,
            _ => return false,
        }
        true
    }

    /// Adds the requests of a line.
    pub fn add(&mut self, line: &str) -> Result<(), AllocError> {
        if self.is_set_by(line) {
            return Ok(());
        }
        let (times, request) = line.split_once(" times ").unwrap_or(("1", line));
        for n in 1..=number_of(times) {
            self.lines.push(filled_in(self.alloc, request, n)?)?;
        }
        Ok(())
    }
}

/// Returns the request as it is made the nth time.
fn filled_in(alloc: Global, request: &str, n: u32) -> Result<String, AllocError> {
    let mut all = String::new(alloc);
    for piece in request.split('<') {
        match piece.split_once('>') {
            Some((word, behind)) => {
                push_word(alloc, &mut all, word, n)?;
                all.push_str(behind)?;
            }
            None => all.push_str(piece)?,
        }
    }
    Ok(all)
}

fn push_word(alloc: Global, all: &mut String, word: &str, n: u32) -> Result<(), AllocError> {
    match word.split_once(',') {
        Some((odd, even)) => all.push_str(if n % 2 == 1 { odd } else { even }),
        None => {
            let number = format!(in alloc; "{n}")?;
            all.push_str(number.as_str())
        }
    }
}

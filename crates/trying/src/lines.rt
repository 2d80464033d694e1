//! The fields of a line of a table. They have no contracts: the program's `stdout` shows what they said.

use std::alloc::{AllocError, Global};

/// Returns the number, or 0.
pub fn number_of(word: &str) -> u32 {
    word.parse::<u32>().unwrap_or(0)
}

/// Returns the number, or none for `-`.
pub fn number_if_any(word: &str) -> Option<u32> {
    if word == "-" {
        None
    } else {
        Some(number_of(word))
    }
}

/// Returns the line with each `<3*0,>` written out as `0,0,0,`.
pub fn written_out(alloc: Global, line: &str) -> Result<String, AllocError> {
    let mut all = String::new(alloc);
    for piece in line.split('<') {
        match piece.split_once('>') {
            Some((repeated, behind)) => {
                push_times(&mut all, repeated)?;
                all.push_str(behind)?;
            }
            None => all.push_str(piece)?,
        }
    }
    Ok(all)
}

fn push_times(all: &mut String, repeated: &str) -> Result<(), AllocError> {
    if let Some((count, part)) = repeated.split_once('*') {
        for _ in 0..number_of(count) {
            all.push_str(part)?;
        }
    }
    Ok(())
}

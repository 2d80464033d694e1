//! The outcome of a case, as it is printed.

use std::alloc::{AllocError, Global};
use std::str::from_utf8;

/// Adds each of the first lines of a text behind a mark. A line that isn't ended has `..` behind it.
fn push_lines(all: &mut String, mark: &str, text: &str, most: usize) -> Result<(), AllocError> {
    for line in text.split_inclusive('\n').take(most) {
        all.push_str(mark)?;
        all.push_str(line)?;
        if !line.ends_with('\n') {
            all.push_str("..\n")?;
        }
    }
    Ok(())
}

/// Adds each of the first lines of an output behind a mark.
fn push_output(all: &mut String, mark: &str, bytes: &[u8], most: usize) -> Result<(), AllocError> {
    push_lines(all, mark, from_utf8(bytes).unwrap_or("not UTF-8"), most)
}

/// Adds the output.
pub fn push_printed(all: &mut String, output: &[u8]) -> Result<(), AllocError> {
    push_output(all, "> ", output, usize::MAX)
}

/// The exit status of words that are no command line.
const USAGE: u8 = 2;

/// Returns how the program ended, its output and its standard error.
pub fn ended(
    alloc: Global,
    status: u8,
    output: &[u8],
    errors: &[u8],
) -> Result<String, AllocError> {
    let mut all = format!(in alloc; "status {status}\n")?;
    push_printed(&mut all, output)?;
    let most = if status == USAGE { 1 } else { usize::MAX };
    push_output(&mut all, "! ", errors, most)?;
    Ok(all)
}

/// Adds a reply behind its mark, on one line.
pub fn push_reply(all: &mut String, reply: &[u8]) -> Result<(), AllocError> {
    all.push_str("< ")?;
    for c in from_utf8(reply).unwrap_or("not UTF-8").chars() {
        match c {
            '\r' => all.push_str("\\r")?,
            '\n' => all.push_str("\\n")?,
            _ => all.push(c)?,
        }
    }
    all.push('\n')?;
    Ok(())
}

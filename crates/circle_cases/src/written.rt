//! The fields of a line.
use std::alloc::{AllocError, Global};
use trying::number_of;

/// Returns the text of a field. `129*x` is so many times `x`, and a caret makes a control character of the one behind
/// it (`^?` is delete, `^@` is 0).
pub fn text_of(alloc: Global, field: &str) -> Result<String, AllocError> {
    match field.split_once('*') {
        Some((count, part)) => repeated(alloc, number_of(count), part),
        None => shown(alloc, field),
    }
}

fn repeated(alloc: Global, count: u32, part: &str) -> Result<String, AllocError> {
    let mut text = String::new(alloc);
    for _ in 0..count {
        text.push_str(part)?;
    }
    Ok(text)
}

fn shown(alloc: Global, field: &str) -> Result<String, AllocError> {
    let mut text = String::new(alloc);
    let mut is_control = false;
    for letter in field.chars() {
        if is_control {
            text.push(control(letter))?;
            is_control = false;
        } else if letter == '^' {
            is_control = true;
        } else {
            text.push(letter)?;
        }
    }
    Ok(text)
}

fn control(letter: char) -> char {
    match letter {
        '?' => '\u{7f}',
        '@' => '\u{0}',
        'I' => '\t',
        'J' => '\n',
        'P' => '\u{10}',
        'R' => '\u{12}',
        'U' => '\u{15}',
        'X' => '\u{18}',
        ']' => '\u{1d}',
        '_' => '\u{1f}',
        _ => letter,
    }
}

//! `mark`: the labels of a report on standard input.

use hub_service::{
    Fault, MarkFault, Selection, Status, end_with, mark_text, print, read_input, tell,
};
use iodef_tree::{Path, PathFault};
use std::alloc::Global;
use std::io::{Read, Write};

/// Prints the lines that the words ask for, or the fault.
pub fn run<R: Read, W: Write, E: Write>(
    alloc: Global,
    place: u32,
    pointer: Option<&str>,
    reader: &mut R,
    writer: &mut W,
    errors: &mut E,
) -> Status {
    let selection = match select(alloc, place, pointer) {
        Ok(selection) => selection,
        Err(PathFault::BadPath) => {
            return tell_with(
                errors,
                PathFault::BadPath.name(),
                BAD_POINTER,
                Status::Refused,
            );
        }
        Err(PathFault::NoMemory) => return end_with(errors, Err(Fault::NoMemory)),
    };
    let body = match read_input(alloc, reader) {
        Ok(body) => body,
        Err(fault) => return end_with(errors, Err(fault)),
    };
    match mark_text(alloc, &body, &selection) {
        Ok(text) => end_with(errors, print(writer, text.as_str())),
        Err(fault) => tell_fault(alloc, &fault, &body, errors),
    }
}

/// What helps who gives a word that is no pointer.
const BAD_POINTER: &str =
    "POINTER isn't a JSON pointer, which begins with a slash and has 0 or 1 after each ~; mark reads a report from standard input, as in 'mark < FILE'";

/// Prints the fault's name and, unless memory ran out, on a second line where the fault is and what helps.
fn tell_fault<E: Write>(alloc: Global, fault: &MarkFault, body: &[u8], errors: &mut E) -> Status {
    match fault.hint(alloc, body) {
        Ok(hint) if status_of(fault) == Status::Refused => {
            tell_with(errors, fault.name(), hint.as_str(), Status::Refused)
        }
        _ => end_with(errors, Err(Fault::NoMemory)),
    }
}

fn tell_with<E: Write>(errors: &mut E, name: &str, hint: &str, status: Status) -> Status {
    let status = tell(errors, name, status);
    tell(errors, hint, status)
}

fn select(alloc: Global, place: u32, pointer: Option<&str>) -> Result<Selection, PathFault> {
    let class = match pointer {
        Some(pointer) => Some(Path::parse(alloc, pointer)?),
        None => None,
    };
    Ok(Selection { place, class })
}

fn status_of(fault: &MarkFault) -> Status {
    match fault {
        MarkFault::NoMemory => Status::Failed,
        MarkFault::Body(_) | MarkFault::BadMarking(_) | MarkFault::NoClass => Status::Refused,
    }
}

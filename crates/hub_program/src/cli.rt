//! The command line.

use crate::commands::{explanation, init, mark, migrate, serve, view};
use crate::words::{Asked, command_line, read_words, usage_of_other_words};
use clap::Error;
use clap::error::ErrorKind;
use hub_service::{Fault, Status, end_with, tell};
use std::alloc::Global;
use std::env::Args;
use std::io;
use std::io::{Read, Write};

/// Does what the words of the program's start say, its name first. A word that isn't UTF-8 is a usage error, as no word
/// of the program is one; so a store's path must be UTF-8.
pub fn cli_start<R: Read, W: Write, E: Write>(
    rt: &HostRuntime,
    words: io::Result<Args>,
    reader: &mut R,
    writer: &mut W,
    errors: &mut E,
) -> Status {
    match words_behind(rt.alloc(), words) {
        Ok(words) => cli_run(rt, &words, reader, writer, errors),
        Err(error) => refuse_words(rt.alloc(), &error, errors),
    }
}

/// The words after the program's name.
fn words_behind(alloc: Global, words: io::Result<Args>) -> io::Result<Vec<String>> {
    Ok(words?.skip(1).collect(alloc)?)
}

fn refuse_words<E: Write>(alloc: Global, error: &io::Error, errors: &mut E) -> Status {
    if error.kind() == io::ErrorKind::OutOfMemory {
        return end_with(errors, Err(Fault::NoMemory));
    }
    match usage_of_other_words(alloc) {
        Ok(error) => usage(errors, &error),
        Err(_) => end_with(errors, Err(Fault::NoMemory)),
    }
}

/// Does what the words after the program's name say. Without words it does `mark`.
pub fn cli_run<R: Read, W: Write, E: Write>(
    rt: &HostRuntime,
    words: &[String],
    reader: &mut R,
    writer: &mut W,
    errors: &mut E,
) -> Status {
    let alloc = rt.alloc();
    let Ok(line) = command_line(alloc, words) else {
        return end_with(errors, Err(Fault::NoMemory));
    };
    match read_words(alloc, line.as_slice()) {
        Ok(asked) => run(rt, asked, reader, writer, errors),
        Err(error) => usage(errors, &error),
    }
}

fn run<R: Read, W: Write, E: Write>(
    rt: &HostRuntime,
    asked: Asked<'_>,
    reader: &mut R,
    writer: &mut W,
    errors: &mut E,
) -> Status {
    let outcome = match asked {
        Asked::Mark { place, pointer } => {
            return mark::run(rt.alloc(), place, pointer, reader, writer, errors);
        }
        Asked::Init {
            store,
            name,
            digest,
        } => init::run(rt, store, name, digest, writer),
        Asked::Serve { store, port, count } => serve::run(rt, store, port, count, writer, errors),
        Asked::View { store, number } => view::run(rt, store, number, reader, writer),
        Asked::Explain {
            store,
            person,
            number,
            pointer,
        } => explanation::run(rt, store, person, number, pointer, reader, writer),
        Asked::Migrate { store } => migrate::run(rt, store, writer),
    };
    end_with(errors, outcome)
}

fn usage<E: Write>(errors: &mut E, error: &Error) -> Status {
    if error.kind() == ErrorKind::OutOfMemory {
        return tell(errors, "NoMemory", Status::Failed);
    }
    match write!(errors, "{error}") {
        Ok(()) => Status::Usage,
        Err(_) => Status::Failed,
    }
}

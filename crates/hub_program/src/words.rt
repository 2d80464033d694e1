//! The words of the command line.

use clap::error::ErrorKind;
use clap::{Arg, ArgMatches, Command, Error, value_parser};
use std::alloc::{AllocError, Global};

/// What the words ask for.
pub enum Asked<'a> {
    Mark {
        place: u32,
        pointer: Option<&'a str>,
    },
    Init {
        store: &'a str,
        name: &'a str,
        digest: &'a str,
    },
    Serve {
        store: &'a str,
        port: u16,
        count: u32,
    },
    View {
        store: &'a str,
        number: u32,
    },
    Explain {
        store: &'a str,
        person: u32,
        number: u32,
        pointer: &'a str,
    },
    Migrate {
        store: &'a str,
    },
}

fn word<'a>(alloc: Global, id: &'a str, name: &'a str, help: &'a str) -> Arg<'a> {
    Arg::new(alloc, id)
        .value_name(name)
        .help(help)
        .required(true)
}

fn store<'a>(alloc: Global) -> Arg<'a> {
    word(alloc, "store", "DB", "The file of the store")
}

fn mark<'a>(alloc: Global) -> Result<Command<'a>, AllocError> {
    let incident = Arg::new(alloc, "incident")
        .long("incident")
        .value_name("K")
        .help("The place of the Incident in the report")
        .value_parser(value_parser!(u32))
        .default_value("0");
    let pointer = Arg::new(alloc, "pointer")
        .value_name("POINTER")
        .help("The JSON pointer of the one class to print");
    Command::new(alloc, "mark")
        .about("Prints the label of each class of a report on standard input")
        .arg(incident)?
        .arg(pointer)
}

fn init<'a>(alloc: Global) -> Result<Command<'a>, AllocError> {
    let name = word(alloc, "name", "NAME", "The name of the first organisation");
    let digest = word(
        alloc,
        "digest",
        "DIGEST",
        "The SHA-256 of its administrator's key, in hexadecimal digits",
    );
    Command::new(alloc, "init")
        .about("Makes a store with one organisation and its administrator")
        .arg(store(alloc))?
        .arg(name)?
        .arg(digest)
}

fn serve<'a>(alloc: Global) -> Result<Command<'a>, AllocError> {
    let ports = value_parser!(u16).range(1..=65535);
    let port = word(alloc, "port", "PORT", "The port on 127.0.0.1").value_parser(ports);
    let count = word(alloc, "count", "COUNT", "How many connections are served").value_parser(
        value_parser!(u32),
    );
    Command::new(alloc, "serve")
        .about("Serves connections, one after the other")
        .arg(store(alloc))?
        .arg(port)?
        .arg(count)
}

fn view<'a>(alloc: Global) -> Result<Command<'a>, AllocError> {
    let number = word(alloc, "number", "NUMBER", "The number of the incident").value_parser(
        value_parser!(u32),
    );
    Command::new(alloc, "view")
        .about(
            "Prints what a reader may see of an incident; the reader's key is the first line of standard input",
        )
        .arg(store(alloc))?
        .arg(number)
}

fn explain<'a>(alloc: Global) -> Result<Command<'a>, AllocError> {
    let person = word(alloc, "person", "PERSON", "The number of the person").value_parser(
        value_parser!(u32),
    );
    let number = word(alloc, "number", "NUMBER", "The number of the incident").value_parser(
        value_parser!(u32),
    );
    let pointer = word(
        alloc,
        "pointer",
        "POINTER",
        "The JSON pointer of the class in the incident's document",
    );
    Command::new(alloc, "explain")
        .about(
            "Prints why a person sees a class of an incident, or doesn't; an administrator's key is the first line of standard input",
        )
        .arg(store(alloc))?
        .arg(person)?
        .arg(number)?
        .arg(pointer)
}

fn migrate<'a>(alloc: Global) -> Result<Command<'a>, AllocError> {
    Command::new(alloc, "migrate")
        .about("Brings a store to the newest version of its tables")
        .arg(store(alloc))
}

/// Adds a command. It takes the program whole, so that no return of the caller has to drop it.
fn with<'a>(
    program: Command<'a>,
    command: Result<Command<'a>, AllocError>,
) -> Result<Command<'a>, AllocError> {
    program.subcommand(command?)
}

fn program<'a>(alloc: Global) -> Result<Command<'a>, AllocError> {
    let program = Command::new(alloc, "iodef-hub").subcommand_required(true);
    let program = with(program, mark(alloc))?;
    let program = with(program, init(alloc))?;
    let program = with(program, serve(alloc))?;
    let program = with(program, view(alloc))?;
    let program = with(program, explain(alloc))?;
    with(program, migrate(alloc))
}

/// The whole command line, with the program's name first. Without words it is `mark`.
pub fn command_line<'a>(alloc: Global, words: &'a [String]) -> Result<Vec<&'a str>, AllocError> {
    let mut line = Vec::new(alloc);
    line.push("iodef-hub")?;
    if words.is_empty() {
        line.push("mark")?;
    }
    for word in words {
        line.push(word.as_str())?;
    }
    Ok(line)
}

// A required word is always there and was parsed, so the defaults are never used; no contract of `clap` says so.
fn text_of<'a>(found: &ArgMatches<'a>, id: &str) -> &'a str {
    found.get_str(id).unwrap_or("")
}

fn number_of(found: &ArgMatches<'_>, id: &str) -> u32 {
    found.get_one::<u32>(id).unwrap_or(0)
}

fn asked_by<'a>(command: &str, found: &ArgMatches<'a>) -> Asked<'a> {
    let store = text_of(found, "store");
    match command {
        "init" => Asked::Init {
            store,
            name: text_of(found, "name"),
            digest: text_of(found, "digest"),
        },
        "serve" => Asked::Serve {
            store,
            port: found.get_one::<u16>("port").unwrap_or(0),
            count: number_of(found, "count"),
        },
        "view" => Asked::View {
            store,
            number: number_of(found, "number"),
        },
        "explain" => Asked::Explain {
            store,
            person: number_of(found, "person"),
            number: number_of(found, "number"),
            pointer: text_of(found, "pointer"),
        },
        "migrate" => Asked::Migrate { store },
        _ => Asked::Mark {
            place: number_of(found, "incident"),
            pointer: found.get_str("pointer"),
        },
    }
}

/// Returns what a command line asks for, or the usage. Words that begin with a dash are options, so `-1` is no COUNT.
pub fn read_words<'a>(alloc: Global, line: &'a [&'a str]) -> Result<Asked<'a>, Error> {
    let matches = program(alloc)?.try_get_matches_from(line)?;
    match matches.subcommand() {
        Some((command, found)) => Ok(asked_by(command, found)),
        None => Ok(Asked::Mark {
            place: 0,
            pointer: None,
        }),
    }
}

/// The usage for a word that isn't UTF-8.
pub fn usage_of_other_words(alloc: Global) -> Result<Error, AllocError> {
    program(alloc)?.error(ErrorKind::InvalidValue, "a word isn't UTF-8")
}

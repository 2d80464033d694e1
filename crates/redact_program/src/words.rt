//! The words of the command line.
ghost use Rattle.std.specs.Prelude.{◌≡◌, ◌↔◌, [], IfOk, IsNone, IsTrue, Some, codes, map, option_copied, string_bytes, true, unwrap_or};
ghost use Rattle.clap.specs.Words.{App, Rule, first_of, found_of, new_app, rows_of, subcommand_rows_of, with_rule, with_subcommand};
ghost use Rattle.redact_program.specs.Outcomes as spec;
ghost use Rattle.redact_program.specs.Words.{IsArg, IsCommand};
ghost use Rattle.redact_program.specs.Words as said;

use clap::error::ErrorKind;
use clap::{Arg, ArgAction, ArgMatches, Command, Error, value_parser};
use redaction::{is_clearance, is_written};
use std::alloc::{AllocError, Global};

/// A reader of whom only the clearance is known.
#[derive(Clone, Copy)]
pub struct Cleared<'a> {
    /// What the reader is cleared for.
    pub clearance: &'a str,
    /// The place of the Incident in the report, from 0 on.
    pub incident: u32,
    /// The moment of the view, if it is given.
    pub moment: Option<&'a str>,
}

/// An identifier for a report whose own one may be withheld (RFC 7970 section 3.4).
#[derive(Clone, Copy)]
pub struct IncidentId<'a> {
    /// The name of whoever gives the identifier.
    pub name: &'a str,
    /// The identifier itself.
    pub id: &'a str,
}

/// The forms of an excerpt.
#[derive(Clone, Copy)]
pub enum Form<'a> {
    /// The document, and what is said of it.
    Answer,
    /// The document alone.
    Document,
    /// The document made a report by placeholders.
    Report(Option<IncidentId<'a>>),
}

/// The reader for whom a report is redacted.
#[derive(Clone, Copy)]
pub enum Whom<'a> {
    /// A reader with this clearance.
    Cleared(Cleared<'a>),
    /// The reader of the view description in this file.
    Described(&'a str),
}

/// What the words ask for.
#[derive(Clone, Copy)]
pub enum Asked<'a> {
    /// What a reader may see.
    Excerpt {
        whom: Whom<'a>,
        form: Form<'a>,
    },
    /// Why a reader sees a class, or doesn't.
    Explain {
        whom: Whom<'a>,
        pointer: &'a str,
    },
    /// Whether a reader finds a text.
    Finds {
        whom: Whom<'a>,
        needle: &'a str,
        class: Option<&'a str>,
    },
    /// The labels of an Incident.
    Marks {
        incident: u32,
    },
}

impl<'a> Asked<'a> {
    /// Returns the reader whom the words name, if they name one.
    pub fn whom(&self) -> Option<Whom<'a>>
        ensures { result ≡ spec.whom_asked self.now }
    {
        match self {
            Asked::Excerpt { whom, .. } => Some(*whom),
            Asked::Explain { whom, .. } => Some(*whom),
            Asked::Finds { whom, .. } => Some(*whom),
            Asked::Marks { .. } => None,
        }
    }

    /// Returns the name of the view's file, if the words name one.
    pub fn file(&self) -> Option<&'a str>
        ensures { option_copied result ≡ spec.file_named self.now }
    {
        match self.whom() {
            Some(Whom::Described(path)) => Some(path),
            _ => None,
        }
    }

    /// Whether the word for a pointer has no slash before it, as the name of a file.
    pub fn has_file_for_pointer(&self) -> bool
        ensures { result ≡ spec.has_file_for_pointer self.now }
    {
        match self {
            Asked::Explain { pointer, .. } => is_unrooted(pointer.as_bytes()),
            _ => false,
        }
    }
}

/// Whether a text begins with no slash, as the name of a file.
fn is_unrooted(text: &[u8]) -> bool
    ensures { result ≡ spec.is_unrooted text.now }
{
    match text {
        [] => false,
        [first, ..] => *first != b'/',
    }
}

/// Returns the option --ID with a value.
fn option<'a>(alloc: Global, id: &'a str, value: &'a str, help: &'a str) -> Arg<'a>
    ensures { IsArg result (said.option id.entry.now) }
{
    Arg::new(alloc, id).long(id).value_name(value).help(help)
}

/// Returns the option --ID without a value.
fn flag<'a>(alloc: Global, id: &'a str, help: &'a str) -> Arg<'a>
    ensures { IsArg result (said.flag id.entry.now) }
{
    Arg::new(alloc, id)
        .long(id)
        .help(help)
        .action(ArgAction::SetTrue)
}

/// Returns a word that has to be there.
fn word<'a>(alloc: Global, id: &'a str, name: &'a str, help: &'a str) -> Arg<'a>
    ensures { IsArg result (said.word id.entry.now) }
{
    Arg::new(alloc, id)
        .value_name(name)
        .help(help)
        .required(true)
}

/// Returns the option for the place of the Incident.
fn incident<'a>(alloc: Global) -> Arg<'a>
    ensures { IsArg result said.incident }
{
    option(
        alloc,
        "incident",
        "K",
        "The place of the Incident in the report, from 0 on",
    )
    .value_parser(value_parser!(u32))
}

/// Forbids an option beside another one.
fn not_beside<'a>(option: Arg<'a>, other: &'a str) -> Result<Arg<'a>, AllocError>
    ensures { (rule : Rule) → IsArg option.entry rule
        → IfOk result (λ a. IsArg a (said.bound rule)) }
{
    option.conflicts_with(other)
}

/// Returns the option for a reader's clearance. There is no reader by default.
fn clearance<'a>(alloc: Global) -> Result<Arg<'a>, AllocError>
    ensures { IfOk result (λ a. IsArg a (said.bound_option (codes "clearance"))) }
{
    let clearance = option(
        alloc,
        "clearance",
        "C",
        "What the reader is cleared for: CLEAR, GREEN, AMBER, STRICT or RED, or a label as TLP:AMBER+STRICT",
    );
    not_beside(clearance.required_unless_present("for")?, "for")
}

/// Adds an option.
fn with_option<'a>(
    command: Command<'a>,
    option: Result<Arg<'a>, AllocError>,
) -> Result<Command<'a>, AllocError>
    ensures { (app : App) (rule : Rule) → IsCommand command.entry app
        → IfOk option.entry (λ a. IsArg a rule)
        → IfOk result (λ c. IsCommand c (with_rule app rule)) }
{
    command.arg(option?)
}

/// Adds the options for a reader, who has to be given in one of two ways.
fn about_reader<'a>(alloc: Global, command: Command<'a>) -> Result<Command<'a>, AllocError>
    ensures { (app : App) → IsCommand command.entry app
        → IfOk result (λ c. IsCommand c (said.with_reader app)) }
{
    let command = with_option(command, clearance(alloc))?;
    let described = option(alloc, "for", "FILE", "The file of the view description");
    let command = with_option(command, Ok(described))?;
    with_option(command, not_beside(incident(alloc), "for"))
}

/// Adds the options for an identifier and for the moment.
fn with_identifier<'a>(alloc: Global, command: Command<'a>) -> Result<Command<'a>, AllocError>
    ensures { (app : App) → IsCommand command.entry app
        → IfOk result (λ c. IsCommand c (said.with_identifier app)) }
{
    let id = option(
        alloc,
        "id",
        "ID",
        "With --whole: the report's identifier, if its own one is withheld",
    );
    let name = option(
        alloc,
        "id-name",
        "NAME",
        "With --id: the name of whoever gives the identifier",
    );
    let now = option(
        alloc,
        "now",
        "MOMENT",
        "With --whole: the moment of the view, as 2026-06-01T00:00:00Z",
    );
    let command = with_option(command, Ok(id))?;
    let command = with_option(command, Ok(name))?;
    with_option(command, not_beside(now, "for"))
}

/// Returns the command of this name.
fn command<'a>(alloc: Global, name: &'a str, about: &'a str) -> Command<'a>
    ensures { IsCommand result (new_app name.entry.now) }
{
    Command::new(alloc, name).about(about)
}

/// Returns the command `excerpt`.
fn excerpt<'a>(alloc: Global) -> Result<Command<'a>, AllocError>
    ensures { IfOk result (λ c. IsCommand c said.excerpt_command) }
{
    let excerpt = command(
        alloc,
        "excerpt",
        "Prints what a reader may see of a report on standard input",
    );
    let document = flag(
        alloc,
        "document",
        "Print the excerpt's document alone, and on standard error whether it can be read as a report",
    );
    let whole = flag(
        alloc,
        "whole",
        "Print the document as a report, with a placeholder for each member that a report must have",
    );
    let excerpt = about_reader(alloc, excerpt)?;
    let excerpt = with_option(excerpt, not_beside(document, "whole"))?;
    let excerpt = with_option(excerpt, Ok(whole))?;
    with_identifier(alloc, excerpt)
}

/// Returns the command `explain`.
fn explain<'a>(alloc: Global) -> Result<Command<'a>, AllocError>
    ensures { IfOk result (λ c. IsCommand c said.explain_command) }
{
    let explain = command(
        alloc,
        "explain",
        "Prints why a reader sees a class of a report on standard input, or doesn't",
    );
    let pointer = word(
        alloc,
        "pointer",
        "POINTER",
        "The JSON pointer of the class in the Incident's document",
    );
    with_option(about_reader(alloc, explain)?, Ok(pointer))
}

/// Returns the command `finds`.
fn finds<'a>(alloc: Global) -> Result<Command<'a>, AllocError>
    ensures { IfOk result (λ c. IsCommand c said.finds_command) }
{
    let finds = command(
        alloc,
        "finds",
        "Prints whether a reader finds a text in what it may see of a report on standard input",
    );
    let text = word(alloc, "text", "TEXT", "The text, byte for byte");
    let class = option(
        alloc,
        "class",
        "NAME",
        "The name of the classes that are searched",
    );
    let finds = with_option(about_reader(alloc, finds)?, Ok(text))?;
    with_option(finds, Ok(class))
}

/// Returns the command `marks`.
fn marks<'a>(alloc: Global) -> Result<Command<'a>, AllocError>
    ensures { IfOk result (λ c. IsCommand c said.marks_command) }
{
    let marks = command(
        alloc,
        "marks",
        "Prints the label of each class of a report on standard input",
    );
    with_option(marks, Ok(incident(alloc)))
}

/// Adds a command. It takes the program whole, so that no return of the caller has to drop it.
fn with<'a>(
    program: Command<'a>,
    command: Result<Command<'a>, AllocError>,
) -> Result<Command<'a>, AllocError>
    ensures { (app sub : App) → IsCommand program.entry app → sub.top.is_plain ≡ true
        → IfOk command.entry (λ c. IsCommand c sub)
        → IfOk result (λ c. IsCommand c (with_subcommand app sub.top)) }
{
    program.subcommand(command?)
}

/// Returns the program, which wants one of its commands.
fn requiring<'a>(alloc: Global) -> Command<'a>
    ensures { IsCommand result (said.requiring (new_app (codes "iodef-redact"))) }
{
    Command::new(alloc, "iodef-redact").subcommand_required(true)
}

/// Returns the whole program.
fn program<'a>(alloc: Global) -> Result<Command<'a>, AllocError>
    ensures { IfOk result (λ c. IsCommand c said.program) }
{
    let program = with(requiring(alloc), excerpt(alloc))?;
    let program = with(program, explain(alloc))?;
    let program = with(program, finds(alloc))?;
    with(program, marks(alloc))
}

/// Returns the whole command line, with the program's name first.
pub fn command_line<'a>(alloc: Global, words: &'a [String]) -> Result<Vec<&'a str>, AllocError>
    ensures { IfOk result (λ line. map (λ s. s.now) line.items
        ≡ said.line_of (map string_bytes words.now)) }
{
    let mut line = Vec::new(alloc);
    line.push("iodef-redact")?;
    for word in words {
        line.push(word.as_str())?;
    }
    Ok(line)
}

/// Returns the value of an option, or a word, if it is given.
fn text<'a>(found: &ArgMatches<'a>, id: &str) -> Option<&'a str>
    ensures { option_copied result ≡ first_of id.now (rows_of (found_of found.now)) }
{
    found.get_str(id)
}

// `clap` always gives a required word, so there is no default.
fn text_of<'a>(found: &ArgMatches<'a>, id: &str) -> &'a str
    ensures { result.now ≡ unwrap_or (first_of id.now (rows_of (found_of found.now))) [] }
{
    match text(found, id) {
        Some(text) => text,
        None => "",
    }
}

/// Whether an option without a value is given.
fn is_set(found: &ArgMatches<'_>, id: &str) -> bool
    ensures { IsTrue result ↔ said.IsSet id.now (rows_of (found_of found.now)) }
{
    match text(found, id) {
        Some(text) => text == "true",
        None => false,
    }
}

/// Returns the number that a text spells; 0 if it spells none.
fn number_of(text: &str) -> u32
    ensures { said.Numbers (Some text.now) result }
{
    match text.parse::<u32>() {
        Ok(number) => number,
        Err(_) => 0,
    }
}

/// Returns the place of the Incident, 0 if it isn't given.
fn place_in(found: &ArgMatches<'_>) -> u32
    ensures { said.Numbers (first_of (codes "incident") (rows_of (found_of found.now))) result }
{
    match text(found, "incident") {
        Some(text) => number_of(text),
        None => 0,
    }
}

/// Returns the reader, with the moment of the view.
fn whom_in<'a>(found: &ArgMatches<'a>, moment: Option<&'a str>) -> Whom<'a>
    ensures { said.NamesReader (option_copied moment.entry) (rows_of (found_of found.now)) result }
{
    match text(found, "for") {
        Some(path) => Whom::Described(path),
        None => Whom::Cleared(Cleared {
            clearance: text_of(found, "clearance"),
            incident: place_in(found),
            moment,
        }),
    }
}

/// Returns the identifier, if one is given.
fn identifier_in<'a>(found: &ArgMatches<'a>) -> Option<IncidentId<'a>>
    ensures { said.NamesId (rows_of (found_of found.now)) result }
{
    match text(found, "id") {
        Some(id) => Some(IncidentId {
            name: text_of(found, "id-name"),
            id,
        }),
        None => None,
    }
}

/// Returns the form of an excerpt.
fn form_in<'a>(found: &ArgMatches<'a>) -> Form<'a>
    ensures { said.NamesForm (rows_of (found_of found.now)) result }
{
    if is_set(found, "whole") {
        Form::Report(identifier_in(found))
    } else if is_set(found, "document") {
        Form::Document
    } else {
        Form::Answer
    }
}

/// Returns what a command asks for.
fn asked_by<'a>(command: &str, found: &ArgMatches<'a>) -> Asked<'a>
    ensures { said.AsksBy command.now (rows_of (found_of found.now)) result }
{
    match command {
        "excerpt" => Asked::Excerpt {
            whom: whom_in(found, text(found, "now")),
            form: form_in(found),
        },
        "explain" => Asked::Explain {
            whom: whom_in(found, None),
            pointer: text_of(found, "pointer"),
        },
        "finds" => Asked::Finds {
            whom: whom_in(found, None),
            needle: text_of(found, "text"),
            class: text(found, "class"),
        },
        _ => Asked::Marks {
            incident: place_in(found),
        },
    }
}

/// Returns what is wrong with a reader, if something is. What is right needs no escape in a JSON text.
fn wrong_with(whom: Whom<'_>) -> Option<&'static str>
    ensures { IsNone result → said.IsRight (Some whom.entry) }
{
    let Whom::Cleared(cleared) = whom else {
        return None;
    };
    if !is_clearance(cleared.clearance) {
        return Some(
            "the clearance is CLEAR, GREEN, AMBER, STRICT or RED, or a label as TLP:AMBER+STRICT",
        );
    }
    match cleared.moment {
        Some(moment) if !is_written(moment) => Some(
            "the moment is written as 2026-06-01T00:00:00Z",
        ),
        _ => None,
    }
}

/// Returns what is wrong with the words of an identifier, if something is: both are given, for a whole report.
fn wrong_with_id(found: &ArgMatches<'_>) -> Option<&'static str> {
    let (name, id) = (
        text(found, "id-name").is_some(),
        text(found, "id").is_some(),
    );
    if name != id || (id && !is_set(found, "whole")) {
        return Some("--id and --id-name are given together, with --whole");
    }
    None
}

/// Returns what is wrong with what the words ask for, if something is.
fn wrong_with_words(
    command: &str,
    found: &ArgMatches<'_>,
    asked: &Asked<'_>,
) -> Option<&'static str>
    ensures { IsNone result → said.IsRight (spec.whom_asked asked.now) }
{
    let wrong = wrong_with(asked.whom()?);
    if command == "excerpt" && wrong.is_none() {
        return wrong_with_id(found);
    }
    wrong
}

/// Returns what the options and words that were found ask for. Fails with the usage.
fn asked_in<'a>(alloc: Global, matches: &ArgMatches<'a>) -> Result<Asked<'a>, Error>
    ensures { IfOk result (said.AsksFor (subcommand_rows_of matches.now)) }
{
    let Some((command, found)) = matches.subcommand() else {
        return Err(usage(alloc, "a command is missing")?);
    };
    let asked = asked_by(command, found);
    match wrong_with_words(command, found, &asked) {
        Some(what) => Err(usage(alloc, what)?),
        None => Ok(asked),
    }
}

/// Returns what a command line asks for. Fails with the usage.
pub fn read_words<'a>(alloc: Global, line: &'a [&'a str]) -> Result<Asked<'a>, Error>
    ensures { IfOk result (said.AsksOn (map (λ s. s.now) line.entry.now)) }
{
    let matches = program(alloc)?.try_get_matches_from(line)?;
    asked_in(alloc, &matches)
}

/// Returns the usage, with what is wrong with the words.
pub fn usage(alloc: Global, what: &str) -> Result<Error, AllocError> {
    program(alloc)?.error(ErrorKind::InvalidValue, what)
}

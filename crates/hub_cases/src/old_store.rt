//! Stores of older versions, made by their SQL texts, and migrated to the newest version. They have a report with a
//! class that one organisation may see, and one with a class for the communities of its source.

use crate::openings::fault_told;
use crate::world::moment_at;
use std::alloc::{AllocError, Global};
use trying_shelves::{Store, Tables, ask};

/// The tables of version 1.
const TABLES: [&str; 10] = [
    "CREATE TABLE hub (version INTEGER NOT NULL) STRICT",
    "CREATE TABLE org (number INTEGER PRIMARY KEY, name TEXT NOT NULL UNIQUE) STRICT",
    "CREATE TABLE person (number INTEGER PRIMARY KEY, org INTEGER NOT NULL, name TEXT NOT NULL, role INTEGER NOT NULL, key BLOB NOT NULL UNIQUE, active INTEGER NOT NULL, nominated INTEGER NOT NULL) STRICT",
    "CREATE TABLE community (number INTEGER PRIMARY KEY, name TEXT NOT NULL UNIQUE) STRICT",
    "CREATE TABLE grp (number INTEGER PRIMARY KEY, owner INTEGER NOT NULL, name TEXT NOT NULL, releasability TEXT NOT NULL, active INTEGER NOT NULL, UNIQUE (owner, name)) STRICT",
    "CREATE TABLE pair (kind TEXT NOT NULL, a INTEGER NOT NULL, b INTEGER NOT NULL, value INTEGER, UNIQUE (kind, a, b), UNIQUE (kind, b, a)) STRICT",
    "CREATE TABLE gate (incident INTEGER NOT NULL, path TEXT NOT NULL, level INTEGER NOT NULL, grp INTEGER, UNIQUE (incident, path)) STRICT",
    "CREATE TABLE recipient (incident INTEGER NOT NULL, kind INTEGER NOT NULL, target INTEGER NOT NULL, UNIQUE (incident, kind, target)) STRICT",
    "CREATE TABLE permission (incident INTEGER NOT NULL, path TEXT NOT NULL, kind INTEGER NOT NULL, target INTEGER NOT NULL, UNIQUE (incident, path, kind, target)) STRICT",
    "CREATE TABLE incident (number INTEGER PRIMARY KEY, source INTEGER NOT NULL, ident TEXT NOT NULL, revision INTEGER NOT NULL, text TEXT NOT NULL, UNIQUE (source, ident)) STRICT",
];

/// Five organisations, six persons, two communities and a group; the gates of two incidents.
const ROWS: [&str; 6] = [
    "INSERT INTO org VALUES (1, 'Hub'), (2, 'Src'), (3, 'Mem'), (4, 'Far'), (5, 'Cli')",
    "INSERT INTO person VALUES (1, 1, 'admin', 0, X'0101010101010101010101010101010101010101010101010101010101010101', 1, 0), (2, 2, 'src', 1, X'0202020202020202020202020202020202020202020202020202020202020202', 1, 0), (3, 3, 'mem', 1, X'0303030303030303030303030303030303030303030303030303030303030303', 1, 0), (4, 4, 'far', 3, X'0404040404040404040404040404040404040404040404040404040404040404', 1, 0), (5, 5, 'cli', 1, X'0505050505050505050505050505050505050505050505050505050505050505', 1, 0), (6, 3, 'six', 3, X'0606060606060606060606060606060606060606060606060606060606060606', 1, 0)",
    "INSERT INTO community VALUES (1, 'east'), (2, 'west')",
    "INSERT INTO grp VALUES (1, 2, 'g', '', 1)",
    "INSERT INTO pair VALUES ('member', 1, 2, NULL), ('member', 1, 3, NULL), ('member', 2, 4, NULL), ('grp_member', 1, 2, 1), ('grp_member', 1, 3, 0)",
    "INSERT INTO gate VALUES (1, '', 3, NULL), (2, '', 3, NULL)",
];

/// The incidents and the permission, as version 1 keeps them.
const ROWS_1: [&str; 3] = [
    "INSERT INTO hub VALUES (1)",
    "INSERT INTO permission VALUES (1, '/Incident/0/EventData/0', 1, 4)",
    "INSERT INTO incident VALUES (1, 2, '\"7\"', 1, '{\"Incident\":[{\"Contact\":[],\"EventData\":[{\"Description\":[\"x\"],\"Flow\":[{\"System\":[],\"restriction\":\"red\"}]}],\"GenerationTime\":\"g\",\"IncidentID\":\"7\",\"purpose\":\"reporting\",\"restriction\":\"private\"}],\"version\":\"2.0\"}'), (2, 2, '\"3\"', 1, '{\"Incident\":[{\"Contact\":[{\"ContactName\":[\"n\"],\"Email\":[{\"EmailTo\":\"e\",\"restriction\":\"green\"}],\"restriction\":\"red\"}],\"GenerationTime\":\"g\",\"IncidentID\":\"3\",\"purpose\":\"reporting\",\"restriction\":\"public\"}],\"version\":\"2.0\"}')",
];

/// The same with a report that doesn't read back.
const UNREAD_1: [&str; 2] = [
    "INSERT INTO hub VALUES (1)",
    "INSERT INTO incident VALUES (1, 2, '\"7\"', 1, '{')",
];

/// The statements by which version 2 changed the tables of version 1.
const TABLES_2: [&str; 3] = [
    "CREATE TABLE item (incident INTEGER NOT NULL, place INTEGER NOT NULL, depth INTEGER NOT NULL, name TEXT NOT NULL, in_array INTEGER NOT NULL, kind INTEGER NOT NULL, text TEXT NOT NULL, UNIQUE (incident, place)) STRICT",
    "DROP TABLE incident",
    "CREATE TABLE incident (number INTEGER PRIMARY KEY, source INTEGER NOT NULL, ident TEXT NOT NULL, revision INTEGER NOT NULL, UNIQUE (source, ident)) STRICT",
];

/// The permission, as version 2 keeps it.
const ROWS_2: [&str; 2] = [
    "INSERT INTO hub VALUES (2)",
    "INSERT INTO permission VALUES (1, '/Incident/0/EventData/0', 1, 4)",
];

/// The statements by which version 3 changed the tables of version 2.
const TABLES_3: [&str; 2] = [
    "DROP TABLE permission",
    "CREATE TABLE permission (incident INTEGER NOT NULL, path TEXT NOT NULL, kind INTEGER NOT NULL, target INTEGER NOT NULL, until INTEGER, UNIQUE (incident, path, kind, target)) STRICT",
];

/// The permission, as version 3 keeps it: up to the first second of June 2024.
const ROWS_3: [&str; 2] = [
    "INSERT INTO hub VALUES (3)",
    "INSERT INTO permission VALUES (1, '/Incident/0/EventData/0', 1, 4, 1717200000)",
];

/// The incidents, as versions 2 and 3 keep them.
const IN_LINES: [&str; 3] = [
    "INSERT INTO incident VALUES (1, 2, '\"7\"', 1), (2, 2, '\"3\"', 1)",
    "INSERT INTO item VALUES (1, 1, 1, 'Incident', 1, 0, ''), (1, 2, 2, 'Contact', 0, 2, '[]'), (1, 3, 2, 'EventData', 1, 0, ''), (1, 4, 3, 'Description', 1, 1, 'x'), (1, 5, 3, 'Flow', 1, 0, ''), (1, 6, 4, 'System', 0, 2, '[]'), (1, 7, 4, 'restriction', 0, 1, 'red'), (1, 8, 2, 'GenerationTime', 0, 1, 'g'), (1, 9, 2, 'IncidentID', 0, 1, '7'), (1, 10, 2, 'purpose', 0, 1, 'reporting'), (1, 11, 2, 'restriction', 0, 1, 'private'), (1, 12, 1, 'version', 0, 1, '2.0')",
    "INSERT INTO item VALUES (2, 1, 1, 'Incident', 1, 0, ''), (2, 2, 2, 'Contact', 1, 0, ''), (2, 3, 3, 'ContactName', 1, 1, 'n'), (2, 4, 3, 'Email', 1, 0, ''), (2, 5, 4, 'EmailTo', 0, 1, 'e'), (2, 6, 4, 'restriction', 0, 1, 'green'), (2, 7, 3, 'restriction', 0, 1, 'red'), (2, 8, 2, 'GenerationTime', 0, 1, 'g'), (2, 9, 2, 'IncidentID', 0, 1, '3'), (2, 10, 2, 'purpose', 0, 1, 'reporting'), (2, 11, 2, 'restriction', 0, 1, 'public'), (2, 12, 1, 'version', 0, 1, '2.0')",
];

/// The requests to a store that is open.
const ASKED: [&str; 4] = [
    "p4 at 0|View|1",
    "p4 at 9223372036854775807|View|1",
    "p6|View|2",
    "p1|Explain|6|2|/Incident/0/Contact/0/Email/0",
];

/// Opens the store, migrates it to the newest version, migrates it again, and opens it.
const TURNS_1: [(&str, bool); 4] = [
    ("version 1", false),
    ("version 1, migrated", true),
    ("migrated again", true),
    ("opened", false),
];

const TURNS_2: [(&str, bool); 4] = [
    ("version 2", false),
    ("version 2, migrated", true),
    ("migrated again", true),
    ("opened", false),
];

const TURNS_3: [(&str, bool); 4] = [
    ("version 3", false),
    ("version 3, migrated", true),
    ("migrated again", true),
    ("opened", false),
];

const UNREAD_TURNS: [(&str, bool); 2] = [
    (
        "version 1 with a report that doesn't read back, migrated",
        true,
    ),
    ("as before", false),
];

/// Returns whether all statements were run.
fn are_run(store: &mut Store, statements: &[&str]) -> bool {
    for text in statements {
        if store.change(text).is_none() {
            return false;
        }
    }
    true
}

/// Returns what person 4 sees of the first incident at the first and the last moment, and what person 6 sees of the
/// second and why.
fn look(alloc: Global, tables: &mut Tables) -> Result<String, AllocError> {
    let mut told = String::new(alloc);
    for (i, line) in ASKED.iter().enumerate() {
        push_answer(alloc, &mut told, tables, line, i)?;
    }
    Ok(told)
}

fn push_answer(
    alloc: Global,
    told: &mut String,
    tables: &mut Tables,
    line: &str,
    place: usize,
) -> Result<(), AllocError> {
    let answer = ask(tables, alloc, line, moment_at(place))?;
    told.push_str(if told.is_empty() { "" } else { "; " })?;
    told.push_str(answer.as_str())
}

/// Opens the store or migrates it to the newest version. Returns what is seen then, or the fault, and the store.
fn told_by(alloc: Global, store: Store, migrates: bool) -> (Result<String, AllocError>, Store) {
    match store.open(alloc, migrates) {
        Ok(mut tables) => {
            let told = look(alloc, &mut tables);
            (told, tables.release())
        }
        Err((fault, store)) => (fault_told(alloc, fault), store),
    }
}

fn push_turn(
    alloc: Global,
    all: &mut Vec<String>,
    what: &str,
    told: Result<String, AllocError>,
) -> Result<(), AllocError> {
    let told = told?;
    all.push(format!(in alloc; "{what}: {told}")?)?;
    Ok(())
}

/// Adds what is printed for a store that is opened or migrated in turn.
fn in_turn(
    alloc: Global,
    store: Store,
    turns: &[(&str, bool)],
    all: &mut Vec<String>,
) -> Result<(), AllocError> {
    let mut store = store;
    for (what, migrates) in turns {
        let (told, back) = told_by(alloc, store, *migrates);
        push_turn(alloc, all, what, told)?;
        store = back;
    }
    Ok(())
}

/// Returns a store with the tables of version 1 and the rows of every version, or none if a statement is refused.
fn begun(alloc: Global) -> Result<Option<Store>, AllocError> {
    let mut store = Store::new(alloc)?;
    if are_run(&mut store, &TABLES) && are_run(&mut store, &ROWS) {
        Ok(Some(store))
    } else {
        Ok(None)
    }
}

/// Returns the store after these statements too, or none if one of them is refused.
fn behind(store: Option<Store>, statements: &[&str]) -> Option<Store> {
    let mut store = store?;
    if are_run(&mut store, statements) {
        Some(store)
    } else {
        None
    }
}

/// Adds what is printed for a store, if it was made.
fn print_store(
    alloc: Global,
    made: Option<Store>,
    turns: &[(&str, bool)],
    all: &mut Vec<String>,
) -> Result<(), AllocError> {
    match made {
        Some(store) => in_turn(alloc, store, turns, all),
        None => Ok(all.push(String::from_str(alloc, "the statements were refused")?)?),
    }
}

/// Returns what is printed for each version, and for reports that don't read back.
pub fn all(alloc: Global) -> Result<Vec<String>, AllocError> {
    let mut all = Vec::new(alloc);
    let first = behind(begun(alloc)?, &ROWS_1);
    print_store(alloc, first, &TURNS_1, &mut all)?;
    let unread = behind(begun(alloc)?, &UNREAD_1);
    print_store(alloc, unread, &UNREAD_TURNS, &mut all)?;
    let second = behind(behind(begun(alloc)?, &TABLES_2), &IN_LINES);
    print_store(alloc, behind(second, &ROWS_2), &TURNS_2, &mut all)?;
    let third = behind(
        behind(behind(begun(alloc)?, &TABLES_2), &TABLES_3),
        &IN_LINES,
    );
    print_store(alloc, behind(third, &ROWS_3), &TURNS_3, &mut all)?;
    Ok(all)
}

//! Stores that are made and opened.

use crate::world::begun_in_tables;
use hub_core::ShelfFault;
use hub_store::OpenFault;
use std::alloc::{AllocError, Global};
use trying_hub::key_of;
use trying_shelves::{Store, Tables};

/// Returns the name of a fault.
pub fn fault_told(alloc: Global, fault: OpenFault) -> Result<String, AllocError> {
    match fault {
        OpenFault::NotOurs => String::from_str(alloc, "NotOurs"),
        OpenFault::WrongVersion(n) => format!(in alloc; "WrongVersion({n})"),
        OpenFault::Failed => String::from_str(alloc, "Failed"),
        OpenFault::NoMemory => String::from_str(alloc, "NoMemory"),
    }
}

/// Returns how opening a store in memory ends, after these statements.
fn told_of(alloc: Global, statements: &str, migrates: bool) -> Result<String, AllocError> {
    let mut store = Store::new(alloc)?;
    if !store.are_run(statements) {
        return String::from_str(alloc, "the statements were refused");
    }
    match store.open(alloc, migrates) {
        Ok(_) => String::from_str(alloc, "opened"),
        Err((fault, _)) => fault_told(alloc, fault),
    }
}

/// Returns the words for whether the tables have the row with which they began.
fn describe_content(tables: Tables) -> &'static str {
    match tables.person_by_key(&key_of(1)) {
        Ok(Some(_)) => "person 1 is there",
        Ok(None) => "person 1 is missing",
        Err(_) => "the tables failed",
    }
}

/// Makes tables in the store that a refused opening gave back. Returns the outcome.
fn made_after_refusal(alloc: Global) -> Result<&'static str, AllocError> {
    match Store::new(alloc)?.open(alloc, false) {
        Ok(_) => Ok("opened"),
        Err((_, store)) => match store.make(alloc) {
            Ok(_) => Ok("made"),
            Err(_) => Ok("not made"),
        },
    }
}

/// Makes tables again in a store that has them, which must be refused. Returns whether the store's rows are there.
fn made_twice(alloc: Global) -> Result<&'static str, AllocError> {
    let Some(tables) = begun_in_tables(alloc)? else {
        return Ok("not made");
    };
    match tables.release().make(alloc) {
        Ok(_) => Ok("made again"),
        Err((ShelfFault::NoMemory, _)) => Ok("no memory"),
        Err((ShelfFault::Failed, store)) => match store.open(alloc, false) {
            Ok(again) => Ok(describe_content(again)),
            Err(_) => Ok("not opened"),
        },
    }
}

/// Opens a store that was released. Returns whether the store's rows are there.
fn opened_again(alloc: Global, migrates: bool) -> Result<&'static str, AllocError> {
    let Some(tables) = begun_in_tables(alloc)? else {
        return Ok("not made");
    };
    match tables.release().open(alloc, migrates) {
        Ok(again) => Ok(describe_content(again)),
        Err(_) => Ok("not opened"),
    }
}

fn push(alloc: Global, all: &mut Vec<String>, what: &str, told: &str) -> Result<(), AllocError> {
    all.push(format!(in alloc; "{what}: {told}")?)?;
    Ok(())
}

/// Statements, and the store that they make.
const STORES: [(&str, &str); 13] = [
    ("an empty store", ""),
    (
        "no row",
        "CREATE TABLE hub (version INTEGER NOT NULL) STRICT",
    ),
    (
        "version 0",
        "CREATE TABLE hub (version INTEGER NOT NULL) STRICT; INSERT INTO hub (version) VALUES (0)",
    ),
    (
        "version 1 with no other table",
        "CREATE TABLE hub (version INTEGER NOT NULL) STRICT; INSERT INTO hub (version) VALUES (1)",
    ),
    (
        "version 9",
        "CREATE TABLE hub (version INTEGER NOT NULL) STRICT; INSERT INTO hub (version) VALUES (9)",
    ),
    (
        "a version above a u32",
        "CREATE TABLE hub (version INTEGER NOT NULL) STRICT; INSERT INTO hub (version) VALUES (4294967296)",
    ),
    (
        "a version below 0",
        "CREATE TABLE hub (version INTEGER NOT NULL) STRICT; INSERT INTO hub (version) VALUES (-1)",
    ),
    (
        "two rows",
        "CREATE TABLE hub (version INTEGER NOT NULL) STRICT; INSERT INTO hub (version) VALUES (1), (1)",
    ),
    (
        "a text as version",
        "CREATE TABLE hub (version TEXT NOT NULL) STRICT; INSERT INTO hub (version) VALUES ('1')",
    ),
    (
        "no column of that name",
        "CREATE TABLE hub (number INTEGER NOT NULL) STRICT; INSERT INTO hub (number) VALUES (1)",
    ),
    (
        "a view",
        "CREATE TABLE one (version INTEGER NOT NULL) STRICT; INSERT INTO one (version) VALUES (1); CREATE VIEW hub AS SELECT version FROM one",
    ),
    (
        "a view that can't be read",
        "CREATE TABLE one (n INTEGER NOT NULL) STRICT; INSERT INTO one (n) VALUES (9223372036854775807), (1); CREATE VIEW hub AS SELECT sum(n) AS version FROM one",
    ),
    (
        "another table of that name and column",
        "CREATE TABLE one (n INTEGER); CREATE TABLE hub (name TEXT, version); INSERT INTO hub (name, version) VALUES ('a', 9)",
    ),
];

/// Adds how opening a store ends, and migrating it.
fn push_store(
    alloc: Global,
    all: &mut Vec<String>,
    what: &str,
    statements: &str,
) -> Result<(), AllocError> {
    let told = told_of(alloc, statements, false)?;
    push(alloc, all, what, told.as_str())?;
    let told = told_of(alloc, statements, true)?;
    push(alloc, all, "migrated", told.as_str())
}

/// Adds what is printed for stores that the hub itself made.
fn push_made(alloc: Global, all: &mut Vec<String>) -> Result<(), AllocError> {
    push(alloc, all, "after NotOurs", made_after_refusal(alloc)?)?;
    push(alloc, all, "made twice", made_twice(alloc)?)?;
    push(alloc, all, "opened again", opened_again(alloc, false)?)?;
    push(alloc, all, "migrated", opened_again(alloc, true)?)
}

/// Returns what is printed for stores that are made and opened.
pub fn all(alloc: Global) -> Result<Vec<String>, AllocError> {
    let mut all = Vec::new(alloc);
    for (what, statements) in STORES {
        push_store(alloc, &mut all, what, statements)?;
    }
    push_made(alloc, &mut all)?;
    Ok(all)
}

//! The store's file, opened by another program.

use crate::place::Place;
use crate::starts::start;
use crate::texts::field_of;
use sqlite::{Alter, Connection, File, FileStore};
use std::io;
use std::str::from_utf8;

/// Returns a connection over the file, which is made if it isn't there.
fn connect(rt: &HostRuntime, place: &Place) -> Option<Connection<FileStore<File>>> {
    Connection::open(rt, place.path()).ok()
}

fn are_run<S: Alter>(conn: &mut Connection<S>, statements: &[u8]) -> bool {
    match from_utf8(statements) {
        Ok(text) => conn.execute_batch(text).is_ok(),
        Err(_) => false,
    }
}

/// Runs the statements of a field over the file. Returns the outcome.
pub fn run(rt: &HostRuntime, place: &Place, field: &str) -> io::Result<String> {
    let statements = field_of(rt, field)?;
    let Some(mut conn) = connect(rt, place) else {
        return Ok(String::from_str(rt.alloc(), "not opened\n")?);
    };
    let are_run = are_run(&mut conn, &statements);
    let told = match conn.close() {
        Ok(()) if are_run => "done\n",
        _ => "refused\n",
    };
    Ok(String::from_str(rt.alloc(), told)?)
}

/// Runs the statements of a field over the file, and leaves what they change in the log. Returns the outcome.
pub fn leave(rt: &HostRuntime, place: &Place, field: &str) -> io::Result<String> {
    let statements = field_of(rt, field)?;
    let Some(mut conn) = connect(rt, place) else {
        return Ok(String::from_str(rt.alloc(), "not opened\n")?);
    };
    let told = if are_run(&mut conn, &statements) {
        "done\n"
    } else {
        "refused\n"
    };
    drop(conn);
    Ok(String::from_str(rt.alloc(), told)?)
}

/// Returns the outcome of a start while another program has the store open.
pub fn hold(rt: &HostRuntime, place: &Place, rest: &str) -> io::Result<String> {
    let Some(held) = connect(rt, place) else {
        return Ok(String::from_str(rt.alloc(), "not opened\n")?);
    };
    let told = start(rt, place, "run", rest);
    drop(held);
    told
}

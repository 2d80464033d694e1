//! `view`: what a reader may see of an incident.

use crate::asking::ask;
use hub_core::Request;
use hub_service::{Fault, Status};
use std::io::{Read, Write};

/// Prints the reply's body for the reader whose key is the first line of the input.
pub fn run<R: Read, W: Write>(
    rt: &HostRuntime,
    store: &str,
    number: u32,
    reader: &mut R,
    writer: &mut W,
) -> Result<Status, Fault> {
    ask(
        rt,
        store,
        &Request::View { incident: number },
        reader,
        writer,
    )
}

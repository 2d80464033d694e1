//! `explain`: why a person sees a class of an incident, or doesn't.

use crate::asking::ask;
use circle::text::Text;
use hub_core::{Explain, Request};
use hub_service::{Fault, Status};
use std::io::{Read, Write};

/// Prints the explanation for the administrator whose key is the first line of the input.
pub fn run<R: Read, W: Write>(
    rt: &HostRuntime,
    store: &str,
    person: u32,
    number: u32,
    pointer: &str,
    reader: &mut R,
    writer: &mut W,
) -> Result<Status, Fault> {
    let request = Request::Explain(Explain {
        person,
        incident: number,
        path: Text::of(rt.alloc(), pointer)?,
    });
    ask(rt, store, &request, reader, writer)
}

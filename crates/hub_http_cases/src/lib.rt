//! Answers the cases of a table, one a line, and prints each answer. It prints a line that begins with `#` as it is, and
//! skips an empty one. In the output `\r` and `\n` mean CR and LF. They do so too in the bytes of a request, where
//! `\x41` is any byte (`\x5c` the backslash) and `<3*a:b\r\n>` is three times what follows the star.
//!
//! A request: `asked|BYTES`, answered by the key and the request, or by the first fault of the bytes.
//!
//! A reply: `reply|REPLY`, answered by the bytes of the reply, and `body|REPLY`, answered only by the body. REPLY is
//! one of
//!
//! - `done`; `numbers|1,2`; `revision|2`; `trace|TEXT`; `caller|NUMBER|ORG|NAME|ROLE|nominated`, the last empty if it
//!   isn't
//! - `incidents|NUMBER REVISION SOURCE,..` and `groups|NUMBER:OWNER:NAME:RELEASABILITY:FLAGS,..` with the flags
//!   `active` and `extend`
//! - `view|NUMBER|REVISION|SOURCE|STANDING|GATES|PERMISSIONS|DOCUMENT`: what a reader is served of a document, if
//!   anything. `words` of `trying_policy` says how standings, gates and permissions are written.
//! - `refused|CODE|DETAIL`
//!
//! and `fault|NAME` is answered by the bytes of that fault.
//!
//! Whole connections over memory: `WAY|BYTES`, answered by the outcome and what was written. The hub keeps its changes
//! from line to line. It begins with organisation 1 and its administrator, person 1, whose key is `abc`. WAY is one of
//!
//! - `whole`: the reader gives all bytes at once;
//! - `unchanged`: the same; if it changes some reply to the six persons, the answer begins with `changed`;
//! - `bytes`: the reader gives them one by one, and the answer has the count of reads;
//! - `prefixes`: each proper prefix, answered by how many of them ended as cut off with nothing written;
//! - `reads`: one by one, and the k-th read fails, for each k up to the last read that a request takes. The answer is
//!   how many ended so with nothing written;
//! - `writes`: the writer takes 16 bytes at a time, and its k-th write fails, for each k up to the last write that the
//!   reply takes. The answer is how many ended so;
//! - `writes anew`, with two requests and a bar between them: the same for the second, which the first one takes back
//!   before each k. The answer is the outcome for each k, and the code with which the second is then refused;
//! - `disturbed`: the first read is interrupted, and no byte is asked of the line; `unwritten`: the writer takes
//!   nothing.
#![tactic(auto)]

mod asked;
mod commands;
mod content;
mod replies;
mod serving;
mod sharings;
mod streams;
mod views;
mod written;

use hub::Hub;
use hub_core::ListShelf;
use std::alloc::{AllocError, Global};
use std::io;
use trying::print_answers;
use trying_hub::{ABC, first_shelf};

fn answer(alloc: Global, hub: &mut Hub<ListShelf>, line: &str) -> Result<String, AllocError> {
    let (kind, rest) = line.split_once('|').unwrap_or((line, ""));
    match kind {
        "asked" => asked::answer(alloc, rest),
        "reply" => written::reply(alloc, rest),
        "body" => written::body(alloc, rest),
        "fault" => written::fault(alloc, rest),
        way => serving::answer(alloc, hub, way, rest),
    }
}

/// Prints the answers to a table.
pub fn run(rt: &HostRuntime, table: &str) -> io::Result<()> {
    let alloc = rt.alloc();
    let Some(shelf) = first_shelf(alloc, ABC)? else {
        return Ok(());
    };
    let mut hub = Hub::new(shelf);
    print_answers(rt, table, |line| answer(alloc, &mut hub, line))
}

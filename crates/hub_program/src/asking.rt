//! One request to the hub over a store.

use crate::store::{FileShelf, close, open_store};
use hub::Hub;
use hub_core::{Reply, Request};
use hub_service::{Fault, Status, print, read_caller, reply_lines, reply_to, status_of};
use std::alloc::Global;
use std::io::{Read, Write};

/// Prints the reply, and returns the program's outcome.
fn print_reply<W: Write>(alloc: Global, writer: &mut W, reply: &Reply) -> Result<Status, Fault> {
    print(writer, reply_lines(alloc, reply)?.as_str())?;
    Ok(status_of(reply))
}

/// A hub over the store in a file. Its functions have no type parameters, since the prover's limits don't hold all that
/// it compares for the tables' shelf in a generic function.
#[derive(Drop)]
struct FileHub {
    hub: Hub<FileShelf>,
}

impl FileHub {
    /// Opens the store, which has to be of the newest version.
    fn open(rt: &HostRuntime, store: &str) -> Result<FileHub, Fault> {
        let shelf = open_store(rt, store)?;
        Ok(FileHub {
            hub: Hub::new(shelf),
        })
    }

    /// Returns the reply at this moment to the caller whose key is the line.
    fn reply(&mut self, alloc: Global, now: i64, line: &[u8], request: &Request) -> Reply {
        reply_to(alloc, &mut self.hub, now, line, request)
    }

    /// Closes the store. A read changes nothing, so its reply is right even if the log of an earlier change can't be
    /// moved into the file.
    fn close(self) {
        let _ = close(self.hub.into_shelf());
    }
}

/// Returns the reply at the present moment to the caller whose key is the first line of the input.
fn reply_from<R: Read>(
    rt: &HostRuntime,
    hub: &mut FileHub,
    request: &Request,
    reader: &mut R,
) -> Result<Reply, Fault> {
    let caller = read_caller(rt.alloc(), rt, reader)?;
    Ok(hub.reply(rt.alloc(), caller.now, &caller.line, request))
}

/// Asks the hub at the present moment, with the first line of the input as the caller's key, and prints the reply.
pub fn ask<R: Read, W: Write>(
    rt: &HostRuntime,
    store: &str,
    request: &Request,
    reader: &mut R,
    writer: &mut W,
) -> Result<Status, Fault> {
    let mut hub = FileHub::open(rt, store)?;
    let reply = reply_from(rt, &mut hub, request, reader);
    hub.close();
    print_reply(rt.alloc(), writer, &reply?)
}

//! Callers over loopback.

use crate::told::push_reply;
use std::io;
use std::io::{ErrorKind, Read, Write};
use std::net::{Ipv4Addr, TcpStream};

/// The bytes of a caller that leaves at once.
const LEAVES: &[u8] = b"-";

/// Returns a caller of the port that has sent these bytes, unless it left.
fn call(rt: &HostRuntime, port: u16, bytes: &[u8]) -> io::Result<Option<TcpStream>> {
    let mut caller = TcpStream::connect(rt, (Ipv4Addr::LOCALHOST, port))?;
    if bytes == LEAVES {
        return Ok(None);
    }
    caller.write_all(bytes)?;
    Ok(Some(caller))
}

/// Adds the callers of a port, each of which has sent its bytes, except for those that left.
pub fn call_all(
    rt: &HostRuntime,
    port: u16,
    requests: &[Vec<u8>],
    callers: &mut Vec<TcpStream>,
) -> io::Result<()> {
    for bytes in requests {
        if let Some(caller) = call(rt, port, bytes)? {
            callers.push(caller)?;
        }
    }
    Ok(())
}

/// Returns the whole reply to a caller, with `(reset)` behind it if the connection doesn't end in order.
pub fn reply_to(rt: &HostRuntime, caller: &mut TcpStream) -> io::Result<Vec<u8>> {
    let mut reply = Vec::new(rt.alloc());
    if caller.read_to_end(&mut reply).is_err() {
        reply.extend_from_slice(b"(reset)")?;
    }
    Ok(reply)
}

/// Adds the reply to each caller, a line each.
pub fn push_replies(
    rt: &HostRuntime,
    callers: &mut Vec<TcpStream>,
    all: &mut String,
) -> io::Result<()> {
    for caller in callers.iter_mut() {
        let reply = reply_to(rt, caller)?;
        push_reply(all, &reply)?;
    }
    Ok(())
}

/// Standard output. As soon as it is flushed, callers connect to a port. It takes all bytes, or none.
#[derive(Drop)]
pub struct Calling<'a> {
    pub rt: &'a HostRuntime,
    pub port: u16,
    pub requests: &'a [Vec<u8>],
    pub callers: Vec<TcpStream>,
    pub written: Vec<u8>,
    pub takes: bool,
}

impl<'a> Calling<'a> {
    pub fn new(
        rt: &'a HostRuntime,
        port: u16,
        requests: &'a [Vec<u8>],
        takes: bool,
    ) -> Calling<'a> {
        Calling {
            rt,
            port,
            requests,
            callers: Vec::new(rt.alloc()),
            written: Vec::new(rt.alloc()),
            takes,
        }
    }
}

impl Write for Calling<'_> {
    fn write(&mut self, bytes: &[u8]) -> io::Result<usize> {
        if !self.takes {
            return Err(io::Error::from(ErrorKind::StorageFull));
        }
        self.written.extend_from_slice(bytes)?;
        Ok(bytes.len())
    }

    fn flush(&mut self) -> io::Result<()> {
        call_all(self.rt, self.port, self.requests, &mut self.callers)
    }
}

//! The addresses of loopback at which a served hub is reached.

use std::io;
use std::io::{ErrorKind, Write};
use std::net::{Ipv4Addr, TcpStream};

/// Standard output. As soon as it is flushed, it is tried at which addresses of loopback the port is reached.
#[derive(Drop)]
pub struct Reaching<'a> {
    pub rt: &'a HostRuntime,
    pub port: u16,
    pub told: String,
}

/// Returns whether somebody listens on the port at an address.
fn reached(rt: &HostRuntime, address: Ipv4Addr, port: u16) -> &'static str {
    match TcpStream::connect(rt, (address, port)) {
        Ok(_) => "reached",
        Err(error) if error.kind() == ErrorKind::ConnectionRefused => "refused",
        Err(_) => "failed",
    }
}

impl Write for Reaching<'_> {
    fn write(&mut self, bytes: &[u8]) -> io::Result<usize> {
        Ok(bytes.len())
    }

    fn flush(&mut self) -> io::Result<()> {
        // each is of this machine: a program that listens on all interfaces is reached at the second too
        for address in [Ipv4Addr::LOCALHOST, Ipv4Addr::new(127, 0, 0, 2)] {
            let outcome = reached(self.rt, address, self.port);
            let line = format!(in self.rt.alloc(); "{address} {outcome}\n")?;
            self.told.push_str(line.as_str())?;
        }
        Ok(())
    }
}

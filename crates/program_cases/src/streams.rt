//! Standard input and standard error in memory.

use std::alloc::Global;
use std::io;
use std::io::{ErrorKind, Read, Write};

/// What follows the bytes of an input.
#[derive(Clone, Copy)]
pub enum Ending {
    Nothing,
    /// The read fails.
    Failure,
    /// There is no memory for the read.
    NoMemory,
}

#[derive(Drop)]
pub struct Input<'a> {
    pub bytes: &'a [u8],
    pub ending: Ending,
}

impl Read for Input<'_> {
    fn read(&mut self, buf: &mut [u8]) -> io::Result<usize> {
        if !self.bytes.is_empty() {
            let mut bytes = self.bytes;
            let count = bytes.read(buf)?;
            self.bytes = bytes;
            return Ok(count);
        }
        match self.ending {
            Ending::Nothing => Ok(0),
            Ending::Failure => Err(io::Error::from(ErrorKind::ConnectionReset)),
            Ending::NoMemory => Err(io::Error::from(ErrorKind::OutOfMemory)),
        }
    }
}

/// Takes all bytes, or none.
#[derive(Drop)]
pub struct Output {
    pub written: Vec<u8>,
    pub takes: bool,
}

impl Output {
    pub fn new(alloc: Global, takes: bool) -> Output {
        Output {
            written: Vec::new(alloc),
            takes,
        }
    }
}

impl Write for Output {
    fn write(&mut self, bytes: &[u8]) -> io::Result<usize> {
        if !self.takes {
            return Err(io::Error::from(ErrorKind::StorageFull));
        }
        self.written.extend_from_slice(bytes)?;
        Ok(bytes.len())
    }

    fn flush(&mut self) -> io::Result<()> {
        Ok(())
    }
}

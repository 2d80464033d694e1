//! Readers and writers that give and take few bytes, and fail.

use std::io;
use std::io::{ErrorKind, Read, Write};

/// Gives a byte at a time. After so many reads one fails.
#[derive(Drop)]
pub struct Drip<'a> {
    pub bytes: &'a [u8],
    pub reads: u32,
    pub fails_after: u32,
}

impl Read for Drip<'_> {
    fn read(&mut self, buf: &mut [u8]) -> io::Result<usize> {
        if self.reads == self.fails_after {
            return Err(io::Error::from(ErrorKind::TimedOut));
        }
        self.reads = self.reads.saturating_add(1);
        match (self.bytes, buf) {
            ([first, rest @ ..], [to, ..]) => {
                *to = *first;
                self.bytes = rest;
                Ok(1)
            }
            _ => Ok(0),
        }
    }
}

/// Takes 16 bytes at a time. After so many writes one fails.
#[derive(Drop)]
pub struct Narrow {
    pub writes: u32,
    pub fails_after: u32,
}

impl Write for Narrow {
    fn write(&mut self, buf: &[u8]) -> io::Result<usize> {
        if self.writes == self.fails_after {
            return Err(io::Error::from(ErrorKind::BrokenPipe));
        }
        self.writes = self.writes.saturating_add(1);
        Ok(buf.len().min(16))
    }

    fn flush(&mut self) -> io::Result<()> {
        Ok(())
    }
}

/// Gives nothing, because a signal interrupted it.
#[derive(Drop)]
pub struct Disturbed;

impl Read for Disturbed {
    fn read(&mut self, _: &mut [u8]) -> io::Result<usize> {
        Err(io::Error::from(ErrorKind::Interrupted))
    }
}

/// Takes nothing.
#[derive(Drop)]
pub struct Full;

impl Write for Full {
    fn write(&mut self, _: &[u8]) -> io::Result<usize> {
        Ok(0)
    }

    fn flush(&mut self) -> io::Result<()> {
        Ok(())
    }
}

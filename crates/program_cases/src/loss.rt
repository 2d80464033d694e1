//! A log that is emptied under the program that has it open.

use crate::place::Place;
use std::io::Write;
use std::{fs, io};

/// Standard output. As soon as it is flushed, the store's log is emptied.
#[derive(Drop)]
pub struct Losing<'a> {
    pub rt: &'a HostRuntime,
    pub place: &'a Place,
    pub written: Vec<u8>,
}

impl Write for Losing<'_> {
    fn write(&mut self, bytes: &[u8]) -> io::Result<usize> {
        self.written.extend_from_slice(bytes)?;
        Ok(bytes.len())
    }

    fn flush(&mut self) -> io::Result<()> {
        fs::write(self.rt, self.place.log(), b"")
    }
}

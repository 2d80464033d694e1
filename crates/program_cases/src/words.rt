//! The words of a start.

use crate::place::Place;
use std::alloc::{AllocError, Global};
use std::env::{Args, Env, FillError};
use std::io::ErrorKind;
use std::{env, io};
use trying::bytes_of;

/// A program's name, which the programs skip, and the words behind it.
#[derive(Drop)]
struct Words {
    all: Vec<Vec<u8>>,
}

impl Env for Words {
    fn arg(&self, i: usize, buf: &mut [u8]) -> Result<usize, FillError> {
        let Some(word) = self.all.get(i) else {
            return Err(FillError::NotPresent);
        };
        let Some(room) = buf.get_mut(..word.len()) else {
            return Err(FillError::TooLong);
        };
        room.copy_from_slice(word);
        Ok(word.len())
    }

    fn var(&self, _name: &str, _buf: &mut [u8]) -> Result<usize, FillError> {
        Err(FillError::NotPresent)
    }

    fn var_at(&self, _i: usize, _buf: &mut [u8]) -> Result<usize, FillError> {
        Err(FillError::NotPresent)
    }
}

fn word_of(alloc: Global, place: &Place, port: &str, word: &str) -> Result<Vec<u8>, AllocError> {
    match word {
        "STORE" => bytes_of(alloc, place.path()),
        "PORT" => bytes_of(alloc, port),
        "\"\"" => Ok(Vec::new(alloc)),
        _ => bytes_of(alloc, word),
    }
}

/// Returns the words of a field, as a start gives them to the program.
pub fn args_of(alloc: Global, place: &Place, port: u16, field: &str) -> io::Result<Args> {
    let port = format!(in alloc; "{port}")?;
    let mut all = Vec::new(alloc);
    all.push(bytes_of(alloc, "iodef-hub")?)?;
    for word in field.split(' ') {
        if !word.is_empty() {
            all.push(word_of(alloc, place, port.as_str(), word)?)?;
        }
    }
    env::args(&(Words { all }, alloc))
}

/// Returns words for which there is no memory.
pub fn no_args() -> io::Result<Args> {
    Err(io::Error::from(ErrorKind::OutOfMemory))
}

//! The bytes of standard input.
ghost use Rattle.std.specs.Prelude.{IfOk, IfErr, ◌≡◌, ◌⊎◌};
ghost use Rattle.hub_service.specs.Keys.{IsFirstLine};

use crate::fault::Fault;
use std::alloc::Global;
use std::io::{ErrorKind, Read};

/// How many bytes of input are read.
pub const INPUT_LIMIT: usize = 1_048_576;

/// The fault of a read: `NoMemory` for want of memory, and `ReadFailed` for all else.
fn read_fault(kind: ErrorKind) -> Fault {
    match kind {
        ErrorKind::OutOfMemory => Fault::NoMemory,
        _ => Fault::ReadFailed,
    }
}

/// Reads all bytes of the input. Fails with `ReadFailed` if there are more than [`INPUT_LIMIT`].
pub fn read_input<R: Read>(alloc: Global, reader: &mut R) -> Result<Vec<u8>, Fault> {
    let mut bytes = Vec::new(alloc);
    match reader
        .by_ref()
        .take(INPUT_LIMIT as u64 + 1)
        .read_to_end(&mut bytes)
    {
        Ok(_) => {}
        Err(error) => return Err(read_fault(error.kind())),
    }
    if bytes.len() > INPUT_LIMIT {
        return Err(Fault::ReadFailed);
    }
    Ok(bytes)
}

/// Reads the first line of the input, and returns it without its newline. Fails with `ReadFailed` if it is longer than
/// [`INPUT_LIMIT`].
pub fn read_line<R: Read>(alloc: Global, reader: &mut R) -> Result<Vec<u8>, Fault>
    ensures { IfOk result (λ line.
        IsFirstLine (R.remaining reader.old) (R.remaining reader.new) line.items) }
{
    let mut line = Vec::new(alloc);
    for _ in 0..=INPUT_LIMIT {
        // byte by byte, so that what comes after the line stays for the next reader
        let mut byte = [0];
        match reader.read(&mut byte) {
            Ok(0) => return Ok(line),
            Ok(_) if line.len() == INPUT_LIMIT => return Err(Fault::ReadFailed),
            Ok(_) if byte[0] == b'\n' => return Ok(line),
            Ok(_) => line.push(byte[0])?,
            Err(error) => return Err(read_fault(error.kind())),
        }
    }
    Err(Fault::ReadFailed)
}

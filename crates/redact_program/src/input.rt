//! What the program reads: the report on standard input, and the file of a view.
ghost use Rattle.std.specs.Prelude.{◌≡◌, ◌+◌, ◌<◌, ◌≤◌, Ok, OnErr, OnOk, length, true, vec_len};
ghost use Rattle.std.specs.Io.KnownBytes.{IsAtEnd};
ghost use Rattle.redact_program.specs.Streams.{Extends, Given, Logs, Reads, Takes, ok_by};
ghost use Rattle.redact_program.specs.Troubles as spec;

use crate::host::Host;
use crate::trouble::Trouble;
use redaction::Fault;
use std::alloc::Global;
use std::io::{ErrorKind, Read};

/// How many bytes of each may be read.
pub const INPUT_LIMIT: usize = 1_048_576;

/// How many bytes a read may return.
const PIECE: usize = 16_384;

/// Reads once into the piece, and appends what came to the bytes. Returns whether that was the end. A read that is
/// interrupted brings nothing.
fn read_more<R: Read>(
    reader: &mut R,
    piece: &mut [u8],
    bytes: &mut Vec<u8>,
) -> Result<bool, ErrorKind>
    ensures grows { OnOk result (Extends (R.remaining reader.old) (R.remaining reader.new)
        bytes.old.items bytes.new.items) }
    ensures within { OnOk result (vec_len bytes.new ≤ vec_len bytes.old + length piece.old) }
    ensures end { result ≡ Ok true → 0 < length piece.old → IsAtEnd (R.remaining reader.new) }
    ensures failed { OnErr result (Takes (R.remaining reader.old) (R.remaining reader.new)) }
{
    match reader.read(piece) {
        Ok(count) => {
            if bytes.extend_from_slice(&piece[..count]).is_err() {
                return Err(ErrorKind::OutOfMemory);
            }
            Ok(count == 0)
        }
        Err(error) => match error.kind() {
            ErrorKind::Interrupted => Ok(false),
            kind => Err(kind),
        },
    }
}

/// Returns all bytes of a reader, but no more than one beyond the limit.
pub(crate) fn read_some<R: Read>(alloc: Global, reader: &mut R) -> Result<Vec<u8>, ErrorKind>
    ensures { Reads (R.remaining reader.old) (R.remaining reader.new)
        (ok_by (λ v. v.items) result) }
{
    let mut bytes = Vec::new(alloc);
    let mut piece = [0; PIECE];
    for _ in 0..u64::MAX {
        if bytes.len() > INPUT_LIMIT {
            return Ok(bytes);
        }
        let room = (INPUT_LIMIT + 1 - bytes.len()).min(PIECE);
        match read_more(reader, &mut piece[..room], &mut bytes) {
            Ok(true) => return Ok(bytes),
            Ok(false) => {}
            Err(kind) => return Err(kind),
        }
    }
    Err(ErrorKind::Other)
}

/// Returns the bytes, unless there are more than the limit.
fn if_short(bytes: Vec<u8>, too_long: Trouble) -> Result<Vec<u8>, Trouble>
    ensures { ok_by (λ v. v.items) result ≡ spec.if_short too_long bytes.items }
{
    if bytes.len() > INPUT_LIMIT {
        Err(too_long)
    } else {
        Ok(bytes)
    }
}

/// Returns the report on standard input.
pub fn read_report<R: Read>(alloc: Global, reader: &mut R) -> Result<Vec<u8>, Trouble>
    ensures { (given : Given) × Reads (R.remaining reader.old) (R.remaining reader.new) given
        × (ok_by (λ v. v.items) result ≡ spec.report_read given) }
{
    match read_some(alloc, reader) {
        Ok(bytes) => if_short(bytes, Trouble::LongReport),
        Err(ErrorKind::OutOfMemory) => Err(Trouble::NoAnswer(Fault::NoMemory)),
        Err(_) => Err(Trouble::NoReport),
    }
}

/// Returns why the view's file isn't read.
fn view_trouble(kind: ErrorKind) -> Trouble
    ensures { result ≡ spec.view_trouble kind }
{
    match kind {
        ErrorKind::OutOfMemory => Trouble::NoAnswer(Fault::NoMemory),
        ErrorKind::NotFound => Trouble::NoSuchView,
        ErrorKind::PermissionDenied => Trouble::ClosedView,
        _ => Trouble::NoView,
    }
}

/// Returns the view description in the file of a name.
pub fn read_view_file<H: Host>(alloc: Global, host: &mut H, name: &str) -> Result<Vec<u8>, Trouble>
    ensures read { (given : Given) × H.may_give host.old name.now given
        × (ok_by (λ v. v.items) result ≡ spec.view_read given) }
    ensures logs { Logs (H.opened host.old) (H.opened host.new) name.now }
{
    match host.read_file(alloc, name) {
        Ok(bytes) => if_short(bytes, Trouble::LongView),
        Err(kind) => Err(view_trouble(kind)),
    }
}

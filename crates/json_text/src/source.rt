//! Sources, which give bytes.
ghost use Rattle.std.specs.Prelude.{◌≡◌, ℕ, List, OnOk, IfOk, IfSome, length};
ghost use Rattle.std.specs.Io.KnownBytes.{Appends};

use crate::count::Count;
use crate::pieces::Pieces;
use crate::sink::{Refused, Sink};
use std::alloc::{AllocError, Global};
use std::io::Write;

/// For how many bytes a vector has room at first.
const ROOM: usize = 1_024;

/// Gives bytes, the same each time.
pub trait Source {
    /// The bytes that it gives.
    ghost bytes: { Self → List ℕ };

    /// Puts the bytes into the sink and returns the sink. Fails with Refused if the sink takes no more.
    fn put_into<S: Sink + Drop>(&self, sink: S) -> Result<S, Refused>
        ensures { IfOk result (λ after. S.puts sink (bytes self.now) after) };
}

/// Returns how many bytes the source gives, or `None` if a `usize` can't hold that. Allocates nothing.
pub fn length_of<T: Source>(source: &T) -> Option<usize>
    ensures { IfSome result (λ n. n ≡ length (T.bytes source.now)) }
{
    match source.put_into(Count { bytes: 0 }) {
        Ok(count) => Some(count.bytes),
        Err(_) => None,
    }
}

/// Writes the bytes of the source, in pieces from an array on the stack. Allocates nothing.
///
/// Fails with Refused if a write fails, or if the source finds itself too long.
pub fn write_from<W: Write, T: Source>(writer: &mut W, source: &T) -> Result<(), Refused>
    ensures { OnOk result (Appends (W.contents writer.old) (W.contents writer.new)
        (T.bytes source.now)) }
{
    let Pieces {
        writer: inner,
        piece,
    } = source.put_into(Pieces::new(writer))?;
    let last = inner.write_all(piece.as_slice());
    // No effect at run time: the proof reads what the writer holds from this use of it.
    let _ = &*inner;
    match last {
        Ok(()) => Ok(()),
        Err(_) => Err(Refused),
    }
}

/// Returns the bytes of the source. Fails if memory runs out or a `usize` can't hold their number.
pub fn bytes_of<T: Source>(alloc: Global, source: &T) -> Result<Vec<u8>, AllocError>
    ensures { IfOk result (λ v. v.items ≡ T.bytes source.now) }
{
    // The vector grows, since to count the bytes first takes longer than to copy them when it does.
    match source.put_into(Vec::with_capacity(alloc, ROOM)?) {
        Ok(bytes) => Ok(bytes),
        Err(_) => Err(AllocError),
    }
}

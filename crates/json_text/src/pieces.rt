//! Bytes that are written in pieces, from an array on the stack.
ghost use Rattle.std.specs.Prelude.{◌≡◌, OnOk, []};
ghost use Rattle.std.specs.Io.KnownBytes.{Appends};
ghost use Rattle.json_text.specs.Sinks.{shown};

use crate::sink::{Refused, Sink};
use arrayvec::ArrayVec;
use std::io::Write;

/// How many bytes a piece has at most.
const PIECE: usize = 16_384;

/// A sink that writes the bytes that it is given to a writer, in pieces. The newest bytes wait in the piece.
#[derive(Drop)]
pub(crate) struct Pieces<'w, W> {
    pub(crate) writer: &'w mut W,
    pub(crate) piece: ArrayVec<u8, PIECE>,
}

impl<'w, W: Write> Pieces<'w, W> {
    /// Returns a sink that writes to this writer, with nothing put yet.
    pub(crate) fn new(writer: &'w mut W) -> Pieces<'w, W>
        ensures same_reference { result.writer.ghost_name ≡ writer.entry.ghost_name }
        ensures shown { shown (W.contents result.writer.now) result.piece.items ≡ W.contents writer.old }
    {
        Pieces {
            writer,
            piece: ArrayVec::new(),
        }
    }

    /// Writes the piece and begins a new one.
    fn write_piece(&mut self) -> Result<(), Refused>
        ensures same_reference { OnOk result (self.new.writer.ghost_name ≡ self.old.writer.ghost_name) }
        ensures written { OnOk result (Appends (W.contents self.old.writer.now)
            (W.contents self.new.writer.now) self.old.piece.items) }
        ensures empty { OnOk result (self.new.piece.items ≡ []) }
    {
        match self.writer.write_all(self.piece.as_slice()) {
            Ok(()) => {
                self.piece.clear();
                Ok(())
            }
            Err(_) => Err(Refused),
        }
    }
}

impl<'w, W: Write> Sink for Pieces<'w, W> {
    ghost use Rattle.json_text.specs.Sinks.{Takes, takes-none, takes-both};

    ghost puts = { λ a bytes b. Takes (a.writer.ghost_name) (shown (W.contents a.writer.now) a.piece.items)
        bytes (b.writer.ghost_name) (shown (W.contents b.writer.now) b.piece.items) };

    ghost stays = { λ a. takes-none (a.writer.ghost_name) (shown (W.contents a.writer.now) a.piece.items) };

    ghost joins = { λ a b c x y p q. takes-both _ _ _ _ _ _ x y p q };

    /// If a text doesn't fit behind the waiting bytes, these are written first. A text larger than a piece is written
    /// by itself.
    fn put(&mut self, bytes: &[u8]) -> Result<(), Refused> {
        if self.piece.try_extend_from_slice(bytes).is_ok() {
            return Ok(());
        }
        self.write_piece()?;
        if self.piece.try_extend_from_slice(bytes).is_ok() {
            return Ok(());
        }
        match self.writer.write_all(bytes) {
            Ok(()) => Ok(()),
            Err(_) => Err(Refused),
        }
    }
}

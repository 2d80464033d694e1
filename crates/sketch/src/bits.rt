//! A set of numbers as bits.

ghost use Rattle.std.specs.Prelude.{◌≡◌, ◌<◌, ◌^◌, IfOk, length, replicate};
ghost use Rattle.sketch.specs.Bits.{byte_of, place_of};
ghost use Rattle.sketch.specs.Bits as spec;
ghost use Rattle.sketch.specs.inner.Puts.{put};

use std::alloc::{AllocError, Global};
use std::marker::Model;

/// A set of numbers, with one bit for each. Numbers may share a bit: a number that isn't in the set may seem to be.
///
/// Contracts see its bytes, of which there is at least one.
#[derive(Drop)]
pub(crate) struct Bits {
    bytes: Vec<u8>,
}

impl Model for Bits {
    ghost use Rattle.std.specs.Prelude.{ℕ, List, length, ◌<◌};

    ghost Value = { List ℕ };

    ghost view = { λ b. b.bytes.items };

    ghost invariant = { λ b. 0 < length b.bytes.items };
}

impl Bits {
    /// Returns the empty set in so many bytes. Fails if memory runs out.
    pub(crate) fn none(alloc: Global, size: usize) -> Result<Bits, AllocError>
        requires { 0 < size }
        ensures { IfOk result (λ b. b ≡ replicate size 0) }
    {
        Ok(Bits {
            bytes: vec![in alloc; 0; size]?,
        })
    }

    /// Returns the byte and the place in it of the bit of a number.
    fn spot(&self, number: usize) -> (usize, usize)
        requires { number < 2 ^ 32 }
        ensures byte { result.0 ≡ byte_of (length self.now) number }
        ensures place { result.1 ≡ place_of (length self.now) number }
    {
        let spread = number * 2_654_435_761 / 16_777_216;
        let size = self.bytes.len();
        (spread % size, spread / size % 8)
    }

    /// Puts a number into the set.
    pub(crate) fn put(&mut self, number: usize)
        requires { number < 2 ^ 32 }
        ensures { self.new ≡ put self.old number }
    {
        let (byte, place) = self.spot(number);
        let bytes = self.bytes.as_mut_slice();
        bytes[byte] |= 1 << place;
    }

    /// Returns whether the bit of a number is set.
    pub(crate) fn holds(&self, number: usize) -> bool
        requires { number < 2 ^ 32 }
        ensures { result ≡ spec.holds self.now number }
    {
        let (byte, place) = self.spot(number);
        (self.bytes.as_slice()[byte] >> place) & 1 == 1
    }
}

//! How many bytes are put.
ghost use Rattle.std.specs.Prelude.{◌≡◌, ◌+◌, length};

use crate::sink::{Refused, Sink};

/// A sink that counts the bytes that it is given and keeps none. It refuses bytes that it can't count.
#[derive(Clone, Copy, Debug, Drop)]
pub(crate) struct Count {
    /// How many bytes it was given.
    pub(crate) bytes: usize,
}

impl Sink for Count {
    ghost use Rattle.json_text.specs.Sinks.{counts-none, counts-both};

    ghost puts = { λ a bytes b. b.bytes ≡ a.bytes + length bytes };

    ghost stays = { λ a. counts-none a.bytes };

    ghost joins = { λ a b c x y p q. counts-both a.bytes b.bytes c.bytes x y p q };

    fn put(&mut self, bytes: &[u8]) -> Result<(), Refused> {
        match self.bytes.checked_add(bytes.len()) {
            Some(sum) => {
                self.bytes = sum;
                Ok(())
            }
            None => Err(Refused),
        }
    }
}

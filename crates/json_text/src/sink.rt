//! Sinks, which take bytes.
ghost use Rattle.std.specs.Prelude.{◌≡◌, ◌++◌, [], ℕ, List, OnOk};

use std::alloc::Allocator;
use thiserror::Error;

/// The sink takes no more: memory ran out, or a write below it failed.
#[derive(Clone, Copy, Debug, PartialEq, Eq, Drop, Error)]
#[error("the sink takes no more")]
pub struct Refused;

/// Takes bytes, one text behind the other.
pub trait Sink {
    /// The second sink is the first one with these bytes put behind the others.
    ghost puts: { Self → List ℕ → Self → Type 0 };

    /// Puts the bytes behind those that were put before. Fails with Refused if the sink takes no more; then some of
    /// the bytes may be in it.
    fn put(&mut self, bytes: &[u8]) -> Result<(), Refused>
        ensures { OnOk result (puts self.old bytes.now self.new) };

    /// Putting no bytes changes nothing.
    ghost stays: { (a : Self) → puts a [] a };

    /// Putting two texts, one behind the other, is putting both as one.
    ghost joins: { (a b c : Self) (x y : List ℕ) → puts a x b → puts b y c → puts a (x ++ y) c };
}

impl<A: Allocator> Sink for Vec<u8, A> {
    ghost use Rattle.json_text.specs.Sinks.{Extends, extends-none, extends-both};

    ghost puts = { λ a bytes b. Extends a.items bytes b.items };

    ghost stays = { λ a. extends-none a.items };

    ghost joins = { λ a b c x y p q. extends-both a.items b.items c.items x y p q };

    fn put(&mut self, bytes: &[u8]) -> Result<(), Refused> {
        match self.extend_from_slice(bytes) {
            Ok(()) => Ok(()),
            Err(_) => Err(Refused),
        }
    }
}

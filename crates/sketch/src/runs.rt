//! The numbers of what a search asks for.

ghost use Rattle.std.specs.Prelude.{◌≡◌, ◌<◌, ◌^◌};
ghost use Rattle.std.specs.List.{list_all};
ghost use Rattle.sketch.specs.Bits.{holds};
ghost use Rattle.sketch.specs.Runs.{run_of, runs, number_of};
ghost use Rattle.sketch.specs.Runs as spec;
ghost use Rattle.sketch.specs.inner.Puts.{put_all};

use crate::bits::Bits;
use marking::Handling;

/// Returns the number of a run of three bytes, counted from a base.
fn run(base: usize, a: u8, b: u8, c: u8) -> usize
    requires { base < 2 ^ 31 }
    ensures is { result ≡ run_of base a b c }
    ensures small { result < 2 ^ 32 }
{
    base + ((a as usize * 256 + b as usize) * 256 + c as usize)
}

/// Puts the runs of a text into a set, counted from a base.
#[tactic(auto, using(crate::proofs::Numbers::run_steps))]
pub(crate) fn put_runs(bits: &mut Bits, base: usize, text: &[u8])
    requires { base < 2 ^ 31 }
    ensures { bits.new ≡ put_all bits.old (runs base text.now) }
{
    for start in 0..text.len().saturating_sub(2) {
        bits.put(run(base, text[start], text[start + 1], text[start + 2]));
    }
}

/// Returns whether the bits of all runs of a text are set, counted from a base.
#[tactic(auto, using(crate::proofs::Numbers::run_steps))]
pub(crate) fn has_runs(bits: &Bits, base: usize, text: &[u8]) -> bool
    requires { base < 2 ^ 31 }
    ensures { result ≡ list_all (holds bits.now) (runs base text.now) }
{
    for start in 0..text.len().saturating_sub(2) {
        if !bits.holds(run(base, text[start], text[start + 1], text[start + 2])) {
            return false;
        }
    }
    true
}

/// Returns the base of the runs in classes that are handled so; `None` for `default`.
pub(crate) fn base_of(handling: Option<Handling>) -> usize
    ensures is { result ≡ spec.base_of handling }
    ensures small { result < 2 ^ 31 }
{
    let code = match handling {
        Some(Handling::Clear) => 0,
        Some(Handling::Green) => 1,
        Some(Handling::Amber) => 2,
        Some(Handling::Strict) => 3,
        Some(Handling::Red) => 4,
        None => 5,
    };
    code * 16_777_216
}

/// Returns the number of a name.
pub(crate) fn number(name: &[u8]) -> usize
    ensures is { result ≡ number_of name.now }
    ensures small { result < 2 ^ 32 }
{
    let mut number = 0;
    for byte in name {
        number = (number * 16_777_619 + *byte as usize) % 4_294_967_296;
    }
    number
}

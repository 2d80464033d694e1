//! How large the set for the runs of a document's texts is.

ghost use Rattle.std.specs.Prelude.{◌≡◌, ◌≤◌, map, min};
ghost use Rattle.sketch.specs.Sketched.{IsSizeFor};
ghost use Rattle.sketch.specs.Sketched as spec;
ghost use Rattle.sketch.specs.inner.Held.{shown};

use crate::holding::Holding;

/// More bytes of text count as this many.
const MOST_BYTES: usize = 262_144;

/// Returns how many bytes the texts have.
pub(crate) fn text_bytes(held: &[Holding<'_>]) -> usize
    ensures { result ≡ min (spec.text_bytes (map shown held.now)) 262144 }
{
    let mut bytes: usize = 0;
    for holding in held {
        bytes = bytes.saturating_add(holding.text.len()).min(MOST_BYTES);
    }
    bytes
}

/// Returns the size of the set for the runs of texts of so many bytes.
pub(crate) fn size_for(bytes: usize) -> usize
    requires { bytes ≤ 262144 }
    ensures { IsSizeFor bytes result }
{
    let mut exponent: u32 = 6;
    let mut size = 64;
    while exponent < 16 && 4 * size < bytes {
        exponent += 1;
        size *= 2;
    }
    size
}

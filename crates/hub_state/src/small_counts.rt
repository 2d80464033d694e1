//! Counts as numbers of 32 bits.
ghost use Rattle.std.specs.Prelude.{◌≡◌, min};

/// Returns the count, at most the greatest u32: a request's list can be longer than a u32 counts.
pub fn capped(count: usize) -> u32
    ensures { result ≡ min count 4294967295 }
{
    if count <= u32::MAX as usize {
        count as u32
    } else {
        u32::MAX
    }
}

//! Whether two lists have a number in common.

ghost use Rattle.std.specs.Prelude.{◌≡◌};
ghost use Rattle.std.specs.List.{list_any};
ghost use Rattle.hub_store.specs.inner.ShownPairs.{AreRising, is_one_of};

/// Whether the number is one of these, which rise. It is found by binary search.
pub(crate) fn is_among(number: u32, numbers: &[u32]) -> bool
    ensures { AreRising numbers.now → result ≡ is_one_of numbers.now number }
{
    numbers.binary_search(&number).is_ok()
}

/// Whether one of the first is among the second, which rise.
pub(crate) fn have_common(some: &[u32], others: &[u32]) -> bool
    ensures { AreRising others.now → result ≡ list_any (is_one_of others.now) some.now }
{
    for number in some {
        if is_among(*number, others) {
            return true;
        }
    }
    false
}

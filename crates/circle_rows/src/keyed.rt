//! Rows in the order of a key of two numbers. Those with one key are found by halving.
ghost use Rattle.std.specs.Prelude.{◌≡◌, ◌≤◌, ◌<◌, ◌+◌, length, true, false, not, filter, find};
ghost use Rattle.std.specs.Option.{option_copied};
ghost use Rattle.std.specs.List.{list_any};
ghost use Rattle.std.specs.List.Sorted.{IsPartitionPoint};
ghost use Rattle.std.specs.Ordering.{is_lt};
ghost use Rattle.std.specs.Vec.{vec_len, vec_capacity};
ghost use Rattle.circle.specs.Ordered.{pair_cmp, put_by, by_pair};
ghost use Rattle.circle.specs.Stretches.{Ascend, having, same_pair};

/// A row with a key. The key of a row with a number is 0 and that number.
pub(crate) trait Keyed {
    ghost use Rattle.std.specs.Prelude.{ℕ};

    /// The key, as contracts see it.
    ghost key: { Self → ℕ × ℕ };

    /// Returns the key.
    fn key(&self) -> (u32, u32)
        ensures { result ≡ key self.now };
}

/// Returns whether one key is below another.
fn is_below(one: (u32, u32), other: (u32, u32)) -> bool
    ensures { result ≡ is_lt (pair_cmp one other) }
{
    one.0 < other.0 || (one.0 == other.0 && one.1 < other.1)
}

/// Returns how many rows are below the key.
fn count_below<T: Keyed>(rows: &[T], key: (u32, u32)) -> usize
    ensures bound { result ≤ length rows.now }
    ensures parted { Ascend T.key rows.now →
        IsPartitionPoint (λ x. is_lt (pair_cmp (T.key x) key) ≡ true) (λ x.
        is_lt (pair_cmp (T.key x) key) ≡ false) rows.now result }
{
    rows.partition_point(|row| is_below(row.key(), key))
}

/// Returns how many rows are not above the key.
fn count_within<T: Keyed>(rows: &[T], key: (u32, u32)) -> usize
    ensures bound { result ≤ length rows.now }
    ensures parted { Ascend T.key rows.now →
        IsPartitionPoint (λ x. is_lt (pair_cmp key (T.key x)) ≡ false) (λ x.
        is_lt (pair_cmp key (T.key x)) ≡ true) rows.now result }
{
    rows.partition_point(|row| !is_below(key, row.key()))
}

/// Returns the rows with this key.
pub(crate) fn rows_of_key<T: Keyed>(rows: &[T], key: (u32, u32)) -> &[T]
    ensures { Ascend T.key rows.now → result.now ≡ having T.key key rows.now }
{
    let from = &rows[count_below(rows, key)..];
    &from[..count_within(from, key)]
}

/// Returns whether there is a row with this key.
pub(crate) fn has_row<T: Keyed>(rows: &[T], key: (u32, u32)) -> bool
    ensures { Ascend T.key rows.now → result ≡ list_any (λ x. same_pair (T.key x) key) rows.now }
{
    !rows_of_key(rows, key).is_empty()
}

/// Returns the first row with this key.
pub(crate) fn row_of<T: Keyed>(rows: &[T], key: (u32, u32)) -> Option<&T>
    ensures { Ascend T.key rows.now →
        option_copied result ≡ find (λ x. same_pair (T.key x) key) rows.now }
{
    rows_of_key(rows, key).first()
}

/// Puts a row in before the first one above it. There is room for it, so it allocates nothing.
pub(crate) fn put_row<T: Keyed + Drop>(rows: &mut Vec<T>, row: T)
    requires { vec_len rows.old < vec_capacity rows.old }
    ensures items { Ascend T.key rows.old.items →
        rows.new.items ≡ put_by (by_pair T.key) row rows.old.items }
    ensures len { vec_len rows.new ≡ vec_len rows.old + 1 }
    ensures capacity { vec_capacity rows.old ≤ vec_capacity rows.new }
{
    let at = count_within(rows.as_slice(), row.key());
    match rows.insert(at, row) {
        Ok(()) => {}
        Err(_) => unreachable!(),
    }
}

/// Returns whether two keys are the same.
fn is_same(one: (u32, u32), other: (u32, u32)) -> bool
    ensures { result ≡ same_pair one other }
{
    one.0 == other.0 && one.1 == other.1
}

/// Takes out the rows with this key.
pub(crate) fn take_rows<T: Keyed + Drop>(rows: &mut Vec<T>, key: (u32, u32))
    ensures items { rows.new.items ≡ filter (λ x. not (same_pair (T.key x) key)) rows.old.items }
    ensures len { vec_len rows.new ≤ vec_len rows.old }
    ensures capacity { vec_capacity rows.new ≡ vec_capacity rows.old }
{
    rows.retain(|row| !is_same(row.key(), key));
}

//! Lists of rows in the order of their keys: the rows of one owner are next to each other.
ghost use Rattle.std.specs.Prelude.{◌≡◌, ◌≤◌, ◌<◌, ◌+◌, ◌==◌, ℕ, not, filter, vec_len, vec_capacity};
ghost use Rattle.circle.specs.Ordered.{put_by};
ghost use Rattle.hub_state.specs.InOrder.{IsInOrder, IsStretch, is_alike};

use std::cmp::Ordering;

/// A row with its place among the rows of its kind.
pub(crate) trait Row: Drop {
    ghost use Rattle.std.specs.Prelude.{◌≡◌, ◌≤◌, ℕ, false};
    ghost use Rattle.std.specs.declared.cmp.Ordering.{Ordering};
    ghost use Rattle.std.specs.Ordering.{is_lt};
    ghost use Rattle.std.specs.Cmp.{IsTotalOrder};

    // the order of the rows
    ghost order: { Self → Self → Ordering };

    // the number of the owner: the incident that the row belongs to
    ghost owner: { Self → ℕ };

    fn compare(&self, other: &Self) -> Ordering
        ensures { result ≡ order self.now other.now };

    fn owned_by(&self) -> u32
        ensures { result ≡ owner self.now };

    ghost total: { IsTotalOrder order };

    ghost together: { (a b : Self) → is_lt (order b a) ≡ false → owner a ≤ owner b };
}

/// Returns the range (from, to) of the rows that belong to this number.
fn stretch_of<T: Row>(rows: &[T], number: u32) -> (usize, usize)
    requires { IsInOrder T.order rows.now }
    ensures { IsStretch (λ r. T.owner r == number) rows.now result.0 result.1 }
{
    let from = rows.partition_point(|r| r.owned_by() < number);
    let (_, rest) = rows.split_at(from);
    let count = rest.partition_point(|r| r.owned_by() == number);
    (from, from + count)
}

/// Returns the range (from, to) of the rows that compare as equal to this one.
fn stretch_alike<T: Row>(rows: &[T], row: &T) -> (usize, usize)
    requires { IsInOrder T.order rows.now }
    ensures { IsStretch (λ r. is_alike T.order r row.now) rows.now result.0 result.1 }
{
    let from = rows.partition_point(|r| r.compare(row) == Ordering::Less);
    let (_, rest) = rows.split_at(from);
    let count = rest.partition_point(|r| r.compare(row) == Ordering::Equal);
    (from, from + count)
}

/// The rows that belong to this number.
pub(crate) fn rows_of<T: Row>(rows: &[T], number: u32) -> &[T]
    requires { IsInOrder T.order rows.now }
    ensures { result.now ≡ filter (λ r. T.owner r == number) rows.now }
{
    let (from, to) = stretch_of(rows, number);
    &rows[from..to]
}

/// The rows that compare as equal to this one.
pub(crate) fn rows_alike<'a, T: Row>(rows: &'a [T], row: &T) -> &'a [T]
    requires { IsInOrder T.order rows.now }
    ensures { result.now ≡ filter (λ r. is_alike T.order r row.now) rows.now }
{
    let (from, to) = stretch_alike(rows, row);
    &rows[from..to]
}

/// Puts a row before the first one above it. The list must have room for it.
pub(crate) fn put<T: Row>(rows: &mut Vec<T>, row: T)
    requires in_order { IsInOrder T.order rows.old.items }
    requires room { vec_len rows.old < vec_capacity rows.old }
    ensures put { rows.new.items ≡ put_by T.order row rows.old.items }
    ensures in_order { IsInOrder T.order rows.new.items }
    ensures len { vec_len rows.new ≡ vec_len rows.old + 1 }
    ensures room { vec_capacity rows.old ≤ vec_capacity rows.new }
{
    let at = rows.partition_point(|r| row.compare(r) != Ordering::Less);
    if rows.insert(at, row).is_err() {
        unreachable!();
    }
}

/// Takes out the rows that belong to this number.
pub(crate) fn take_all<T: Row>(rows: &mut Vec<T>, number: u32)
    requires { IsInOrder T.order rows.old.items }
    ensures taken { rows.new.items ≡ filter (λ r. not (T.owner r == number)) rows.old.items }
    ensures in_order { IsInOrder T.order rows.new.items }
    ensures len { vec_len rows.new ≤ vec_len rows.old }
    ensures room { vec_capacity rows.new ≡ vec_capacity rows.old }
{
    let (from, to) = stretch_of(rows, number);
    rows.drain(from..to);
}

/// Takes out the rows that compare as equal to this one.
pub(crate) fn take<T: Row>(rows: &mut Vec<T>, row: &T)
    requires { IsInOrder T.order rows.old.items }
    ensures taken { rows.new.items ≡ filter (λ r. not (is_alike T.order r row.now)) rows.old.items }
    ensures in_order { IsInOrder T.order rows.new.items }
    ensures len { vec_len rows.new ≤ vec_len rows.old }
    ensures room { vec_capacity rows.new ≡ vec_capacity rows.old }
{
    let (from, to) = stretch_alike(rows, row);
    rows.drain(from..to);
}

//! Whether a query shows a row.

ghost use Rattle.std.specs.Prelude.{◌≡◌, ◌==◌, not, length};

use sqlite::Row;

pub(crate) fn is_any(rows: &[Row]) -> bool
    ensures { result ≡ not (length rows.now == 0) }
{
    !rows.is_empty()
}

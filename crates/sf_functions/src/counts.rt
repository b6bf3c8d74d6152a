//! The number of rows of stored functions.

ghost use Rattle.std.specs.Prelude.{◌≡◌, ◌≤◌, ◌^◌};
ghost use Rattle.sf_write.specs.Stored.{stored_count};

use sf_write::StoredList;

/// Counts the rows of all functions.
pub fn count_rows<L: StoredList>(functions: &L) -> u32
    requires { stored_count (L.listed functions.now) ≤ 2 ^ 24 }
    ensures { result ≡ stored_count (L.listed functions.now) }
{
    let mut rows = 0;
    for number in 0..functions.len() {
        rows += functions.function(number).head.rows;
    }
    rows
}

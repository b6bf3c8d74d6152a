//! How much a section holds in all.

ghost use Rattle.std.specs.Prelude.{◌≡◌, ◌≤◌, ◌^◌, ◌*◌};
ghost use Rattle.sf_write.specs.Stored.{stored_count, stored_len};

use crate::list::StoredList;

/// The sizes of all rows together.
#[derive(Clone, Copy)]
pub struct Totals {
    /// The number of rows of all functions.
    pub rows: u32,
    /// The length of all rows in bytes.
    pub row_bytes: u32,
}

/// Adds up the rows of all functions.
pub fn totals_of<L: StoredList>(functions: &L) -> Totals
    requires rows { stored_count (L.listed functions.now) ≤ 2 ^ 24 }
    requires len { stored_len (L.listed functions.now) ≤ 17 * 2 ^ 24 }
    ensures rows { result.rows ≡ stored_count (L.listed functions.now) }
    ensures len { result.row_bytes ≡ stored_len (L.listed functions.now) }
{
    let mut rows = 0;
    let mut row_bytes = 0;
    for number in 0..functions.len() {
        let stored = functions.function(number);
        rows += stored.head.rows;
        row_bytes += stored.len;
    }
    Totals { rows, row_bytes }
}

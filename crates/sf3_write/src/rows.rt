//! The check of the numbers of rows.

ghost use Rattle.std.specs.Prelude.{◌≡◌, None, All, OnOk, IfErr};
ghost use Rattle.sf3_write.specs.Rows.{Refuses};
ghost use Rattle.sf3_write.specs.Stored.{first_stored_with_too_many_rows, HasFewRows};

use crate::fault::WriteFault;
use sf_write::StoredList;

/// Checks that each function's number of rows has room in 16 bits.
pub(crate) fn check_rows<L: StoredList>(functions: &L) -> Result<(), WriteFault>
    ensures each { OnOk result (All HasFewRows (L.listed functions.now)) }
    ensures few { OnOk result (first_stored_with_too_many_rows (L.listed functions.now) ≡ None) }
    ensures fault { IfErr result (λ e. Refuses e (first_stored_with_too_many_rows (L.listed functions.now))) }
{
    for number in 0..functions.len() {
        let head = &functions.function(number).head;
        if head.rows >= 1 << 16 {
            return Err(WriteFault::TooManyRows(head.start));
        }
    }
    Ok(())
}

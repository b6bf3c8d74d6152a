//! Sections made into one.

ghost use Rattle.std.specs.Prelude.{◌≡◌, ◌<◌, ◌≤◌, All, map, length, IfOk, IfErr};
ghost use Rattle.sf_decode.specs.View.{table_of};
ghost use Rattle.sf_write.specs.Stored.{IsStored, stored_in};
ghost use Rattle.sf_merge.specs.Answers.{IsMerged, IsFirstMergeFault};
ghost use Rattle.sf_merge.specs.Merging.{merged_functions};

use crate::checking::{check_limits, check_machines, check_overlap};
use crate::fault::{MergeFault, write_fault};
use crate::functions::LocatedFunctions;
use crate::head::LocatedFunction;
use crate::reading::all_in_order;
use sf_decode::View;
use sf_functions::{FunctionsWithRows, count_rows};
use sf_write::{StoredList, StoredRows, write_stored};
use std::alloc::Global;

/// Returns the functions that hold an address and have a row, and their rows.
pub fn written(ordered: LocatedFunctions) -> (FunctionsWithRows<LocatedFunction>, StoredRows)
    ensures stored { All (IsStored result.1) result.0 }
    ensures written { map (stored_in result.1) result.0 ≡ merged_functions ordered }
{
    let (heads, rows) = ordered.into_parts();
    (FunctionsWithRows::of(heads), rows)
}

/// A merged section, and how many functions and rows it has.
#[derive(Drop)]
pub struct MergedSection {
    pub section: Vec<u8>,
    pub functions: u32,
    pub rows: u32,
}

/// Merges sections into one, for the address `at`, as a linker does. Each function that holds an address and
/// has a row is taken over row for row, by rising start.
///
/// # Errors
///
/// A section of another machine than the first one; then more than 2^21 functions or 2^24 rows in all sections
/// together, two functions that share an address, and a function too far from the section, in this order;
/// memory may run out at any time. Functions without rows count for the limits and for shared addresses.
pub fn merge(alloc: Global, views: &[View<'_>], at: u64) -> Result<MergedSection, MergeFault>
    requires some { 0 < length views.now }
    requires few { length views.now ≤ 512 }
    // The section is that of the union.
    ensures merged { IfOk result (λ merged. IsMerged (map table_of views.now) at merged.section.items merged.functions merged.rows) }
    // A fault is the first one.
    ensures fault { IfErr result (IsFirstMergeFault (map table_of views.now) at) }
{
    let arch = check_machines(views)?;
    check_limits(views)?;
    let ordered = all_in_order(alloc, views)?;
    check_overlap(&ordered)?;
    let (functions, rows) = written(ordered);
    match write_stored(alloc, arch, at, &rows, &functions) {
        Ok(section) => Ok(MergedSection {
            section,
            functions: functions.len() as u32,
            rows: count_rows(&functions),
        }),
        Err(fault) => Err(write_fault(fault)),
    }
}

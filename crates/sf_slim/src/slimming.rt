//! A section slimmed.

ghost use Rattle.std.specs.Prelude.{◌≡◌, true, map, IfOk, IfErr, All};
ghost use Rattle.std.specs.List.{filter};
ghost use Rattle.sf_model.specs.Function.{IsWritable};
ghost use Rattle.sf_decode.specs.View.{section_bytes, table_of};
ghost use Rattle.sf_write.specs.Stored.{IsStored, stored_in};
ghost use Rattle.sf_merge.specs.declared.located.Located.{Located as located};
ghost use Rattle.sf_slim.specs.Answers.{IsFirstSlimFault, IsSlimmed};
ghost use Rattle.sf_slim.specs.Pass as pass;

use crate::fault::SlimFault;
use crate::needed_rows::{empty_function, has_row, keep_function};
use crate::overlap::check_overlap;
use sf_base::NoMemory;
use sf_decode::View;
use sf_functions::count_rows;
use sf_merge::{SectionFunctions, in_order};
use sf_model::Arch;
use sf_write::{StoredFunction, StoredRows, WriteFault, write_stored};
use std::alloc::Global;

/// A section that was made, and what it holds.
#[derive(Drop)]
pub struct Slimmed {
    /// The section's bytes.
    pub section: Vec<u8>,
    /// The number of the section's functions.
    pub functions: u32,
    /// The number of the section's rows.
    pub rows: u32,
}

/// The functions that are written, and their rows.
#[derive(Drop)]
struct Written {
    functions: Vec<StoredFunction>,
    rows: StoredRows,
}

/// Stores the functions that have a row at some address, each with the rows that are needed. One function at a
/// time is read.
fn needed(alloc: Global, arch: Arch, ordered: &SectionFunctions<'_>) -> Result<Written, NoMemory>
    requires { All (λ (l : located). pass.has_row l.func ≡ true → IsWritable arch (pass.kept_function l.func)) ordered.now }
    ensures stored { IfOk result (λ needed. All (IsStored needed.rows) needed.functions.items) }
    ensures needed { IfOk result (λ needed. map (stored_in needed.rows) needed.functions.items ≡ map pass.kept_function (filter pass.has_row (map (λ (l : located). l.func) ordered.now))) }
{
    let mut rows = StoredRows::new(alloc);
    let mut functions = Vec::with_capacity(alloc, ordered.len())?;
    let mut kept = empty_function(alloc);
    for place in 0..ordered.len() {
        let head = ordered.head(place);
        if has_row(&head, ordered.rows(place)) {
            keep_function(&head, ordered.rows(place), &mut kept)?;
            functions.push(rows.push(arch, &kept)?)?;
        }
    }
    Ok(Written { functions, rows })
}

/// Makes the shortest section for the address `at` that recovers at every address what a section recovers:
/// without gaps and with the least widths, of the functions that have a row at some address, each with a row
/// where the content begins or changes. Functions of repeated blocks are taken over row for row.
///
/// # Errors
///
/// `Overlap` where two functions of the section share an address, also where one of them has no rows; then
/// `OutOfReach` where a function that is needed lies too far from the section; memory may run out at any time.
pub fn slim(alloc: Global, view: &View<'_>, at: u64) -> Result<Slimmed, SlimFault>
    // The section is that of what is needed.
    ensures slimmed { IfOk result (λ made. IsSlimmed (section_bytes view.now) (table_of view.now) at made.section.items made.functions made.rows) }
    // A fault is the first one.
    ensures fault { IfErr result (IsFirstSlimFault (section_bytes view.now) (table_of view.now) at) }
{
    let arch = view.arch();
    let ordered = in_order(alloc, view)?;
    check_overlap(view, &ordered)?;
    let needed = needed(alloc, arch, &ordered)?;
    match write_stored(alloc, arch, at, &needed.rows, &needed.functions) {
        Ok(section) => Ok(Slimmed {
            section,
            functions: needed.functions.len() as u32,
            rows: count_rows(&needed.functions),
        }),
        Err(WriteFault::OutOfReach(start)) => Err(SlimFault::OutOfReach(start)),
        Err(WriteFault::NoMemory) => Err(SlimFault::NoMemory),
    }
}

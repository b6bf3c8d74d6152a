//! A section upgraded.

ghost use Rattle.std.specs.Prelude.{◌≡◌, IfOk, IfErr};
ghost use Rattle.std.specs.Option.{option_map};
ghost use Rattle.sf_model.specs.Firsts.{unless};
ghost use Rattle.sf_decode.specs.View.{section_bytes, table_of};
ghost use Rattle.sf_functions.specs.Neighbours as neighbours;
ghost use Rattle.sf_merge.specs.Heads.{head_size, head_start};
ghost use Rattle.sf3_upgrade.specs.declared.fault.UpgradeFault.TheVariants.{Overlap};
ghost use Rattle.sf3_upgrade.specs.Answers.{IsFirstFault, IsUpgraded};
ghost use Rattle.sf3_upgrade.specs.Upgrading.{later_head, overlap_fault};

use crate::fault::UpgradeFault;
use sf_decode::View;
use sf_functions::{count_rows, first_overlap};
use sf_merge::{LocatedFunction, LocatedFunctions, all_in_order, written};
use sf_write::StoredList;
use sf3_write::{WriteFault, write_stored};
use std::alloc::Global;

/// A Version 3 section, and what it holds.
#[derive(Drop)]
pub struct Upgraded {
    /// The section's bytes.
    pub section: Vec<u8>,
    /// The number of the section's functions.
    pub functions: u32,
    /// The number of the section's rows.
    pub rows: u32,
}

/// Checks the head of each function against the one before it.
fn check_heads(view: &View<'_>, heads: &[LocatedFunction]) -> Result<(), UpgradeFault>
    ensures { result ≡ unless (option_map Overlap (option_map (later_head (section_bytes view.now)) (neighbours.first_overlap head_start head_size heads.now))) }
{
    match first_overlap(heads) {
        Some((_, function)) => Err(UpgradeFault::Overlap(view.entry_place(function.number))),
        None => Ok(()),
    }
}

/// Checks that no function shares an address with the one before it.
fn check_overlap(view: &View<'_>, ordered: &LocatedFunctions) -> Result<(), UpgradeFault>
    ensures { result ≡ unless (overlap_fault (section_bytes view.now) ordered.now) }
{
    check_heads(view, ordered.heads())
}

/// Makes a section of Version 2 into one of Version 3, for the address `at`. Each function that holds an address and has a row is
/// taken over row for row, by rising start.
///
/// # Errors
///
/// `Overlap` where two functions of the section share an address, also where one of them has no rows; then `TooManyRows` where a
/// function has more than 65,535 rows; memory may run out at any time.
pub fn upgrade(alloc: Global, view: &View<'_>, at: u64) -> Result<Upgraded, UpgradeFault>
    // The section is that of the functions that have rows.
    ensures upgraded { IfOk result (λ made. IsUpgraded (section_bytes view.now) (table_of view.now) at made.section.items made.functions made.rows) }
    // A fault is the first one.
    ensures fault { IfErr result (IsFirstFault (section_bytes view.now) (table_of view.now)) }
{
    let arch = view.arch();
    let ordered = all_in_order(alloc, &[*view])?;
    check_overlap(view, &ordered)?;
    let (functions, rows) = written(ordered);
    match write_stored(alloc, arch, at, &rows, &functions) {
        Ok(section) => Ok(Upgraded {
            section,
            functions: functions.len() as u32,
            rows: count_rows(&functions),
        }),
        Err(WriteFault::TooManyRows(start)) => Err(UpgradeFault::TooManyRows(start)),
        Err(WriteFault::NoMemory) => Err(UpgradeFault::NoMemory),
    }
}

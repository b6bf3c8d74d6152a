//! All checks of a section, in their order (SFrame Version 2).

ghost use Rattle.std.specs.Prelude.{◌≡◌};
ghost use Rattle.sf_decode.specs.Checking.{each_from, sum_from};
ghost use Rattle.sf_decode.specs.Entry.{entry_check};
ghost use Rattle.sf_decode.specs.Decoding as spec;

use crate::check::require;
use crate::entry::{Bounds, check_entry, entry_place, row_count_at};
use crate::fault::DecodeFault;
use crate::header::{check_header, function_count, row_count};
use crate::layout::ROW_COUNT_PLACE;

// Adds up the numbers of rows of the first `count` entries.
fn rows_of_entries(bytes: &[u8], count: u32) -> u64
    ensures { result ≡ sum_from 0 count (spec.rows_of_entry bytes.now) }
{
    let mut sum = 0;
    for i in 0..count {
        sum += u64::from(row_count_at(bytes, entry_place(bytes, i)));
    }
    sum
}

// Checks the first `count` entries with their rows, in order.
fn check_entries(bytes: &[u8], at: u64, count: u32) -> Result<(), DecodeFault>
    ensures { result ≡ each_from 0 count (entry_check bytes.now at) }
{
    let mut before = Bounds { start: 0, end: 0 };
    for i in 0..count {
        before = check_entry(bytes, at, i, before)?;
    }
    Ok(())
}

// Checks that the entries' numbers of rows add up to the header's.
#[tactic(auto, unfolding(crate::specs::Decoding::count_check))]
fn check_count(bytes: &[u8]) -> Result<(), DecodeFault>
    ensures { result ≡ spec.count_check bytes.now }
{
    let sum = rows_of_entries(bytes, function_count(bytes));
    require(
        sum == u64::from(row_count(bytes)),
        DecodeFault::Count(ROW_COUNT_PLACE),
    )
}

/// Checks a section at an address: the first check that fails is its fault.
#[tactic(auto, unfolding(crate::specs::Decoding::section_check))]
pub fn check_section(bytes: &[u8], at: u64) -> Result<(), DecodeFault>
    ensures { result ≡ spec.section_check bytes.now at }
{
    check_header(bytes)?;
    check_count(bytes)?;
    check_entries(bytes, at, function_count(bytes))
}

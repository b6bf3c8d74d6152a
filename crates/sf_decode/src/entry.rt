//! Function descriptor entries (SFrame Version 2).

ghost use Rattle.std.specs.Prelude.{◌≡◌, ◌<◌, ◌+◌, ◌-◌, ◌^◌, ◌==◌, ◌&&◌, not, IfOk, IsTrue};
ghost use Rattle.sf_model.specs.Section as section;
ghost use Rattle.sf_decode.specs.Bounds.{bounds_of};
ghost use Rattle.sf_decode.specs.Checking.{verdict, where_so};
ghost use Rattle.sf_decode.specs.Entry as spec;

use crate::check::require;
use crate::fault::DecodeFault;
use crate::header::{arch_of, flags_of, functions_place, row_bytes, rows_place};
use crate::layout::{
    COUNTS_FROM_FIELD, ENTRY_ROW_COUNT_PLACE, FUNCTION_ENTRY_LEN, FUNCTION_TYPE, INFO_PLACE, KEY,
    MOST_WIDTH, REPEAT_SIZE_PLACE, ROW_OFFSET_PLACE, ROW_TYPES, SIZE_PLACE, SORTED,
};
use crate::number::{byte_at, u32_at};
use crate::row::check_rows;
use sf_model::{Arch, Key, Shape};

/// Where the function of an entry starts and ends, moved up by 2^31, so that neither is below 0.
#[derive(Clone, Copy)]
pub struct Bounds {
    pub start: u128,
    pub end: u128,
}

/// Returns the place of an entry.
#[inline(always)]
pub fn entry_place(bytes: &[u8], i: u32) -> u64
    ensures value { result ≡ spec.entry_place bytes.now i }
    ensures small { result < 2 ^ 40 }
{
    functions_place(bytes) + FUNCTION_ENTRY_LEN * u64::from(i)
}

/// Returns the size of the function in bytes.
#[inline(always)]
pub fn size_at(bytes: &[u8], place: u64) -> u32
    requires { place < 2 ^ 62 }
    ensures { result ≡ spec.size_at bytes.now place }
{
    u32_at(bytes, place + SIZE_PLACE)
}

/// Returns the place of the function's first row in the sub-section of rows.
#[inline(always)]
pub fn row_offset_at(bytes: &[u8], place: u64) -> u32
    requires { place < 2 ^ 62 }
    ensures { result ≡ section.row_offset_at bytes.now place }
{
    u32_at(bytes, place + ROW_OFFSET_PLACE)
}

/// Returns the number of the function's rows.
#[inline(always)]
pub fn row_count_at(bytes: &[u8], place: u64) -> u32
    requires { place < 2 ^ 62 }
    ensures { result ≡ spec.row_count_at bytes.now place }
{
    u32_at(bytes, place + ENTRY_ROW_COUNT_PLACE)
}

// Returns the info byte.
#[inline(always)]
fn info_at(bytes: &[u8], place: u64) -> u8
    requires { place < 2 ^ 62 }
    ensures { result ≡ spec.info_at bytes.now place }
{
    byte_at(bytes, place + INFO_PLACE)
}

// Returns the repeat size.
#[inline(always)]
fn repeat_size_at(bytes: &[u8], place: u64) -> u8
    requires { place < 2 ^ 62 }
    ensures { result ≡ spec.repeat_size_at bytes.now place }
{
    byte_at(bytes, place + REPEAT_SIZE_PLACE)
}

/// Returns the width of the function's row starts.
#[inline(always)]
pub fn start_width_at(bytes: &[u8], place: u64) -> u8
    requires { place < 2 ^ 62 }
    ensures { result ≡ section.start_width_at bytes.now place }
{
    info_at(bytes, place) % ROW_TYPES
}

// Returns whether functions are sorted by start.
#[inline(always)]
fn is_sorted(flags: u8) -> bool
    ensures { result ≡ section.is_sorted flags }
{
    flags % 2 == SORTED
}

// Returns the address that a start counts from.
#[inline(always)]
fn start_origin(flags: u8, at: u64, place: u64) -> u128
    ensures value { result ≡ section.start_origin flags at place }
    ensures small { result < 2 ^ 65 }
{
    if flags / COUNTS_FROM_FIELD % 2 == 1 {
        u128::from(at) + u128::from(place)
    } else {
        u128::from(at)
    }
}

// Returns the start moved up by 2^31, so that it is never below 0.
#[tactic(auto, unfolding(crate::specs::Entry::raised_start))]
#[inline(always)]
fn raised_start(bytes: &[u8], at: u64, place: u64) -> u128
    requires { place < 2 ^ 62 }
    ensures value { result ≡ spec.raised_start bytes.now at place }
    ensures small { result < 2 ^ 66 }
{
    let field = u32_at(bytes, place).wrapping_add(1 << 31);
    start_origin(flags_of(bytes), at, place) + u128::from(field)
}

// Returns whether the rows repeat.
#[inline(always)]
fn is_repeated(info: u8) -> bool
    ensures { result ≡ spec.is_repeated info }
{
    info / FUNCTION_TYPE % 2 == 1
}

// Returns the key.
#[inline(always)]
fn key_of(info: u8) -> Key
    ensures { result ≡ spec.key_in info }
{
    if info / KEY % 2 == 0 { Key::A } else { Key::B }
}

// Returns whether only bits that have a meaning are set, and the machine has the key.
#[inline(always)]
fn is_known_info(arch: Arch, info: u8) -> bool
    ensures { result ≡ spec.is_known_info arch info }
{
    match (arch, key_of(info)) {
        (Arch::Amd64, Key::B) => false,
        _ => info < 64,
    }
}

// Returns whether a function whose rows repeat has a repeat size.
#[inline(always)]
fn has_repeat_size(info: u8, size: u8) -> bool
    ensures { result ≡ spec.has_repeat_size info size }
{
    !is_repeated(info) || size != 0
}

// Returns whether a function's start is an address, and its end is at most 2^64.
#[inline(always)]
fn lies_in_memory(bounds: Bounds) -> bool
    ensures { result ≡ spec.lies_in_memory bounds.start bounds.end }
{
    let end = (1 << 64) + (1 << 31);
    1 << 31 <= bounds.start && bounds.start < end && bounds.end <= end
}

// Returns where the function of an entry starts and ends.
#[inline(always)]
fn bounds_at(bytes: &[u8], at: u64, place: u64) -> Bounds
    requires { place < 2 ^ 62 }
    ensures { result ≡ bounds_of bytes.now at place }
{
    let start = raised_start(bytes, at, place);
    Bounds {
        start,
        end: start + u128::from(size_at(bytes, place)),
    }
}

// Checks an entry's own fields. Returns where its function starts and ends.
#[tactic(auto, unfolding(crate::specs::Entry::entry_fields_check, crate::specs::Entry::is_in_memory))]
#[inline(always)]
fn check_fields(bytes: &[u8], at: u64, place: u64) -> Result<Bounds, DecodeFault>
    requires { place < 2 ^ 62 }
    ensures checked { verdict result ≡ spec.entry_fields_check bytes.now at place }
    ensures bounds { IfOk result (λ bounds. bounds ≡ bounds_of bytes.now at place) }
{
    let info = info_at(bytes, place);
    require(
        start_width_at(bytes, place) <= MOST_WIDTH,
        DecodeFault::RowType(place),
    )?;
    require(
        is_known_info(arch_of(bytes), info),
        DecodeFault::Reserved(place),
    )?;
    require(
        has_repeat_size(info, repeat_size_at(bytes, place)),
        DecodeFault::RepeatZero(place),
    )?;
    let bounds = bounds_at(bytes, at, place);
    require(lies_in_memory(bounds), DecodeFault::AddressRange(place))?;
    Ok(bounds)
}

// Checks that a function of a sorted section starts where the one before ends, or after.
#[inline(always)]
fn check_order(before: Bounds, here: Bounds, place: u64) -> Result<(), DecodeFault>
    ensures { result ≡ spec.behind_check before.start before.end here.start place }
{
    require(before.start <= here.start, DecodeFault::Unsorted(place))?;
    require(before.end <= here.start, DecodeFault::Overlap(place))
}

// Checks the order, where functions are sorted and there is an entry before.
#[inline(always)]
fn check_follows(bytes: &[u8], i: u32, before: Bounds, here: Bounds) -> Result<(), DecodeFault>
    ensures { result ≡ where_so (section.is_sorted (spec.flags_in bytes.now) && not (i == 0)) (spec.behind_check before.start before.end here.start (spec.entry_place bytes.now i)) }
{
    if !is_sorted(flags_of(bytes)) || i == 0 {
        return Ok(());
    }
    check_order(before, here, entry_place(bytes, i))
}

// Checks the rows of an entry.
#[tactic(auto, unfolding(crate::specs::Entry::entry_rows_check))]
fn check_entry_rows(bytes: &[u8], place: u64) -> Result<(), DecodeFault>
    requires { place < 2 ^ 62 }
    ensures { result ≡ spec.entry_rows_check bytes.now place }
{
    check_rows(
        arch_of(bytes),
        row_bytes(bytes),
        rows_place(bytes),
        start_width_at(bytes, place),
        row_offset_at(bytes, place),
        row_count_at(bytes, place),
    )
}

/// Checks an entry: its fields, its order, its rows. `before` is where the function of the entry before starts and
/// ends, or anything for the first entry. Returns where the function of this entry starts and ends.
pub fn check_entry(bytes: &[u8], at: u64, i: u32, before: Bounds) -> Result<Bounds, DecodeFault>
    requires before { 0 < i → before ≡ bounds_of bytes.now at (spec.entry_place bytes.now (i - 1)) }
    ensures checked { verdict result ≡ spec.entry_check bytes.now at i }
    ensures bounds { IfOk result (λ bounds. bounds ≡ bounds_of bytes.now at (spec.entry_place bytes.now i)) }
{
    let place = entry_place(bytes, i);
    let here = check_fields(bytes, at, place)?;
    check_follows(bytes, i, before, here)?;
    check_entry_rows(bytes, place)?;
    Ok(here)
}

/// Returns the function's start.
#[tactic(auto, unfolding(crate::specs::Entry::is_in_memory))]
#[inline(always)]
pub fn start_at(bytes: &[u8], at: u64, place: u64) -> u64
    requires near { place < 2 ^ 62 }
    requires address { IsTrue (spec.is_in_memory bytes.now at place) }
    ensures { result ≡ spec.start_in bytes.now at place }
{
    (raised_start(bytes, at, place) - (1 << 31)) as u64
}

/// Returns how the rows are looked up.
#[inline(always)]
pub fn shape_at(bytes: &[u8], place: u64) -> Shape
    requires { place < 2 ^ 62 }
    ensures { result ≡ spec.shape_in (spec.info_at bytes.now place) (spec.repeat_size_at bytes.now place) }
{
    if is_repeated(info_at(bytes, place)) {
        Shape::Repeat(repeat_size_at(bytes, place))
    } else {
        Shape::Plain
    }
}

/// Returns the key of the function's signed return addresses.
#[inline(always)]
pub fn key_at(bytes: &[u8], place: u64) -> Key
    requires { place < 2 ^ 62 }
    ensures { result ≡ spec.key_in (spec.info_at bytes.now place) }
{
    key_of(info_at(bytes, place))
}

//! Frame row entries (SFrame Version 2).

ghost use Rattle.std.specs.Prelude.{◌≡◌, ◌<◌, ◌≤◌, ◌+◌, ◌*◌, ◌^◌, length, OnOk};
ghost use Rattle.sf_decode.specs.Row as spec;

use crate::check::require;
use crate::fault::DecodeFault;
use crate::layout::{MOST_WIDTH, OFFSET_COUNT, OFFSET_COUNTS, OFFSET_WIDTH, OFFSET_WIDTHS, SIGNED};
use crate::number::{byte_at, number_len, signed_at, unsigned_at};
use sf_model::{Arch, Base, Content, Ra, Row};

// Returns the place of a row's info byte, after its start.
#[inline(always)]
fn info_place(start_width: u8, place: u64) -> u64
    requires { place < 2 ^ 62 }
    ensures value { result ≡ spec.info_place start_width place }
    ensures near { result ≤ place + 4 }
{
    place + number_len(start_width)
}

// Returns the place of a row's first offset.
#[inline(always)]
fn offsets_place(start_width: u8, place: u64) -> u64
    requires { place < 2 ^ 62 }
    ensures value { result ≡ spec.offsets_place start_width place }
    ensures near { result ≤ place + 5 }
{
    info_place(start_width, place) + 1
}

// Returns the base of the canonical frame address by the info byte.
#[inline(always)]
fn base_of(info: u8) -> Base
    ensures { result ≡ spec.base_in info }
{
    if info % 2 == 0 { Base::Fp } else { Base::Sp }
}

// Returns the number of offsets.
#[inline(always)]
fn offset_count(info: u8) -> u8
    ensures value { result ≡ spec.offset_count_in info }
    ensures most { result < 16 }
{
    info / OFFSET_COUNT % OFFSET_COUNTS
}

// Returns the width of the offsets.
#[inline(always)]
fn offset_width(info: u8) -> u8
    ensures value { result ≡ spec.offset_width_in info }
    ensures most { result < 4 }
{
    info / OFFSET_WIDTH % OFFSET_WIDTHS
}

// Returns whether the return address is signed.
#[inline(always)]
fn is_signed(info: u8) -> bool
    ensures { result ≡ spec.is_signed_in info }
{
    SIGNED <= info
}

// Returns a row's info byte.
#[inline(always)]
fn info_at(rows: &[u8], start_width: u8, place: u64) -> u8
    requires { place < 2 ^ 62 }
    ensures { result ≡ spec.row_info rows.now start_width place }
{
    byte_at(rows, info_place(start_width, place))
}

// Returns how many bytes `count` numbers of a width have.
#[inline(always)]
fn numbers_len(width: u8, count: u8) -> u64
    requires { count < 16 }
    ensures value { result ≡ count * spec.number_len width }
    ensures most { result < 64 }
{
    let count = u64::from(count);
    match width {
        0 => count,
        1 => 2 * count,
        _ => 4 * count,
    }
}

/// Returns where a row ends.
#[inline(always)]
pub fn row_end(rows: &[u8], start_width: u8, place: u64) -> u64
    requires { place < 2 ^ 62 }
    ensures value { result ≡ spec.row_end start_width place (spec.row_info rows.now start_width place) }
    ensures near { result ≤ place + 68 }
{
    let info = info_at(rows, start_width, place);
    offsets_place(start_width, place) + numbers_len(offset_width(info), offset_count(info))
}

// Returns whether the machine's rows can have `count` offsets.
#[inline(always)]
fn has_offset_count(arch: Arch, count: u8) -> bool
    ensures { result ≡ spec.has_offset_count arch count }
{
    match arch {
        Arch::Amd64 => 1 <= count && count <= 2,
        Arch::Aarch64 => 1 <= count && count <= 3,
    }
}

// Returns whether the machine's return addresses can be signed, where one is.
#[inline(always)]
fn may_be_signed(arch: Arch, signed: bool) -> bool
    ensures { result ≡ spec.may_be_signed arch signed }
{
    match arch {
        Arch::Amd64 => !signed,
        Arch::Aarch64 => true,
    }
}

// Checks a row: `origin` is the place of the sub-section of rows, `least` the least start.
#[tactic(auto, unfolding(crate::specs::Row::row_check))]
#[inline(always)]
fn check_row(
    arch: Arch,
    rows: &[u8],
    origin: u64,
    start_width: u8,
    place: u64,
    least: u64,
) -> Result<(), DecodeFault>
    requires origin { origin < 2 ^ 33 }
    requires place { place < 2 ^ 33 }
    ensures check { result ≡ spec.row_check arch rows.now origin start_width place least }
    ensures within { OnOk result (spec.row_end start_width place (spec.row_info rows.now start_width place) ≤ length rows.now) }
{
    let len = rows.len() as u64;
    let at = origin + place;
    require(
        offsets_place(start_width, place) <= len,
        DecodeFault::Layout(at),
    )?;
    let info = info_at(rows, start_width, place);
    require(
        offset_width(info) <= MOST_WIDTH,
        DecodeFault::OffsetSize(at),
    )?;
    require(
        has_offset_count(arch, offset_count(info)),
        DecodeFault::OffsetCount(at),
    )?;
    require(
        row_end(rows, start_width, place) <= len,
        DecodeFault::Layout(at),
    )?;
    require(
        may_be_signed(arch, is_signed(info)),
        DecodeFault::Reserved(at),
    )?;
    let start = unsigned_at(rows, start_width, place);
    require(least <= u64::from(start), DecodeFault::RowOrder(at))
}

/// Checks `count` rows from a place on. Rows of the usual kinds have a loop of their own each.
pub fn check_rows(
    arch: Arch,
    rows: &[u8],
    origin: u64,
    start_width: u8,
    first: u32,
    count: u32,
) -> Result<(), DecodeFault>
    requires origin { origin < 2 ^ 33 }
    requires small { length rows.now < 2 ^ 32 }
    ensures { result ≡ spec.rows_check arch rows.now origin start_width first 0 count }
{
    match (arch, start_width) {
        (Arch::Amd64, 0) => check_each_row(Arch::Amd64, rows, origin, 0, first, count),
        (Arch::Amd64, 1) => check_each_row(Arch::Amd64, rows, origin, 1, first, count),
        (Arch::Aarch64, 0) => check_each_row(Arch::Aarch64, rows, origin, 0, first, count),
        (Arch::Aarch64, 1) => check_each_row(Arch::Aarch64, rows, origin, 1, first, count),
        _ => check_each_row(arch, rows, origin, start_width, first, count),
    }
}

// Checks `count` rows from a place on, in one loop.
#[inline(always)]
fn check_each_row(
    arch: Arch,
    rows: &[u8],
    origin: u64,
    start_width: u8,
    first: u32,
    count: u32,
) -> Result<(), DecodeFault>
    requires origin { origin < 2 ^ 33 }
    requires small { length rows.now < 2 ^ 32 }
    ensures { result ≡ spec.rows_check arch rows.now origin start_width first 0 count }
{
    let mut place = u64::from(first);
    let mut least = 0;
    for _row in 0..count {
        check_row(arch, rows, origin, start_width, place, least)?;
        least = u64::from(unsigned_at(rows, start_width, place)) + 1;
        place = row_end(rows, start_width, place);
    }
    Ok(())
}

// Returns where the return address is, by the number of offsets and the second one.
#[inline(always)]
fn return_address(arch: Arch, count: u8, second: i32) -> Ra
    ensures { result ≡ spec.ra_in arch count second }
{
    match arch {
        Arch::Amd64 => Ra::Fixed,
        Arch::Aarch64 if 2 <= count => Ra::At(second),
        Arch::Aarch64 => Ra::Link,
    }
}

// Returns where the frame pointer is saved, by the number of offsets, the second and the third one.
#[inline(always)]
fn frame_pointer(arch: Arch, count: u8, second: i32, third: i32) -> Option<i32>
    ensures { result ≡ spec.fp_in arch count second third }
{
    match arch {
        Arch::Amd64 if 2 <= count => Some(second),
        Arch::Aarch64 if 3 <= count => Some(third),
        _ => None,
    }
}

// Returns a row's content, by its info byte and the place of its first offset.
#[tactic(auto, unfolding(crate::specs::Row::content_in))]
#[inline(always)]
fn content_at(arch: Arch, rows: &[u8], info: u8, first: u64) -> Content
    requires { first < 2 ^ 62 }
    ensures { result ≡ spec.content_in arch rows.now info first }
{
    let count = offset_count(info);
    let width = offset_width(info);
    let len = number_len(width);
    let second = signed_at(rows, width, first + len);
    let third = signed_at(rows, width, first + len + len);
    Content {
        base: base_of(info),
        cfa: signed_at(rows, width, first),
        ra: return_address(arch, count, second),
        fp: frame_pointer(arch, count, second, third),
        signed: is_signed(info),
    }
}

/// Returns the row at a place.
#[tactic(auto, unfolding(crate::specs::Row::row_in))]
#[inline(always)]
pub fn row_at(arch: Arch, rows: &[u8], start_width: u8, place: u64) -> Row
    requires { place < 2 ^ 61 }
    ensures { result ≡ spec.row_in arch rows.now start_width place }
{
    let info = info_at(rows, start_width, place);
    Row {
        start: unsigned_at(rows, start_width, place),
        content: content_at(arch, rows, info, offsets_place(start_width, place)),
    }
}

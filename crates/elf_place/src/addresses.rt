//! The addresses of sections.

ghost use Rattle.std.specs.Prelude.{◌≡◌, ◌<◌, ◌≤◌, ◌^◌, length, map, IfOk};
ghost use Rattle.elf_read.specs.Checking.{each_below, numbers_below, verdict};
ghost use Rattle.elf_read.specs.Header.{is_rel};
ghost use Rattle.elf_read.specs.Sections.{section_count};
ghost use Rattle.elf_read.specs.Input.{file};
ghost use Rattle.elf_place.specs.Cursor as by_cursor;
ghost use Rattle.elf_place.specs.Place as spec;

use crate::checks::is_placed;
use crate::fault::PlaceFault;
use elf_read::{ElfInput, Kind};
use std::alloc::Global;

/// The first number after all addresses.
const ADDRESS_END: u128 = 1 << 64;

/// A section's address, where it gets one, and the cursor after it.
#[derive(Clone, Copy)]
struct Spot {
    address: Option<u64>,
    cursor: u128,
}

// Returns the least multiple of the alignment that is not below the number.
#[tactic(auto, unfolding(crate::specs::Place::aligned))]
fn align_up(from: u128, align: u64) -> u128
    requires { from ≤ 2 ^ 64 }
    ensures value { result ≡ spec.aligned from align }
    ensures small { result < 2 ^ 65 }
{
    if align == 0 {
        return from;
    }
    let align = u128::from(align);
    (from + (align - 1)) / align * align
}

// Returns whether the file is an object, whose sections have no addresses of their own.
#[tactic(auto, unfolding(elf_read::specs::Header::kind_of))]
fn is_object(elf: &ElfInput<'_>) -> bool
    ensures { result ≡ is_rel (file elf.now) }
{
    matches!(elf.kind(), Kind::Rel)
}

// Returns where a section starts.
#[tactic(auto, unfolding(crate::specs::Cursor::start_from))]
fn start_from(elf: &ElfInput<'_>, base: u64, cursor: u128, i: u32) -> u128
    requires small { cursor ≤ 2 ^ 64 }
    requires index { i < section_count (file elf.now) }
    ensures value { result ≡ by_cursor.start_from (file elf.now) base cursor i }
    ensures small { result < 2 ^ 66 }
{
    let section = elf.section(i);
    if is_object(elf) {
        align_up(cursor, section.align)
    } else {
        u128::from(base) + u128::from(section.addr)
    }
}

// Returns whether a section starts below 2^64 and ends there or before.
fn is_in_memory(start: u128, size: u64) -> bool
    requires { start < 2 ^ 66 }
    ensures { result ≡ spec.has_addresses start size }
{
    start < ADDRESS_END && start + u128::from(size) <= ADDRESS_END
}

// Places a section at the cursor.
#[tactic(auto, unfolding(crate::specs::Cursor::address_from, crate::specs::Cursor::cursor_from, crate::specs::Cursor::overflow_from))]
fn place_section(
    elf: &ElfInput<'_>,
    base: u64,
    dropped: &[bool],
    cursor: u128,
    i: u32,
) -> Result<Spot, PlaceFault>
    requires index { i < length dropped.now }
    requires all { length dropped.now ≡ section_count (file elf.now) }
    requires small { cursor ≤ 2 ^ 64 }
    ensures address { IfOk result (λ s. s.address ≡ by_cursor.address_from (file elf.now) dropped.now base cursor i) }
    ensures cursor { IfOk result (λ s. s.cursor ≡ by_cursor.cursor_from (file elf.now) dropped.now base cursor i) }
    ensures end { IfOk result (λ s. s.cursor ≤ 2 ^ 64) }
    ensures exact { verdict result ≡ by_cursor.overflow_from (file elf.now) dropped.now base cursor i }
{
    if !is_placed(elf, dropped, i) {
        return Ok(Spot {
            address: None,
            cursor,
        });
    }
    let start = start_from(elf, base, cursor, i);
    let size = elf.section(i).size;
    if !is_in_memory(start, size) {
        return Err(PlaceFault::AddressOverflow(i));
    }
    Ok(Spot {
        address: Some(start as u64),
        cursor: start + u128::from(size),
    })
}

/// Returns the address of each section, where it has one.
pub fn addresses_of(
    alloc: Global,
    elf: &ElfInput<'_>,
    base: u64,
    dropped: &[bool],
    count: u32,
) -> Result<Vec<Option<u64>>, PlaceFault>
    requires count { count ≡ length dropped.now }
    requires all { length dropped.now ≡ section_count (file elf.now) }
    ensures value { IfOk result (λ v. v.items ≡ map (spec.address_of (file elf.now) dropped.now base) (numbers_below count)) }
    ensures exact { spec.Gives result (each_below count (spec.overflow_check (file elf.now) dropped.now base)) }
{
    let mut addresses = Vec::new(alloc);
    let mut cursor = u128::from(base);
    for i in 0..count {
        let spot = place_section(elf, base, dropped, cursor, i)?;
        addresses.push(spot.address)?;
        cursor = spot.cursor;
    }
    Ok(addresses)
}

/// Returns how far the addresses of a file are from those in its headers.
#[tactic(auto, unfolding(crate::specs::Place::shift_of))]
pub fn shift_of(elf: &ElfInput<'_>, base: u64) -> u64
    ensures { result ≡ spec.shift_of (file elf.now) base }
{
    if is_object(elf) { 0 } else { base }
}

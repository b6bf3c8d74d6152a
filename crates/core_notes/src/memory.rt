//! Reads of the memory that a core file holds.

ghost use Rattle.std.specs.Prelude.{◌≡◌, ◌<◌, ◌≤◌, true, length, slice_index_or, ℕ};
ghost use Rattle.std.specs.List.{find};
ghost use Rattle.std.specs.Option.{option_map};
ghost use Rattle.sf_model.specs.Memory.{read_eight};
ghost use Rattle.elf_read.specs.Views.{file};
ghost use Rattle.sf_lookup.specs.Spans.{InOrder};
ghost use Rattle.core_notes.specs.Memory as spec;
ghost use Rattle.core_notes.specs.Memory.{file_regions, is_holder};
ghost use Rattle.core_notes.specs.MemoryBytes.{is_bytes_holder};
ghost use Rattle.core_notes.specs.Order.{IsOrder};
ghost use Rattle.core_notes.specs.Segment.{segment_view, segments};

use crate::layout::PT_LOAD;
use crate::segment::segment_at;
use elf_read::{Elf, Segment, u64_at};
use sf_lookup::Spans;

/// Returns whether a segment is memory that holds all of `len` bytes from an address on.
#[inline(always)]
pub fn is_holder(segment: &Segment<'_>, address: u64, len: u64) -> bool
    ensures { result ≡ is_bytes_holder address len (segment_view segment.now) }
{
    segment.kind == PT_LOAD
        && segment.vaddr <= address
        && u128::from(address) + u128::from(len)
            <= u128::from(segment.vaddr) + segment.bytes.len() as u128
}

/// Returns where the memory of a segment ends.
fn memory_end(segment: &Segment<'_>) -> u128
    ensures { result ≡ spec.memory_end (segment_view segment.now) }
{
    if segment.kind == PT_LOAD {
        u128::from(segment.vaddr) + segment.bytes.len() as u128
    } else {
        u128::from(segment.vaddr)
    }
}

/// Returns whether each segment has its address where the memory before it ends, or after.
pub fn rise(elf: &Elf<'_>) -> bool
    ensures { result ≡ spec.rise_from 0 (segments (file elf.now)) }
{
    let mut end = 0;
    for i in 0..elf.segments() {
        let segment = segment_at(elf, i);
        if u128::from(segment.vaddr) < end {
            return false;
        }
        end = memory_end(&segment);
    }
    true
}

/// Finds the first segment that holds the bytes, in whatever order the segments are.
pub fn by_scan<'a>(elf: &Elf<'a>, address: u64, len: u64) -> Option<Segment<'a>>
    ensures { option_map segment_view result ≡ find (is_bytes_holder address len) (segments (file elf.now)) }
{
    for i in 0..elf.segments() {
        let segment = segment_at(elf, i);
        if is_holder(&segment, address, len) {
            return Some(segment);
        }
    }
    None
}

/// Returns how many segments have an address that is not above this one. The addresses rise.
fn count_upto(elf: &Elf<'_>, address: u64) -> u32
    requires { spec.rise_from 0 (segments (file elf.now)) ≡ true }
    ensures { spec.IsCountUpto address (segments (file elf.now)) result }
{
    // Each address before `low` is reached, and none from `high` on.
    let mut low = 0;
    let mut high = elf.segments();
    while low < high {
        let middle = low + (high - low) / 2;
        if segment_at(elf, middle).vaddr <= address {
            low = middle + 1;
        } else {
            high = middle;
        }
    }
    low
}

/// Finds the first segment that holds the bytes, at least one, where the addresses rise: only the last segment whose
/// address is not above can hold them, since the memory of each earlier one ends before.
pub fn by_halves<'a>(elf: &Elf<'a>, address: u64, len: u64) -> Option<Segment<'a>>
    requires rise { spec.rise_from 0 (segments (file elf.now)) ≡ true }
    requires some { 0 < len }
    ensures { option_map segment_view result ≡ find (is_bytes_holder address len) (segments (file elf.now)) }
{
    let i = count_upto(elf, address).checked_sub(1)?;
    let segment = segment_at(elf, i);
    is_holder(&segment, address, len).then_some(segment)
}

/// Finds the first segment that holds the eight bytes from an address on, by the order in which the segments were put.
pub fn by_spans<'a>(elf: &Elf<'a>, spans: &Spans<u32>, address: u64) -> Option<Segment<'a>>
    requires { InOrder spans.now (spec.holdings 0 (segments (file elf.now))) }
    ensures { option_map segment_view result ≡ find (is_holder address) (segments (file elf.now)) }
{
    let i = spans.first_at(address)?;
    Some(segment_at(elf, i))
}

/// What is known of the order of segments.
#[derive(Clone, Copy)]
pub enum Order<'a> {
    /// Their addresses rise.
    Rising,
    /// Nothing.
    Unknown,
    /// Those that hold memory were put in order.
    Put(&'a Spans<u32>),
}

/// Finds the first segment that holds the eight bytes from an address on.
fn holder<'a>(elf: &Elf<'a>, order: Order<'_>, address: u64) -> Option<Segment<'a>>
    requires { IsOrder order (segments (file elf.now)) }
    ensures { option_map segment_view result ≡ find (is_holder address) (segments (file elf.now)) }
{
    match order {
        Order::Rising => by_halves(elf, address, 8),
        Order::Unknown => by_scan(elf, address, 8),
        Order::Put(spans) => by_spans(elf, spans, address),
    }
}

/// Reads the number in the eight bytes from an address on.
pub fn read_eight(elf: &Elf<'_>, order: Order<'_>, address: u64) -> Option<u64>
    requires { IsOrder order (segments (file elf.now)) }
    ensures { result ≡ read_eight (file_regions (file elf.now)) address }
{
    if address > u64::MAX - 7 {
        return None;
    }
    let segment = holder(elf, order, address)?;
    Some(u64_at(segment.bytes, address - segment.vaddr))
}

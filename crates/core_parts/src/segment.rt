//! The segments of a core file by their program headers (ELF64 gABI, "Program Header").

ghost use Rattle.std.specs.Prelude.{◌≡◌, map, IfOk};
ghost use Rattle.std.specs.List.{list_any};
ghost use Rattle.core_parts.specs.Heads as spec;

use sf_lookup::Span;
use std::alloc::{AllocError, Global};

/// The type of a segment that is loaded.
pub const PT_LOAD: u32 = 1;
/// The type of a segment of notes.
pub const PT_NOTE: u32 = 4;

/// The program header of a segment.
#[derive(Clone, Copy)]
pub struct SegmentHead {
    /// Its type.
    pub kind: u32,
    /// The address of its first byte.
    pub vaddr: u64,
    /// The place of its bytes in the file.
    pub place: u64,
    /// How many bytes it has in the file.
    pub size: u64,
    /// How many bytes it has in memory.
    pub memory_size: u64,
    /// Whether it may be executed.
    pub executable: bool,
}

/// Returns whether the segment is memory.
#[inline(always)]
pub fn is_memory(head: &SegmentHead) -> bool
    ensures { result ≡ spec.is_memory head.now }
{
    head.kind == PT_LOAD
}

/// Returns whether the segment is memory that has all of `len` bytes from an address on.
#[inline(always)]
pub fn head_holds(head: &SegmentHead, address: u64, len: u64) -> bool
    ensures { result ≡ spec.head_holds address len head.now }
{
    is_memory(head)
        && head.vaddr <= address
        && u128::from(address) + u128::from(len) <= u128::from(head.vaddr) + u128::from(head.size)
}

/// Returns whether a segment that is memory has its address where the memory before it ends, or after.
pub fn rises(head: &SegmentHead, end: u128) -> bool
    ensures { result ≡ spec.rises end head.now }
{
    !is_memory(head) || end <= u128::from(head.vaddr)
}

/// Returns where the memory up to a segment ends, if the memory before it ends at `end`.
pub fn end_after(head: &SegmentHead, end: u128) -> u128
    ensures { result ≡ spec.end_after end head.now }
{
    if is_memory(head) {
        u128::from(head.vaddr) + u128::from(head.size)
    } else {
        end
    }
}

/// Returns whether each segment that is memory has its address where the memory before it ends, or after.
pub fn heads_rise(heads: &[SegmentHead]) -> bool
    ensures { result ≡ spec.heads_rise 0 heads.now }
{
    let mut end = 0;
    for head in heads {
        if !rises(head, end) {
            return false;
        }
        end = end_after(head, end);
    }
    true
}

/// Returns whether the bytes of a segment lie in a file of this length.
pub fn head_lies(head: &SegmentHead, len: u64) -> bool
    ensures { result ≡ spec.head_lies len head.now }
{
    u128::from(head.place) + u128::from(head.size) <= u128::from(len)
}

/// Returns whether the bytes of each segment lie in a file of this length.
pub fn heads_lie(heads: &[SegmentHead], len: u64) -> bool
    ensures { result ≡ spec.heads_lie len heads.now }
{
    heads.iter().all(|head| head_lies(head, len))
}

// Returns the addresses at which a segment has bytes, which lead to it.
fn held_span(head: &SegmentHead) -> Span<SegmentHead>
    ensures { result ≡ spec.held_span head.now }
{
    Span {
        start: head.vaddr,
        size: if is_memory(head) { head.size } else { 0 },
        leads_to: *head,
    }
}

/// Returns the addresses at which all segments have bytes.
pub fn held_spans(
    alloc: Global,
    heads: &[SegmentHead],
) -> Result<Vec<Span<SegmentHead>>, AllocError>
    ensures { IfOk result (λ spans. spans.items ≡ map spec.held_span heads.now) }
{
    let mut spans = Vec::with_capacity(alloc, heads.len())?;
    for head in heads {
        spans.push(held_span(head))?;
    }
    Ok(spans)
}

/// Returns whether one of the segments is memory that has all of `len` bytes from an address on, read or not.
pub fn any_holds(heads: &[SegmentHead], address: u64, len: u64) -> bool
    ensures { result ≡ list_any (spec.head_holds address len) heads.now }
{
    heads.iter().any(|head| head_holds(head, address, len))
}

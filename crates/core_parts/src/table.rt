//! The program headers of a core file, by their bytes alone (ELF64 gABI, "Program Header").

ghost use Rattle.std.specs.Prelude.{◌≡◌, [], ◌∷◌, map, filter, length, IfOk, IfSome};
ghost use Rattle.std.specs.List.{find, range_with_len};
ghost use Rattle.elf_read.specs.Number.{has_flag};
ghost use Rattle.core_parts.specs.Heads.{is_note};
ghost use Rattle.core_parts.specs.Table as spec;

use crate::header::{e_phnum, is_core_header, is_table};
use crate::segment::{PT_NOTE, SegmentHead, heads_lie, heads_rise};
use elf_read::layout::{
    P_FILESZ, P_FLAGS, P_MEMSZ, P_OFFSET, P_TYPE, P_VADDR, PF_X, PROGRAM_HEADER_LEN,
};
use elf_read::{u32_at, u64_at};
use sf_base::NoMemory;
use sf_bytes::FilePart;
use std::alloc::Global;

// Returns whether the flags of a segment have PF_X.
fn is_executable(flags: u32) -> bool
    ensures { result ≡ has_flag flags 1 }
{
    u64::from(flags) / PF_X % 2 == 1
}

/// Returns a program header of a table.
pub fn head_at(table: &[u8], i: u16) -> SegmentHead
    ensures { result ≡ spec.head_at table.now i }
{
    let at = PROGRAM_HEADER_LEN * u64::from(i);
    SegmentHead {
        kind: u32_at(table, at + P_TYPE),
        vaddr: u64_at(table, at + P_VADDR),
        place: u64_at(table, at + P_OFFSET),
        size: u64_at(table, at + P_FILESZ),
        memory_size: u64_at(table, at + P_MEMSZ),
        executable: is_executable(u32_at(table, at + P_FLAGS)),
    }
}

// Returns the first `count` program headers of a table.
fn heads_at(alloc: Global, table: &[u8], count: u16) -> Result<Vec<SegmentHead>, NoMemory>
    ensures { IfOk result (λ heads. heads.items ≡ map (spec.head_at table.now) (range_with_len 0 count)) }
{
    let mut heads = Vec::with_capacity(alloc, count as usize)?;
    for i in 0..count {
        heads.push(head_at(table, i))?;
    }
    Ok(heads)
}

/// Returns the program headers of a core file by the bytes of its file header and of the table, if they pass every check
/// of a whole file of this length, and the memory's addresses rise.
pub fn heads_of(
    alloc: Global,
    header: &[u8],
    table: &FilePart,
    len: u64,
) -> Result<Option<Vec<SegmentHead>>, NoMemory>
    ensures heads { IfOk result (λ found. IfSome found (λ heads. spec.AreHeads header.now table.now len heads.items)) }
{
    if !is_core_header(header) || !is_table(header, table, len) {
        return Ok(None);
    }
    let heads = heads_at(alloc, &table.bytes, e_phnum(header))?;
    if !heads_lie(&heads, len) || !heads_rise(&heads) {
        return Ok(None);
    }
    Ok(Some(heads))
}

// Returns whether the segment has notes.
fn is_note(head: &SegmentHead) -> bool
    ensures { result ≡ is_note head.now }
{
    head.kind == PT_NOTE
}

// Returns how many segments have notes.
fn count_notes(heads: &[SegmentHead]) -> usize
    ensures { result ≡ length (filter is_note heads.now) }
{
    heads.iter().filter(|head| is_note(head)).count()
}

// Returns the first segment with notes.
fn first_note(heads: &[SegmentHead]) -> Option<SegmentHead>
    ensures { result ≡ find is_note heads.now }
{
    heads.iter().copied().find(|head| is_note(head))
}

/// Returns the one segment with notes.
pub fn only_note(heads: &[SegmentHead]) -> Option<SegmentHead>
    ensures { IfSome result (λ note. filter is_note heads.now ≡ note ∷ []) }
{
    if count_notes(heads) != 1 {
        return None;
    }
    first_note(heads)
}

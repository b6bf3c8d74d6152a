//! The notes of segments, by parts (ELF64 gABI, "Note Section").

ghost use Rattle.std.specs.Prelude.{◌≡◌, ◌<◌, Ok, length, IsTrue, IfOk, IfSome};
ghost use Rattle.elf_read.specs.Checking.{each_below};
ghost use Rattle.elf_read.specs.Linked.{linked_file};
ghost use Rattle.core_notes.specs.TotalSize.{note_room_check};
ghost use Rattle.sf_bytes.specs.Parts.{AreParts};
ghost use Rattle.elf_mapped.specs.Parts.{AreNoteParts, IsNotePart, table_file};

use crate::layout::PT_NOTE;
use crate::part::take_part;
use crate::program_header::{p_filesz, p_offset, p_type};
use crate::table::Table;
use elf_read::LinkedElf;
use sf_base::NoMemory;
use sf_bytes::FilePart;
use std::alloc::Global;

// Returns the notes of a segment: if it is a PT_NOTE, these are the next part, which is taken off.
fn take_note(
    alloc: Global,
    table: &Table<'_>,
    parts: &mut Vec<FilePart>,
    i: u32,
) -> Option<FilePart>
    requires index { i < table.now.count }
    requires parts { AreParts (table_file table.now) parts.old.items }
    ensures note { IfSome result (IsNotePart (table_file table.now) i) }
    ensures rest { AreParts (table_file table.now) parts.new.items }
{
    if p_type(table, i) != PT_NOTE {
        return Some(FilePart {
            place: 0,
            bytes: Vec::new(alloc),
        });
    }
    let part = take_part(parts, p_offset(table, i), p_filesz(table, i))?;
    if part.place.checked_add(part.bytes.len() as u64).is_none() {
        return None;
    }
    Some(part)
}

/// Returns the notes of each segment, in the order of the program headers. Those of the PT_NOTE segments are the next parts,
/// which are taken off.
///
/// `NoMemory` if out of memory.
pub fn take_notes(
    alloc: Global,
    table: &Table<'_>,
    parts: &mut Vec<FilePart>,
) -> Result<Option<Vec<FilePart>>, NoMemory>
    requires { AreParts (table_file table.now) parts.old.items }
    ensures len { IfOk result (λ found. IfSome found (λ notes. length notes.items ≡ table.now.count)) }
    ensures are { IfOk result (λ found. IfSome found (λ notes. AreNoteParts (table_file table.now) notes.items)) }
    ensures rest { AreParts (table_file table.now) parts.new.items }
{
    let mut notes = Vec::with_capacity(alloc, table.count as usize)?;
    for i in 0..table.count {
        let Some(note) = take_note(alloc, table, parts, i) else {
            return Ok(None);
        };
        notes.push(note)?;
    }
    Ok(Some(notes))
}

/// Returns whether the notes of the segments have room in the file together.
pub fn have_room(linked: &LinkedElf, notes: &[FilePart]) -> bool
    requires { AreNoteParts (linked_file linked.now) notes.now }
    ensures { IsTrue result → each_below (length notes.now) (note_room_check (linked_file linked.now)) ≡ Ok tt }
{
    let mut taken: u128 = 0;
    for note in notes {
        taken += note.bytes.len() as u128;
        if taken > u128::from(linked.len()) {
            return false;
        }
    }
    true
}

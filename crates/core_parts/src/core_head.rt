//! What the headers and the notes of a core file say.

ghost use Rattle.std.specs.Prelude.{◌≡◌, ◌+◌, ◌<◌, ◌≤◌, ◌^◌, ℕ, List, true, length, IfOk, IfSome};
ghost use Rattle.std.specs.Option.{option_map};
ghost use Rattle.sf_bytes.specs.Parts.{IsPart};
ghost use Rattle.core_notes.specs.Listing.{notes_from, whole_notes};
ghost use Rattle.core_notes.specs.Thread.{file_note_in};
ghost use Rattle.core_notes.specs.Views.{threads_left};
ghost use Rattle.core_parts.specs.Heads.{heads_lie, heads_rise};
ghost use Rattle.core_parts.specs.Whole.{AreRead, AreThreads, IsHeadOf, IsWholeOf, part_cursor};

use crate::header::arch_of;
use crate::segment::SegmentHead;
use crate::table::{heads_of, only_note};
use core_notes::{Thread, ThreadIter, file_note_of_segment, threads_of_segment};
use elf_read::layout::FILE_HEADER_LEN;
use sf_base::NoMemory;
use sf_bytes::{FilePart, Part};
use sf_model::Arch;
use sf_parts::FileParts;
use std::alloc::Global;

/// What the headers and the notes of a core file say.
#[derive(Drop)]
pub struct CoreHead {
    /// The machine that the file is for.
    pub arch: Arch,
    /// The headers of its segments.
    pub heads: Vec<SegmentHead>,
    /// Its threads, in the order of their notes.
    pub threads: Vec<Thread>,
    /// The descriptor of its first note on mapped files, if it has one.
    pub file_note: Option<FilePart>,
}

// A core file has no more threads.
const MAX_THREADS: usize = 4096;

// Returns the threads that an iterator has left.
fn listed(alloc: Global, threads: ThreadIter<'_>) -> Result<Vec<Thread>, NoMemory>
    ensures { IfOk result (λ list. list.items ≡ threads_left threads.entry) }
{
    Ok(threads.collect(alloc)?)
}

// Returns the threads of a core file by the bytes of its one segment of notes, if they pass every check of a whole file.
fn threads_of(
    alloc: Global,
    arch: Arch,
    heads: &[SegmentHead],
    notes: &FilePart,
) -> Result<Option<Vec<Thread>>, NoMemory>
    ensures are { IfOk result (λ found. IfSome found (λ threads. AreThreads arch heads.now notes.now threads.items)) }
    ensures few { IfOk result (λ found. IfSome found (λ threads. length threads.items ≤ 4096)) }
    ensures fits { IfOk result (λ found. IfSome found (λ _. notes.now.place + length notes.now.bytes.items < 2 ^ 64)) }
{
    let Some(note) = only_note(heads) else {
        return Ok(None);
    };
    let size = notes.bytes.len() as u64;
    if note.place != notes.place || note.size != size {
        return Ok(None);
    }
    let Some(_) = notes.place.checked_add(size) else {
        return Ok(None);
    };
    let Some(threads) = threads_of_segment(arch, Part::new(&notes.bytes, notes.place)) else {
        return Ok(None);
    };
    let threads = listed(alloc, threads)?;
    if threads.len() > MAX_THREADS {
        return Ok(None);
    }
    Ok(Some(threads))
}

// Returns the descriptor of the first note on mapped files, of the notes that are this part of a core file.
fn file_note_of(alloc: Global, notes: &FilePart) -> Result<Option<FilePart>, NoMemory>
    requires { notes.now.place + length notes.now.bytes.items < 2 ^ 64 }
    ensures fits { IfOk result (λ found. IfSome found (λ note. note.place + length note.bytes.items < 2 ^ 64)) }
    ensures note { IfOk result (λ found. file_note_in (whole_notes (notes_from (part_cursor notes.now))) ≡ option_map part_cursor found) }
{
    let Some(note) = file_note_of_segment(Part::new(&notes.bytes, notes.place)) else {
        return Ok(None);
    };
    Ok(Some(FilePart {
        place: note.place,
        bytes: Vec::from_slice(alloc, note.bytes)?,
    }))
}

// Returns what these parts of a core file say: its file header, its program headers and its one segment of notes.
fn head_by(
    alloc: Global,
    header: &FilePart,
    table: &FilePart,
    notes: &FilePart,
    len: u64,
) -> Result<Option<CoreHead>, NoMemory>
    ensures head { IfOk result (λ found. IfSome found (λ head. AreRead header.now table.now notes.now len head)) }
    ensures few { IfOk result (λ found. IfSome found (λ head. length head.threads.items ≤ 4096)) }
    ensures fits { IfOk result (λ found. IfSome found (λ head. IfSome head.file_note (λ note. note.place + length note.bytes.items < 2 ^ 64))) }
{
    if header.place != 0 || header.bytes.len() as u64 != FILE_HEADER_LEN {
        return Ok(None);
    }
    let Some(heads) = heads_of(alloc, &header.bytes, table, len)? else {
        return Ok(None);
    };
    let arch = arch_of(&header.bytes);
    let Some(threads) = threads_of(alloc, arch, &heads, notes)? else {
        return Ok(None);
    };
    let file_note = file_note_of(alloc, notes)?;
    Ok(Some(CoreHead {
        arch,
        heads,
        threads,
        file_note,
    }))
}

// Returns the part that was read as the one of this number.
fn part_at(file: &FileParts, number: usize) -> Option<&FilePart>
    ensures { IfSome result (λ part. (whole : List ℕ) → IsWholeOf file.now whole → IsPart whole part.now) }
{
    file.parts.get(number)
}

/// Returns what the parts of a file say, the first three of which are the file header, the program headers and the one
/// segment of notes of a core file, if these are enough for every check of the whole file, and it passes them all. Nothing
/// is said of any other file.
///
/// # Errors
///
/// `NoMemory`.
pub fn head_of(alloc: Global, file: &FileParts) -> Result<Option<CoreHead>, NoMemory>
    ensures head { IfOk result (λ found. IfSome found (λ head. (whole : List ℕ) → IsWholeOf file.now whole → IsHeadOf head whole)) }
    ensures few { IfOk result (λ found. IfSome found (λ head. length head.threads.items ≤ 4096)) }
    ensures fits { IfOk result (λ found. IfSome found (λ head. IfSome head.file_note (λ note. note.place + length note.bytes.items < 2 ^ 64))) }
    ensures lie { IfOk result (λ found. IfSome found (λ head. heads_lie file.now.len head.heads.items ≡ true)) }
    ensures rise { IfOk result (λ found. IfSome found (λ head. heads_rise 0 head.heads.items ≡ true)) }
{
    let Some(header) = part_at(file, 0) else {
        return Ok(None);
    };
    let Some(table) = part_at(file, 1) else {
        return Ok(None);
    };
    let Some(notes) = part_at(file, 2) else {
        return Ok(None);
    };
    head_by(alloc, header, table, notes, file.len)
}

//! The checks of the notes, in their order.

ghost use Rattle.std.specs.Prelude.{◌≡◌, ◌↔◌, ◌<◌, ◌^◌, IfOk, IfSome, OnOk, ◌≤◌, false, is_some, length, min, true};
ghost use Rattle.sf_bytes.specs.Cursor.{cursor};
ghost use Rattle.elf_read.specs.Checking.{verdict};
ghost use Rattle.elf_read.specs.Views.{file};
ghost use Rattle.core_notes.specs.Checks as spec;
ghost use Rattle.core_notes.specs.Listing.{notes_remaining, notes_from, whole_notes};
ghost use Rattle.core_notes.specs.Note.{note_view};
ghost use Rattle.core_notes.specs.Thread.{threads_in};
ghost use Rattle.core_notes.specs.Views.{threads_left};

use crate::fault::CoreFault;
use crate::iter::ThreadIter;
use crate::layout::{MAX_THREADS, PAC_MASK_LEN};
use crate::note::Note;
use crate::notes::Notes;
use crate::status::{is_mask_note, is_status, status_size};
use crate::total_size::check_room;
use elf_read::{Elf, Kind};
use sf_bytes::Part;
use sf_model::Arch;

// Checks the size of a status, and of a mask after a thread.
#[tactic(auto, unfolding(crate::specs::Checks::note_check))]
fn check_note(arch: Arch, after_thread: bool, note: &Note<'_>) -> Result<(), CoreFault>
    ensures { result ≡ spec.note_check arch after_thread (note_view note.now) }
{
    let size = note.descriptor.len();
    if is_status(note) && size != status_size(arch) {
        return Err(CoreFault::StatusSize(note.place));
    }
    if after_thread && is_mask_note(arch, note) && size != PAC_MASK_LEN {
        return Err(CoreFault::Note(note.place));
    }
    Ok(())
}

// Returns whether a file is a core file.
fn is_core(kind: Kind) -> bool
    ensures { result ≡ spec.is_core_kind kind }
{
    kind == Kind::Core
}

// Checks the notes, and counts their threads, up to thread 4097.
fn count_threads(arch: Arch, notes: Notes<'_>) -> Result<u32, CoreFault>
    ensures check { verdict result ≡ spec.items_check arch false (spec.through_status 4097 (notes_remaining notes.entry)) }
    ensures count { IfOk result (λ n. n ≡ min (length (threads_in arch (whole_notes (notes_remaining notes.entry)))) 4097) }
{
    let mut threads: u32 = 0;
    for item in notes {
        let note = match item {
            Ok(note) => note,
            Err(place) => return Err(CoreFault::Note(place)),
        };
        check_note(arch, threads > 0, &note)?;
        if is_status(&note) {
            threads += 1;
            if threads > MAX_THREADS {
                return Ok(threads);
            }
        }
    }
    Ok(threads)
}

// Checks that there is a thread, and that there are not too many.
fn check_count(threads: u32) -> Result<(), CoreFault>
    ensures check { result ≡ spec.thread_count_check threads }
    ensures most { OnOk result (threads ≤ 4096) }
{
    if threads == 0 {
        return Err(CoreFault::NoThread);
    }
    if threads > MAX_THREADS {
        return Err(CoreFault::TooManyThreads);
    }
    Ok(())
}

/// Makes the checks after those of the ELF file: its kind, the room for its notes, the notes, and how many threads it has.
/// Returns the number of threads.
#[tactic(auto, unfolding(crate::specs::Checks::core_part))]
pub fn check_core(bytes: &[u8], elf: &Elf<'_>) -> Result<u32, CoreFault>
    requires small { length (file elf.now) < 2 ^ 32 }
    requires same { bytes.now ≡ file elf.now }
    ensures check { verdict result ≡ spec.core_part (file elf.now) }
    ensures count { IfOk result (λ threads. threads ≡ length (spec.file_threads (file elf.now))) }
{
    if !is_core(elf.kind()) {
        return Err(CoreFault::NotCore);
    }
    check_room(bytes, elf, elf.segments())?;
    let threads = count_threads(elf.arch(), Notes::new(elf))?;
    check_count(threads)?;
    Ok(threads)
}

/// Returns the threads of a core file that has one PT_NOTE segment, by the bytes of that segment, if its notes pass every
/// check of a whole file, and else nothing: [`Core::parse`](crate::Core::parse) gives the fault.
pub fn threads_of_segment<'a>(arch: Arch, notes: Part<'a>) -> Option<ThreadIter<'a>>
    ensures pass { (is_some result ≡ true) ↔ spec.NotesPass arch (notes_from (cursor notes.entry)) }
    ensures threads { IfSome result (λ threads. threads_left threads ≡ threads_in arch (whole_notes (notes_from (cursor notes.entry)))) }
{
    let notes = Notes::of_segment(notes);
    let Ok(threads) = count_threads(arch, notes) else {
        return None;
    };
    if let Err(_) = check_count(threads) {
        return None;
    }
    Some(ThreadIter::new(arch, notes))
}

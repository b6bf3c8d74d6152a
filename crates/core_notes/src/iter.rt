//! The threads of a core file, in order.

ghost use Rattle.std.specs.Prelude.{◌≡◌};
ghost use Rattle.sf_model.specs.declared.machine.Arch.{Arch as machine};
ghost use Rattle.core_notes.specs.Listing.{notes_remaining, whole_notes};
ghost use Rattle.core_notes.specs.Thread.{own_mask};
ghost use Rattle.core_notes.specs.Threads.{GivesStatus};

use crate::note::Note;
use crate::notes::Notes;
use crate::status::{Thread, is_mask_note, is_status, mask_of, thread_of};
use sf_model::Arch;

/// An iterator over the threads of a core file, in the order of their notes.
#[derive(Clone, Copy)]
pub struct ThreadIter<'a> {
    arch: Arch,
    notes: Notes<'a>,
}

impl<'a> ThreadIter<'a> {
    ghost use Rattle.core_notes.specs.Thread.{threads_in};
    ghost use Rattle.core_notes.specs.Views.{threads_left};

    /// Returns the iterator over the threads of these notes.
    pub(crate) fn new(arch: Arch, notes: Notes<'a>) -> ThreadIter<'a>
        ensures { threads_left result ≡ threads_in arch (whole_notes (notes_remaining notes.entry)) }
    {
        ThreadIter { arch, notes }
    }
}

// Takes the next status. Notes before it are of no thread, or of the one before.
fn next_status<'a>(notes: &mut Notes<'a>) -> Option<Note<'a>>
    ensures { (arch : machine) → GivesStatus arch result (whole_notes (notes_remaining notes.old)) (whole_notes (notes_remaining notes.new)) }
{
    while let Some(item) = notes.next() {
        if let Ok(note) = item {
            if is_status(&note) {
                return Some(note);
            }
        }
    }
    None
}

// Returns the last mask before the next status.
fn own_mask(arch: Arch, notes: Notes<'_>) -> Option<u64>
    ensures { result ≡ own_mask arch (whole_notes (notes_remaining notes.entry)) }
{
    let mut mask = None;
    for item in notes {
        if let Ok(note) = item {
            if is_status(&note) {
                return mask;
            }
            if is_mask_note(arch, &note) {
                mask = Some(mask_of(&note));
            }
        }
    }
    mask
}

impl<'a> Iterator for ThreadIter<'a> {
    ghost use Rattle.std.specs.Iterator.{YieldsFirst, item_count};
    ghost use Rattle.core_notes.specs.Views.{threads_left};

    type Item = Thread;

    ghost next_gives = { YieldsFirst threads_left };

    ghost remaining = { item_count threads_left };

    fn next(&mut self) -> Option<Thread> {
        let status = next_status(&mut self.notes)?;
        let mask = own_mask(self.arch, self.notes);
        Some(thread_of(self.arch, status.descriptor.bytes, mask))
    }
}

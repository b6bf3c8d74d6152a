//! The notes of one segment of any ELF file (ELF64 gABI, "Note Section").

use crate::note::{Note, take_note};
use crate::segment::note_bytes;
use elf_read::Elf;
use sf_bytes::Part;

/// An iterator over the notes of a segment, up to one that ends after the segment.
#[derive(Clone, Copy)]
pub struct SegmentNotes<'a> {
    rest: Part<'a>,
}

impl<'a> SegmentNotes<'a> {
    ghost use Rattle.std.specs.Prelude.{◌≡◌, ◌<◌, ◌^◌, length};
    ghost use Rattle.std.specs.Iterator.{YieldsFirstBy};
    ghost use Rattle.sf_bytes.specs.Cursor.{cursor};
    ghost use Rattle.elf_read.specs.Views.{file};
    ghost use Rattle.core_notes.specs.Listing.{notes_from, whole_notes};
    ghost use Rattle.core_notes.specs.Note.{note_view};
    ghost use Rattle.core_notes.specs.SegmentNotes.{notes_left, segment_notes};

    /// Returns the iterator over the notes of the segment of a program header's number. A segment that is no PT_NOTE has
    /// none.
    pub fn new(elf: &Elf<'a>, i: u32) -> SegmentNotes<'a>
        requires { length (file elf.now) < 2 ^ 32 }
        ensures { notes_left result ≡ segment_notes (file elf.now) i }
    {
        SegmentNotes {
            rest: note_bytes(elf, i),
        }
    }

    /// Returns the iterator over the notes that are these bytes of a segment.
    pub fn of_part(rest: Part<'a>) -> SegmentNotes<'a>
        ensures { notes_left result ≡ whole_notes (notes_from (cursor rest.entry)) }
    {
        SegmentNotes { rest }
    }

    // Takes the next note.
    fn take_next(&mut self) -> Option<Note<'a>>
        ensures { YieldsFirstBy note_view notes_left self.old result self.new }
    {
        if self.rest.is_empty() {
            return None;
        }
        let place = self.rest.place;
        let mut rest = self.rest;
        match take_note(&mut rest) {
            Ok(note) => {
                self.rest = rest;
                Some(note)
            }
            Err(_) => {
                self.rest = Part::new(&[], place);
                None
            }
        }
    }
}

impl<'a> Iterator for SegmentNotes<'a> {
    ghost use Rattle.std.specs.Iterator.{YieldsFirstBy, item_count};
    ghost use Rattle.core_notes.specs.Note.{note_view};
    ghost use Rattle.core_notes.specs.SegmentNotes.{notes_left};

    type Item = Note<'a>;

    ghost next_gives = { YieldsFirstBy note_view notes_left };

    ghost remaining = { item_count notes_left };

    fn next(&mut self) -> Option<Note<'a>> {
        self.take_next()
    }
}

//! The notes of a core file, in order.

use crate::note::{Note, take_note};
use crate::segment::note_bytes;
use elf_read::Elf;
use sf_bytes::Part;

/// An iterator over the notes of all PT_NOTE segments, or of one alone. A note that ends after its segment is an error with
/// its place, and the last of its segment.
#[derive(Clone, Copy)]
pub struct Notes<'a> {
    // The file, if further segments are read.
    elf: Option<Elf<'a>>,
    // What is left of the segment that is being read, and the number of the next one.
    rest: Part<'a>,
    segment: u32,
}

impl<'a> Notes<'a> {
    ghost use Rattle.std.specs.Prelude.{◌≡◌, [], length};
    ghost use Rattle.std.specs.Iterator.{YieldsFirstBy};
    ghost use Rattle.sf_bytes.specs.Cursor.{cursor};
    ghost use Rattle.elf_read.specs.Views.{file};
    ghost use Rattle.core_notes.specs.Listing.{note_item, notes_remaining, notes_in, notes_from};

    /// Returns the iterator over the notes of a file.
    pub fn new(elf: &Elf<'a>) -> Notes<'a>
        ensures { notes_remaining result ≡ notes_in (file elf.now) }
    {
        Notes {
            elf: Some(*elf),
            rest: Part::new(&[], 0),
            segment: 0,
        }
    }

    /// Returns the iterator over the notes that are these bytes of a segment.
    pub fn of_segment(rest: Part<'a>) -> Notes<'a>
        ensures { notes_remaining result ≡ notes_from (cursor rest.entry) }
    {
        Notes {
            elf: None,
            rest,
            segment: 0,
        }
    }

    // Goes on to the next segment that has notes if this one has no note left.
    fn go_on(&mut self)
        ensures same { notes_remaining self.new ≡ notes_remaining self.old }
        ensures all { length self.new.rest.bytes.now ≡ 0 → notes_remaining self.new ≡ [] }
    {
        let Some(elf) = self.elf else {
            return;
        };
        while self.rest.is_empty() && self.segment < elf.segments() {
            self.rest = note_bytes(&elf, self.segment);
            self.segment += 1;
        }
    }

    // Takes the next note, or the place of one that ends after its segment.
    fn take_item(&mut self) -> Option<Result<Note<'a>, u64>>
        ensures { YieldsFirstBy note_item notes_remaining self.old result self.new }
    {
        self.go_on();
        if self.rest.is_empty() {
            return None;
        }
        let place = self.rest.place;
        let mut rest = self.rest;
        match take_note(&mut rest) {
            Ok(note) => {
                self.rest = rest;
                Some(Ok(note))
            }
            Err(_) => {
                self.rest = Part::new(&[], place);
                Some(Err(place))
            }
        }
    }
}

impl<'a> Iterator for Notes<'a> {
    ghost use Rattle.std.specs.Iterator.{YieldsFirstBy, item_count};
    ghost use Rattle.core_notes.specs.Listing.{note_item, notes_remaining};

    type Item = Result<Note<'a>, u64>;

    ghost next_gives = { YieldsFirstBy note_item notes_remaining };

    ghost remaining = { item_count notes_remaining };

    fn next(&mut self) -> Option<Result<Note<'a>, u64>> {
        self.take_item()
    }
}

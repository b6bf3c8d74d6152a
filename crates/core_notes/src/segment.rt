//! Segments by their numbers.

ghost use Rattle.std.specs.Prelude.{◌≡◌, ◌<◌, ◌^◌, length};
ghost use Rattle.sf_bytes.specs.Cursor.{cursor};
ghost use Rattle.elf_read.specs.Views.{file};
ghost use Rattle.core_notes.specs.Segment.{segment_of, segment_view};
ghost use Rattle.core_notes.specs.Listing.{notes_from, segment_items};

use crate::layout::PT_NOTE;
use elf_read::{Elf, Segment};
use sf_bytes::Part;

/// Returns the segment of a program header's number.
pub fn segment_at<'a>(elf: &Elf<'a>, i: u32) -> Segment<'a>
    ensures { segment_view result ≡ segment_of (file elf.now) i }
{
    elf.segment(i)
}

/// Returns the bytes of a segment's notes. A segment that is no PT_NOTE has none.
pub fn note_bytes<'a>(elf: &Elf<'a>, i: u32) -> Part<'a>
    requires { length (file elf.now) < 2 ^ 32 }
    ensures { notes_from (cursor result) ≡ segment_items (segment_of (file elf.now) i) }
{
    let segment = segment_at(elf, i);
    if segment.kind == PT_NOTE {
        Part::new(segment.bytes, segment.place)
    } else {
        Part::new(&[], segment.place)
    }
}

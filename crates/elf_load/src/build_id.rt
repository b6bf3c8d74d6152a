//! The build identifier of a file.

ghost use Rattle.std.specs.Prelude.{◌≡◌, ◌<◌, ◌^◌, length};
ghost use Rattle.std.specs.Option.{option_map};
ghost use Rattle.core_notes.specs.Note.{note_view};
ghost use Rattle.core_notes.specs.SegmentNotes.{segment_notes};
ghost use Rattle.elf_read.specs.Sections.{segment_total};
ghost use Rattle.elf_read.specs.Views.{file};
ghost use Rattle.sf_bytes.specs.Cursor.{cursor};
ghost use Rattle.elf_load.specs.BuildId as spec;

use crate::layout::{GNU, NT_GNU_BUILD_ID};
use core_notes::{Note, SegmentNotes};
use elf_read::Elf;
use sf_bytes::Part;

// Returns whether a note is a build identifier.
#[tactic(auto, unfolding(core_notes::specs::Thread::has_name_and_type))]
fn is_build_id(note: &Note<'_>) -> bool
    ensures { result ≡ spec.is_build_id (note_view note.now) }
{
    note.kind == NT_GNU_BUILD_ID && note.name == GNU
}

// Returns the first build identifier of a segment's notes.
fn segment_id<'a>(elf: &Elf<'a>, i: u32) -> Option<Part<'a>>
    requires { length (file elf.now) < 2 ^ 32 }
    ensures { option_map cursor result ≡ spec.first_id (segment_notes (file elf.now) i) }
{
    for note in SegmentNotes::new(elf, i) {
        if is_build_id(&note) {
            return Some(note.descriptor);
        }
    }
    None
}

/// Returns the build identifier of a file, with its place.
pub fn build_id<'a>(elf: &Elf<'a>, count: u32) -> Option<Part<'a>>
    requires small { length (file elf.now) < 2 ^ 32 }
    requires count { count ≡ segment_total (file elf.now) }
    ensures { option_map cursor result ≡ spec.build_id (file elf.now) }
{
    for i in 0..count {
        if let Some(id) = segment_id(elf, i) {
            return Some(id);
        }
    }
    None
}

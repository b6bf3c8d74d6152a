//! The note on mapped files of a core file (Linux core files, NT_FILE).

ghost use Rattle.std.specs.Prelude.{◌≡◌};
ghost use Rattle.std.specs.Option.{option_map};
ghost use Rattle.sf_bytes.specs.Cursor.{cursor};
ghost use Rattle.core_notes.specs.Listing.{notes_from, notes_remaining, whole_notes};
ghost use Rattle.core_notes.specs.Thread as spec;

use crate::notes::Notes;
use crate::status::is_file_note;
use sf_bytes::Part;

/// Returns the descriptor of the first of these notes that lists the mapped files.
pub(crate) fn first_file_note<'a>(notes: Notes<'a>) -> Option<Part<'a>>
    ensures { option_map cursor result ≡ spec.file_note_in (whole_notes (notes_remaining notes.entry)) }
{
    for item in notes {
        if let Ok(note) = item {
            if is_file_note(&note) {
                return Some(note.descriptor);
            }
        }
    }
    None
}

/// Returns the descriptor of the first note that lists the mapped files, of a core file that has one PT_NOTE segment, by the
/// bytes of that segment.
pub fn file_note_of_segment<'a>(notes: Part<'a>) -> Option<Part<'a>>
    ensures { option_map cursor result ≡ spec.file_note_in (whole_notes (notes_from (cursor notes.entry))) }
{
    first_file_note(Notes::of_segment(notes))
}

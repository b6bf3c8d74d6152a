//! A note (ELF64 gABI, "Note Section").

ghost use Rattle.std.specs.Prelude.{◌≡◌, length, min, OnOk};
ghost use Rattle.sf_bytes.specs.Cursor.{Reads, cursor, past};
ghost use Rattle.core_notes.specs.Note.{note_at, note_view, padded_at, padding};

use crate::layout::NOTE_ALIGN;
use sf_bytes::{ByteFault, Part};

/// A note.
#[derive(Clone, Copy)]
pub struct Note<'a> {
    /// Its place in the file.
    pub place: u64,
    /// Its name, with the zero byte that ends it.
    pub name: &'a [u8],
    /// Its type.
    pub kind: u32,
    /// Its descriptor.
    pub descriptor: Part<'a>,
}

// Passes the padding after a field of this size, or what is left of it.
fn pass_padding(rest: &mut Part<'_>, size: u32)
    ensures { cursor rest.new ≡ past (min (padding size) (length rest.old.bytes.now)) (cursor rest.old) }
{
    let padding = (NOTE_ALIGN - size % NOTE_ALIGN) % NOTE_ALIGN;
    let count = (padding as usize).min(rest.bytes.len());
    let (_, left) = rest.bytes.split_at(count);
    *rest = Part::new(left, rest.place + count as u64);
}

// Takes a field, and passes the padding after it.
#[tactic(auto, unfolding(crate::specs::Note::padded_at))]
fn padded<'a>(rest: &mut Part<'a>, size: u32) -> Result<Part<'a>, ByteFault>
    ensures { Reads cursor rest.new result (padded_at size (cursor rest.old)) }
{
    let field = rest.take(u64::from(size))?;
    pass_padding(rest, size);
    Ok(field)
}

/// Takes the note at the front. What is left of the part after a fault is not specified.
#[tactic(auto, unfolding(crate::specs::Note::note_at))]
pub fn take_note<'a>(rest: &mut Part<'a>) -> Result<Note<'a>, ByteFault>
    ensures { Reads note_view rest.new result (note_at (cursor rest.old)) }
{
    let place = rest.place;
    let name_size = rest.get_u32()?;
    let descriptor_size = rest.get_u32()?;
    let kind = rest.get_u32()?;
    let name = padded(rest, name_size)?;
    let descriptor = padded(rest, descriptor_size)?;
    Ok(Note {
        place,
        name: name.bytes,
        kind,
        descriptor,
    })
}

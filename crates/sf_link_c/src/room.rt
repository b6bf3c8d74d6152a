//! The caller's room for a section.

ghost use Rattle.std.specs.Prelude.{◌≡◌, length};
ghost use Rattle.sf_link_c.specs.Room as spec;

use crate::answer::{MADE, ROOM};

/// Writes a section into a room, if there is enough. Returns the answer.
pub fn write_section(section: &[u8], room: &mut [u8]) -> u32
    ensures answer { result ≡ spec.room_answer section.now (length room.old) }
    ensures room { room.new ≡ spec.section_written section.now room.old }
{
    if section.len() > room.len() {
        return ROOM;
    }
    let (first, _) = room.split_at_mut(section.len());
    first.copy_from_slice(section);
    MADE
}

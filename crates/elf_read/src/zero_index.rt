//! Where the zero bytes of a file are. Where a string table doesn't end with one, a text is looked through only to the end of
//! its piece of the file, and from the next piece on that has a zero byte.

ghost use Rattle.std.specs.Prelude.{◌≡◌, ◌<◌, ◌≤◌, ◌^◌, ◌*◌, length};
ghost use Rattle.elf_read.specs.Number as spec;

use crate::first_zero::bytes_before_zero;
use crate::layout::SHT_STRTAB;
use crate::masks::{MASKS, PIECES, next_piece, write_masks};
use crate::number::{bytes_at, bytes_from};
use crate::section_header::SectionHeader;
use crate::sections::section_bytes;

/// The pieces of a file that have a zero byte, as far as they are known.
#[derive(Clone, Copy)]
pub struct Zeros<'a> {
    piece_len: u64,
    masks: &'a [u64],
    ghost some: { 0 < piece_len },
    ghost small: { piece_len ≤ 2 ^ 32 },
    ghost few: { length masks.now ≤ 1024 },
}

// Returns the place of the first zero byte from a place on, or else the first place past the file.
fn zero_from(file: &[u8], place: u64) -> u64
    requires { place < 2 ^ 62 }
    ensures { result ≡ spec.zero_from file.now place }
{
    place + bytes_before_zero(bytes_from(file, place)) as u64
}

// Returns whether one of the first `count` sections is a string table that doesn't end with a zero byte.
fn has_open_table(file: &[u8], count: u32) -> bool {
    for i in 0..count {
        let kind = SectionHeader::of(file, i).kind();
        if kind == SHT_STRTAB && !matches!(section_bytes(file, i), [.., 0]) {
            return true;
        }
    }
    false
}

impl<'a> Zeros<'a> {
    ghost use Rattle.std.specs.Prelude.{ℕ, List};
    ghost use Rattle.elf_read.specs.Sections.{section_bytes as bytes_of};
    ghost use Rattle.elf_read.specs.Zeros.{AreZeros};

    // Returns what is known of all pieces. Their masks are written into the room.
    fn of_pieces(file: &[u8], room: &'a mut [u64; MASKS]) -> Zeros<'a>
        requires { length file.now < 2 ^ 32 }
        ensures { AreZeros file.now result }
    {
        let len = file.len() as u64;
        let piece_len = len / (MASKS as u64 * PIECES) + PIECES;
        let count = MASKS.min((len / (piece_len * PIECES)) as usize + 1);
        let (masks, _) = room.split_at_mut(count);
        write_masks(file, piece_len, masks);
        Zeros { piece_len, masks }
    }

    /// Returns what is known of all pieces, where one of the first `count` sections is a string table that doesn't end with a
    /// zero byte, and else of none. Their masks are written into the room.
    pub fn of_tables(file: &[u8], count: u32, room: &'a mut [u64; MASKS]) -> Zeros<'a>
        requires { length file.now < 2 ^ 32 }
        ensures { AreZeros file.now result }
    {
        if has_open_table(file, count) {
            return Zeros::of_pieces(file, room);
        }
        Zeros {
            piece_len: PIECES,
            masks: &[],
        }
    }

    // Returns the place of the first zero byte from a piece's first byte on, or else the first place past the file.
    fn first_from_piece(&self, file: &[u8], piece: u64) -> u64
        requires zeros { AreZeros file.now self.now }
        requires small { piece * self.now.piece_len < 2 ^ 61 }
        ensures { result ≡ spec.zero_from file.now (piece * self.now.piece_len) }
    {
        zero_from(file, next_piece(self.masks, piece) * self.piece_len)
    }

    // Returns the place of the first zero byte from a place on, or else the first place past the file.
    fn first_from(&self, file: &[u8], place: u64) -> u64
        requires zeros { AreZeros file.now self.now }
        requires small { place < 2 ^ 60 }
        ensures { result ≡ spec.zero_from file.now place }
    {
        let left = self.piece_len - place % self.piece_len;
        let len = bytes_before_zero(bytes_at(file, place, left)) as u64;
        if len < left {
            place + len
        } else {
            self.first_from_piece(file, place / self.piece_len + 1)
        }
    }

    /// Returns whether a text begins at that place of a string table and ends there with a zero byte. A table's last byte is
    /// zero (gABI, "String Table"), and then no other is looked at.
    pub fn text_stands(&self, file: &[u8], table: u32, place: u64) -> bool
        requires small { length file.now < 2 ^ 32 }
        requires zeros { AreZeros file.now self.now }
        ensures { result ≡ spec.has_text place (bytes_of file.now table) }
    {
        let bytes = section_bytes(file, table);
        if place >= bytes.len() as u64 {
            return false;
        }
        if bytes[bytes.len() - 1] == 0 {
            return true;
        }
        let start = SectionHeader::of(file, table).offset();
        self.first_from(file, start + place) < start + bytes.len() as u64
    }
}

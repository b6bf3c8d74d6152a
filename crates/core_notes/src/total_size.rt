//! The check that the PT_NOTE segments, which are read whole, have room in the file.

ghost use Rattle.std.specs.Prelude.{◌≡◌, ◌<◌, ◌≤◌, ◌^◌, length};
ghost use Rattle.elf_read.specs.Checking.{each_below};
ghost use Rattle.elf_read.specs.Header.{program_header};
ghost use Rattle.elf_read.specs.Views.{file};
ghost use Rattle.core_notes.specs.TotalSize as spec;
ghost use Rattle.core_notes.specs.Segment.{segment_of};

use crate::layout::PT_NOTE;
use crate::segment::segment_at;
use elf_read::layout::{E_PHOFF, PROGRAM_HEADER_LEN};
use elf_read::{Elf, ElfFault, u64_at};

// Returns the place of a program header.
fn header_place(bytes: &[u8], elf: &Elf<'_>, i: u32) -> u64
    requires small { length (file elf.now) < 2 ^ 32 }
    requires same { bytes.now ≡ file elf.now }
    requires lies { program_header (file elf.now) i < length (file elf.now) }
    ensures { result ≡ program_header (file elf.now) i }
{
    u64_at(bytes, E_PHOFF) + PROGRAM_HEADER_LEN * u64::from(i)
}

// Returns how many bytes of notes a segment has.
fn note_size(elf: &Elf<'_>, i: u32) -> u64
    ensures value { result ≡ spec.note_size (segment_of (file elf.now) i) }
    ensures small { result ≤ length (file elf.now) }
{
    let segment = segment_at(elf, i);
    if segment.kind == PT_NOTE {
        segment.bytes.len() as u64
    } else {
        0
    }
}

/// Checks that the file has room for each PT_NOTE segment and those before it together: for the first `count` program
/// headers, which lie in the file.
pub fn check_room(bytes: &[u8], elf: &Elf<'_>, count: u32) -> Result<(), ElfFault>
    requires small { length (file elf.now) < 2 ^ 32 }
    requires same { bytes.now ≡ file elf.now }
    requires lie { spec.HeadersLie (file elf.now) count }
    ensures { result ≡ each_below count (spec.note_room_check (file elf.now)) }
{
    let mut taken = 0;
    for i in 0..count {
        taken += note_size(elf, i);
        if taken > bytes.len() as u64 {
            return Err(ElfFault::OutOfFile(header_place(bytes, elf, i)));
        }
    }
    Ok(())
}

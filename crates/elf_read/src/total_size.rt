//! Checks that the sections that are read whole have room in the file.

ghost use Rattle.std.specs.Prelude.{◌≡◌, ◌<◌, ◌≤◌, ◌^◌, length};
ghost use Rattle.elf_read.specs.Checking.{each_below};
ghost use Rattle.elf_read.specs.Header.{header_fields};
ghost use Rattle.elf_read.specs.TotalSize as spec;

use crate::check::require;
use crate::fault::ElfFault;
use crate::section_header::header_place;
use crate::sections::{is_eh_frame, section_bytes};
use crate::used_checks::{is_group, is_used_rela};

// Returns whether a section is read whole.
#[tactic(auto, unfolding(crate::specs::TotalSize::is_read))]
fn is_read(file: &[u8], i: u32) -> bool
    ensures { result ≡ spec.is_read file.now i }
{
    is_eh_frame(file, i) || is_used_rela(file, i) || is_group(file, i)
}

// Returns how many of a section's bytes are read.
#[tactic(auto, unfolding(crate::specs::TotalSize::read_size))]
fn read_size(file: &[u8], i: u32) -> u64
    ensures value { result ≡ spec.read_size file.now i }
    ensures small { result ≤ length file.now }
{
    if is_read(file, i) {
        section_bytes(file, i).len() as u64
    } else {
        0
    }
}

/// Checks the room in the file for each of the first `count` sections that is read whole, after those before it.
pub fn check_room(file: &[u8], count: u32) -> Result<(), ElfFault>
    requires small { length file.now < 2 ^ 32 }
    requires headers { (header_fields file.now).e_shoff < 2 ^ 32 }
    ensures { result ≡ each_below count (spec.room_check file.now) }
{
    let mut taken = 0;
    for i in 0..count {
        taken += read_size(file, i);
        let has_room = taken <= file.len() as u64;
        require(has_room, ElfFault::OutOfFile(header_place(file, i)))?;
    }
    Ok(())
}

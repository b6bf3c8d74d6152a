//! Checks of program headers, and of the segments of a core file.

ghost use Rattle.std.specs.Prelude.{◌≡◌, ◌<◌, ◌^◌, IfOk, length};
ghost use Rattle.elf_read.specs.Checks as spec;
ghost use Rattle.elf_read.specs.Checking.{each_below};
ghost use Rattle.elf_read.specs.Header.{header_fields};
ghost use Rattle.elf_read.specs.Checking.{verdict};
ghost use Rattle.elf_read.specs.Sections.{segment_total as total};

use crate::check::require;
use crate::fault::ElfFault;
use crate::header::{e_phentsize, e_phoff};
use crate::layout::{E_PHENTSIZE, E_PHOFF, PROGRAM_HEADER_LEN};
use crate::number::lies;
use crate::program_header::{ProgramHeader, header_place};
use crate::sections::segment_total;

// Checks that a segment's bytes lie in the file.
#[tactic(auto, unfolding(crate::specs::Checks::segment_check))]
fn check_segment(file: &[u8], i: u32) -> Result<(), ElfFault>
    requires { (header_fields file.now).e_phoff < 2 ^ 32 }
    ensures { result ≡ spec.segment_check file.now i }
{
    let header = ProgramHeader::of(file, i);
    require(
        lies(file.len() as u64, header.offset(), header.file_size(), 1),
        ElfFault::OutOfFile(header_place(file, i)),
    )
}

// Checks that the bytes of each segment lie in the file.
fn check_segments(file: &[u8], count: u32) -> Result<(), ElfFault>
    requires { (header_fields file.now).e_phoff < 2 ^ 32 }
    ensures { result ≡ each_below count (spec.segment_check file.now) }
{
    for i in 0..count {
        check_segment(file, i)?;
    }
    Ok(())
}

// Returns whether the program headers have the format's length, where there are some.
fn has_program_headers(file: &[u8]) -> bool
    ensures { result ≡ spec.has_program_headers file.now }
{
    segment_total(file) == 0 || u64::from(e_phentsize(file)) == PROGRAM_HEADER_LEN
}

/// Checks the program headers and the segments.
#[tactic(auto, unfolding(crate::specs::Checks::core_check))]
pub fn check_core(file: &[u8]) -> Result<(), ElfFault>
    requires { length file.now < 2 ^ 32 }
    ensures { result ≡ spec.core_check file.now }
{
    let count = segment_total(file);
    require(has_program_headers(file), ElfFault::EntrySize(E_PHENTSIZE))?;
    require(
        lies(file.len() as u64, e_phoff(file), u64::from(count), 56),
        ElfFault::OutOfFile(E_PHOFF),
    )?;
    check_segments(file, count)
}

/// Checks the length and the place of the program headers of a file of any kind, and returns how many there are.
#[tactic(auto, unfolding(crate::specs::Checks::program_headers_check))]
pub fn check_program_headers(file: &[u8]) -> Result<u32, ElfFault>
    ensures check { verdict result ≡ spec.program_headers_check file.now }
    ensures count { IfOk result (λ count. count ≡ total file.now) }
{
    let count = segment_total(file);
    require(
        u64::from(e_phentsize(file)) == PROGRAM_HEADER_LEN,
        ElfFault::EntrySize(E_PHENTSIZE),
    )?;
    require(
        lies(file.len() as u64, e_phoff(file), u64::from(count), 56),
        ElfFault::OutOfFile(E_PHOFF),
    )?;
    Ok(count)
}

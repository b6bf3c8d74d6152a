//! Checks of the section headers and of the sections' names.

ghost use Rattle.std.specs.Prelude.{◌≡◌, ◌<◌, ◌≤◌, ◌+◌, ◌*◌, ◌^◌, length, OnOk};
ghost use Rattle.elf_read.specs.Checks as spec;
ghost use Rattle.elf_read.specs.Checking.{each_below};
ghost use Rattle.elf_read.specs.Header.{header_fields};
ghost use Rattle.elf_read.specs.Number.{EndsTexts};
ghost use Rattle.elf_read.specs.Sections as counts;

use crate::check::require;
use crate::fault::ElfFault;
use crate::header::e_shoff;
use crate::layout::{E_SHOFF, E_SHSTRNDX, SHT_STRTAB};
use crate::number::lies;
use crate::section_header::{SectionHeader, header_place};
use crate::sections::{name_table, section_bytes, section_count};
use crate::text::texts_end;

// Checks that a section's bytes lie in the file.
#[tactic(auto, unfolding(crate::specs::Checks::bytes_check, crate::specs::Sections::has_bytes))]
fn check_bytes(file: &[u8], i: u32) -> Result<(), ElfFault>
    requires { (header_fields file.now).e_shoff < 2 ^ 32 }
    ensures { result ≡ spec.bytes_check file.now i }
{
    let header = SectionHeader::of(file, i);
    if !header.is_in_file() {
        return Ok(());
    }
    require(
        lies(file.len() as u64, header.offset(), header.size(), 1),
        ElfFault::OutOfFile(header_place(file, i)),
    )
}

// Checks that the bytes of each section lie in the file.
fn check_all_bytes(file: &[u8], count: u32) -> Result<(), ElfFault>
    requires { (header_fields file.now).e_shoff < 2 ^ 32 }
    ensures { result ≡ each_below count (spec.bytes_check file.now) }
{
    for i in 0..count {
        check_bytes(file, i)?;
    }
    Ok(())
}

/// Checks the section headers and the sections' bytes.
#[tactic(auto, unfolding(crate::specs::Checks::sections_check))]
pub fn check_sections(file: &[u8]) -> Result<(), ElfFault>
    requires { length file.now < 2 ^ 32 }
    ensures check { result ≡ spec.sections_check file.now }
    ensures headers { OnOk result ((header_fields file.now).e_shoff + 64 * counts.section_count file.now ≤ length file.now) }
{
    let count = section_count(file);
    require(
        lies(file.len() as u64, e_shoff(file), count, 64),
        ElfFault::OutOfFile(E_SHOFF),
    )?;
    check_all_bytes(file, count as u32)
}

/// Returns whether a number is that of a string table.
#[tactic(auto, unfolding(crate::specs::Checks::is_string_table))]
pub fn is_string_table(file: &[u8], i: u32) -> bool
    ensures { result ≡ spec.is_string_table file.now i }
{
    u64::from(i) < section_count(file) && SectionHeader::of(file, i).kind() == SHT_STRTAB
}

// Checks that a section's name is in the name table, whose texts end there.
#[tactic(auto, unfolding(crate::specs::Checks::name_check))]
fn check_name(file: &[u8], end: u64, i: u32) -> Result<(), ElfFault>
    requires headers { (header_fields file.now).e_shoff < 2 ^ 32 }
    requires end { EndsTexts (counts.section_bytes file.now (counts.name_table file.now)) end }
    ensures { result ≡ spec.name_check file.now i }
{
    require(
        u64::from(SectionHeader::of(file, i).name()) < end,
        ElfFault::Strings(header_place(file, i)),
    )
}

// Checks that the name of each section is in the name table.
fn check_all_names(file: &[u8], count: u32) -> Result<(), ElfFault>
    requires { (header_fields file.now).e_shoff < 2 ^ 32 }
    ensures { result ≡ each_below count (spec.name_check file.now) }
{
    let end = texts_end(section_bytes(file, name_table(file)));
    for i in 0..count {
        check_name(file, end, i)?;
    }
    Ok(())
}

// Returns whether there are sections with names.
#[tactic(auto, unfolding(crate::specs::Checks::has_names))]
fn has_names(file: &[u8]) -> bool
    ensures { result ≡ spec.has_names file.now }
{
    section_count(file) != 0 && name_table(file) != 0
}

/// Checks the name table, and the sections' names.
#[tactic(auto, unfolding(crate::specs::Checks::names_check))]
pub fn check_names(file: &[u8], count: u32) -> Result<(), ElfFault>
    requires count { count ≡ counts.section_count file.now }
    requires small { (header_fields file.now).e_shoff < 2 ^ 32 }
    ensures { result ≡ spec.names_check file.now }
{
    if !has_names(file) {
        return Ok(());
    }
    require(
        is_string_table(file, name_table(file)),
        ElfFault::Strings(E_SHSTRNDX),
    )?;
    check_all_names(file, count)
}

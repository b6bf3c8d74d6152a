//! What is tried of sections before and after they are placed.

ghost use Rattle.std.specs.Prelude.{◌≡◌, ◌<◌, length};
ghost use Rattle.elf_read.specs.Checking.{each_below};
ghost use Rattle.elf_read.specs.Sections as sections;
ghost use Rattle.elf_read.specs.Input.{file};
ghost use Rattle.elf_place.specs.Place as spec;

use crate::fault::PlaceFault;
use elf_read::ElfInput;
use elf_read::layout::{SHF_ALLOC, SHT_NOBITS};

// Returns whether a section is loaded.
#[tactic(auto, unfolding(elf_read::specs::Sections::is_allocated))]
fn is_allocated(elf: &ElfInput<'_>, i: u32) -> bool
    requires { i < sections.section_count (file elf.now) }
    ensures { result ≡ sections.is_allocated (file elf.now) i }
{
    elf.section(i).flags / SHF_ALLOC % 2 == 1
}

/// Returns whether a section gets an address.
#[tactic(auto, unfolding(crate::specs::Place::is_placed))]
pub fn is_placed(elf: &ElfInput<'_>, dropped: &[bool], i: u32) -> bool
    requires index { i < length dropped.now }
    requires all { length dropped.now ≡ sections.section_count (file elf.now) }
    ensures { result ≡ spec.is_placed (file elf.now) dropped.now i }
{
    is_allocated(elf, i) && !dropped[i as usize]
}

/// Returns whether a section is call frame information that is not dropped.
#[tactic(auto, unfolding(crate::specs::Place::is_kept_eh_frame))]
pub fn is_kept_eh_frame(elf: &ElfInput<'_>, dropped: &[bool], i: u32) -> bool
    requires index { i < length dropped.now }
    requires all { length dropped.now ≡ sections.section_count (file elf.now) }
    ensures { result ≡ spec.is_kept_eh_frame (file elf.now) dropped.now i }
{
    elf.is_eh_frame(i) && !dropped[i as usize]
}

// Returns whether an alignment is none or a power of two.
fn is_alignment(align: u64) -> bool
    ensures { result ≡ spec.is_alignment align }
{
    align == 0 || align.is_power_of_two()
}

#[tactic(auto, unfolding(crate::specs::Place::align_check))]
fn check_align(elf: &ElfInput<'_>, dropped: &[bool], i: u32) -> Result<(), PlaceFault>
    requires index { i < length dropped.now }
    requires all { length dropped.now ≡ sections.section_count (file elf.now) }
    ensures { result ≡ spec.align_check (file elf.now) dropped.now i }
{
    if is_placed(elf, dropped, i) && !is_alignment(elf.section(i).align) {
        return Err(PlaceFault::Align(i));
    }
    Ok(())
}

/// Checks the alignments of the sections that get an address.
pub fn check_aligns(elf: &ElfInput<'_>, dropped: &[bool], count: u32) -> Result<(), PlaceFault>
    requires count { count ≡ length dropped.now }
    requires all { length dropped.now ≡ sections.section_count (file elf.now) }
    ensures { result ≡ each_below count (spec.align_check (file elf.now) dropped.now) }
{
    for i in 0..count {
        check_align(elf, dropped, i)?;
    }
    Ok(())
}

#[tactic(auto, unfolding(crate::specs::Place::bits_check))]
fn check_bits(elf: &ElfInput<'_>, dropped: &[bool], i: u32) -> Result<(), PlaceFault>
    requires index { i < length dropped.now }
    requires all { length dropped.now ≡ sections.section_count (file elf.now) }
    ensures { result ≡ spec.bits_check (file elf.now) dropped.now i }
{
    if is_kept_eh_frame(elf, dropped, i) && elf.section(i).kind == SHT_NOBITS {
        return Err(PlaceFault::NoBits(i));
    }
    Ok(())
}

/// Refuses call frame information without bytes in the file.
pub fn check_all_bits(elf: &ElfInput<'_>, dropped: &[bool], count: u32) -> Result<(), PlaceFault>
    requires count { count ≡ length dropped.now }
    requires all { length dropped.now ≡ sections.section_count (file elf.now) }
    ensures { result ≡ each_below count (spec.bits_check (file elf.now) dropped.now) }
{
    for i in 0..count {
        check_bits(elf, dropped, i)?;
    }
    Ok(())
}

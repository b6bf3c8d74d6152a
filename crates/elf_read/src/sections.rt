//! What the headers say of sections: how many there are, their bytes and names, and which hold call
//! frame information.

ghost use Rattle.std.specs.Prelude.{◌≡◌, ◌==◌, ◌<◌, ◌≤◌, ◌^◌, ℕ, length};
ghost use Rattle.std.specs.Cmp.Lexicographic.{pointwise};
ghost use Rattle.elf_read.specs.Sections as spec;

use crate::header::{e_phnum, e_shnum, e_shoff, e_shstrndx, is_core_file};
use crate::layout::{EH_FRAME, PN_XNUM, SHN_XINDEX};
use crate::number::bytes_at;
use crate::section_header::SectionHeader;
use crate::text::{text_at, text_is};

// Returns how many section headers the file has.
#[tactic(auto, unfolding(crate::specs::Sections::section_total))]
fn section_total(file: &[u8]) -> u64
    ensures { result ≡ spec.section_total file.now }
{
    if e_shoff(file) == 0 {
        return 0;
    }
    match e_shnum(file) {
        0 => SectionHeader::of(file, 0).size(),
        count => u64::from(count),
    }
}

/// Returns the number of sections. Those of a core file aren't read.
#[tactic(auto, unfolding(crate::specs::Sections::section_count, crate::specs::Sections::section_total))]
pub fn section_count(file: &[u8]) -> u64
    ensures { result ≡ spec.section_count file.now }
{
    if is_core_file(file) {
        0
    } else {
        section_total(file)
    }
}

/// Returns how many program headers the file has.
#[tactic(auto, unfolding(crate::specs::Sections::segment_total))]
pub fn segment_total(file: &[u8]) -> u32
    ensures { result ≡ spec.segment_total file.now }
{
    match e_phnum(file) {
        PN_XNUM => SectionHeader::of(file, 0).info(),
        count => u32::from(count),
    }
}

/// Returns the number of segments. Only those of a core file are read.
#[tactic(auto, unfolding(crate::specs::Sections::segment_count))]
pub fn segment_count(file: &[u8]) -> u32
    ensures { result ≡ spec.segment_count file.now }
{
    if is_core_file(file) {
        segment_total(file)
    } else {
        0
    }
}

/// Returns a section's bytes.
#[tactic(auto, unfolding(crate::specs::Sections::section_bytes, crate::specs::Sections::has_bytes))]
pub fn section_bytes(file: &[u8], i: u32) -> &[u8]
    ensures bytes { result.now ≡ spec.section_bytes file.now i }
    ensures within { 0 < length result.now → (spec.section_fields file.now i).sh_offset < length file.now }
    ensures small { length result.now ≤ length file.now }
{
    let header = SectionHeader::of(file, i);
    if header.is_in_file() {
        bytes_at(file, header.offset(), header.size())
    } else {
        &[]
    }
}

/// Returns the number of the section that holds the sections' names, or 0.
#[tactic(auto, unfolding(crate::specs::Sections::name_table))]
pub fn name_table(file: &[u8]) -> u32
    ensures { result ≡ spec.name_table file.now }
{
    match e_shstrndx(file) {
        SHN_XINDEX => SectionHeader::of(file, 0).link(),
        number => u32::from(number),
    }
}

/// Returns a section's name.
#[tactic(auto, unfolding(crate::specs::Sections::section_name))]
pub fn section_name(file: &[u8], i: u32) -> &[u8]
    ensures { result.now ≡ spec.section_name file.now i }
{
    let table = name_table(file);
    if table == 0 {
        return &[];
    }
    let name = SectionHeader::of(file, i).name();
    text_at(section_bytes(file, table), u64::from(name))
}

/// Returns whether a section has this name.
#[tactic(auto, unfolding(crate::specs::Sections::section_name))]
pub fn is_named(file: &[u8], i: u32, name: &[u8]) -> bool
    requires { length name.now < 2 ^ 32 }
    ensures { result ≡ pointwise (λ (a b : ℕ). a == b) (spec.section_name file.now i) name.now }
{
    let table = name_table(file);
    if table == 0 {
        return name.is_empty();
    }
    let place = SectionHeader::of(file, i).name();
    text_is(section_bytes(file, table), u64::from(place), name)
}

/// Returns whether a section holds call frame information that is loaded.
#[tactic(auto, unfolding(crate::specs::Sections::is_eh_frame, crate::specs::Sections::is_allocated))]
pub fn is_eh_frame(file: &[u8], i: u32) -> bool
    ensures { result ≡ spec.is_eh_frame file.now i }
{
    SectionHeader::of(file, i).is_allocated() && is_named(file, i, EH_FRAME)
}

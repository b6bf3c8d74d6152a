//! The SFrame section, by parts.

ghost use Rattle.std.specs.Prelude.{◌≡◌, ◌<◌, false, IfSome};
ghost use Rattle.elf_read.specs.Linked.{linked_file};
ghost use Rattle.elf_read.specs.Sections as fields;
ghost use Rattle.sf_bytes.specs.Parts.{AreParts, IsPart};
ghost use Rattle.elf_mapped.specs.Parts.{IsNameTable, IsSframe};
ghost use Rattle.elf_mapped.specs.Sframe as spec;

use crate::layout::SFRAME;
use crate::names::{is_named, names_of};
use crate::part::take_part;
use elf_read::LinkedElf;
use elf_read::layout::{SHF_ALLOC, SHF_COMPRESSED, SHT_NOBITS, SHT_NULL};
use sf_bytes::FilePart;

/// The SFrame section of a file.
#[derive(Drop)]
pub struct Sframe {
    /// Its number.
    pub number: u32,
    /// Its bytes.
    pub bytes: Vec<u8>,
}

// Returns whether a section is loaded.
#[tactic(auto, unfolding(elf_read::specs::Sections::is_allocated))]
fn is_allocated(linked: &LinkedElf, i: u32) -> bool
    requires { i < fields.section_count (linked_file linked.now) }
    ensures { result ≡ fields.is_allocated (linked_file linked.now) i }
{
    linked.section(i).flags / SHF_ALLOC % 2 == 1
}

// Returns whether a section's bytes are compressed.
#[tactic(auto, unfolding(elf_read::specs::Sections::is_compressed))]
fn is_compressed(linked: &LinkedElf, i: u32) -> bool
    requires { i < fields.section_count (linked_file linked.now) }
    ensures { result ≡ fields.is_compressed (linked_file linked.now) i }
{
    linked.section(i).flags / SHF_COMPRESSED % 2 == 1
}

// Returns whether a section is an SFrame section that is loaded from the file.
#[tactic(auto, unfolding(crate::specs::Sframe::is_sframe))]
fn is_sframe(linked: &LinkedElf, names: &[u8], i: u32) -> bool
    requires index { i < fields.section_count (linked_file linked.now) }
    requires names { IsNameTable (linked_file linked.now) names.now }
    ensures { result ≡ spec.is_sframe (linked_file linked.now) i }
{
    is_allocated(linked, i)
        && is_named(linked, names, i, SFRAME)
        && linked.section(i).kind != SHT_NOBITS
}

// Finds the number of the first SFrame section that is loaded from the file.
fn sframe_section(linked: &LinkedElf, names: &[u8]) -> Option<u32>
    requires { IsNameTable (linked_file linked.now) names.now }
    ensures found { result ≡ spec.sframe_section (linked_file linked.now) }
    ensures within { IfSome result (λ i. i < fields.section_count (linked_file linked.now)) }
{
    for i in 0..linked.sections() {
        if is_sframe(linked, names, i) {
            return Some(i);
        }
    }
    None
}

// Takes the next part off as the bytes of a section, if they are at its place and not compressed.
#[tactic(auto, unfolding(elf_read::specs::Sections::section_bytes, elf_read::specs::Sections::has_bytes))]
fn take_section(linked: &LinkedElf, parts: &mut Vec<FilePart>, i: u32) -> Option<Vec<u8>>
    requires index { i < fields.section_count (linked_file linked.now) }
    requires parts { AreParts (linked_file linked.now) parts.old.items }
    ensures bytes { IfSome result (λ bytes. bytes.items ≡ fields.section_bytes (linked_file linked.now) i) }
    ensures plain { IfSome result (λ _. fields.is_compressed (linked_file linked.now) i ≡ false) }
{
    let section = linked.section(i);
    if section.kind == SHT_NULL || section.kind == SHT_NOBITS || is_compressed(linked, i) {
        return None;
    }
    Some(take_part(parts, section.offset, section.size)?.bytes)
}

/// What is found of the SFrame section of a file.
#[derive(Drop)]
pub struct Found {
    /// The section, if the file has one.
    pub sframe: Option<Sframe>,
}

/// Finds the SFrame section by the part that is the bytes of the name table. The section's bytes are the next part, which is
/// taken off. Nothing if a part is another one, or the section is compressed.
pub fn take_sframe(linked: &LinkedElf, names: &FilePart, parts: &mut Vec<FilePart>) -> Option<Found>
    requires names { IsPart (linked_file linked.now) names.now }
    requires parts { AreParts (linked_file linked.now) parts.old.items }
    ensures { IfSome result (λ found. IsSframe (linked_file linked.now) found.sframe) }
{
    let names = names_of(linked, names)?;
    let Some(number) = sframe_section(linked, names) else {
        return Some(Found { sframe: None });
    };
    let bytes = take_section(linked, parts, number)?;
    Some(Found {
        sframe: Some(Sframe { number, bytes }),
    })
}

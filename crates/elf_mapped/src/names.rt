//! The names of sections, by the bytes of the name table (ELF64 gABI, "String Table").

ghost use Rattle.std.specs.Prelude.{◌≡◌, ◌<◌, ◌^◌, bytes_eq, drop, length, take, IfSome};
ghost use Rattle.elf_read.specs.Linked.{linked_file};
ghost use Rattle.elf_read.specs.Sections as spec;
ghost use Rattle.sf_bytes.specs.Parts.{IsPart};
ghost use Rattle.elf_mapped.specs.Parts.{IsNameTable};

use crate::headers::e_shstrndx;
use elf_read::layout::{SECTION_HEADER_LEN, SH_NAME, SHN_XINDEX, SHT_STRTAB};
use elf_read::{LinkedElf, Text, u32_at};
use sf_bytes::FilePart;

/// Returns the bytes of the name table, if the part is these.
pub fn names_of<'a>(linked: &LinkedElf, part: &'a FilePart) -> Option<&'a [u8]>
    requires { IsPart (linked_file linked.now) part.now }
    ensures { IfSome result (λ names. IsNameTable (linked_file linked.now) names.now) }
{
    let table = e_shstrndx(linked);
    if table == 0 || table == SHN_XINDEX || u32::from(table) >= linked.sections() {
        return None;
    }
    let section = linked.section(u32::from(table));
    if section.kind != SHT_STRTAB {
        return None;
    }
    if part.place != section.offset || part.bytes.len() as u64 != section.size {
        return None;
    }
    Some(&part.bytes)
}

// Returns the place of a section's name in the name table.
#[tactic(auto, unfolding(elf_read::specs::Sections::section_fields))]
fn sh_name(linked: &LinkedElf, i: u32) -> u32
    requires { i < spec.section_count (linked_file linked.now) }
    ensures { result ≡ (spec.section_fields (linked_file linked.now) i).sh_name }
{
    u32_at(
        &linked.sections,
        SECTION_HEADER_LEN * u64::from(i) + SH_NAME,
    )
}

// Returns the bytes from a place on, at most `most`.
fn front_from(bytes: &[u8], place: u64, most: usize) -> &[u8]
    ensures { result.now ≡ take most (drop place bytes.now) }
{
    let rest = match bytes.get(place as usize..) {
        Some(rest) => rest,
        None => &[],
    };
    match rest.get(..most) {
        Some(front) => front,
        None => rest,
    }
}

/// Returns whether a section has this name. Of the section's name at most one byte more than this name has is read.
pub fn is_named(linked: &LinkedElf, names: &[u8], i: u32, name: &[u8]) -> bool
    requires index { i < spec.section_count (linked_file linked.now) }
    requires names { IsNameTable (linked_file linked.now) names.now }
    requires short { length name.now < 2 ^ 32 }
    ensures { result ≡ bytes_eq (spec.section_name (linked_file linked.now) i) name.now }
{
    let place = u64::from(sh_name(linked, i));
    let text = Text {
        place,
        rest: front_from(names, place, name.len() + 1),
    };
    text.bytes() == name
}

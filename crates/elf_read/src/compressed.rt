//! No section that is used may be compressed.

ghost use Rattle.std.specs.Prelude.{◌≡◌, ◌<◌, ◌^◌};
ghost use Rattle.elf_read.specs.Header.{header_fields};
ghost use Rattle.elf_read.specs.Sections as fields;
ghost use Rattle.elf_read.specs.Used as spec;

use crate::fault::ElfFault;
use crate::section_header::{SectionHeader, header_place};
use crate::sections::is_eh_frame;
use crate::used_checks::{is_group, is_used_rela};

// Returns the lesser of two numbers, where there are some.
fn least(a: Option<u32>, b: Option<u32>) -> Option<u32>
    ensures { result ≡ spec.least a b }
{
    match (a, b) {
        (None, b) => b,
        (Some(a), None) => Some(a),
        (Some(a), Some(b)) => Some(a.min(b)),
    }
}

// Returns this number, where it is used and names a compressed section.
#[tactic(auto, unfolding(crate::specs::Used::if_compressed, crate::specs::Sections::is_compressed))]
fn if_compressed(file: &[u8], used: bool, i: u32) -> Option<u32>
    ensures { result ≡ spec.if_compressed file.now used i }
{
    if used && SectionHeader::of(file, i).is_compressed() {
        Some(i)
    } else {
        None
    }
}

// Returns the least compressed section among those that are used because of this one.
#[tactic(auto, unfolding(crate::specs::Used::compressed_by))]
fn compressed_by(file: &[u8], i: u32) -> Option<u32>
    ensures { result ≡ spec.compressed_by file.now i }
{
    let group = is_group(file, i);
    let linking = is_used_rela(file, i) || group;
    let itself = if_compressed(file, is_eh_frame(file, i) || linking, i);
    let link = SectionHeader::of(file, i).link();
    let table = if_compressed(file, linking, link);
    let strings = if_compressed(file, group, SectionHeader::of(file, link).link());
    least(itself, least(table, strings))
}

// Returns the least compressed section among those that are used.
fn least_compressed(file: &[u8], count: u32) -> Option<u32>
    ensures { result ≡ spec.least_compressed file.now count }
{
    let mut found = None;
    for i in 0..count {
        found = least(found, compressed_by(file, i));
    }
    found
}

/// Checks that no section that is used is compressed; the one with the lowest number is refused.
#[tactic(auto, unfolding(crate::specs::Used::compressed_check))]
pub fn check_compressed(file: &[u8], count: u32) -> Result<(), ElfFault>
    requires headers { (header_fields file.now).e_shoff < 2 ^ 32 }
    requires count { count ≡ fields.section_count file.now }
    ensures { result ≡ spec.compressed_check file.now }
{
    match least_compressed(file, count) {
        None => Ok(()),
        Some(i) => Err(ElfFault::Compressed(header_place(file, i))),
    }
}

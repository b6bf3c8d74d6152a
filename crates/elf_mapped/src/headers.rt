//! The file header, and which part is the program headers (ELF64 gABI, "ELF Header" and "Program Header").

ghost use Rattle.std.specs.Prelude.{◌≡◌, ◌*◌, Ok, IfSome};
ghost use Rattle.elf_read.specs.Checks.{program_headers_check};
ghost use Rattle.elf_read.specs.Header.{header_fields};
ghost use Rattle.elf_read.specs.Linked.{linked_file};
ghost use Rattle.elf_read.specs.Number.{window};
ghost use Rattle.elf_read.specs.Sections.{segment_total};
ghost use Rattle.sf_bytes.specs.Parts.{AreParts};

use crate::part::take_part;
use elf_read::layout::{E_PHENTSIZE, E_PHNUM, E_PHOFF, E_SHSTRNDX, PN_XNUM, PROGRAM_HEADER_LEN};
use elf_read::{LinkedElf, u16_at, u64_at};
use sf_bytes::FilePart;

// Returns the place of the program headers.
#[tactic(auto, unfolding(elf_read::specs::Header::header_fields))]
fn e_phoff(linked: &LinkedElf) -> u64
    ensures { result ≡ (header_fields (linked_file linked.now)).e_phoff }
{
    u64_at(&linked.header, E_PHOFF)
}

// Returns how many bytes a program header has.
#[tactic(auto, unfolding(elf_read::specs::Header::header_fields))]
fn e_phentsize(linked: &LinkedElf) -> u16
    ensures { result ≡ (header_fields (linked_file linked.now)).e_phentsize }
{
    u16_at(&linked.header, E_PHENTSIZE)
}

// Returns how many program headers there are, or PN_XNUM.
#[tactic(auto, unfolding(elf_read::specs::Header::header_fields))]
fn e_phnum(linked: &LinkedElf) -> u16
    ensures { result ≡ (header_fields (linked_file linked.now)).e_phnum }
{
    u16_at(&linked.header, E_PHNUM)
}

/// Returns the number of the section with the sections' names, or SHN_XINDEX.
#[tactic(auto, unfolding(elf_read::specs::Header::header_fields))]
pub fn e_shstrndx(linked: &LinkedElf) -> u16
    ensures { result ≡ (header_fields (linked_file linked.now)).e_shstrndx }
{
    u16_at(&linked.header, E_SHSTRNDX)
}

/// Returns how many program headers there are, if the file header has their number.
#[tactic(auto, unfolding(elf_read::specs::Sections::segment_total))]
pub fn header_count(linked: &LinkedElf) -> Option<u32>
    ensures { IfSome result (λ count. count ≡ segment_total (linked_file linked.now)) }
{
    let count = e_phnum(linked);
    if count == PN_XNUM {
        return None;
    }
    Some(u32::from(count))
}

/// Takes the next part off as the bytes of `count` program headers, if they are at their place and lie in the file.
#[tactic(auto, unfolding(elf_read::specs::Checks::program_headers_check))]
pub fn take_table(linked: &LinkedElf, parts: &mut Vec<FilePart>, count: u32) -> Option<Vec<u8>>
    requires count { count ≡ segment_total (linked_file linked.now) }
    requires parts { AreParts (linked_file linked.now) parts.old.items }
    ensures check { IfSome result (λ _. program_headers_check (linked_file linked.now) ≡ Ok tt) }
    ensures table { IfSome result (λ table. table.items ≡ window (header_fields (linked_file linked.now)).e_phoff (56 * count) (linked_file linked.now)) }
    ensures rest { AreParts (linked_file linked.now) parts.new.items }
{
    let place = e_phoff(linked);
    let size = PROGRAM_HEADER_LEN * u64::from(count);
    if u64::from(e_phentsize(linked)) != PROGRAM_HEADER_LEN {
        return None;
    }
    if u128::from(place) + u128::from(size) > u128::from(linked.len()) {
        return None;
    }
    Some(take_part(parts, place, size)?.bytes)
}

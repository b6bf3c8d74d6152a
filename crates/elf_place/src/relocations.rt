//! The sections with relocations of call frame information.

ghost use Rattle.std.specs.Prelude.{◌≡◌, ◌<◌, length, IfOk, OnOk};
ghost use Rattle.std.specs.List.Sorted.{IsNonDecreasingBy, IsStableByKey};
ghost use Rattle.std.specs.Ordering.{nat_cmp};
ghost use Rattle.elf_read.specs.Sections.{section_count};
ghost use Rattle.elf_read.specs.Used.{names_eh_frame as names};
ghost use Rattle.elf_read.specs.Input.{file};
ghost use Rattle.elf_place.specs.Relocations as spec;

use elf_read::ElfInput;
use elf_read::layout::{
    SHT_CREL, SHT_GROUP, SHT_NOBITS, SHT_NULL, SHT_PROGBITS, SHT_REL, SHT_RELA, SHT_STRTAB,
    SHT_SYMTAB, SHT_X86_64_UNWIND,
};
use std::alloc::{AllocError, Global};

/// A section with relocations of call frame information, in whatever form, and the section that they are applied to.
#[derive(Clone, Copy)]
pub struct RelocationSection {
    /// The number of the section that the relocations are applied to: its info.
    pub target: u32,
    /// Its own number.
    pub number: u32,
}

// Returns whether the sections of a type have relocations.
fn is_relocation_type(kind: u32) -> bool
    ensures { result ≡ spec.is_relocation_type kind }
{
    kind == SHT_RELA || kind == SHT_REL || kind == SHT_CREL
}

// Returns whether the sections of a type have something else than relocations.
fn is_type_without_relocations(kind: u32) -> bool
    ensures { result ≡ spec.is_type_without_relocations kind }
{
    matches!(
        kind,
        SHT_NULL
            | SHT_PROGBITS
            | SHT_SYMTAB
            | SHT_STRTAB
            | SHT_NOBITS
            | SHT_GROUP
            | SHT_X86_64_UNWIND
    )
}

// Returns whether a section relocates another, by its type or, where that is unknown, by its flags.
#[tactic(auto, unfolding(crate::specs::Relocations::may_relocate, elf_read::specs::Sections::has_info_link))]
fn may_relocate(elf: &ElfInput<'_>, i: u32) -> bool
    requires { i < section_count (file elf.now) }
    ensures { result ≡ spec.may_relocate (file elf.now) i }
{
    let kind = elf.section(i).kind;
    is_relocation_type(kind) || (elf.has_info_link(i) && !is_type_without_relocations(kind))
}

// Returns whether a number is that of a section with call frame information.
#[tactic(auto, unfolding(elf_read::specs::Used::names_eh_frame))]
fn names_eh_frame(elf: &ElfInput<'_>, i: u32) -> bool
    ensures { result ≡ names (file elf.now) i }
{
    i < elf.sections() && elf.is_eh_frame(i)
}

// Returns whether a section has relocations of call frame information.
#[tactic(auto, unfolding(crate::specs::Relocations::has_relocations))]
fn has_relocations(elf: &ElfInput<'_>, i: u32) -> bool
    requires { i < section_count (file elf.now) }
    ensures { result ≡ spec.has_relocations (file elf.now) i }
{
    may_relocate(elf, i) && names_eh_frame(elf, elf.section(i).info)
}

// Returns those of the first `count` sections that have relocations, in order of their numbers.
fn list_sections(
    alloc: Global,
    elf: &ElfInput<'_>,
    count: u32,
) -> Result<Vec<RelocationSection>, AllocError>
    requires { count ≡ section_count (file elf.now) }
    ensures { IfOk result (λ v. v.items ≡ spec.listed_below (file elf.now) count) }
{
    let mut list = Vec::new(alloc);
    for i in 0..count {
        if has_relocations(elf, i) {
            let target = elf.section(i).info;
            list.push(RelocationSection { target, number: i })?;
        }
    }
    Ok(list)
}

// Brings these sections into the order of their targets. Those of one target stay in order.
fn sort_by_target(list: &mut Vec<RelocationSection>) -> Result<(), AllocError>
    ensures rising { OnOk result (IsNonDecreasingBy spec.target_of list.new.items) }
    ensures stable { OnOk result (IsStableByKey spec.target_of nat_cmp list.old.items list.new.items) }
{
    list.sort_by_key(|section| section.target)?;
    Ok(())
}

/// Returns the sections with relocations, by rising target; those of one target in order of their numbers.
pub fn relocation_sections(
    alloc: Global,
    elf: &ElfInput<'_>,
    count: u32,
) -> Result<Vec<RelocationSection>, AllocError>
    requires { count ≡ section_count (file elf.now) }
    ensures rising { IfOk result (λ v. IsNonDecreasingBy spec.target_of v.items) }
    ensures all { IfOk result (λ v. spec.HasAll (file elf.now) v.items) }
{
    let mut list = list_sections(alloc, elf, count)?;
    sort_by_target(&mut list)?;
    Ok(list)
}

/// Returns those of a list by rising target that have this target.
pub fn with_target(list: &[RelocationSection], target: u32) -> &[RelocationSection]
    requires { IsNonDecreasingBy spec.target_of list.now }
    ensures { result.now ≡ spec.with_target target list.now }
{
    let start = list.partition_point(|section| section.target < target);
    let (_, rest) = list.split_at(start);
    let count = rest.partition_point(|section| section.target <= target);
    let (found, _) = rest.split_at(count);
    found
}

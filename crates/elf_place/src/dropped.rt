//! The sections that are dropped with their groups.

ghost use Rattle.std.specs.Prelude.{◌≡◌, ◌<◌, ◌||◌, ℕ, false, length, vec_len, IfOk, IsTrue, slice_index_or};
ghost use Rattle.elf_read.specs.Header.{is_rel};
ghost use Rattle.elf_read.specs.Sections.{section_count};
ghost use Rattle.elf_read.specs.Input.{file};
ghost use Rattle.elf_place.specs.Dropped as spec;

use elf_read::ElfInput;
use std::alloc::{AllocError, Global};

// Marks the first `count` members of a group.
fn mark_members(elf: &ElfInput<'_>, group: u32, count: u32, dropped: &mut [bool])
    requires { IsTrue (is_rel (file elf.now)) }
    ensures { (i : ℕ) → i < length dropped.old → slice_index_or dropped.new i false ≡ (slice_index_or dropped.old i false || spec.is_member (file elf.now) group count i) }
{
    for k in 0..count {
        let member = elf.member(group, k) as usize;
        if member < dropped.len() {
            dropped[member] = true;
        }
    }
}

// Marks the members of a group.
#[tactic(auto, unfolding(crate::specs::Dropped::is_named, elf_read::specs::Views::group_of))]
fn mark_group(elf: &ElfInput<'_>, group: u32, dropped: &mut [bool])
    ensures { (i : ℕ) → i < length dropped.old → slice_index_or dropped.new i false ≡ (slice_index_or dropped.old i false || spec.is_named (file elf.now) group i) }
{
    if let Some(head) = elf.group(group) {
        mark_members(elf, group, head.count, dropped);
    }
}

// Marks the members of all these groups.
fn mark_groups(elf: &ElfInput<'_>, gone: &[u32], dropped: &mut [bool])
    requires { (i : ℕ) → i < length dropped.old → slice_index_or dropped.old i false ≡ false }
    ensures { (i : ℕ) → i < length dropped.old → slice_index_or dropped.new i false ≡ spec.is_dropped (file elf.now) gone.now i }
{
    for group in gone {
        mark_group(elf, *group, dropped);
    }
}

/// Returns for each section whether one of these groups names it.
pub fn dropped_sections(
    alloc: Global,
    elf: &ElfInput<'_>,
    gone: &[u32],
) -> Result<Vec<bool>, AllocError>
    ensures items { IfOk result (λ v. v.items ≡ spec.dropped_sections (file elf.now) gone.now) }
    ensures len { IfOk result (λ v. vec_len v ≡ section_count (file elf.now)) }
{
    let mut dropped = vec![in alloc; false; elf.sections() as usize]?;
    mark_groups(elf, gone, dropped.as_mut_slice());
    Ok(dropped)
}

//! The relocations of a section, in order of section and entry.

ghost use Rattle.std.specs.Prelude.{◌≡◌, ◌<◌, ◌+◌, ◌^◌, ◌++◌, ◌∷◌, [], List, IsTrue, OnOk, length};
ghost use Rattle.elf_read.specs.Header.{is_rel};
ghost use Rattle.elf_read.specs.Sections as fields;
ghost use Rattle.elf_place.specs.Relocations.{numbers_of};
ghost use Rattle.elf_place.specs.Views.{placed_file, placing};
ghost use Rattle.elf_reloc.specs.Reading as spec;
ghost use Rattle.elf_reloc.specs.Reading.{Relocation, entries_from, going_on, relocations_in};

use crate::entry::entry_fix;
use crate::fault::RelocFault;
use crate::fix::RelocatedField;
use elf_place::{Placed, RelocationSection};
use elf_read::layout::{ENTRY_LEN, SHT_RELA};
use elf_read::{Kind, room_law};
use std::alloc::Global;

/// What was read so far: the fields that are written, and the number of the next relocation.
#[derive(Drop)]
pub struct FixesSoFar {
    pub fixes: Vec<RelocatedField>,
    pub next: u32,
}

// Reads entry `k` of relocation section `i`.
fn read_entry(
    placed: &Placed<'_>,
    section: u32,
    i: u32,
    k: u32,
    read: &mut FixesSoFar,
) -> Result<(), RelocFault>
    requires object { IsTrue (is_rel (placed_file placed.now)) }
    requires few { read.old.next + 1 < 2 ^ 32 }
    ensures exact { (left : List Relocation) → spec.GoesOn (placing placed.now) section result read.new (going_on (placing placed.now) section read.old (record { table = i; entry = k } ∷ left)) left }
    ensures next { OnOk result (read.new.next ≡ read.old.next + 1) }
{
    let number = read.next;
    if let Some(fix) = entry_fix(placed, section, number, i, k)? {
        read.fixes.push(fix)?;
    }
    read.next = number + 1;
    Ok(())
}

// Reads the first entries of relocation section `i`.
fn read_entries(
    placed: &Placed<'_>,
    section: u32,
    i: u32,
    count: u32,
    read: &mut FixesSoFar,
) -> Result<(), RelocFault>
    requires object { IsTrue (is_rel (placed_file placed.now)) }
    requires few { read.old.next + count < 2 ^ 32 }
    ensures exact { (left : List Relocation) → spec.GoesOn (placing placed.now) section result read.new (going_on (placing placed.now) section read.old (entries_from i 0 count ++ left)) left }
    ensures next { OnOk result (read.new.next ≡ read.old.next + count) }
{
    for k in 0..count {
        read_entry(placed, section, i, k, read)?;
    }
    Ok(())
}

// Returns how many relocations with addends section `i` has.
#[tactic(auto, unfolding(elf_read::specs::Sections::entry_count))]
fn entry_count(placed: &Placed<'_>, i: u32) -> u32
    requires { IsTrue (is_rel (placed_file placed.now)) }
    ensures { result ≡ fields.entry_count (placed_file placed.now) i }
{
    (placed.elf().bytes(i).len() as u64 / ENTRY_LEN) as u32
}

// Reads the relocations of these sections.
fn read_sections(
    placed: &Placed<'_>,
    section: u32,
    sections: &[RelocationSection],
    read: &mut FixesSoFar,
) -> Result<(), RelocFault>
    requires object { IsTrue (is_rel (placed_file placed.now)) }
    requires few { read.old.next + length (relocations_in (placed_file placed.now) (numbers_of sections.now)) < 2 ^ 32 }
    ensures { spec.GoesOn (placing placed.now) section result read.new (going_on (placing placed.now) section read.old (relocations_in (placed_file placed.now) (numbers_of sections.now))) [] }
{
    for it in sections {
        read_entries(
            placed,
            section,
            it.number,
            entry_count(placed, it.number),
            read,
        )?;
    }
    Ok(())
}

// Returns whether section `i` has relocations with addends.
#[tactic(auto, unfolding(crate::specs::Reading::has_addends))]
fn has_addends(placed: &Placed<'_>, i: u32) -> bool
    requires { IsTrue (is_rel (placed_file placed.now)) }
    ensures { result ≡ spec.has_addends (placed_file placed.now) i }
{
    placed.elf().section(i).kind == SHT_RELA
}

// Checks that each of these sections has relocations with addends.
fn check_rels(placed: &Placed<'_>, sections: &[RelocationSection]) -> Result<(), RelocFault>
    requires { IsTrue (is_rel (placed_file placed.now)) }
    ensures { result ≡ spec.rel_check (placed_file placed.now) (numbers_of sections.now) }
{
    for it in sections {
        if !has_addends(placed, it.number) {
            return Err(RelocFault::RelSection(it.number));
        }
    }
    Ok(())
}

// Returns whether the file is an object, whose relocations are applied.
#[tactic(auto, unfolding(elf_read::specs::Header::kind_of))]
fn is_object(placed: &Placed<'_>) -> bool
    ensures { result ≡ is_rel (placed_file placed.now) }
{
    matches!(placed.elf().kind(), Kind::Rel)
}

// Reads the relocations of an object's section. A file has room for fewer than 2^32 of them.
fn read_object(placed: &Placed<'_>, section: u32, read: &mut FixesSoFar) -> Result<(), RelocFault>
    requires object { IsTrue (is_rel (placed_file placed.now)) }
    requires none { read.old.fixes.items ≡ [] }
    requires first { read.old.next ≡ 0 }
    ensures { spec.HoldsAll result read.new (spec.object_fixes (placing placed.now) section) }
{
    let sections = placed.relocation_sections(section);
    check_rels(placed, sections)?;
    room_law(placed.elf());
    read_sections(placed, section, sections, read)
}

/// Reads what a section's relocations write, in their order.
#[tactic(auto, unfolding(crate::specs::Reading::section_fixes, crate::specs::Reading::object_fixes))]
pub fn read_relocations(
    alloc: Global,
    placed: &Placed<'_>,
    section: u32,
) -> Result<FixesSoFar, RelocFault>
    ensures { spec.Gives result (spec.section_fixes (placing placed.now) section) }
{
    let mut read = FixesSoFar {
        fixes: Vec::new(alloc),
        next: 0,
    };
    if is_object(placed) {
        read_object(placed, section, &mut read)?;
    }
    Ok(read)
}

//! The fields of program headers (ELF64 gABI, "Program Header").

ghost use Rattle.std.specs.Prelude.{◌≡◌, ◌<◌, ◌≤◌, ◌+◌};
ghost use Rattle.elf_read.specs.Header as spec;
ghost use Rattle.elf_read.specs.Header.{p_field};
ghost use Rattle.elf_read.specs.SegmentFields as fields;
ghost use Rattle.elf_mapped.specs.Parts.{table_file};

use crate::table::Table;
use elf_read::layout::{
    P_FILESZ, P_FLAGS, P_MEMSZ, P_OFFSET, P_TYPE, P_VADDR, PF_X, PROGRAM_HEADER_LEN,
};
use elf_read::{u32_at, u64_at};

// Returns a field of four bytes of a program header.
fn field4(table: &Table<'_>, i: u32, place: u64) -> u32
    requires index { i < table.now.count }
    requires place { place + 4 ≤ 56 }
    ensures { result ≡ p_field 4 place (table_file table.now) i }
{
    u32_at(table.bytes, PROGRAM_HEADER_LEN * u64::from(i) + place)
}

// Returns a field of eight bytes of a program header.
fn field8(table: &Table<'_>, i: u32, place: u64) -> u64
    requires index { i < table.now.count }
    requires place { place + 8 ≤ 56 }
    ensures { result ≡ p_field 8 place (table_file table.now) i }
{
    u64_at(table.bytes, PROGRAM_HEADER_LEN * u64::from(i) + place)
}

/// Returns the type of a segment.
#[tactic(auto, unfolding(elf_read::specs::Header::p_type))]
pub fn p_type(table: &Table<'_>, i: u32) -> u32
    requires { i < table.now.count }
    ensures { result ≡ spec.p_type (table_file table.now) i }
{
    field4(table, i, P_TYPE)
}

/// Returns the place of a segment's bytes in the file.
#[tactic(auto, unfolding(elf_read::specs::Header::p_offset))]
pub fn p_offset(table: &Table<'_>, i: u32) -> u64
    requires { i < table.now.count }
    ensures { result ≡ spec.p_offset (table_file table.now) i }
{
    field8(table, i, P_OFFSET)
}

/// Returns the address of a segment.
#[tactic(auto, unfolding(elf_read::specs::Header::p_vaddr))]
pub fn p_vaddr(table: &Table<'_>, i: u32) -> u64
    requires { i < table.now.count }
    ensures { result ≡ spec.p_vaddr (table_file table.now) i }
{
    field8(table, i, P_VADDR)
}

/// Returns how many bytes a segment has in the file.
#[tactic(auto, unfolding(elf_read::specs::Header::p_filesz))]
pub fn p_filesz(table: &Table<'_>, i: u32) -> u64
    requires { i < table.now.count }
    ensures { result ≡ spec.p_filesz (table_file table.now) i }
{
    field8(table, i, P_FILESZ)
}

/// Returns how many bytes a segment has in memory.
#[tactic(auto, unfolding(elf_read::specs::SegmentFields::p_memsz))]
pub fn p_memsz(table: &Table<'_>, i: u32) -> u64
    requires { i < table.now.count }
    ensures { result ≡ fields.p_memsz (table_file table.now) i }
{
    field8(table, i, P_MEMSZ)
}

/// Returns whether a segment is executable: it has the flag PF_X.
#[tactic(auto, unfolding(elf_read::specs::SegmentFields::p_flags))]
pub fn is_executable(table: &Table<'_>, i: u32) -> bool
    requires { i < table.now.count }
    ensures { result ≡ fields.is_executable (table_file table.now) i }
{
    u64::from(field4(table, i, P_FLAGS)) / PF_X % 2 == 1
}

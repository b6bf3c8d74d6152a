//! Entries of symbol tables, relocation sections and groups.

ghost use Rattle.std.specs.Prelude.{◌≡◌, ◌<◌, ◌≤◌, length};
ghost use Rattle.elf_read.specs.Sections as spec;
ghost use Rattle.elf_read.specs.Used as used;

use crate::layout::{
    ENTRY_LEN, GROUP_WORD_LEN, R_SYMBOL, SHN_LORESERVE, ST_NAME, ST_SHNDX, ST_VALUE,
};
use crate::number::{u16_at, u32_at, u64_at};
use crate::sections::{section_bytes, section_count};

/// Returns the place of a symbol's name in the string table of its table.
#[tactic(auto, unfolding(crate::specs::Sections::symbol_fields))]
pub fn st_name(file: &[u8], table: u32, k: u32) -> u32
    ensures { result ≡ (spec.symbol_fields file.now table k).st_name }
{
    u32_at(
        section_bytes(file, table),
        ENTRY_LEN * u64::from(k) + ST_NAME,
    )
}

/// Returns the number of a symbol's section, or a reserved index.
#[tactic(auto, unfolding(crate::specs::Sections::symbol_fields))]
pub fn st_shndx(file: &[u8], table: u32, k: u32) -> u16
    ensures { result ≡ (spec.symbol_fields file.now table k).st_shndx }
{
    u16_at(
        section_bytes(file, table),
        ENTRY_LEN * u64::from(k) + ST_SHNDX,
    )
}

/// Returns a symbol's value.
#[tactic(auto, unfolding(crate::specs::Sections::symbol_fields))]
pub fn st_value(file: &[u8], table: u32, k: u32) -> u64
    ensures { result ≡ (spec.symbol_fields file.now table k).st_value }
{
    u64_at(
        section_bytes(file, table),
        ENTRY_LEN * u64::from(k) + ST_VALUE,
    )
}

/// Returns the number of the symbol that a relocation names.
#[tactic(auto, unfolding(crate::specs::Sections::rela_fields))]
pub fn rela_symbol(file: &[u8], i: u32, k: u32) -> u32
    ensures { result ≡ (spec.rela_fields file.now i k).r_sym }
{
    u32_at(section_bytes(file, i), ENTRY_LEN * u64::from(k) + R_SYMBOL)
}

/// Returns the number of a group's member.
#[tactic(auto, unfolding(crate::specs::Sections::group_member))]
pub fn group_member(file: &[u8], i: u32, k: u32) -> u32
    ensures { result ≡ spec.group_member file.now i k }
{
    u32_at(
        section_bytes(file, i),
        GROUP_WORD_LEN * u64::from(k) + GROUP_WORD_LEN,
    )
}

/// Returns how many members a group has.
#[tactic(auto, unfolding(crate::specs::Sections::member_count))]
pub fn member_count(file: &[u8], i: u32) -> u64
    ensures value { result ≡ spec.member_count file.now i }
    ensures within { 0 < result → (spec.section_fields file.now i).sh_offset < length file.now }
    ensures small { result ≤ length file.now }
{
    (section_bytes(file, i).len() as u64 / GROUP_WORD_LEN).saturating_sub(1)
}

/// Returns how many symbols or relocations a section has.
#[tactic(auto, unfolding(crate::specs::Sections::entry_count))]
pub fn entry_count(file: &[u8], i: u32) -> u64
    ensures value { result ≡ spec.entry_count file.now i }
    ensures within { 0 < result → (spec.section_fields file.now i).sh_offset < length file.now }
    ensures small { result ≤ length file.now }
{
    section_bytes(file, i).len() as u64 / ENTRY_LEN
}

/// Returns whether a table has a symbol of this number.
#[tactic(auto, unfolding(crate::specs::Used::is_symbol))]
pub fn is_symbol(file: &[u8], table: u32, k: u32) -> bool
    ensures { result ≡ used.is_symbol file.now table k }
{
    u64::from(k) < entry_count(file, table)
}

// Returns whether a symbol's index is reserved or the number of a section.
fn is_section_number(file: &[u8], index: u16) -> bool
    ensures { result ≡ used.is_section_number file.now index }
{
    index >= SHN_LORESERVE || u64::from(index) < section_count(file)
}

/// Returns whether a table has a symbol of this number that lies in a section of the file or has a reserved index.
#[tactic(auto, unfolding(crate::specs::Used::is_sound_symbol))]
pub fn is_sound_symbol(file: &[u8], table: u32, k: u32) -> bool
    ensures { result ≡ used.is_sound_symbol file.now table k }
{
    is_symbol(file, table, k) && is_section_number(file, st_shndx(file, table, k))
}

//! Checks of the relocations of call frame information and of section groups.

ghost use Rattle.std.specs.Prelude.{◌≡◌, ◌<◌, ◌^◌, length};
ghost use Rattle.elf_read.specs.Checking.{each_below};
ghost use Rattle.elf_read.specs.Header.{header_fields};
ghost use Rattle.elf_read.specs.Sections as fields;
ghost use Rattle.elf_read.specs.Used as spec;
ghost use Rattle.elf_read.specs.Zeros.{AreZeros};

use crate::check::require;
use crate::entries::{
    entry_count, group_member, is_sound_symbol, is_symbol, member_count, rela_symbol, st_name,
};
use crate::fault::ElfFault;
use crate::header::is_object;
use crate::layout::{ENTRY_LEN, GROUP_WORD_LEN, SHT_GROUP, SHT_RELA, SHT_SYMTAB};
use crate::masks::MASKS;
use crate::names::is_string_table;
use crate::section_header::{SectionHeader, header_place};
use crate::sections::{is_eh_frame, section_count};
use crate::zero_index::Zeros;

// Returns whether a number is that of a section with call frame information.
#[tactic(auto, unfolding(crate::specs::Used::names_eh_frame))]
fn names_eh_frame(file: &[u8], i: u32) -> bool
    ensures { result ≡ spec.names_eh_frame file.now i }
{
    u64::from(i) < section_count(file) && is_eh_frame(file, i)
}

/// Returns whether a section holds relocations of call frame information.
#[tactic(auto, unfolding(crate::specs::Used::is_used_rela))]
pub fn is_used_rela(file: &[u8], i: u32) -> bool
    ensures { result ≡ spec.is_used_rela file.now i }
{
    let header = SectionHeader::of(file, i);
    is_object(file) && header.kind() == SHT_RELA && names_eh_frame(file, header.info())
}

/// Returns whether a section is a group.
#[tactic(auto, unfolding(crate::specs::Used::is_group))]
pub fn is_group(file: &[u8], i: u32) -> bool
    ensures { result ≡ spec.is_group file.now i }
{
    is_object(file) && SectionHeader::of(file, i).kind() == SHT_GROUP
}

// Returns whether a number is that of a symbol table.
#[tactic(auto, unfolding(crate::specs::Used::is_symbol_table))]
fn is_symbol_table(file: &[u8], i: u32) -> bool
    ensures { result ≡ spec.is_symbol_table file.now i }
{
    u64::from(i) < section_count(file) && SectionHeader::of(file, i).kind() == SHT_SYMTAB
}

// Returns whether a section is a table of symbols or relocations.
#[tactic(auto, unfolding(crate::specs::Used::is_entry_table))]
fn is_entry_table(file: &[u8], i: u32) -> bool
    ensures { result ≡ spec.is_entry_table file.now i }
{
    let header = SectionHeader::of(file, i);
    header.entry() == ENTRY_LEN && header.size() % ENTRY_LEN == 0
}

// Checks a relocation section's symbol table, its own entries, and that table's.
#[tactic(auto, unfolding(crate::specs::Used::rela_tables))]
fn check_rela_tables(file: &[u8], i: u32) -> Result<(), ElfFault>
    requires { (header_fields file.now).e_shoff < 2 ^ 32 }
    ensures { result ≡ spec.rela_tables file.now i }
{
    let place = header_place(file, i);
    let link = SectionHeader::of(file, i).link();
    require(is_symbol_table(file, link), ElfFault::SymbolIndex(place))?;
    require(is_entry_table(file, i), ElfFault::EntrySize(place))?;
    require(
        is_entry_table(file, link),
        ElfFault::EntrySize(header_place(file, link)),
    )
}

// Checks a relocation section's tables, where the section is used.
#[tactic(auto, unfolding(crate::specs::Used::rela_check))]
fn check_rela(file: &[u8], i: u32) -> Result<(), ElfFault>
    requires { (header_fields file.now).e_shoff < 2 ^ 32 }
    ensures { result ≡ spec.rela_check file.now i }
{
    if !is_used_rela(file, i) {
        return Ok(());
    }
    check_rela_tables(file, i)
}

/// Checks the tables of each relocation section that is used.
pub fn check_relas(file: &[u8], count: u32) -> Result<(), ElfFault>
    requires { (header_fields file.now).e_shoff < 2 ^ 32 }
    ensures { result ≡ each_below count (spec.rela_check file.now) }
{
    for i in 0..count {
        check_rela(file, i)?;
    }
    Ok(())
}

// Returns whether the name of a group's symbol is in its table's string table.
#[tactic(auto, unfolding(crate::specs::Used::has_signature))]
fn has_signature(file: &[u8], zeros: &Zeros<'_>, i: u32) -> bool
    requires small { length file.now < 2 ^ 32 }
    requires zeros { AreZeros file.now zeros.now }
    ensures { result ≡ spec.has_signature file.now i }
{
    let header = SectionHeader::of(file, i);
    let table = header.link();
    let strings = SectionHeader::of(file, table).link();
    let name = st_name(file, table, header.info());
    is_string_table(file, strings) && zeros.text_stands(file, strings, u64::from(name))
}

// Returns whether a section is made of at least one word.
#[tactic(auto, unfolding(crate::specs::Used::is_word_table))]
fn is_word_table(file: &[u8], i: u32) -> bool
    ensures { result ≡ spec.is_word_table file.now i }
{
    let size = SectionHeader::of(file, i).size();
    size % GROUP_WORD_LEN == 0 && size != 0
}

// Checks a group's size, its symbol table, its symbol, and the symbol's name.
#[tactic(auto, unfolding(crate::specs::Used::group_tables))]
fn check_group_tables(file: &[u8], zeros: &Zeros<'_>, i: u32) -> Result<(), ElfFault>
    requires small { length file.now < 2 ^ 32 }
    requires headers { (header_fields file.now).e_shoff < 2 ^ 32 }
    requires zeros { AreZeros file.now zeros.now }
    ensures { result ≡ spec.group_tables file.now i }
{
    let place = header_place(file, i);
    let header = SectionHeader::of(file, i);
    let link = header.link();
    require(is_word_table(file, i), ElfFault::EntrySize(place))?;
    require(is_symbol_table(file, link), ElfFault::SymbolIndex(place))?;
    require(
        is_entry_table(file, link),
        ElfFault::EntrySize(header_place(file, link)),
    )?;
    require(
        is_symbol(file, link, header.info()),
        ElfFault::SymbolIndex(place),
    )?;
    require(has_signature(file, zeros, i), ElfFault::Strings(place))
}

// Checks that a member is the number of a section.
#[tactic(auto, unfolding(crate::specs::Used::member_check))]
fn check_member(file: &[u8], i: u32, k: u32) -> Result<(), ElfFault>
    requires { (fields.section_fields file.now i).sh_offset < 2 ^ 32 }
    ensures { result ≡ spec.member_check file.now i k }
{
    let header = SectionHeader::of(file, i);
    let place = header.offset() + (GROUP_WORD_LEN * u64::from(k) + GROUP_WORD_LEN);
    require(
        u64::from(group_member(file, i, k)) < section_count(file),
        ElfFault::SymbolIndex(place),
    )
}

// Checks that the members of a group are numbers of sections.
fn check_members_upto(file: &[u8], i: u32, count: u32) -> Result<(), ElfFault>
    requires { 0 < count → (fields.section_fields file.now i).sh_offset < 2 ^ 32 }
    ensures { result ≡ each_below count (spec.member_check file.now i) }
{
    for k in 0..count {
        check_member(file, i, k)?;
    }
    Ok(())
}

// Checks a group's tables and members, where the section is one.
#[tactic(auto, unfolding(crate::specs::Used::group_check, crate::specs::Used::members_check))]
fn check_group(file: &[u8], zeros: &Zeros<'_>, i: u32) -> Result<(), ElfFault>
    requires small { length file.now < 2 ^ 32 }
    requires headers { (header_fields file.now).e_shoff < 2 ^ 32 }
    requires zeros { AreZeros file.now zeros.now }
    ensures { result ≡ spec.group_check file.now i }
{
    if !is_group(file, i) {
        return Ok(());
    }
    check_group_tables(file, zeros, i)?;
    check_members_upto(file, i, member_count(file, i) as u32)
}

/// Checks each section group.
pub fn check_groups(file: &[u8], count: u32) -> Result<(), ElfFault>
    requires small { length file.now < 2 ^ 32 }
    requires headers { (header_fields file.now).e_shoff < 2 ^ 32 }
    ensures { result ≡ each_below count (spec.group_check file.now) }
{
    let mut masks = [0; MASKS];
    let zeros = Zeros::of_tables(file, count, &mut masks);
    for i in 0..count {
        check_group(file, &zeros, i)?;
    }
    Ok(())
}

// Checks that a relocation's symbol is in the table, and is in a section of the file or has a reserved index.
#[tactic(auto, unfolding(crate::specs::Used::entry_check))]
fn check_entry(file: &[u8], i: u32, k: u32) -> Result<(), ElfFault>
    requires { (fields.section_fields file.now i).sh_offset < 2 ^ 32 }
    ensures { result ≡ spec.entry_check file.now i k }
{
    let header = SectionHeader::of(file, i);
    let place = header.offset() + ENTRY_LEN * u64::from(k);
    require(
        is_sound_symbol(file, header.link(), rela_symbol(file, i, k)),
        ElfFault::SymbolIndex(place),
    )
}

// Checks the symbols of a section's relocations.
fn check_entries_upto(file: &[u8], i: u32, count: u32) -> Result<(), ElfFault>
    requires { 0 < count → (fields.section_fields file.now i).sh_offset < 2 ^ 32 }
    ensures { result ≡ each_below count (spec.entry_check file.now i) }
{
    for k in 0..count {
        check_entry(file, i, k)?;
    }
    Ok(())
}

// Checks the symbols of a section's relocations, where the section is used.
#[tactic(auto, unfolding(crate::specs::Used::entries_check))]
fn check_entries(file: &[u8], i: u32) -> Result<(), ElfFault>
    requires { length file.now < 2 ^ 32 }
    ensures { result ≡ spec.entries_check file.now i }
{
    if !is_used_rela(file, i) {
        return Ok(());
    }
    check_entries_upto(file, i, entry_count(file, i) as u32)
}

/// Checks the symbols of all relocations that are used.
pub fn check_all_entries(file: &[u8], count: u32) -> Result<(), ElfFault>
    requires { length file.now < 2 ^ 32 }
    ensures { result ≡ each_below count (spec.entries_check file.now) }
{
    for i in 0..count {
        check_entries(file, i)?;
    }
    Ok(())
}

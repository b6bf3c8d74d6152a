//! What a file's tables hold, read as values.

ghost use Rattle.std.specs.Prelude.{◌≡◌, ◌<◌, ◌^◌, length, IfSome};
ghost use Rattle.std.specs.Option.{option_map};
ghost use Rattle.elf_read.specs.Number.{text_in, LiesAt};
ghost use Rattle.elf_read.specs.Sections as fields;
ghost use Rattle.elf_read.specs.Views as spec;

use crate::entries::{member_count, rela_symbol, st_name, st_shndx, st_value};
use crate::entry::{GroupHead, Rela, Symbol};
use crate::layout::{ENTRY_LEN, R_ADDEND, R_TYPE, SHN_LORESERVE};
use crate::number::{bytes_from, u32_at, u64_at};
use crate::section_header::SectionHeader;
use crate::sections::{name_table, section_bytes, section_count};
use crate::text::Text;
use crate::used_checks::is_group;

/// Returns a symbol of a table.
pub fn symbol_at(file: &[u8], table: u32, k: u32) -> Symbol
    ensures { result ≡ spec.symbol_of file.now table k }
{
    Symbol {
        name: st_name(file, table, k),
        section: st_shndx(file, table, k),
        value: st_value(file, table, k),
    }
}

/// Returns an entry of a relocation section.
#[tactic(auto, unfolding(crate::specs::Sections::rela_fields))]
pub fn rela_at(file: &[u8], i: u32, k: u32) -> Rela
    ensures offset { result.offset ≡ (fields.rela_fields file.now i k).r_offset }
    ensures symbol { result.symbol ≡ (fields.rela_fields file.now i k).r_sym }
    ensures kind { result.kind ≡ (fields.rela_fields file.now i k).r_type }
    ensures addend { result.addend ≡ (fields.rela_fields file.now i k).r_addend }
{
    let bytes = section_bytes(file, i);
    let place = ENTRY_LEN * u64::from(k);
    Rela {
        offset: u64_at(bytes, place),
        symbol: rela_symbol(file, i, k),
        kind: u32_at(bytes, place + R_TYPE),
        addend: u64_at(bytes, place + R_ADDEND).cast_signed(),
    }
}

// Returns the text at a place of a string table.
fn text_in_table(file: &[u8], table: u32, place: u32) -> Text<'_>
    requires { length file.now < 2 ^ 32 }
    ensures text { spec.text_bytes result ≡ text_in place (fields.section_bytes file.now table) }
    ensures place { LiesAt result.place result.rest.now file.now }
{
    let header = SectionHeader::of(file, table);
    let place = u64::from(place);
    Text {
        place: header.offset().saturating_add(place),
        rest: bytes_from(section_bytes(file, table), place),
    }
}

// Returns the name of a symbol.
#[tactic(auto, unfolding(crate::specs::Views::symbol_name))]
fn symbol_name(file: &[u8], table: u32, k: u32) -> Text<'_>
    requires { length file.now < 2 ^ 32 }
    ensures text { spec.text_bytes result ≡ spec.symbol_name file.now table k }
    ensures place { LiesAt result.place result.rest.now file.now }
{
    let strings = SectionHeader::of(file, table).link();
    text_in_table(file, strings, st_name(file, table, k))
}

// Returns the name of a section.
#[tactic(auto, unfolding(crate::specs::Sections::section_name))]
fn section_text(file: &[u8], i: u32) -> Text<'_>
    requires { length file.now < 2 ^ 32 }
    ensures text { spec.text_bytes result ≡ fields.section_name file.now i }
    ensures place { LiesAt result.place result.rest.now file.now }
{
    let table = name_table(file);
    if table == 0 {
        return Text {
            place: 0,
            rest: &[],
        };
    }
    text_in_table(file, table, SectionHeader::of(file, i).name())
}

// Returns whether an index is the number of a section.
fn names_section(file: &[u8], index: u16) -> bool
    ensures { result ≡ spec.names_section file.now index }
{
    index < SHN_LORESERVE && u64::from(index) < section_count(file)
}

// Returns the name of a symbol, or where that is empty the name of its section.
#[tactic(auto, unfolding(crate::specs::Views::symbol_text, crate::specs::Views::symbol_name))]
fn symbol_text(file: &[u8], table: u32, k: u32) -> Text<'_>
    requires { length file.now < 2 ^ 32 }
    ensures text { spec.text_bytes result ≡ spec.symbol_text file.now table k }
    ensures place { LiesAt result.place result.rest.now file.now }
{
    let name = symbol_name(file, table, k);
    let section = st_shndx(file, table, k);
    if name.is_empty() && names_section(file, section) {
        section_text(file, u32::from(section))
    } else {
        name
    }
}

// Returns whether one copy of a group is kept.
#[tactic(auto, unfolding(crate::specs::Views::is_comdat))]
fn is_comdat(file: &[u8], i: u32) -> bool
    ensures { result ≡ spec.is_comdat file.now i }
{
    u32_at(section_bytes(file, i), 0) % 2 == 1
}

/// Returns the head of a section group.
#[tactic(auto, unfolding(crate::specs::Views::group_of, crate::specs::Views::is_comdat))]
pub fn group_at(file: &[u8], i: u32) -> Option<GroupHead<'_>>
    requires { length file.now < 2 ^ 32 }
    ensures group { option_map spec.group_view result ≡ spec.group_of file.now i }
    ensures signature { IfSome result (λ head. LiesAt head.signature.place head.signature.rest.now file.now) }
{
    if !is_group(file, i) {
        return None;
    }
    let header = SectionHeader::of(file, i);
    Some(GroupHead {
        comdat: is_comdat(file, i),
        signature: symbol_text(file, header.link(), header.info()),
        count: member_count(file, i) as u32,
    })
}

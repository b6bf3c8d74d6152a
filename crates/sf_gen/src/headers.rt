//! The file header and the section headers (ELF64 gABI, "ELF Header" and "Sections").

ghost use Rattle.std.specs.Prelude.{◌≡◌, ◌≤◌, ◌++◌, ◌+◌, ◌*◌, OnOk};
ghost use Rattle.sf_gen.specs.Object as spec;

use crate::layout::{
    CIE_LEN, E_IDENT, EH_FRAME, EM_X86_64, ENTRY_LEN, ET_REL, EV_CURRENT, FDE_LEN, FILE_HEADER_LEN,
    FUNCTION_LEN, SECTION_COUNT, SECTION_HEADER_LEN, SHF_ALLOC, SHF_EXECINSTR, SHF_INFO_LINK,
    SHSTRTAB, SHT_PROGBITS, SHT_RELA, SHT_STRTAB, SHT_SYMTAB, STRTAB, SYMBOL_COUNT, SYMTAB,
};
use crate::number::{push_half, push_word, push_xword};
use crate::places::{NAMES_LEN, places_of};
use std::alloc::AllocError;

/// Appends the file header, with the section headers at this place.
#[tactic(auto, unfolding(crate::specs::Object::file_header))]
pub(crate) fn push_file_header(bytes: &mut Vec<u8>, section_headers: u32) -> Result<(), AllocError>
    ensures { OnOk result (bytes.new.items ≡ bytes.old.items ++ spec.file_header section_headers 7 6) }
{
    push_file_kind(bytes)?;
    push_xword(bytes, u64::from(section_headers))?;
    push_word(bytes, 0)?;
    push_half(bytes, FILE_HEADER_LEN as u16)?;
    push_half(bytes, 0)?;
    push_half(bytes, 0)?;
    push_half(bytes, SECTION_HEADER_LEN as u16)?;
    push_half(bytes, SECTION_COUNT)?;
    push_half(bytes, SHSTRTAB)
}

/// Appends the fields of the file header that come before the place of the section headers.
#[tactic(auto, unfolding(crate::specs::Object::file_kind))]
fn push_file_kind(bytes: &mut Vec<u8>) -> Result<(), AllocError>
    ensures { OnOk result (bytes.new.items ≡ bytes.old.items ++ spec.file_kind) }
{
    bytes.extend_from_slice(&E_IDENT)?;
    push_half(bytes, ET_REL)?;
    push_half(bytes, EM_X86_64)?;
    push_word(bytes, EV_CURRENT)?;
    push_xword(bytes, 0)?;
    push_xword(bytes, 0)
}

/// The fields of a section header other than the places of the section's name and bytes. Each
/// address is 0.
struct Header {
    kind: u32,
    flags: u64,
    link: u32,
    info: u32,
    align: u64,
    entry_size: u32,
}

const TEXT_HEADER: Header = Header {
    kind: SHT_PROGBITS,
    flags: SHF_ALLOC | SHF_EXECINSTR,
    link: 0,
    info: 0,
    align: 16,
    entry_size: 0,
};

const EH_FRAME_HEADER: Header = Header {
    kind: SHT_PROGBITS,
    flags: SHF_ALLOC,
    link: 0,
    info: 0,
    align: 8,
    entry_size: 0,
};

const RELA_HEADER: Header = Header {
    kind: SHT_RELA,
    flags: SHF_INFO_LINK,
    link: SYMTAB,
    info: EH_FRAME,
    align: 8,
    entry_size: ENTRY_LEN,
};

const SYMTAB_HEADER: Header = Header {
    kind: SHT_SYMTAB,
    flags: 0,
    link: STRTAB,
    info: SYMBOL_COUNT,
    align: 8,
    entry_size: ENTRY_LEN,
};

const STRTAB_HEADER: Header = Header {
    kind: SHT_STRTAB,
    flags: 0,
    link: 0,
    info: 0,
    align: 1,
    entry_size: 0,
};

/// Appends the headers of all sections; that of section 0 is zero.
pub(crate) fn push_section_headers(bytes: &mut Vec<u8>, n: u32) -> Result<(), AllocError>
    requires { n ≤ 100000 }
    ensures { OnOk result (bytes.new.items ≡ bytes.old.items ++ spec.all_headers n) }
{
    let places = places_of(n);
    let frames = CIE_LEN + FDE_LEN * n;
    let symbols = SYMBOL_COUNT * ENTRY_LEN;
    bytes.extend_from_slice(&[0; SECTION_HEADER_LEN as usize])?;
    push_header(bytes, 1, FILE_HEADER_LEN, FUNCTION_LEN * n, &TEXT_HEADER)?;
    push_header(bytes, 7, places.eh_frame, frames, &EH_FRAME_HEADER)?;
    push_header(bytes, 17, places.rela, ENTRY_LEN * n, &RELA_HEADER)?;
    push_header(bytes, 32, places.symtab, symbols, &SYMTAB_HEADER)?;
    push_header(bytes, 40, places.strtab, 1, &STRTAB_HEADER)?;
    push_header(bytes, 48, places.shstrtab, NAMES_LEN, &STRTAB_HEADER)
}

/// Appends a section header, with the section's name at this place of the string table.
#[tactic(auto, unfolding(crate::specs::Object::section_header_bytes))]
fn push_header(
    bytes: &mut Vec<u8>,
    name: u32,
    offset: u32,
    size: u32,
    header: &Header,
) -> Result<(), AllocError>
    ensures { OnOk result (bytes.new.items ≡ bytes.old.items ++ spec.section_header_bytes name header.now.kind header.now.flags offset size header.now.link header.now.info header.now.align header.now.entry_size) }
{
    push_word(bytes, name)?;
    push_word(bytes, header.kind)?;
    push_xword(bytes, header.flags)?;
    push_xword(bytes, 0)?;
    push_xword(bytes, u64::from(offset))?;
    push_xword(bytes, u64::from(size))?;
    push_word(bytes, header.link)?;
    push_word(bytes, header.info)?;
    push_xword(bytes, header.align)?;
    push_xword(bytes, u64::from(header.entry_size))
}

//! Which parts of an executable or a shared object are needed: its header, its section headers, their names, and the
//! first section with call frame information. Nothing is stated here: where the plan is wrong, the file doesn't pass as
//! a linked one.

use elf_read::layout::{
    E_SHNUM, E_SHOFF, E_SHSTRNDX, E_TYPE, ELF_MAGIC, ET_DYN, ET_EXEC, FILE_HEADER_LEN,
    SECTION_HEADER_LEN, SH_NAME, SH_OFFSET, SH_SIZE,
};
use elf_read::{u16_at, u32_at, u64_at};

/// The name of the section with call frame information, and the zero byte that ends it: `.eh_frame_hdr` begins alike.
const EH_FRAME_TEXT: &[u8] = b".eh_frame\0";

/// Where bytes of a file are: the place of the first, and how many there are.
#[derive(Clone, Copy)]
pub struct Window {
    /// The place of the first.
    pub place: u64,
    /// How many there are.
    pub size: u64,
}

/// Returns where the file header is.
pub fn file_header() -> Window {
    Window {
        place: 0,
        size: FILE_HEADER_LEN,
    }
}

/// Returns where the section headers are, by the file header, if the file is an executable or a shared object.
pub fn section_headers(header: &[u8]) -> Option<Window> {
    if u32_at(header, 0) != ELF_MAGIC || !matches!(u16_at(header, E_TYPE), ET_EXEC | ET_DYN) {
        return None;
    }
    Some(Window {
        place: u64_at(header, E_SHOFF),
        size: SECTION_HEADER_LEN * u64::from(u16_at(header, E_SHNUM)),
    })
}

// Returns where a section is, by the section headers.
fn section(headers: &[u8], number: u16) -> Window {
    let header = SECTION_HEADER_LEN * u64::from(number);
    Window {
        place: u64_at(headers, header + SH_OFFSET),
        size: u64_at(headers, header + SH_SIZE),
    }
}

/// Returns where the sections' names are, by the file header and the section headers.
pub fn names(header: &[u8], headers: &[u8]) -> Window {
    section(headers, u16_at(header, E_SHSTRNDX))
}

// Returns whether the table of names has the name `.eh_frame` at a place.
fn is_eh_frame(names: &[u8], place: u64) -> bool {
    match names.get(place as usize..) {
        Some(rest) => rest.starts_with(EH_FRAME_TEXT),
        None => false,
    }
}

/// Returns where the first section with call frame information is, by the file header, the section headers and the names.
pub fn eh_frame(header: &[u8], headers: &[u8], names: &[u8]) -> Option<Window> {
    for number in 0..u16_at(header, E_SHNUM) {
        let place = u32_at(headers, SECTION_HEADER_LEN * u64::from(number) + SH_NAME);
        if is_eh_frame(names, u64::from(place)) {
            return Some(section(headers, number));
        }
    }
    None
}

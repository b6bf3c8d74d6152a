//! Where the parts of an executable or a shared object are that a walk needs: its program headers, its notes and its SFrame
//! section. Nothing is stated here: where the plan is wrong, the file is read whole.

use crate::layout::PT_NOTE;
use elf_read::layout::{
    E_PHNUM, E_PHOFF, E_SHNUM, P_FILESZ, P_OFFSET, P_TYPE, PROGRAM_HEADER_LEN, SECTION_HEADER_LEN,
    SH_NAME, SH_OFFSET, SH_SIZE,
};
use elf_read::{u16_at, u32_at, u64_at};
use sf_parts::Window;

/// The name of the SFrame section, and the zero byte that ends it.
const SFRAME_TEXT: &[u8] = b".sframe\0";

/// Returns how many program headers there are, by the file header.
pub fn header_count(header: &[u8]) -> u16 {
    u16_at(header, E_PHNUM)
}

/// Returns where the program headers are, by the file header.
pub fn program_headers(header: &[u8]) -> Window {
    Window {
        place: u64_at(header, E_PHOFF),
        size: PROGRAM_HEADER_LEN * u64::from(header_count(header)),
    }
}

/// Returns where the notes of a segment are, by the program headers, if it is a PT_NOTE.
pub fn notes(table: &[u8], i: u16) -> Option<Window> {
    let at = PROGRAM_HEADER_LEN * u64::from(i);
    if u32_at(table, at + P_TYPE) != PT_NOTE {
        return None;
    }
    Some(Window {
        place: u64_at(table, at + P_OFFSET),
        size: u64_at(table, at + P_FILESZ),
    })
}

// Returns whether the table of names has the name `.sframe` at a place.
fn is_sframe(names: &[u8], place: u64) -> bool {
    match names.get(place as usize..) {
        Some(rest) => rest.starts_with(SFRAME_TEXT),
        None => false,
    }
}

/// Returns where the first section of the name `.sframe` is, by the file header, the section headers and the names.
pub fn sframe(header: &[u8], headers: &[u8], names: &[u8]) -> Option<Window> {
    for i in 0..u16_at(header, E_SHNUM) {
        let at = SECTION_HEADER_LEN * u64::from(i);
        if is_sframe(names, u64::from(u32_at(headers, at + SH_NAME))) {
            return Some(Window {
                place: u64_at(headers, at + SH_OFFSET),
                size: u64_at(headers, at + SH_SIZE),
            });
        }
    }
    None
}

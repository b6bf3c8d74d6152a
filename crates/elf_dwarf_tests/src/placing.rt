//! Where the sections of whole files are. Files that cannot be placed are cases in files.

use crate::samples::{GROUPED, SHARED, file_of};
use base_tests::tables::expect;
use elf_place::Placed;
use elf_read::{Elf, ElfInput};
use std::alloc::Global;
use std::test::*;

/// A file with changed bytes, its base, and the groups that are gone: how far its addresses are moved, the sections with call frame
/// information, and the address of each section that has one, the sections that are dropped, and those with relocations of another one.
struct Case {
    file: &'static str,
    edits: &'static str,
    base: u64,
    gone: &'static [u32],
    wanted: &'static str,
}

const CASES: [Case; 5] = [
    Case {
        file: GROUPED,
        edits: "",
        base: 0x400000,
        gone: &[],
        wanted: "moved 0 records [4] 2 at 400000 3 at 40001b 4 at 400030 5 of 4",
    },
    // Both members of its group are dropped.
    Case {
        file: GROUPED,
        edits: "",
        base: 0x500000,
        gone: &[1],
        wanted: "moved 0 records [4] 2 dropped 3 dropped 4 at 500000 5 of 4",
    },
    // The call frame information is dropped.
    Case {
        file: GROUPED,
        edits: "@72 04",
        base: 0x400000,
        gone: &[1],
        wanted: "moved 0 records [] 2 dropped 3 at 400000 4 dropped 5 of 4",
    },
    Case {
        file: SHARED,
        edits: "",
        base: 0x400000,
        gone: &[],
        wanted: "moved 400000 records [1] 1 at 402000",
    },
    Case {
        file: SHARED,
        edits: "",
        base: 0,
        gone: &[],
        wanted: "moved 0 records [1] 1 at 2000",
    },
];

/// Appends what becomes of a section.
fn push_section(alloc: Global, text: &mut String, placed: &Placed<'_>, i: u32) -> Result<(), Fail> {
    if let Some(address) = placed.address(i) {
        text.push_str(&format!(in alloc; " {i} at {address:x}")?)?;
    }
    if placed.dropped(i) {
        text.push_str(&format!(in alloc; " {i} dropped")?)?;
    }
    for found in placed.relocation_sections(i) {
        text.push_str(&format!(in alloc; " {} of {}", found.number, found.target)?)?;
    }
    Ok(())
}

/// Returns what becomes of all sections, and of one after them.
fn text_of(alloc: Global, placed: &Placed<'_>) -> Result<String, Fail> {
    let (moved, records) = (placed.shift(), placed.eh_frames());
    let mut text = format!(in alloc; "moved {moved:x} records {records:?}")?;
    for i in 0..=placed.elf().sections() {
        push_section(alloc, &mut text, placed, i)?;
    }
    Ok(text)
}

#[test]
fn what_is_placed_and_dropped(rt: HostRuntime) -> Result<(), Fail> {
    for case in &CASES {
        let bytes = file_of(rt.alloc(), case.file, case.edits)?;
        let elf = Elf::parse(&bytes).ok().ok_or("the file is sound")?;
        let placed = Placed::new(rt.alloc(), &ElfInput::Whole(elf), case.base, case.gone)
            .ok()
            .ok_or("it can be placed")?;
        let text = text_of(rt.alloc(), &placed)?;
        expect(case.edits, text.as_str(), case.wanted)?;
    }
    Ok(())
}

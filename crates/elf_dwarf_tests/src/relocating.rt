//! What the pointer fields of whole files hold, and the relocations that lie on none. Relocations that are refused, and the types at the
//! ends of their ranges, are cases in files.

ghost use Rattle.std.specs.Prelude.{◌≡◌};
ghost use Rattle.sf_bytes.specs.Rising.{AreRising};

use crate::samples::{AARCH64, GROUPED, file_of};
use base_tests::tables::{expect, prints, row};
use elf_place::Placed;
use elf_read::{Elf, ElfInput};
use elf_reloc::{RelocFault, Relocs};
use sf_bytes::{Field, Values};
use std::alloc::Global;
use std::test::*;

/// Returns a field of four bytes that hold 7.
fn four_bytes(place: u64) -> Field
    ensures { result.place ≡ place }
{
    Field {
        place,
        width: 4,
        raw: 7,
    }
}

/// A file at a base, the groups that are gone, its call frame information, and what fields of four bytes that hold 7 hold then.
struct Case {
    shows: &'static str,
    file: &'static str,
    edits: &'static str,
    base: u64,
    gone: &'static [u32],
    section: u32,
    places: &'static [u64],
    wanted: &'static str,
}

const CASES: [Case; 9] = [
    Case {
        shows: "an object for AArch64",
        file: AARCH64,
        edits: "",
        base: 0x10000,
        gone: &[],
        section: 2,
        places: &[0x20, 0x24],
        wanted: "20 ffffffc0, 24 7",
    },
    Case {
        shows: "a group that stays",
        file: GROUPED,
        edits: "",
        base: 0x400000,
        gone: &[],
        section: 4,
        places: &[0x13, 0x28, 0x31],
        wanted: "13 unknown, 28 ffffffa8, 31 40001b",
    },
    Case {
        shows: "a group that is gone",
        file: GROUPED,
        edits: "",
        base: 0x500000,
        gone: &[1],
        section: 4,
        places: &[0x13, 0x28, 0x2c, 0x31],
        wanted: "13 unknown, 28 unknown dropped, 2c 7, 31 unknown dropped",
    },
    Case {
        shows: "a dropped section that is not loaded",
        file: GROUPED,
        edits: "@672 04",
        base: 0x500000,
        gone: &[1],
        section: 4,
        places: &[0x28],
        wanted: "28 unknown dropped",
    },
    Case {
        shows: "the same where it stays",
        file: GROUPED,
        edits: "@672 04",
        base: 0x500000,
        gone: &[],
        section: 4,
        places: &[0x28],
        wanted: "28 unknown",
    },
    Case {
        shows: "a dropped relocation section counts: the group names .rela.eh_frame and .gcc_except_table",
        file: GROUPED,
        edits: "@68 05",
        base: 0x400000,
        gone: &[1],
        section: 4,
        places: &[0x28, 0x31],
        wanted: "28 ffffffb8, 31 unknown dropped",
    },
    Case {
        shows: "symbol 0, though section 0 is loaded",
        file: GROUPED,
        edits: "@236 00 @544 02",
        base: 0x400000,
        gone: &[],
        section: 4,
        places: &[0x28],
        wanted: "28 unknown",
    },
    Case {
        shows: "a symbol without section, though section 0 is loaded",
        file: GROUPED,
        edits: "@326 00 @544 02",
        base: 0x400000,
        gone: &[],
        section: 4,
        places: &[0x28],
        wanted: "28 unknown",
    },
    Case {
        shows: "a reserved index is no section that is dropped",
        file: GROUPED,
        edits: "@326 f2 ff",
        base: 0x400000,
        gone: &[1],
        section: 4,
        places: &[0x28],
        wanted: "28 unknown",
    },
];

/// Returns what a field holds.
fn text_of(alloc: Global, relocs: &Relocs, place: u64) -> Result<String, Fail> {
    let field = four_bytes(place);
    let bits = match relocs.bits(field) {
        Some(bits) => format!(in alloc; "{bits:x}")?,
        None => String::from_str(alloc, "unknown")?,
    };
    let dropped = if relocs.dropped(field) {
        " dropped"
    } else {
        ""
    };
    Ok(format!(in alloc; "{place:x} {bits}{dropped}")?)
}

/// Returns what fields hold.
fn texts_of(alloc: Global, relocs: &Relocs, places: &[u64]) -> Result<String, Fail> {
    let mut text = String::new(alloc);
    for place in places {
        if !text.is_empty() {
            text.push_str(", ")?;
        }
        text.push_str(&text_of(alloc, relocs, *place)?)?;
    }
    Ok(text)
}

#[test]
fn fields_hold_their_values(rt: HostRuntime) -> Result<(), Fail> {
    for case in &CASES {
        let bytes = file_of(rt.alloc(), case.file, case.edits)?;
        let elf = Elf::parse(&bytes).ok().ok_or("the object is sound")?;
        let placed = Placed::new(rt.alloc(), &ElfInput::Whole(elf), case.base, case.gone)
            .ok()
            .ok_or("it can be placed")?;
        let relocs = Relocs::new(rt.alloc(), &placed, case.section)
            .ok()
            .ok_or("it can be relocated")?;
        let text = texts_of(rt.alloc(), &relocs, case.places)?;
        expect(case.shows, text.as_str(), case.wanted)?;
    }
    Ok(())
}

/// Returns the pointer fields of the object: its personality, a start, a size, and a data area.
fn pointer_fields() -> [Field; 4]
    ensures { AreRising result }
{
    [
        four_bytes(0x13),
        four_bytes(0x28),
        four_bytes(0x2c),
        four_bytes(0x31),
    ]
}

/// What the bytes of the object are changed to, and what is said of its relocations, which are at 200 (for the field at 0x13), 224 (0x28) and
/// 248 (0x31).
const PLACES: &str = "
    => Ok(())
    @248 35 => Err(Place(2))
    @224 44 => Err(Place(1))
    # One that does nothing may be anywhere.
    @248 35 @256 00 => Ok(())
    # One whose symbol is not known may not.
    @200 10 => Err(Place(0))
    # A field of another width.
    @232 01 => Err(Place(1))
    # The one of the least place is named.
    @200 10 @248 35 => Err(Place(0))
    @200 40 @248 35 => Err(Place(2))
    @200 40 @224 36 => Err(Place(1))
";

#[test]
fn relocations_that_lie_on_no_field(rt: HostRuntime) -> Result<(), Fail> {
    for line in PLACES.lines() {
        if let Some((edits, wanted)) = row(line) {
            let bytes = file_of(rt.alloc(), GROUPED, edits)?;
            let elf = Elf::parse(&bytes).ok().ok_or("the object is sound")?;
            let placed = Placed::new(rt.alloc(), &ElfInput::Whole(elf), 0x400000, &[])
                .ok()
                .ok_or("it can be placed")?;
            let relocs = Relocs::new(rt.alloc(), &placed, 4)
                .ok()
                .ok_or("it can be relocated")?;
            prints(rt.alloc(), line, &relocs.check(&pointer_fields()), wanted)?;
        }
    }
    Ok(())
}

//! A linked file by its parts: which calls read them, that a sound one passes, and that others are read whole.

use crate::samples::{GROUPED, SHARED, file_of};
use base_tests::tables::{number, prints, row};
use sf_fakes::MemFiles;
use sf_parts::{FileRead, load_parts};
use std::alloc::Global;
use std::test::Fail;

/// The most bytes of a file.
const LIMIT: u64 = 1 << 20;

/// How a file of a run with one failing call was read: whole, or by its parts, with the number and the length of its
/// `.eh_frame`.
#[derive(Debug, Drop)]
enum Came {
    NotRead,
    Whole(usize),
    Linked(u32, usize),
}

// Reads a file, of which some bytes are changed, with one failing call.
fn read_with_fault(alloc: Global, file: &str, edits: &str, call: u64) -> Result<Came, Fail> {
    let mut files = MemFiles::new(alloc, 4096, vec![in alloc; call]?);
    let bytes = file_of(alloc, file, edits)?;
    if files.put("file", bytes).is_err() {
        return Ok(Came::NotRead);
    }
    match load_parts(alloc, &mut files, "file", LIMIT) {
        Err(_) => Ok(Came::NotRead),
        Ok(FileRead::Whole(bytes)) => Ok(Came::Whole(bytes.len())),
        Ok(FileRead::Linked(elf)) => Ok(Came::Linked(elf.eh_frame, elf.eh_frame_bytes.len())),
    }
}

/// No call of this number is made.
const NO_CALL: u64 = 99;

/// The call that fails, and how the file was read: it is opened, its length is asked for, and each of four parts takes a
/// move and a read.
const CALLS: &str = "
    1 => NotRead
    2 => Whole(344)
    3 => Whole(344)
    4 => NotRead
    5 => Whole(344)
    6 => NotRead
    7 => Whole(344)
    8 => NotRead
    9 => Whole(344)
    10 => NotRead
    11 => Linked(1, 60)
";

#[test]
fn a_shared_object_passes_by_four_parts(rt: HostRuntime) -> Result<(), Fail> {
    for line in CALLS.lines() {
        if let Some((call, wanted)) = row(line) {
            let came = read_with_fault(rt.alloc(), SHARED, "", number(call)?)?;
            prints(rt.alloc(), line, &came, wanted)?;
        }
    }
    Ok(())
}

#[test]
fn an_object_is_read_whole(rt: HostRuntime) -> Result<(), Fail> {
    let came = read_with_fault(rt.alloc(), GROUPED, "", NO_CALL)?;
    prints(rt.alloc(), "an object", &came, "Whole(1112)")
}

/// What is changed in the shared object, and how it is read then. The file header is at 0, the section at 64, the name
/// table at 128, and the three section headers are at 152, 216 and 280.
const CHANGES: &str = "
    # section 0 has the name .eh_frame2
    @152 0b @139 2e 65 68 5f 66 72 61 6d 65 32 00 @312 16 => Linked(1, 60)
    # an object, and a core file
    @16 01 => Whole(344)
    @16 04 => Whole(344)
    # compressed
    @224 02 08 => Whole(344)
    # SHT_NOBITS
    @220 08 => Whole(344)
    # a second one
    @280 01 @288 02 => Whole(344)
    # section headers, the section and the name table past the end
    @40 99 => Whole(344)
    @248 19 01 => Whole(344)
    @304 44 01 => Whole(344)
    # the section ends in the name table
    @248 41 => Whole(344)
    # a name past the name table
    @152 15 => Whole(344)
    # the number of sections, and of the name table, in section 0
    @60 00 => Whole(344)
    @62 ff ff => Whole(344)
";

#[test]
fn other_files_are_read_whole(rt: HostRuntime) -> Result<(), Fail> {
    for line in CHANGES.lines() {
        if let Some((edits, wanted)) = row(line) {
            let came = read_with_fault(rt.alloc(), SHARED, edits, NO_CALL)?;
            prints(rt.alloc(), line, &came, wanted)?;
        }
    }
    Ok(())
}

//! A mapped file by its parts: which calls read them, that a sound one passes, and that others are read whole.

use crate::files::{File, bytes_of};
use base_tests::tables::{number, prints, row};
use elf_mapped::{MappedRead, ProgramFile, load_mapped};
use sf_fakes::MemFiles;
use std::alloc::Global;
use std::test::Fail;

/// The most bytes of a file.
const LIMIT: u64 = 1 << 20;

/// A shared object on AMD64 with a loaded segment, a PT_NOTE of 20 bytes at 176, `.eh_frame` at 200 and `.sframe` at 208. The
/// program headers are at 64, the name table at 240, and the four section headers at 272.
const MAPPED: File = File {
    len: 528,
    text: "
        @0 7f 45 4c 46 02 01 01
        @16 03 00 3e 00 01
        @32 40
        @40 10 01
        @54 38 00 02 00 40 00 04 00 03
        @64 01 00 00 00 05
        @96 10 02
        @104 10 02
        @120 04 00 00 00 04 00 00 00 b0 00 00 00 00 00 00 00 b0
        @152 14
        @160 14
        @176 04 00 00 00 04 00 00 00 03 00 00 00 47 4e 55 00 01 02 03 04
        @241 2e 65 68 5f 66 72 61 6d 65 00 2e 73 66 72 61 6d 65 00 2e 73 68 73 74 72 74 61 62
        @336 01 00 00 00 01 00 00 00 02
        @360 c8
        @368 08
        @400 0b 00 00 00 01 00 00 00 02
        @416 d0 10
        @424 d0
        @432 1c
        @464 13 00 00 00 03
        @488 f0
        @496 1d
    ",
};

/// How a file of a run with one failing call was read: whole, or by its parts, with the number of its program headers and of
/// its SFrame section.
#[derive(Debug, Drop)]
enum Came {
    NotRead,
    Whole(usize),
    Parts(u32, Option<u32>),
}

// Reads the shared object, of which some bytes are changed, with one failing call.
fn read_with_fault(alloc: Global, edits: &str, call: u64) -> Result<Came, Fail> {
    let mut files = MemFiles::new(alloc, 4096, vec![in alloc; call]?);
    if files.put("file", bytes_of(alloc, &MAPPED, edits)?).is_err() {
        return Ok(Came::NotRead);
    }
    let read = match load_mapped(alloc, &mut files, "file", LIMIT) {
        Err(_) => return Ok(Came::NotRead),
        Ok(read) => read,
    };
    if let MappedRead::Whole(bytes) = &read {
        return Ok(Came::Whole(bytes.len()));
    }
    let file = ProgramFile::parse(read.bytes())
        .ok()
        .ok_or("the file is sound")?;
    let headers = file.program_headers().ok().ok_or("program headers")?;
    let sframe = file.sframe().ok().ok_or("no fault of the section")?;
    Ok(Came::Parts(headers, sframe))
}

/// No call of this number is made.
const NO_CALL: u64 = 99;

/// The call that fails, and how the file was read: it is opened, its length is asked for, and each of seven parts takes a
/// move and a read.
const CALLS: &str = "
    1 => NotRead
    2 => Whole(528)
    3 => Whole(528)
    4 => NotRead
    10 => NotRead
    11 => Whole(528)
    12 => NotRead
    13 => Whole(528)
    14 => NotRead
    15 => Whole(528)
    16 => NotRead
    17 => Parts(2, Some(2))
";

#[test]
fn a_shared_object_passes_by_seven_parts(rt: HostRuntime) -> Result<(), Fail> {
    for line in CALLS.lines() {
        if let Some((call, wanted)) = row(line) {
            let came = read_with_fault(rt.alloc(), "", number(call)?)?;
            prints(rt.alloc(), line, &came, wanted)?;
        }
    }
    Ok(())
}

/// What is changed in the shared object, and how it is read then.
const CHANGES: &str = "
    # an executable; no PT_NOTE
    @16 02 => Parts(2, Some(2))
    @120 01 => Parts(2, Some(2))
    # no section of the name .sframe, one that is not loaded, and one of type SHT_NOBITS
    @251 2d => Parts(2, None)
    @408 00 => Parts(2, None)
    @404 08 => Parts(2, None)
    # compressed
    @408 02 08 => Whole(528)
    # an object, and a core file
    @16 01 => Whole(528)
    @16 04 => Whole(528)
    # the length of a program header, their number in section 0, and their place
    @54 39 => Whole(528)
    @56 ff ff => Whole(528)
    @33 02 => Whole(528)
    # two program headers too many: they overlap the notes
    @56 04 => Whole(528)
    # notes past the end, and notes in the section headers
    @128 00 02 => Whole(528)
    @128 80 01 => Whole(528)
    # the section ends past the end
    @433 02 => Whole(528)
";

#[test]
fn other_files_are_read_whole(rt: HostRuntime) -> Result<(), Fail> {
    for line in CHANGES.lines() {
        if let Some((edits, wanted)) = row(line) {
            let came = read_with_fault(rt.alloc(), edits, NO_CALL)?;
            prints(rt.alloc(), line, &came, wanted)?;
        }
    }
    Ok(())
}

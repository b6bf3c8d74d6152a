//! The tables of files of a process, by a file that was written from the standards.

use crate::shown::hex_of;
use base_tests::tables::{expect, prints, row};
use elf_dwarf_tests::samples::file_of;
use module_tables::{ModuleTable, module_table};
use sf_asm::InputBytes;
use std::test::Fail;

/// A shared object (ELF64 gABI): `.eh_frame` 1 at address 0x2000, and `.shstrtab` 2, whose text is at 220. Its only function
/// has 10 bytes at 0x1000, and is described as glibc 2.36 describes its `__restore_rt` on AMD64, by the augmentation `zRS`.
const RESTORE_RT: &str = "\
    7f 45 4c 46 02 01 01 00 00 00 00 00 00 00 00 00 03 00 3e 00 01 00 00 00 \
    00 00 00 00 00 00 00 00 00 00 00 00 00 00 00 00 f8 00 00 00 00 00 00 00 \
    00 00 00 00 40 00 00 00 00 00 40 00 03 00 02 00 14 00 00 00 00 00 00 00 \
    01 7a 52 53 00 01 78 10 01 1b 00 00 00 00 00 00 7c 00 00 00 1c 00 00 00 \
    e0 ef ff ff 0a 00 00 00 00 0f 04 77 a0 01 06 10 08 02 77 28 10 09 02 77 \
    30 10 0a 02 77 38 10 0b 03 77 c0 00 10 0c 03 77 c8 00 10 0d 03 77 d0 00 \
    10 0e 03 77 d8 00 10 0f 03 77 e0 00 10 05 03 77 e8 00 10 04 03 77 f0 00 \
    10 06 03 77 f8 00 10 03 03 77 80 01 10 01 03 77 88 01 10 00 03 77 90 01 \
    10 02 03 77 98 01 10 07 03 77 a0 01 10 10 03 77 a8 01 00 00 00 00 00 00 \
    00 00 00 00 00 2e 65 68 5f 66 72 61 6d 65 00 2e 73 68 73 74 72 74 61 62 \
    00 00 00 00 00 00 00 00 00 00 00 00 00 00 00 00 00 00 00 00 00 00 00 00 \
    00 00 00 00 00 00 00 00 00 00 00 00 00 00 00 00 00 00 00 00 00 00 00 00 \
    00 00 00 00 00 00 00 00 00 00 00 00 00 00 00 00 00 00 00 00 00 00 00 00 \
    01 00 00 00 01 00 00 00 02 00 00 00 00 00 00 00 00 20 00 00 00 00 00 00 \
    40 00 00 00 00 00 00 00 9c 00 00 00 00 00 00 00 00 00 00 00 00 00 00 00 \
    08 00 00 00 00 00 00 00 00 00 00 00 00 00 00 00 0b 00 00 00 03 00 00 00 \
    00 00 00 00 00 00 00 00 00 00 00 00 00 00 00 00 dc 00 00 00 00 00 00 00 \
    15 00 00 00 00 00 00 00 00 00 00 00 00 00 00 00 01 00 00 00 00 00 00 00 \
    00 00 00 00 00 00 00 00";

/// A section without functions for AMD64.
const EMPTY: &str =
    "e2 de 02 05 03 00 f8 00 00 00 00 00 00 00 00 00 00 00 00 00 00 00 00 00 00 00 00 00";

/// What is changed in the file; and how many signal frames its table has, with the first one's address, size, and distances from the stack
/// pointer to the frame address, the return address and the frame pointer.
const CHANGES: &str = "
    # The file was mapped 0x10000 up.
    => (1, Some((69632, 10, [160, 168, 120])))
    # The section is named .xh_frame.
    @222 78 => (0, None)
    # Another row begins at its second byte.
    @210 41 => (0, None)
";

/// Returns the first signal frame of a table as its row has it.
fn first_signal(table: &ModuleTable) -> Option<(u64, u64, [i64; 3])> {
    let signal = table.signals.first()?;
    let frame = &signal.leads_to;
    let distances = [
        frame.frame_address,
        frame.return_address,
        frame.frame_pointer,
    ];
    Some((signal.start, signal.size, distances))
}

#[test]
fn files_have_signal_frames(rt: HostRuntime) -> Result<(), Fail> {
    let alloc = rt.alloc();
    for line in CHANGES.lines() {
        if let Some((edits, wanted)) = row(line) {
            let file = file_of(alloc, RESTORE_RT, edits)?;
            let table = module_table(alloc, InputBytes::File(&file), 0x10000, 0x13000)?;
            expect(line, hex_of(alloc, &table.section)?.as_str(), EMPTY)?;
            let found = (table.signals.len(), first_signal(&table));
            prints(alloc, line, &found, wanted)?;
        }
    }
    Ok(())
}

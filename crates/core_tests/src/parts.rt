//! Core files in memory that are read by parts, and which parts these are: no clause says it.

ghost use Rattle.std.specs.Prelude.{◌<◌, ◌≤◌, ◌^◌, IfOk, length};
ghost use Rattle.core_parts.specs.Loaded.{core_read_bytes};

use crate::files::{TWO_THREADS, bytes_of};
use base_tests::tables::{expect, number, prints, put, row};
use core_parts::{CoreInput, CoreRead, InputMap, Wanted, load_core};
use sf_base::LoadFault;
use sf_fakes::MemFiles;
use std::alloc::Global;
use std::test::*;

/// What is found of a memory of 0x30000 bytes at 0x7000: at an address, and how many bytes. The stack pointers are 0x17008 and 0x6000.
const FOUND: &str = "
    # From the stack pointer's block on, the second of three, up to the segment's end.
    0x17000 8 => Ok(Some([1, 2, 3, 4, 5, 6, 7, 8]))
    0x17006 9 => Ok(Some([7, 8, 0, 0, 0, 0, 0, 0, 0]))
    0x36ff8 8 => Ok(Some([9, 0, 0, 0, 0, 0, 0, 0]))
    # Fewer than eight.
    0x17000 7 => Ok(Some([1, 2, 3, 4, 5, 6, 7]))
    0x36fff 1 => Ok(Some([0]))
    # Not read, or not all of them.
    0x7000 8 => Err(Unread(28672))
    0x16ff8 8 => Err(Unread(94200))
    0x16ffc 8 => Err(Unread(94204))
    # No segment has all of them.
    0x6fff 8 => Ok(None)
    0x36ff9 8 => Ok(None)
    0xfffffffffffffffc 8 => Ok(None)
";

/// The same where the eight bytes at 0x16ffc were missed, of which four are in the first block: both blocks are one part.
const ACROSS: &str = "
    0x7000 8 => Ok(Some([16, 112, 0, 0, 0, 0, 0, 0]))
    0x16ffc 8 => Ok(Some([0, 0, 0, 0, 1, 2, 3, 4]))
    0x36ff8 8 => Ok(Some([9, 0, 0, 0, 0, 0, 0, 0]))
";

/// The same where no stack pointer is in the memory, and the last two bytes of the segment were missed.
const AT_END: &str = "
    0x36ffe 2 => Ok(Some([0, 0]))
    0x27000 8 => Ok(Some([0, 0, 0, 0, 0, 0, 0, 0]))
    0x26fff 8 => Err(Unread(159743))
    0x36ffe 3 => Ok(None)
";

/// Loads of a core file what is wanted.
pub fn load(alloc: Global, files: &mut MemFiles, wanted: Wanted<'_>) -> Result<CoreRead, Fail>
    ensures { IfOk result (λ read. length (core_read_bytes read) < 2 ^ 32) }
{
    match load_core(alloc, files, "core", 1 << 20, 1 << 20, wanted) {
        Ok(read) => Ok(read),
        Err(_) => Err("load".into()),
    }
}

/// Loads parts of a core file, with those at these addresses.
pub fn load_parts(alloc: Global, files: &mut MemFiles, addresses: &[u64]) -> Result<CoreRead, Fail>
    ensures { IfOk result (λ read. length (core_read_bytes read) < 2 ^ 32) }
{
    let read = load(alloc, files, Wanted::Memory(addresses))?;
    match &read {
        CoreRead::Parts(_) => {}
        CoreRead::Whole(_) => return Err("the file was read whole".into()),
    }
    Ok(read)
}

/// Returns files with a core file of these bytes.
pub fn files_of(alloc: Global, bytes: Vec<u8>) -> Result<MemFiles, Fail> {
    let mut files = MemFiles::new(alloc, 4096, Vec::new(alloc));
    let put = files.put("core", bytes);
    put.ok().ok_or("memory")?;
    Ok(files)
}

/// Returns the core file of that memory, whose bytes begin at 888. Of its second block the first eight are 1 to 8, and of the last eight
/// the first is 9.
fn three_blocks(alloc: Global) -> Result<Vec<u8>, Fail> {
    let mut bytes = bytes_of(
        alloc,
        &TWO_THREADS,
        "@152 00 00 03 @460 08 70 01 @816 00 60",
    )?;
    bytes.resize(888 + 0x30000, 0)?;
    put(&mut bytes, "@66424 01 02 03 04 05 06 07 08 @197488 09")?;
    Ok(bytes)
}

/// Loads parts of a core file, with those at these addresses, and finds what the lines of a table name.
fn find_all(
    alloc: Global,
    files: &mut MemFiles,
    addresses: &[u64],
    table: &str,
) -> Result<(), Fail> {
    let read = load_parts(alloc, files, addresses)?;
    let core = CoreInput::parse(&read).ok().ok_or("the file is sound")?;
    let map = InputMap::new(alloc, &core)?;
    for line in table.lines() {
        if let Some((given, wanted)) = row(line) {
            let (address, len) = given.split_once(" ").ok_or("two numbers")?;
            let found = map.bytes_at(number(address)?, number(len)?);
            prints(alloc, given, &found, wanted)?;
        }
    }
    Ok(())
}

#[test]
fn stacks_are_read_by_blocks(rt: HostRuntime) -> Result<(), Fail> {
    let alloc = rt.alloc();
    let mut bytes = three_blocks(alloc)?;
    let mut files = files_of(alloc, bytes.clone()?)?;
    find_all(alloc, &mut files, &[], FOUND)?;
    find_all(alloc, &mut files, &[0x16ffc], ACROSS)?;
    // The first thread's stack pointer is 0x6000 as well.
    put(&mut bytes, "@460 00 60 00")?;
    let mut files = files_of(alloc, bytes)?;
    find_all(alloc, &mut files, &[0x36ffe], AT_END)
}

/// Loads a core file that may have `limit` bytes, of which at most `most` are read, and says how it was read.
fn read_as(
    alloc: Global,
    files: &mut MemFiles,
    limit: u64,
    most: u64,
    wanted: Wanted<'_>,
) -> &'static str
    requires { most ≤ limit }
{
    match load_core(alloc, files, "core", limit, most, wanted) {
        Ok(CoreRead::Parts(_)) => "parts",
        Ok(CoreRead::Whole(_)) => "whole",
        Err(LoadFault::TooLong(_)) => "too long",
        Err(_) => "fault",
    }
}

#[test]
fn a_core_file_may_have_more_bytes_than_are_read(rt: HostRuntime) -> Result<(), Fail> {
    let alloc = rt.alloc();
    // It has 0x30378 bytes, 0x20000 of which are from the stack pointer's block on.
    let mut files = files_of(alloc, three_blocks(alloc)?)?;
    let (all, stack) = (1 << 20, 0x21000);
    let read = read_as(alloc, &mut files, all, stack, Wanted::Memory(&[]));
    expect("its stacks", read, "parts")?;
    let read = read_as(alloc, &mut files, all, stack, Wanted::Memory(&[0x7000]));
    expect("all its memory", read, "too long")?;
    let read = read_as(alloc, &mut files, all, 0x30377, Wanted::Whole);
    expect("a byte less than all", read, "too long")?;
    let read = read_as(alloc, &mut files, all, 0x30378, Wanted::Whole);
    expect("all its bytes", read, "whole")?;
    let read = read_as(alloc, &mut files, 0x30377, stack, Wanted::Memory(&[]));
    expect("more bytes than it may have", read, "too long")
}

//! What is seen of whole core files. What is wrong with one is a clause, and whole runs over faulty files are cases in files.

use crate::files::{File, MASKED, TWO_THREADS, bytes_of};
use base_tests::tables::{expect, number, row};
use core_notes::{Core, Thread};
use sf_model::Memory;
use std::alloc::Global;
use std::test::*;

/// Appends a thread.
fn push_thread(alloc: Global, text: &mut String, thread: &Thread) -> Result<(), Fail> {
    let Thread {
        pid,
        pc,
        regs,
        mask,
    } = *thread;
    let named = format!(in alloc; "; {pid} pc {pc:x} sp {:x} fp {:x}", regs.sp, regs.fp)?;
    text.push_str(&format!(in alloc; "{named} lr {:x} {mask:?}", regs.lr)?)?;
    Ok(())
}

/// Returns the threads of a core file in their order.
fn threads_of(alloc: Global, core: &Core<'_>) -> Result<String, Fail> {
    let mut text = String::new(alloc);
    for thread in core.threads_iter() {
        push_thread(alloc, &mut text, &thread)?;
    }
    Ok(text)
}

/// Returns the threads of a core file by their numbers.
fn threads_by_number(alloc: Global, core: &Core<'_>) -> Result<String, Fail> {
    let mut text = String::new(alloc);
    for i in 0..core.threads() {
        push_thread(alloc, &mut text, &core.thread(i))?;
    }
    Ok(text)
}

/// Returns what the memory has at addresses.
fn memory_of(alloc: Global, core: &Core<'_>, addresses: &str) -> Result<String, Fail> {
    let mut text = String::new(alloc);
    for address in addresses.split_whitespace() {
        let read = match core.read8(number(address)?) {
            Some(value) => format!(in alloc; "; {address} {value:x}")?,
            None => format!(in alloc; "; {address} unreadable")?,
        };
        text.push_str(&read)?;
    }
    Ok(text)
}

/// Fails unless a core file has what the table wants where the bytes of each row are written into it: its machine, and the place of the
/// descriptor of its note on mapped files; its threads; and what its memory has at the addresses before the bytes.
fn expect_seen(alloc: Global, file: &File, table: &str) -> Result<(), Fail> {
    for line in table.lines() {
        if let Some((given, wanted)) = row(line) {
            let (addresses, edits) = given.split_once(':').ok_or("addresses")?;
            let bytes = bytes_of(alloc, file, edits)?;
            let core = Core::parse(&bytes).ok().ok_or("the file is sound")?;
            let threads = threads_of(alloc, &core)?;
            expect(
                given,
                threads_by_number(alloc, &core)?.as_str(),
                threads.as_str(),
            )?;
            let note = core.file_note().map(|part| part.place);
            let seen = format!(in alloc; "{:?} {note:?}{threads}", core.arch())?;
            let memory = memory_of(alloc, &core, addresses)?;
            let found = format!(in alloc; "{seen}{memory}")?;
            expect(given, found.as_str(), wanted)?;
        }
    }
    Ok(())
}

const OF_TWO_THREADS: &str = "
    0x7000 0x7008: => Amd64 None; 100 pc 1004 sp 6ff0 fp 7000 lr 0 None; 101 pc 1000 sp 9000 fp 0 lr 0 None; \
        0x7000 7010; 0x7008 1005
    # The second note is the one on mapped files.
    : @540 45 4c 49 46 => Amd64 Some(552); 100 pc 1004 sp 6ff0 fp 7000 lr 0 None
";

const OF_MASKED: &str = "
    0x7010: => Aarch64 None; 7 pc 1008 sp 7000 fp 0 lr 0 Some(35465847065542656); 0x7010 unreadable
";

/// Of `TWO_THREADS` with room for three headers at its end. Three segments, whose headers come after the rest: the first one that holds an address counts.
const OF_LONGER: &str = "
    0x7000 0x7004 0x7019: @32 98 03 @56 03 @920 04 00 00 00 00 00 00 00 b0 @952 c8 02 \
        @976 01 00 00 00 00 00 00 00 80 03 00 00 00 00 00 00 04 70 @1008 10 \
        @1032 01 00 00 00 00 00 00 00 78 03 00 00 00 00 00 00 00 70 @1064 20 \
        => Amd64 None; 100 pc 1004 sp 6ff0 fp 7000 lr 0 None; 101 pc 1000 sp 9000 fp 0 lr 0 None; \
        0x7000 7010; 0x7004 1005; 0x7019 unreadable
";

#[test]
fn threads_and_memory_of_both_machines(rt: HostRuntime) -> Result<(), Fail> {
    let alloc = rt.alloc();
    expect_seen(alloc, &TWO_THREADS, OF_TWO_THREADS)?;
    expect_seen(alloc, &MASKED, OF_MASKED)?;
    let longer = File {
        len: 1088,
        ..TWO_THREADS
    };
    expect_seen(alloc, &longer, OF_LONGER)
}

//! Signal frames, and walks through the modules of a process.

ghost use Rattle.std.specs.Prelude.{◌<◌, ◌^◌, length};

use crate::files::{File, MASKED, TWO_THREADS, bytes_of};
use base_tests::tables;
use base_tests::tables::{expect, number, prints, row};
use core_notes::{Core, Thread};
use process_walk::{Process, ProcessFrame};
use sf_bytes::Part;
use sf_decode::View;
use sf_lookup::Span;
use sf_model::{Arch, FdeFacts, Frame, Key, Regs};
use sf_modules::{Entry, Module};
use sframe_tests::samples::{PUSHING, SIGNING};
use signal_frames::{SignalFrame, initial_rules, signal_frame};
use std::alloc::Global;
use std::test::*;

/// The instructions of a function, and its three constants if it has a signal frame.
const FUNCTIONS: &str = "
    # The `__restore_rt` of glibc 2.36 on AMD64, as `readelf --debug-dump=frames` shows it: the canonical frame address is what is saved at
    # rsp+160, the return address is at rsp+168 and the frame pointer at rsp+120.
    0f 04 77 a0 01 06 10 08 02 77 28 10 09 02 77 30 10 0a 02 77 38 10 0b 03 77 c0 00 10 0c 03 77 c8 \
    00 10 0d 03 77 d0 00 10 0e 03 77 d8 00 10 0f 03 77 e0 00 10 05 03 77 e8 00 10 04 03 77 f0 00 10 \
    06 03 77 f8 00 10 03 03 77 80 01 10 01 03 77 88 01 10 00 03 77 90 01 10 02 03 77 98 01 10 07 03 \
    77 a0 01 10 10 03 77 a8 01 => Some((160, 168, 120))
    # A constant of 0, and a negative one.
    0f 03 77 00 06 10 10 02 77 08 10 06 02 77 78 => Some((0, 8, -8))
    # The latest rule counts.
    0f 03 77 00 06 10 10 02 77 08 86 02 10 06 02 77 10 => Some((0, 8, 16))
    # The frame pointer has a later rule of another kind.
    0f 03 77 00 06 10 10 02 77 08 10 06 02 77 10 86 02 => None
    # The frame address is an address, and not what is saved there.
    0f 02 77 00 10 10 02 77 08 10 06 02 77 10 => None
    # A constant of the frame pointer.
    0f 03 77 00 06 10 10 02 76 08 10 06 02 77 10 => None
    # The return address has no rule.
    0f 03 77 00 06 10 06 02 77 10 => None
    # The stack pointer is saved elsewhere.
    0f 03 77 00 06 10 10 02 77 08 10 06 02 77 10 10 07 02 77 18 => None
    # Another row.
    0f 03 77 00 06 10 10 02 77 08 10 06 02 77 10 41 => None
    # An instruction that is cut off.
    0f 03 77 00 06 10 10 02 77 08 10 06 02 77 => None
";

/// Returns the signal frame of a function with these instructions, after two that do nothing.
fn frame_of(signal: bool, own: &[u8]) -> Option<SignalFrame>
    requires { length own.now < 2 ^ 32 }
{
    let facts = FdeFacts {
        start: 0x5000,
        size: 10,
        column: 16,
        signal,
        key: Key::A,
    };
    signal_frame(
        Arch::Amd64,
        &facts,
        &initial_rules(Part::new(&[0, 0], 100)),
        Part::new(own, 200),
    )
}

/// Returns the constants of a signal frame.
fn constants_of(frame: &SignalFrame) -> (i64, i64, i64) {
    (
        frame.frame_address,
        frame.return_address,
        frame.frame_pointer,
    )
}

#[test]
fn functions_have_signal_frames(rt: HostRuntime) -> Result<(), Fail> {
    for line in FUNCTIONS.lines() {
        if let Some((given, wanted)) = row(line) {
            let own = tables::bytes_of(rt.alloc(), given)?;
            if own.len() >= 200 {
                return Err("too many instructions")?;
            }
            let found = frame_of(true, &own);
            prints(rt.alloc(), given, &found.as_ref().map(constants_of), wanted)?;
            prints(rt.alloc(), given, &frame_of(false, &own).is_none(), "true")?;
        }
    }
    Ok(())
}

/// The entries of a program and of a C library.
const ENTRIES: [Entry<'static>; 2] = [
    Entry {
        start: 0x1000,
        end: 0x1100,
        offset: 0,
        name: b"/bin/program",
    },
    Entry {
        start: 0x5000,
        end: 0x5100,
        offset: 0,
        name: b"/lib/libc.so.6",
    },
];

/// Returns a module with a section of functions from 0x1000 on.
fn module_of(
    name: &'static [u8],
    machine: Arch,
    section: &'static [u8],
) -> Result<Module<'static, 'static>, Fail> {
    Ok(Module {
        name,
        machine,
        view: View::parse(section, 0x3000).ok().ok_or("a section")?,
    })
}

/// Returns a thread with its stack at 0x7000.
fn thread_at(pc: u64, mask: Option<u64>) -> Thread {
    Thread {
        pid: 100,
        pc,
        regs: Regs {
            sp: 0x7000,
            fp: 0x7100,
            lr: 0,
        },
        mask,
    }
}

/// Appends a frame.
fn push_frame(alloc: Global, text: &mut String, listed: &ProcessFrame) -> Result<(), Fail> {
    let Frame { pc, cfa } = listed.frame;
    let named = match cfa {
        Some(cfa) => format!(in alloc; "{pc:x} {cfa:x}")?,
        None => format!(in alloc; "{pc:x}")?,
    };
    text.push_str(&named)?;
    text.push_str(if listed.is_signal { " signal, " } else { ", " })?;
    Ok(())
}

/// Returns the frames of a thread's walk by the memory of a core file, and its stop.
fn walked(
    alloc: Global,
    process: &Process<'_>,
    thread: &Thread,
    core: &Core<'_>,
) -> Result<String, Fail> {
    let walk = process.walk(alloc, thread, core, 64)?;
    let mut text = String::new(alloc);
    for listed in &walk.frames {
        push_frame(alloc, &mut text, listed)?;
    }
    text.push_str(&format!(in alloc; "{:?}", walk.stop)?)?;
    Ok(text)
}

/// The bytes of a stack at 0x7000, with the memory's size at 152 of the file; the frames, each with its frame address and whether it is a
/// signal frame that was stepped over, and the stop. A thread is in a handler, whose caller is a signal frame at 0x7008. A function was
/// interrupted at its first byte, 0x1000.
const INTERRUPTED: &str = "
    @888 01 50 @1016 f8 70 @1056 e0 70 @1064 00 10 @1112 45 23 @152 00 01 => 1000 7008, 5001 70e0 signal, 1000 70e8, 2345, Outside(9028)
    # The memory ends before the interrupted program counter.
    @888 01 50 @1016 f8 70 @1056 e0 70 @1064 00 10 @1112 45 23 @152 b0 => 1000 7008, 5001 70e0, Unreadable(28848)
    # It ends before the interrupted stack pointer.
    @888 01 50 @1016 f8 70 @1056 e0 70 @1064 00 10 @1112 45 23 @152 a8 => 1000 7008, 5001, Unreadable(28840)
";

#[test]
fn walks_go_through_signal_frames(rt: HostRuntime) -> Result<(), Fail> {
    let alloc = rt.alloc();
    let frame = SignalFrame {
        frame_address: 160,
        return_address: 168,
        frame_pointer: 120,
    };
    let trampoline = [Span {
        start: 0x5000,
        size: 10,
        leads_to: frame,
    }];
    let modules = [
        module_of(b"/lib/libc.so.6", Arch::Amd64, &PUSHING)?,
        module_of(b"/bin/program", Arch::Amd64, &PUSHING)?,
    ];
    let thread = thread_at(0x1000, None);
    let file = File {
        len: 1144,
        ..TWO_THREADS
    };
    let process = Process::new(alloc, &ENTRIES, &modules, &[&trampoline], &[thread])?;
    prints(alloc, "0x5000", &process.number_at(0x5000), "Some(0)")?;
    prints(alloc, "0x1000", &process.number_at(0x1000), "Some(1)")?;
    for line in INTERRUPTED.lines() {
        if let Some((given, wanted)) = row(line) {
            let bytes = bytes_of(alloc, &file, given)?;
            let core = Core::parse(&bytes).ok().ok_or("the file is sound")?;
            let found = walked(alloc, &process, &thread, &core)?;
            expect(given, found.as_str(), wanted)?;
        }
    }
    Ok(())
}

/// The masks of a process's threads on AArch64, or `-`, and what is changed in `MASKED`; the frames of the first thread, and the stop. Its row
/// has the return address signed, which is saved at 632 of the file.
const MASKS: &str = "
    # A bit above the address space.
    - -: => 1008 7020, Signed(11821949021851668)
    -: @638 01 => 1008 7020, Signed(281474976714772)
    # No bit above it.
    - -: @638 00 => 1008 7020, 1014 7040, Unreadable(28712)
    -: @632 ff ff ff ff ff ff 00 => 1008 7020, ffffffffffff, Outside(281474976710654)
    # Another thread has a mask, and the walked one.
    - 0x7f000000000000: @638 00 => 1008 7020, Signed(4116)
    0x7f000000000000 -: => 1008 7020, 1014 7040, Unreadable(28712)
";

/// Returns threads with these masks.
fn threads_of(alloc: Global, masks: &str) -> Result<Vec<Thread>, Fail> {
    let mut threads = Vec::new(alloc);
    for word in masks.split_whitespace() {
        let mask = if word == "-" {
            None
        } else {
            Some(number(word)?)
        };
        threads.push(thread_at(0x1008, mask))?;
    }
    Ok(threads)
}

#[test]
fn addresses_are_taken_as_they_are_where_no_thread_has_a_mask(rt: HostRuntime) -> Result<(), Fail> {
    let alloc = rt.alloc();
    let modules = [module_of(b"/bin/program", Arch::Aarch64, &SIGNING)?];
    for line in MASKS.lines() {
        if let Some((given, wanted)) = row(line) {
            let (masks, edits) = given.split_once(':').ok_or("masks")?;
            let threads = threads_of(alloc, masks)?;
            let thread = threads.first().ok_or("a thread")?;
            let process = Process::new(alloc, &ENTRIES, &modules, &[], &threads)?;
            let bytes = bytes_of(alloc, &MASKED, edits)?;
            let core = Core::parse(&bytes).ok().ok_or("the file is sound")?;
            let found = walked(alloc, &process, thread, &core)?;
            expect(given, found.as_str(), wanted)?;
        }
    }
    Ok(())
}

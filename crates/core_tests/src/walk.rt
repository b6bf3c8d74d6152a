//! Walks of threads as lists of frames, by core files read whole and by parts. Whole runs over core files are cases in files.

ghost use Rattle.std.specs.Prelude.{◌<◌, ◌^◌, length};
ghost use Rattle.core_parts.specs.Loaded.{core_read_bytes};

use crate::files::{File, MASKED, TWO_THREADS, bytes_of};
use crate::parts::{files_of, load, load_parts};
use base_tests::tables::{expect, row};
use core_notes::Core;
use core_parts::{CoreInput, CoreRead, Walked, Wanted, walk_input};
use core_walk::walk;
use sf_decode::View;
use sf_fakes::MemFiles;
use sf_model::Walk;
use sframe_tests::samples::{PUSHING, SIGNING};
use std::alloc::Global;
use std::test::*;

/// Returns the frames of a walk, and its stop.
fn text_of(alloc: Global, walk: &Walk) -> Result<String, Fail> {
    let mut text = String::new(alloc);
    for frame in &walk.frames {
        text.push_str(&format!(in alloc; "{} {:?}, ", frame.pc, frame.cfa)?)?;
    }
    text.push_str(&format!(in alloc; "{:?}", walk.stop)?)?;
    Ok(text)
}

/// Returns the frames of a walk of a core file's first thread, and its stop.
fn text_by_core(alloc: Global, section: &[u8], bytes: &[u8]) -> Result<String, Fail>
    requires { length bytes.now < 2 ^ 32 }
{
    let core = Core::parse(bytes).ok().ok_or("the file is sound")?;
    let view = View::parse(section, 0x3000).ok().ok_or("a section")?;
    let thread = core.threads_iter().next().ok_or("a thread")?;
    let walked = walk(alloc, &view, &thread, &core, 64)?;
    text_of(alloc, &walked)
}

/// Walks the first thread of a core file by what was read of it.
fn walked(alloc: Global, section: &[u8], read: &CoreRead) -> Result<Walked, Fail>
    requires { length (core_read_bytes read.now) < 2 ^ 32 }
{
    let view = View::parse(section, 0x3000).ok().ok_or("a section")?;
    let core = CoreInput::parse(read).ok().ok_or("the file is sound")?;
    let threads = core.threads(alloc)?;
    let thread = threads.first().ok_or("a thread")?;
    let memory = core.memory(alloc)?;
    Ok(walk_input(alloc, &view, thread, &memory, 64)?)
}

/// Loads parts of a core file, and again with the addresses that a walk of its first thread misses, until they are enough. Returns the
/// frames of the walk and its stop, after the addresses.
fn text_by_parts(alloc: Global, section: &[u8], files: &mut MemFiles) -> Result<String, Fail> {
    let mut addresses = Vec::new(alloc);
    let mut text = String::new(alloc);
    for _ in 0..4 {
        let read = load_parts(alloc, files, &addresses)?;
        match walked(alloc, section, &read)? {
            Walked::Whole(walk) => {
                text.push_str(&format!(in alloc; ": {}", text_of(alloc, &walk)?)?)?;
                return Ok(text);
            }
            Walked::Missed(address) => {
                text.push_str(&format!(in alloc; "{address:x}")?)?;
                addresses.push(address)?;
            }
        }
    }
    Err("parts are never enough".into())
}

/// Loads a core file whole. Returns the frames of a walk of its first thread, and its stop.
fn text_by_whole(alloc: Global, section: &[u8], files: &mut MemFiles) -> Result<String, Fail> {
    let read = load(alloc, files, Wanted::Whole)?;
    match walked(alloc, section, &read)? {
        Walked::Whole(walk) => text_of(alloc, &walk),
        Walked::Missed(_) => Err("nothing is missed of a whole file".into()),
    }
}

/// Fails unless a walk of a core file's first thread is what the table wants where the bytes of each row are written into the file: the address
/// that it misses of the parts that are read at first, if there is one, and its program counters, frame addresses and stop.
fn expect_walks(alloc: Global, section: &[u8], file: &File, table: &str) -> Result<(), Fail> {
    for line in table.lines() {
        if let Some((given, wanted)) = row(line) {
            let (_, frames) = wanted.split_once(": ").ok_or("frames")?;
            let bytes = bytes_of(alloc, file, given)?;
            expect(
                given,
                text_by_core(alloc, section, &bytes)?.as_str(),
                frames,
            )?;
            let mut files = files_of(alloc, bytes)?;
            let whole = text_by_whole(alloc, section, &mut files)?;
            expect(given, whole.as_str(), frames)?;
            let parts = text_by_parts(alloc, section, &mut files)?;
            expect(given, parts.as_str(), wanted)?;
        }
    }
    Ok(())
}

const PUSHED: &str = "
    # The stack pointer is below the memory, so none of it is read at first. The return address is before the frame address.
    => 7008: 4100 Some(28688), 4101 Some(28704), 0 None, Outside(18446744073709551615)
";

const SIGNED: &str = "
    @622 7f => : 4104 Some(28704), 4116 Some(28736), Unreadable(28712)
";

#[test]
fn threads_are_walked_by_whole_files_and_by_parts(rt: HostRuntime) -> Result<(), Fail> {
    expect_walks(rt.alloc(), &PUSHING, &TWO_THREADS, PUSHED)?;
    expect_walks(rt.alloc(), &SIGNING, &MASKED, SIGNED)
}

//! The texts of walks through the tables of all files.

ghost use Rattle.std.specs.Prelude.{◌≡◌, ◌≤◌, ℕ, List, IfOk, map, length};
ghost use Rattle.std.specs.List.{AllZip};
ghost use Rattle.std.specs.Option.{option_map};
ghost use Rattle.core_notes.specs.Memory.{file_regions};
ghost use Rattle.core_walk.specs.Walk.{thread_state};
ghost use Rattle.core_parts.specs.Input.{input_file, is_by_parts, is_part, memory_file};
ghost use Rattle.sf_modules.specs.Entry.{mapping_view};
ghost use Rattle.sf_modules.specs.Module.{module_view};
ghost use Rattle.sf_text.specs.FileFrames.{file_frame_view, file_frames_text, file_view};
ghost use Rattle.process_walk.specs.Process.{entries_in, modules_in};
ghost use Rattle.process_tables.specs.Modules.{MappedModule, module_at};
ghost use Rattle.process_tables.specs.Texts.{file_shown, frame_shown, mapped_walks, thread_texts};
ghost use Rattle.process_tables.specs.Views.{IsTableOf, rows_walk, section_view};
ghost use Rattle.process_tables.specs.Walked.{AreWalks, IsThreadWalk};

use crate::name::last_part_of;
use crate::table::MappedTable;
use crate::views::signals_of;
use core_notes::Thread;
use core_parts::{CoreInput, InputMemory};
use process_walk::{Process, ProcessFrame, ProcessWalk};
use sf_base::NoMemory;
use sf_modules::{Entry, Module};
use sf_text::{FileFrame, ShownFile, file_frames_text};
use std::alloc::Global;

/// What the walks of all threads come to by what was read of a core file.
#[derive(Drop)]
pub enum MappedWalks {
    /// The texts of the walks by the whole memory.
    Text(Vec<u8>),
    /// The walks need the eight bytes from each of these addresses on. The whole memory has them, and they weren't read.
    Unread(Vec<u64>),
}

// What the walk of a thread comes to.
#[derive(Drop)]
enum ThreadWalk {
    // The walk by the whole memory.
    Whole(ProcessWalk),
    // It needs the eight bytes from this address on, which weren't read.
    Missed(u64),
}

// Returns the file of a table, as the line of a frame shows it.
fn file_of<'w>(made: &MappedTable<'w, '_>) -> ShownFile<'w>
    ensures { (m : MappedModule) → IsTableOf m made.now → file_view result ≡ file_shown m }
{
    ShownFile {
        name: last_part_of(made.word),
        base: made.mapped.base,
    }
}

// Returns the file that has a program counter.
fn file_at<'w>(
    process: &Process<'_>,
    tables: &[MappedTable<'w, '_>],
    pc: u64,
) -> Option<ShownFile<'w>>
    ensures { (modules : List MappedModule) → AllZip IsTableOf modules tables.now → modules_in process.now ≡ map section_view modules → option_map file_view result ≡ option_map file_shown (module_at (entries_in process.now) modules pc) }
{
    let number = process.number_at(pc)?;
    let made = tables.get(number as usize)?;
    Some(file_of(made))
}

// Returns the frames of a walk with their files.
fn frames_of<'w>(
    alloc: Global,
    process: &Process<'_>,
    tables: &[MappedTable<'w, '_>],
    frames: &[ProcessFrame],
) -> Result<Vec<FileFrame<'w>>, NoMemory>
    ensures { (modules : List MappedModule) → AllZip IsTableOf modules tables.now → modules_in process.now ≡ map section_view modules → IfOk result (λ shown. map file_frame_view shown.items ≡ map (frame_shown (entries_in process.now) modules) frames.now) }
{
    let mut shown = Vec::with_capacity(alloc, frames.len())?;
    for listed in frames {
        shown.push(FileFrame {
            frame: listed.frame,
            file: file_at(process, tables, listed.frame.pc),
            is_signal: listed.is_signal,
        })?;
    }
    Ok(shown)
}

// Returns the text of a thread's walk.
fn text_of(
    alloc: Global,
    process: &Process<'_>,
    tables: &[MappedTable<'_, '_>],
    number: u32,
    pid: u32,
    walk: &ProcessWalk,
) -> Result<Vec<u8>, NoMemory>
    ensures { (modules : List MappedModule) → AllZip IsTableOf modules tables.now → modules_in process.now ≡ map section_view modules → IfOk result (λ text. text.items ≡ file_frames_text number pid (map (frame_shown (entries_in process.now) modules) walk.now.frames.items) walk.now.stop) }
{
    let frames = frames_of(alloc, process, tables, &walk.frames)?;
    file_frames_text(alloc, number, pid, &frames, walk.stop)
}

// Returns the walk of a thread by the whole memory of the core file, or which bytes it needs that weren't read.
fn thread_walk(
    alloc: Global,
    process: &Process<'_>,
    thread: &Thread,
    memory: &InputMemory<'_>,
    depth: u32,
) -> Result<ThreadWalk, NoMemory>
    ensures { IfOk result (IsThreadWalk (rows_walk process.now (thread_state thread.now) (file_regions (memory_file memory.now)) depth) (is_part memory.now)) }
{
    let walk = process.walk(alloc, thread, memory, depth)?;
    memory.is_of_file();
    match memory.missed(walk.stop) {
        Some(address) => Ok(ThreadWalk::Missed(address)),
        None => Ok(ThreadWalk::Whole(walk)),
    }
}

// Returns the texts of the walks of threads through modules that were put in order, or which bytes the walks need that
// weren't read.
fn texts_of(
    alloc: Global,
    process: &Process<'_>,
    tables: &[MappedTable<'_, '_>],
    threads: &[Thread],
    memory: &InputMemory<'_>,
    depth: u32,
) -> Result<MappedWalks, NoMemory>
    requires { length threads.now ≤ 4096 }
    ensures { (modules : List MappedModule) → AllZip IsTableOf modules tables.now → modules_in process.now ≡ map section_view modules
        → IfOk result (AreWalks (thread_texts (entries_in process.now) modules (λ thread. rows_walk process.now thread (file_regions (memory_file memory.now)) depth) threads.now) (is_part memory.now)) }
{
    let mut text = Vec::new(alloc);
    let mut missed = Vec::new(alloc);
    let mut number = 0;
    for thread in threads {
        match thread_walk(alloc, process, thread, memory, depth)? {
            ThreadWalk::Whole(walk) => {
                text.extend_from_slice(&text_of(
                    alloc, process, tables, number, thread.pid, &walk,
                )?)?;
            }
            ThreadWalk::Missed(address) => missed.push(address)?,
        }
        number += 1;
    }
    if missed.is_empty() {
        Ok(MappedWalks::Text(text))
    } else {
        Ok(MappedWalks::Unread(missed))
    }
}

/// Returns the texts of the walks of all threads of a core file, each of at most `depth` frames, through the files of these
/// tables, whose sections are given; or the addresses of bytes that the walks need and that weren't read.
///
/// `NoMemory` if out of memory.
pub fn walks_text<'m>(
    alloc: Global,
    entries: &'m [Entry<'m>],
    tables: &'m [MappedTable<'_, '_>],
    sections: &'m [Module<'m, 'm>],
    core: &CoreInput<'_>,
    depth: u32,
) -> Result<MappedWalks, NoMemory>
    ensures { (modules : List MappedModule) → AllZip IsTableOf modules tables.now → map module_view sections.now ≡ map section_view modules
        → IfOk result (AreWalks (mapped_walks (map mapping_view entries.now) modules (input_file core.now) depth) (is_by_parts core.now)) }
{
    let threads = core.threads(alloc)?;
    let signals = signals_of(alloc, tables)?;
    let process = Process::new(alloc, entries, sections, &signals, &threads)?;
    let memory = core.memory(alloc)?;
    texts_of(alloc, &process, tables, &threads, &memory, depth)
}

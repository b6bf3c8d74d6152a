//! Whether a file is the build that a process had (GNU NT_GNU_BUILD_ID).

ghost use Rattle.std.specs.Prelude.{◌≡◌, ◌<◌, ◌||◌, true, not, IfErr, IfOk};
ghost use Rattle.std.specs.List.{list_all, list_any, range_with_len};
ghost use Rattle.elf_read.specs.Sections.{segment_total};
ghost use Rattle.elf_mapped.specs.Program.{program_bytes};
ghost use Rattle.core_notes.specs.Note.{note_view};
ghost use Rattle.core_notes.specs.SegmentNotes.{segment_notes};
ghost use Rattle.elf_load.specs.BuildId.{is_build_id};
ghost use Rattle.core_parts.specs.Input.{is_map_of_parts, map_file};
ghost use Rattle.sf_modules.specs.Build as spec;

use crate::file::Program;
use crate::layout::{GNU, NT_GNU_BUILD_ID, PT_LOAD};
use core_notes::Note;
use core_parts::{InputMap, Unread};
use elf_mapped::ProgramFile;

// Returns whether a note is a build identifier.
#[tactic(auto, unfolding(core_notes::specs::Thread::has_name_and_type))]
fn is_build_id(note: &Note<'_>) -> bool
    ensures { result ≡ is_build_id (note_view note.now) }
{
    note.kind == NT_GNU_BUILD_ID && note.name == GNU
}

// Returns whether the addresses of one segment are some of another, which is loaded.
fn is_within(elf: &ProgramFile<'_>, i: u32, k: u32) -> bool
    requires inner { i < segment_total (program_bytes elf.now) }
    requires outer { k < segment_total (program_bytes elf.now) }
    ensures { result ≡ spec.is_within (program_bytes elf.now) i k }
{
    let inner = elf.segment(i);
    let outer = elf.segment(k);
    outer.kind == PT_LOAD
        && outer.vaddr <= inner.vaddr
        && u128::from(inner.vaddr) + u128::from(elf.file_size(i))
            <= u128::from(outer.vaddr) + u128::from(elf.memory_size(k))
}

// Returns whether a segment is loaded with another.
fn is_loaded(program: &Program<'_>, i: u32) -> bool
    requires { i < program.now.count }
    ensures { result ≡ spec.is_within_any (program_bytes program.now.elf) i }
{
    for k in 0..program.count {
        if is_within(&program.elf, i, k) {
            return true;
        }
    }
    false
}

// Returns whether the memory of a core file has the descriptor of a note of a segment at its address, or doesn't have all
// its bytes there.
#[tactic(auto, unfolding(crate::specs::Build::descriptor_agrees))]
fn descriptor_agrees(
    memory: &InputMap<'_>,
    elf: &ProgramFile<'_>,
    base: u64,
    i: u32,
    note: &Note<'_>,
) -> Result<bool, Unread>
    requires { i < segment_total (program_bytes elf.now) }
    ensures agrees { IfOk result (λ agrees. agrees ≡ spec.descriptor_agrees (map_file memory.now) (program_bytes elf.now) base i (note_view note.now)) }
    ensures unread { IfErr result (λ unread. is_map_of_parts memory.now ≡ true) }
{
    let id = note.descriptor.bytes;
    if id.is_empty() {
        return Ok(true);
    }
    let segment = elf.segment(i);
    let within = note.descriptor.place.saturating_sub(segment.place);
    let address = base.wrapping_add(segment.vaddr).wrapping_add(within);
    match memory.bytes_at(address, id.len() as u64)? {
        Some(held) => Ok(id == held),
        None => Ok(true),
    }
}

// Returns whether a note is no build identifier or agrees.
fn note_agrees(
    memory: &InputMap<'_>,
    elf: &ProgramFile<'_>,
    base: u64,
    i: u32,
    note: &Note<'_>,
) -> Result<bool, Unread>
    requires { i < segment_total (program_bytes elf.now) }
    ensures agrees { IfOk result (λ agrees. agrees ≡ spec.note_agrees (map_file memory.now) (program_bytes elf.now) base i (note_view note.now)) }
    ensures unread { IfErr result (λ unread. is_map_of_parts memory.now ≡ true) }
{
    if is_build_id(note) {
        descriptor_agrees(memory, elf, base, i, note)
    } else {
        Ok(true)
    }
}

// Returns whether each note of a segment is no build identifier or agrees.
fn notes_agree(
    memory: &InputMap<'_>,
    elf: &ProgramFile<'_>,
    base: u64,
    i: u32,
) -> Result<bool, Unread>
    requires { i < segment_total (program_bytes elf.now) }
    ensures agrees { IfOk result (λ agrees. agrees ≡ list_all (spec.note_agrees (map_file memory.now) (program_bytes elf.now) base i) (segment_notes (program_bytes elf.now) i)) }
    ensures unread { IfErr result (λ unread. is_map_of_parts memory.now ≡ true) }
{
    for note in elf.notes(i) {
        if !note_agrees(memory, elf, base, i, &note)? {
            return Ok(false);
        }
    }
    Ok(true)
}

// Returns whether each build identifier of a segment agrees, if the segment is loaded.
#[tactic(auto, unfolding(crate::specs::Build::segment_agrees))]
fn segment_agrees(
    memory: &InputMap<'_>,
    program: &Program<'_>,
    base: u64,
    i: u32,
) -> Result<bool, Unread>
    requires { i < program.now.count }
    ensures agrees { IfOk result (λ agrees. agrees ≡ spec.segment_agrees (map_file memory.now) (program_bytes program.now.elf) base i) }
    ensures unread { IfErr result (λ unread. is_map_of_parts memory.now ≡ true) }
{
    Ok(notes_agree(memory, &program.elf, base, i)? || !is_loaded(program, i))
}

/// Returns whether a program, mapped with this base, is the build that a process had: each of its build identifiers is in
/// the memory of the core file, or isn't all there.
///
/// `Unread` if the part of the memory that has one of them wasn't read.
pub fn is_same_build(
    memory: &InputMap<'_>,
    program: &Program<'_>,
    base: u64,
) -> Result<bool, Unread>
    ensures agrees { IfOk result (λ agrees. agrees ≡ spec.is_same_build (map_file memory.now) (program_bytes program.now.elf) base) }
    ensures unread { IfErr result (λ unread. is_map_of_parts memory.now ≡ true) }
{
    for i in 0..program.count {
        if !segment_agrees(memory, program, base, i)? {
            return Ok(false);
        }
    }
    Ok(true)
}

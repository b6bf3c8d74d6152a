//! Where a process had a file.

ghost use Rattle.std.specs.Prelude.{◌≡◌, ◌<◌, ◌^◌, ℕ, true, IfOk, IsErrOf, length};
ghost use Rattle.elf_mapped.specs.Program.{all_bytes, program_bytes};
ghost use Rattle.sf_modules.specs.declared.fault.ModuleFault.TheVariants.{NoMemory, Unread};
ghost use Rattle.sf_modules.specs.Entry.{mapping_view};
ghost use Rattle.sf_modules.specs.Fault.{FollowsCheck, OnlyRefuses};
ghost use Rattle.sf_modules.specs.Mapped.{IsMapped, mapped_view};
ghost use Rattle.sf_modules.specs.Module as spec;
ghost use Rattle.sf_modules.specs.Process.{is_process_of_parts, process_view};
ghost use Rattle.sf_modules.specs.Reading.{build_part, mapped_check, place_check, room_part};

use crate::build::is_same_build;
use crate::entry::Entry;
use crate::fault::ModuleFault;
use crate::file::{Program, check_kind, program_of};
use crate::fit::base_of;
use crate::nearest::entry_of;
use crate::process::Process;
use elf_mapped::{MappedBytes, ProgramFile};
use sf_model::Arch;

/// An executable or a shared object that a process had mapped.
#[derive(Clone, Copy)]
pub struct MappedFile<'p> {
    /// The entry of its first loaded segment.
    pub entry: Entry<'p>,
    /// How far up it was mapped: what is added to an address of the file, modulo 2^64.
    pub base: u64,
    /// For which machine it is.
    pub machine: Arch,
}

// Returns how far up a program was mapped.
fn file_base(page: u64, program: &Program<'_>, entry: &Entry<'_>) -> u64
    requires { 0 < page }
    ensures { result ≡ spec.file_base (program_bytes program.now.elf) page (mapping_view entry.now) program.now.load }
{
    base_of(page, entry, program.elf.segment(program.load).vaddr)
}

// Checks that the program is the build that the process had.
fn check_build(
    process: &Process<'_>,
    program: &Program<'_>,
    entry: &Entry<'_>,
) -> Result<(), ModuleFault>
    ensures check { FollowsCheck (build_part (process_view process.now) (program_bytes program.now.elf) program.now.load (mapping_view entry.now)) result }
    ensures unread { (address : ℕ) → IsErrOf result (ModuleFault.Unread address) → is_process_of_parts process.now ≡ true }
    ensures memory { IsErrOf result ModuleFault.NoMemory → ⊥ }
{
    if is_same_build(
        &process.memory,
        program,
        file_base(process.page, program, entry),
    )? {
        Ok(())
    } else {
        Err(ModuleFault::Build)
    }
}

// Checks that the file has room for its PT_NOTE segments, which are read whole.
fn check_notes(program: &Program<'_>) -> Result<(), ModuleFault>
    ensures check { result ≡ room_part (program_bytes program.now.elf) }
    ensures refusal { OnlyRefuses result }
{
    program.elf.check_room(program.count)?;
    Ok(())
}

/// Finds where the process had an executable or a shared object, for which this word is given.
#[tactic(auto, unfolding(crate::specs::Reading::place_check))]
pub fn place_of<'p>(
    process: &Process<'p>,
    word: &[u8],
    elf: &ProgramFile<'_>,
) -> Result<MappedFile<'p>, ModuleFault>
    ensures value { IfOk result (λ m. IsMapped (process_view process.now) word.now (program_bytes elf.now) (mapped_view m)) }
    ensures check { FollowsCheck (place_check (process_view process.now) word.now (program_bytes elf.now)) result }
    ensures unread { (address : ℕ) → IsErrOf result (ModuleFault.Unread address) → is_process_of_parts process.now ≡ true }
    ensures memory { IsErrOf result ModuleFault.NoMemory → ⊥ }
{
    let program = program_of(elf)?;
    check_notes(&program)?;
    let entry = entry_of(process, word, &program)?;
    check_build(process, &program, entry)?;
    Ok(MappedFile {
        entry: *entry,
        base: file_base(process.page, &program, entry),
        machine: elf.arch(),
    })
}

/// Finds where the process had the file for which this word is given. Among its entries whose names have most parts in
/// common with the word, from the last part on, the first at which the file fits shows where its first loaded segment was.
/// The file needs no SFrame section.
///
/// # Errors
///
/// The first of these: `Elf` if the ELF file is refused, or is no executable or shared object; `Segments` if the program
/// headers don't have the format's length, don't lie in the file or are of no loaded segment; `Elf` if the file has no room
/// for its PT_NOTE segments together; `NotMapped` if no entry's name has the word's last part; `Mapping` if the file doesn't
/// fit at any of the nearest; `Ambiguous` if it fits at two of different names; `Build` if the core file has another build
/// identifier, or `Unread` if the part of it that shows this was not read.
#[tactic(auto, unfolding(crate::specs::Reading::mapped_check))]
pub fn mapped_file<'p>(
    process: &Process<'p>,
    word: &[u8],
    bytes: MappedBytes<'_>,
) -> Result<MappedFile<'p>, ModuleFault>
    requires { length (all_bytes bytes) < 2 ^ 32 }
    // This is where the process had the file.
    ensures sound { IfOk result (λ m. IsMapped (process_view process.now) word.now (all_bytes bytes.entry) (mapped_view m)) }
    // It is found exactly where no check fails; else the fault is that of the first that does, unless a part wasn't read.
    ensures exact { FollowsCheck (mapped_check (process_view process.now) word.now (all_bytes bytes.entry)) result }
    ensures unread { (address : ℕ) → IsErrOf result (ModuleFault.Unread address) → is_process_of_parts process.now ≡ true }
    ensures memory { IsErrOf result ModuleFault.NoMemory → ⊥ }
{
    let elf = ProgramFile::parse(bytes)?;
    check_kind(&elf)?;
    place_of(process, word, &elf)
}

//! The SFrame section of a file, and its first loaded segment.

ghost use Rattle.std.specs.Prelude.{◌≡◌, ◌<◌, ◌-◌, ◌%◌, IfOk, IfSome, Some};
ghost use Rattle.elf_read.specs.Checks.{program_headers_check};
ghost use Rattle.elf_read.specs.Header.{kind_of};
ghost use Rattle.elf_read.specs.Sections.{segment_total};
ghost use Rattle.elf_mapped.specs.Program.{program_bytes};
ghost use Rattle.elf_mapped.specs.Sframe.{sframe_section};
ghost use Rattle.core_notes.specs.TotalSize.{HeadersLie};
ghost use Rattle.elf_load.specs.Segments.{page_floor};
ghost use Rattle.sf_modules.specs.Fault.{OnlyRefuses, verdict};
ghost use Rattle.sf_modules.specs.File as spec;
ghost use Rattle.sf_modules.specs.Reading.{headers_part, kind_part, section_part, segments_part};

use crate::fault::ModuleFault;
use crate::layout::PT_LOAD;
use elf_mapped::ProgramFile;
use elf_read::layout::{E_PHNUM, E_PHOFF, E_TYPE};
use elf_read::{ElfFault, Kind};

/// Returns where the page of a number begins.
pub fn page_floor(page: u64, n: u64) -> u64
    requires { 0 < page }
    ensures { result ≡ page_floor page n }
{
    n - n % page
}

/// Checks that a file is an executable or a shared object.
pub fn check_kind(elf: &ProgramFile<'_>) -> Result<(), ModuleFault>
    ensures check { result ≡ kind_part (program_bytes elf.now) }
    ensures refusal { OnlyRefuses result }
{
    match elf.kind() {
        Kind::Exec | Kind::Dyn => Ok(()),
        Kind::Rel | Kind::Core => Err(ModuleFault::Elf(ElfFault::Kind(E_TYPE))),
    }
}

/// Finds the number of a file's SFrame section.
pub fn section_of(elf: &ProgramFile<'_>) -> Result<u32, ModuleFault>
    ensures check { verdict result ≡ section_part (program_bytes elf.now) (sframe_section (program_bytes elf.now)) }
    ensures refusal { OnlyRefuses result }
    ensures value { IfOk result (λ i. sframe_section (program_bytes elf.now) ≡ Some i) }
{
    match elf.sframe() {
        Ok(Some(i)) => Ok(i),
        Ok(None) => Err(ModuleFault::NoSection),
        Err(fault) => Err(ModuleFault::Elf(fault)),
    }
}

// Returns the number of a file's program headers.
fn header_count(elf: &ProgramFile<'_>) -> Result<u32, ModuleFault>
    ensures check { verdict result ≡ headers_part (program_headers_check (program_bytes elf.now)) }
    ensures refusal { OnlyRefuses result }
    ensures value { IfOk result (λ count. count ≡ segment_total (program_bytes elf.now)) }
{
    match elf.program_headers() {
        Ok(count) => Ok(count),
        Err(ElfFault::EntrySize(place)) => Err(ModuleFault::Segments(place)),
        Err(_) => Err(ModuleFault::Segments(E_PHOFF)),
    }
}

// Finds the number of the first program header of a loaded segment.
fn first_load(elf: &ProgramFile<'_>, count: u32) -> Option<u32>
    requires { count ≡ segment_total (program_bytes elf.now) }
    ensures found { result ≡ spec.first_load (program_bytes elf.now) }
    ensures within { IfSome result (λ load. load < count) }
{
    for i in 0..count {
        if elf.segment(i).kind == PT_LOAD {
            return Some(i);
        }
    }
    None
}

/// A file whose program headers can be read.
#[derive(Clone, Copy)]
pub struct Program<'f> {
    pub elf: ProgramFile<'f>,
    /// The number of its program headers.
    pub count: u32,
    /// The number of the program header of its first loaded segment.
    pub load: u32,
    ghost counted: { count ≡ segment_total (program_bytes elf) },
    ghost lie: { HeadersLie (program_bytes elf) count },
    ghost within: { load < count },
}

/// Reads the program headers of a file.
pub fn program_of<'f>(elf: &ProgramFile<'f>) -> Result<Program<'f>, ModuleFault>
    ensures check { verdict result ≡ segments_part (program_bytes elf.now) }
    ensures refusal { OnlyRefuses result }
    ensures file { IfOk result (λ p. program_bytes p.elf ≡ program_bytes elf.now) }
    ensures load { IfOk result (λ p. spec.first_load (program_bytes elf.now) ≡ Some p.load) }
{
    let count = header_count(elf)?;
    match first_load(elf, count) {
        Some(load) => Ok(Program {
            elf: *elf,
            count,
            load,
        }),
        None => Err(ModuleFault::Segments(E_PHNUM)),
    }
}

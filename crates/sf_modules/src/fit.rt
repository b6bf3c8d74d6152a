//! Whether a file was mapped as an entry says.

ghost use Rattle.std.specs.Prelude.{◌≡◌, ◌<◌};
ghost use Rattle.std.specs.List.{list_all, range_with_len};
ghost use Rattle.elf_read.specs.Sections.{segment_total};
ghost use Rattle.elf_mapped.specs.Program.{program_bytes};
ghost use Rattle.sf_modules.specs.Entry.{mapping_view};
ghost use Rattle.sf_modules.specs.Fit as spec;
ghost use Rattle.sf_modules.specs.Process.{process_view};
ghost use Rattle.sf_modules.specs.Stretches.{IsNamed};

use crate::entry::Entry;
use crate::file::{Program, page_floor};
use crate::layout::PT_LOAD;
use crate::process::Process;
use crate::stretches::Named;
use elf_mapped::ProgramFile;

/// Returns how far up a file was mapped: from where the page of its first loaded segment's address begins to its entry's start.
pub fn base_of(page: u64, entry: &Entry<'_>, vaddr: u64) -> u64
    requires { 0 < page }
    ensures { result ≡ spec.mapping_base page (mapping_view entry.now) vaddr }
{
    entry.start.wrapping_sub(page_floor(page, vaddr))
}

// Returns whether an entry of the name has the segment's bytes at its address.
fn is_mapped(
    process: &Process<'_>,
    elf: &ProgramFile<'_>,
    named: &Named<'_>,
    base: u64,
    i: u32,
) -> bool
    requires index { i < segment_total (program_bytes elf.now) }
    requires named { IsNamed process.now.stretches named.now }
    ensures { result ≡ spec.is_mapped (process_view process.now) (program_bytes elf.now) named.now.name.now base i }
{
    let segment = elf.segment(i);
    let address = base.wrapping_add(segment.vaddr);
    process.stretches.any_maps(named, address, segment.place)
}

// Returns whether the segment isn't executable, or the core file doesn't show its address as not executable.
fn may_execute(process: &Process<'_>, elf: &ProgramFile<'_>, base: u64, i: u32) -> bool
    requires { i < segment_total (program_bytes elf.now) }
    ensures { result ≡ spec.may_execute (process_view process.now) (program_bytes elf.now) base i }
{
    if !elf.is_executable(i) {
        return true;
    }
    let address = base.wrapping_add(elf.segment(i).vaddr);
    process.memory.executable_at(address).unwrap_or(true)
}

// Returns whether a segment is loaded and has bytes in the file.
fn has_bytes(elf: &ProgramFile<'_>, i: u32) -> bool
    requires { i < segment_total (program_bytes elf.now) }
    ensures { result ≡ spec.has_file_bytes (program_bytes elf.now) i }
{
    elf.segment(i).kind == PT_LOAD && elf.file_size(i) > 0
}

// Returns whether a segment was where it has to be, if it has bytes.
#[tactic(auto, unfolding(crate::specs::Fit::segment_fits))]
fn segment_fits(
    process: &Process<'_>,
    elf: &ProgramFile<'_>,
    named: &Named<'_>,
    base: u64,
    i: u32,
) -> bool
    requires index { i < segment_total (program_bytes elf.now) }
    requires named { IsNamed process.now.stretches named.now }
    ensures { result ≡ spec.segment_fits (process_view process.now) (program_bytes elf.now) named.now.name.now base i }
{
    !has_bytes(elf, i)
        || (is_mapped(process, elf, named, base, i) && may_execute(process, elf, base, i))
}

// Returns whether each segment was where it has to be. Segment `misfit`, which was not where the file was tried before, is
// tried first.
fn all_fit(
    process: &Process<'_>,
    program: &Program<'_>,
    misfit: &mut u32,
    named: &Named<'_>,
    base: u64,
) -> bool
    requires { IsNamed process.now.stretches named.now }
    ensures { result ≡ list_all (spec.segment_fits (process_view process.now) (program_bytes program.now.elf) named.now.name.now base) (range_with_len 0 (segment_total (program_bytes program.now.elf))) }
{
    let first = *misfit;
    if first < program.count && !segment_fits(process, &program.elf, named, base, first) {
        return false;
    }
    for i in 0..program.count {
        if !segment_fits(process, &program.elf, named, base, i) {
            *misfit = i;
            return false;
        }
    }
    true
}

/// Returns whether a program was mapped as an entry says. `misfit` becomes the number of a segment that was not where it has to be.
#[tactic(auto, unfolding(crate::specs::Fit::all_segments_fit))]
pub fn fits(
    process: &Process<'_>,
    program: &Program<'_>,
    misfit: &mut u32,
    entry: &Entry<'_>,
) -> bool
    ensures { result ≡ spec.all_segments_fit (process_view process.now) (program_bytes program.now.elf) program.now.load (mapping_view entry.now) }
{
    let segment = program.elf.segment(program.load);
    entry.offset == page_floor(process.page, segment.place)
        && all_fit(
            process,
            program,
            misfit,
            &process.stretches.named(entry.name),
            base_of(process.page, entry, segment.vaddr),
        )
}

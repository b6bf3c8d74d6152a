//! Where a file is loaded.

ghost use Rattle.std.specs.Prelude.{◌≡◌, ◌<◌, ◌^◌, length, IfOk};
ghost use Rattle.elf_read.specs.Checking.{verdict};
ghost use Rattle.elf_read.specs.Sections.{segment_total};
ghost use Rattle.elf_read.specs.Views.{file};
ghost use Rattle.elf_load.specs.Loading as spec;
ghost use Rattle.elf_load.specs.Segments as segments;

use crate::build_id::build_id;
use crate::fault::LoadFault;
use crate::layout::ADDRESS_END;
use crate::mapping::Mapping;
use crate::segments::{first_loaded, load_address, memory_end, page_ceiling, page_floor};
use core_notes::check_room;
use elf_read::{Elf, ElfFault};
use sf_bytes::Part;

/// Where a file is loaded, and which build it is.
#[derive(Clone, Copy)]
pub struct Loading<'a> {
    /// The page of the first loaded segment, in the file's addresses.
    pub first: u64,
    /// The first page after the last loaded byte, in the file's addresses.
    pub after: u64,
    /// What is added to the file's addresses, if the mapping can be of exactly one segment.
    pub load: Option<u64>,
    /// The build identifier with its place in the file, if there is one.
    pub build_id: Option<Part<'a>>,
}

/// A file whose program headers and notes can be read.
#[derive(Clone, Copy)]
struct Program<'a> {
    elf: Elf<'a>,
    /// The number of its program headers.
    count: u32,
    ghost counted: { count ≡ segment_total (file elf) },
    ghost small: { length (file elf) < 2 ^ 32 },
}

// Reads the headers of a file.
#[tactic(auto, unfolding(crate::specs::Loading::headers_check))]
fn program_of(bytes: &[u8]) -> Result<Program<'_>, ElfFault>
    requires { length bytes.now < 2 ^ 32 }
    ensures check { verdict result ≡ spec.headers_check bytes.now }
    ensures file { IfOk result (λ program. file program.elf ≡ bytes.now) }
{
    let elf = Elf::parse(bytes)?;
    let count = elf.program_headers()?;
    check_room(bytes, &elf, count)?;
    Ok(Program { elf, count })
}

// Returns the first page after the last loaded byte, if that is an address.
fn page_after(program: &Program<'_>, page: u64) -> Result<u64, LoadFault>
    requires { 0 < page }
    ensures { result ≡ spec.page_after page (file program.now.elf) }
{
    let after = page_ceiling(page, memory_end(&program.elf, program.count));
    if after < ADDRESS_END {
        Ok(after as u64)
    } else {
        Err(LoadFault::NotLoaded)
    }
}

/// Returns where a file is loaded: its pages in its own addresses; what is added to these, by an executable mapping; and
/// the build identifier. There is no load address if the mapping can be of no segment or of several.
///
/// # Errors
///
/// `Elf` where the file can't be read, its program headers can't, or its PT_NOTE segments have no room in it together;
/// then `NotLoaded` where no segment is loaded or the page after the last loaded byte is no address.
#[tactic(auto, unfolding(crate::specs::Loading::loading_of))]
pub fn read_loading<'a>(
    bytes: &'a [u8],
    page: u64,
    mapping: &Mapping,
) -> Result<Loading<'a>, LoadFault>
    requires page { 0 < page }
    requires small { length bytes.now < 2 ^ 32 }
    ensures exact { spec.loading_seen result ≡ spec.loading_of page mapping.now bytes.now }
    ensures load { IfOk result (λ loading. segments.IsLoadOf page mapping.now bytes.now loading.load) }
{
    let program = program_of(bytes)?;
    let Some(first) = first_loaded(&program.elf, program.count) else {
        return Err(LoadFault::NotLoaded);
    };
    Ok(Loading {
        first: page_floor(page, program.elf.segment(first).vaddr),
        after: page_after(&program, page)?,
        load: load_address(&program.elf, program.count, page, mapping),
        build_id: build_id(&program.elf, program.count),
    })
}

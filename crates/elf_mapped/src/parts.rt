//! The parts of an executable or a shared object that was read by parts, apart from those that its checks need.

ghost use Rattle.std.specs.Prelude.{IfOk, IfSome};
ghost use Rattle.elf_read.specs.Linked.{linked_file};
ghost use Rattle.sf_bytes.specs.Parts.{AreParts, IsPart};
ghost use Rattle.elf_mapped.specs.Parts.{HasParts};

use crate::headers::{header_count, take_table};
use crate::notes::{have_room, take_notes};
use crate::sframe::{Found, Sframe, take_sframe};
use crate::table::Table;
use elf_read::LinkedElf;
use sf_base::NoMemory;
use sf_bytes::FilePart;
use std::alloc::Global;

/// The program headers of a file, its notes and its SFrame section.
#[derive(Drop)]
pub struct ProgramParts {
    /// How many program headers there are.
    pub count: u32,
    /// The bytes of the program headers.
    pub table: Vec<u8>,
    /// The notes of each segment. A segment that is no PT_NOTE has no bytes there.
    pub notes: Vec<FilePart>,
    /// The SFrame section, if the file has one.
    pub sframe: Option<Sframe>,
}

/// Takes these parts of a file off. Nothing if a part is another one, or if one of the file's checks isn't clear by them.
///
/// `NoMemory` if out of memory.
pub fn take_parts(
    alloc: Global,
    linked: &LinkedElf,
    names: &FilePart,
    mut parts: Vec<FilePart>,
) -> Result<Option<ProgramParts>, NoMemory>
    requires names { IsPart (linked_file linked.now) names.now }
    requires parts { AreParts (linked_file linked.now) parts.items }
    ensures { IfOk result (λ found. IfSome found (HasParts (linked_file linked.now))) }
{
    let Some(count) = header_count(linked) else {
        return Ok(None);
    };
    let Some(bytes) = take_table(linked, &mut parts, count) else {
        return Ok(None);
    };
    let table = Table {
        linked,
        bytes: &bytes,
        count,
    };
    let Some(notes) = take_notes(alloc, &table, &mut parts)? else {
        return Ok(None);
    };
    if !have_room(linked, &notes) {
        return Ok(None);
    }
    let Some(Found { sframe }) = take_sframe(linked, names, &mut parts) else {
        return Ok(None);
    };
    Ok(Some(ProgramParts {
        count,
        table: bytes,
        notes,
        sframe,
    }))
}

//! Makes an executable or a shared object of parts of it.

ghost use Rattle.std.specs.Prelude.{◌≡◌, ◌<◌, ◌^◌, ℕ, List, length, IfOk, IfSome};
ghost use Rattle.sf_bytes.specs.Parts.{AreParts, IsPart};
ghost use Rattle.elf_mapped.specs.Mapped.{mapped_file};

use crate::mapped_elf::MappedElf;
use crate::part::take_linked;
use crate::parts::take_parts;
use boxcar::tag::Tag;
use elf_read::linked_of;
use sf_base::NoMemory;
use sf_bytes::FilePart;
use std::alloc::Global;

// Returns a copy of a part.
fn copy_of(alloc: Global, part: &FilePart) -> Result<FilePart, NoMemory>
    ensures { IfOk result (λ copy. (file : List ℕ) → IsPart file part.now → IsPart file copy) }
{
    Ok(FilePart {
        place: part.place,
        bytes: Vec::from_slice(alloc, &part.bytes)?,
    })
}

/// Returns an executable or a shared object of `len` bytes by parts of it, if these are enough for every check of the whole
/// file, and it passes them all. The parts have to be, in this order: the file header, the section headers, the bytes of the
/// name table, the section with call frame information, the program headers, each PT_NOTE segment and the SFrame section, if
/// there is one. Nothing is stated of any other file. Clauses see all its bytes in `whole`.
///
/// `NoMemory` if out of memory.
pub fn mapped_of(
    alloc: Global,
    len: u64,
    whole: Tag,
    mut parts: Vec<FilePart>,
) -> Result<Option<MappedElf>, NoMemory>
    requires len { len ≡ length whole.numbers }
    requires small { length whole.numbers < 2 ^ 32 }
    requires parts { AreParts whole.numbers parts.items }
    ensures { IfOk result (λ found. IfSome found (λ elf. mapped_file elf ≡ whole.numbers)) }
{
    let Some(first) = take_linked(&mut parts) else {
        return Ok(None);
    };
    let names = copy_of(alloc, &first.names)?;
    let Some(linked) = linked_of(len, whole, first) else {
        return Ok(None);
    };
    match take_parts(alloc, &linked, &names, parts)? {
        Some(parts) => Ok(Some(MappedElf { linked, parts })),
        None => Ok(None),
    }
}

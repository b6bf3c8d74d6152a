//! The parts of a file, in the order of their reads.

ghost use Rattle.std.specs.Prelude.{ℕ, List, IfSome};
ghost use Rattle.elf_read.specs.Linked.{AreLinkedParts};
ghost use Rattle.sf_bytes.specs.Parts.{AreParts, IsPart};

use crate::file_parts::FileParts;
use elf_read::LinkedParts;
use sf_bytes::FilePart;

// Takes the last part off.
fn last_part(parts: &mut Vec<FilePart>) -> Option<FilePart>
    ensures last { (file : List ℕ) → AreParts file parts.old.items → IfSome result (IsPart file) }
    ensures rest { (file : List ℕ) → AreParts file parts.old.items → AreParts file parts.new.items }
{
    parts.pop()
}

/// Returns the four parts that were read of an executable or a shared object, if there are as many.
pub fn linked_parts(parts: FileParts) -> Option<LinkedParts>
    ensures { (file : List ℕ) → AreParts file parts.parts.items → IfSome result (AreLinkedParts file) }
{
    let FileParts { len: _, mut parts } = parts;
    let eh_frame = last_part(&mut parts)?;
    let names = last_part(&mut parts)?;
    let sections = last_part(&mut parts)?;
    let header = last_part(&mut parts)?;
    Some(LinkedParts {
        header,
        sections,
        names,
        eh_frame,
    })
}

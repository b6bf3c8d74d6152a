//! Parts of a file that were read, each of which is taken once.

ghost use Rattle.std.specs.Prelude.{◌≡◌, ℕ, List, length, IfSome};
ghost use Rattle.elf_read.specs.Linked.{AreLinkedParts};
ghost use Rattle.elf_read.specs.Number.{window};
ghost use Rattle.sf_bytes.specs.Parts.{AreParts, IsPart};

use elf_read::LinkedParts;
use sf_bytes::FilePart;

// Takes the part of this number off.
fn take_at(parts: &mut Vec<FilePart>, number: usize) -> Option<FilePart>
    ensures part { (file : List ℕ) → AreParts file parts.old.items → IfSome result (IsPart file) }
    ensures rest { (file : List ℕ) → AreParts file parts.old.items → AreParts file parts.new.items }
{
    if number >= parts.len() {
        return None;
    }
    Some(parts.remove(number))
}

/// Takes the first four parts off, as those that an executable or a shared object has.
pub fn take_linked(parts: &mut Vec<FilePart>) -> Option<LinkedParts>
    ensures parts { (file : List ℕ) → AreParts file parts.old.items → IfSome result (AreLinkedParts file) }
    ensures rest { (file : List ℕ) → AreParts file parts.old.items → AreParts file parts.new.items }
{
    let header = take_at(parts, 0)?;
    let sections = take_at(parts, 0)?;
    let names = take_at(parts, 0)?;
    let eh_frame = take_at(parts, 0)?;
    Some(LinkedParts {
        header,
        sections,
        names,
        eh_frame,
    })
}

/// Takes the next part off, if it is `size` bytes from a place on.
pub fn take_part(parts: &mut Vec<FilePart>, place: u64, size: u64) -> Option<FilePart>
    ensures place { IfSome result (λ part. part.place ≡ place) }
    ensures len { IfSome result (λ part. length part.bytes.items ≡ size) }
    ensures part { (file : List ℕ) → AreParts file parts.old.items → IfSome result (λ part. part.bytes.items ≡ window place size file) }
    ensures rest { (file : List ℕ) → AreParts file parts.old.items → AreParts file parts.new.items }
{
    let part = take_at(parts, 0)?;
    if part.place != place || part.bytes.len() as u64 != size {
        return None;
    }
    Some(part)
}

//! The parts of an executable or a shared object that its checks need.

ghost use Rattle.std.specs.Prelude.{◌≡◌, ℕ, List, length, IfSome};
ghost use Rattle.elf_read.specs.Number.{window};
ghost use Rattle.sf_bytes.specs.Parts.{IsPart};

use sf_bytes::FilePart;

/// Four parts that were read of an executable or a shared object. Each is expected to be what its name says, which
/// [`linked_of`](crate::linked_of) checks.
#[derive(Drop)]
pub struct LinkedParts {
    /// The file header.
    pub header: FilePart,
    /// The section headers.
    pub sections: FilePart,
    /// The bytes of the name table.
    pub names: FilePart,
    /// The bytes of the section with call frame information.
    pub eh_frame: FilePart,
}

/// Returns a part's bytes, if these are `size` bytes from a place on.
pub fn bytes_if_at(part: &FilePart, place: u64, size: u64) -> Option<&[u8]>
    ensures bytes { IfSome result (λ bytes. bytes.now ≡ part.now.bytes.items) }
    ensures len { IfSome result (λ bytes. length bytes.now ≡ size) }
    ensures window { (file : List ℕ) → IsPart file part.now → IfSome result (λ bytes. bytes.now ≡ window place size file) }
{
    if part.place != place || part.bytes.len() as u64 != size {
        return None;
    }
    Some(&part.bytes)
}

//! The parts of a file that were read, none of which overlap.

ghost use Rattle.std.specs.Prelude.{◌≡◌, ◌+◌, ◌<◌, ◌≤◌, ◌⊎◌, ◌^◌, All, length, IsTrue, vec_len};
ghost use Rattle.sf_bytes.specs.declared.file_part.FilePart.{FilePart as file_part};
ghost use Rattle.sf_bytes.specs.Parts.{AreParts};
ghost use Rattle.sf_parts.specs.Image.{image};
ghost use Rattle.std.proofs.Props.{props};

use sf_base::NoMemory;
use sf_bytes::FilePart;
use std::alloc::Global;

/// The parts of a file that were read. No two overlap, and none passes the file's end, so there are bytes of which they
/// are parts.
#[derive(Drop)]
pub struct FileParts {
    /// How many bytes the file has.
    pub len: u64,
    /// The parts, in the order of their reads.
    pub parts: Vec<FilePart>,
    ghost sized: { length (image len parts.items) ≡ len },
    ghost slices: { AreParts (image len parts.items) parts.items } by { Prim.hlevel props },
}

// Returns whether a part overlaps none of the bytes from a place to another.
fn is_apart(part: &FilePart, place: u64, end: u64) -> bool
    ensures { IsTrue result → (part.now.place + vec_len part.now.bytes ≤ place) ⊎ (end ≤ part.now.place) }
{
    let len = part.bytes.len() as u64;
    if part.place <= place && len <= place - part.place {
        return true;
    }
    end <= part.place
}

/// Returns whether none of these parts overlaps the bytes from a place to another.
pub fn are_apart(parts: &[FilePart], place: u64, end: u64) -> bool
    ensures { IsTrue result → All (λ (part : file_part). (part.place + vec_len part.bytes ≤ place) ⊎ (end ≤ part.place)) parts.now }
{
    for part in parts {
        if !is_apart(part, place, end) {
            return false;
        }
    }
    true
}

impl FileParts {
    ghost use Rattle.std.specs.Prelude.{[], ◌∷◌, ◌++◌, IfOk, OnErr, if◌then◌else◌};

    /// Creates a file of this length of which no part was read.
    pub fn new(alloc: Global, len: u64) -> FileParts
        ensures len { result.len ≡ len }
        ensures none { result.parts.items ≡ [] }
    {
        FileParts {
            len,
            parts: Vec::new(alloc),
        }
    }

    /// Adds a part, and returns whether it was added: it has to lie in the file, and apart from the others.
    ///
    /// # Errors
    ///
    /// `NoMemory`. Nothing is added then.
    pub fn add(&mut self, place: u64, bytes: Vec<u8>) -> Result<bool, NoMemory>
        ensures len { self.new.len ≡ self.old.len }
        ensures parts { IfOk result (λ added. self.new.parts.items
            ≡ (if added then self.old.parts.items ++ (record { place = place; bytes = bytes }) ∷ [] else self.old.parts.items)) }
        ensures kept { OnErr result (self.new.parts.items ≡ self.old.parts.items) }
    {
        let Some(end) = place.checked_add(bytes.len() as u64) else {
            return Ok(false);
        };
        if end > self.len || !are_apart(&self.parts, place, end) {
            return Ok(false);
        }
        match self.parts.push(FilePart { place, bytes }) {
            Ok(()) => Ok(true),
            Err(_) => Err(NoMemory),
        }
    }
}

//! A core file of which parts were read.

ghost use Rattle.std.specs.Prelude.{◌≡◌, ◌+◌, ◌<◌, ◌≤◌, ◌^◌, ℕ, List, Ok, true, map, length, IfOk, IfSome};
ghost use Rattle.std.specs.Option.{option_map};
ghost use Rattle.elf_read.specs.Header as header;
ghost use Rattle.core_notes.specs.Checks.{core_check, file_threads};
ghost use Rattle.core_notes.specs.Listing.{notes_in, whole_notes};
ghost use Rattle.core_notes.specs.MemoryBytes.{load_spans};
ghost use Rattle.core_notes.specs.Segment.{segments};
ghost use Rattle.core_notes.specs.Thread.{file_note_in};
ghost use Rattle.core_parts.specs.Heads.{head_span, heads_lie, heads_rise, segment_in};
ghost use Rattle.core_parts.specs.Whole.{IsWholeOf, part_cursor};
ghost use Rattle.std.proofs.Props.{props};

use crate::core_head::{CoreHead, head_of};
use crate::memory::PartMemory;
use crate::segment::any_holds;
use core_notes::Thread;
use sf_base::NoMemory;
use sf_bytes::Part;
use sf_model::Arch;
use sf_parts::FileParts;
use std::alloc::{AllocError, Global};

/// A core file that passes every check of a whole file, of which parts were read.
#[derive(Drop)]
pub struct CoreParts {
    /// The parts that were read of the file.
    pub file: FileParts,
    /// What its headers and notes say.
    pub head: CoreHead,
    ghost checked: { (whole : List ℕ) → IsWholeOf file whole → core_check whole ≡ Ok tt },
    ghost machine: { (whole : List ℕ) → IsWholeOf file whole → header.arch_of whole ≡ head.arch },
    ghost segments_are: { (whole : List ℕ) → IsWholeOf file whole → segments whole ≡ map (segment_in whole) head.heads.items },
    ghost threads_are: { (whole : List ℕ) → IsWholeOf file whole → file_threads whole ≡ head.threads.items },
    ghost loads_are: { (whole : List ℕ) → IsWholeOf file whole → load_spans whole ≡ map head_span head.heads.items },
    ghost note_is: { (whole : List ℕ) → IsWholeOf file whole → file_note_in (whole_notes (notes_in whole)) ≡ option_map part_cursor head.file_note },
    ghost fits: { IfSome head.file_note (λ note. note.place + length note.bytes.items < 2 ^ 64) } by { Prim.hlevel props },
    ghost few: { length head.threads.items ≤ 4096 },
    ghost lie: { heads_lie file.len head.heads.items ≡ true },
    ghost rise: { heads_rise 0 head.heads.items ≡ true },
}

/// Returns a core file by parts of it, the first three of which have to be its file header, its program headers and its one
/// segment of notes: if these are enough for every check of the whole file, and it passes them all. Nothing is said of any
/// other file: [`Core::parse`](core_notes::Core::parse) of its bytes gives its fault, or says that it has none.
///
/// The segments that are memory have to rise, and section headers must not be needed.
///
/// # Errors
///
/// `NoMemory`.
pub fn core_of(alloc: Global, file: FileParts) -> Result<Option<CoreParts>, NoMemory>
    ensures file { IfOk result (λ found. IfSome found (λ core. core.file ≡ file)) }
    ensures checked { IfOk result (λ found. IfSome found (λ core. (whole : List ℕ) → IsWholeOf core.file whole → core_check whole ≡ Ok tt)) }
{
    match head_of(alloc, &file)? {
        Some(head) => Ok(Some(CoreParts { file, head })),
        None => Ok(None),
    }
}

impl CoreParts {
    ghost use Rattle.std.specs.Prelude.{is_some};
    ghost use Rattle.sf_bytes.specs.Cursor.{cursor};
    ghost use Rattle.core_notes.specs.Memory.{file_regions};
    ghost use Rattle.core_notes.specs.MemoryBytes as held;
    ghost use Rattle.core_parts.specs.PartMemory.{part_regions};
    ghost use Rattle.core_parts.specs.Read.{regions_read};

    /// Returns the machine that the file is for.
    pub fn arch(&self) -> Arch
        ensures { (whole : List ℕ) → IsWholeOf self.now.file whole → result ≡ header.arch_of whole }
    {
        self.head.arch
    }

    /// Returns the threads, in the order of their notes.
    pub fn threads(&self) -> &[Thread]
        ensures few { length result.now ≤ 4096 }
        ensures are { (whole : List ℕ) → IsWholeOf self.now.file whole → result.now ≡ file_threads whole }
    {
        &self.head.threads
    }

    /// Returns the descriptor of the first note that lists the mapped files, if there is one.
    pub fn file_note(&self) -> Option<Part<'_>>
        ensures { (whole : List ℕ) → IsWholeOf self.now.file whole → option_map cursor result ≡ file_note_in (whole_notes (notes_in whole)) }
    {
        let note = self.head.file_note.as_ref()?;
        Some(Part::new(&note.bytes, note.place))
    }

    /// Returns the memory, as far as it was read.
    ///
    /// `AllocError` if out of memory.
    pub fn memory(&self, alloc: Global) -> Result<PartMemory<'_>, AllocError>
        ensures regions { IfOk result (λ memory. part_regions memory ≡ regions_read self.now.head.heads.items self.now.file.parts.items) }
        ensures heads { IfOk result (λ memory. memory.heads.now ≡ self.now.head.heads.items) }
    {
        let memory = PartMemory::new(alloc, self.file.len, &self.head.heads, &self.file.parts)?;
        Ok(memory)
    }

    /// Returns whether the whole memory has `len` bytes from an address on in one segment, read or not.
    pub fn holds_bytes(&self, address: u64, len: u64) -> bool
        ensures { (whole : List ℕ) → IsWholeOf self.now.file whole → result ≡ is_some (held.bytes_at (file_regions whole) address len) }
    {
        any_holds(&self.head.heads, address, len)
    }
}

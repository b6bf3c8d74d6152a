//! A core file of which parts were read, as one list of bytes.

ghost use Rattle.std.specs.Prelude.{◌≡◌, length};
ghost use Rattle.sf_bytes.specs.Parts.{AreParts};
ghost use Rattle.std.proofs.Props.{props};

use crate::core_file::CoreParts;
use crate::partial_memory::PartialMemory;
use crate::segment::SegmentHead;
use boxcar::tag::Tag;
use core_notes::Thread;
use sf_base::Files;
use sf_bytes::Part;
use sf_model::Arch;
use sf_parts::whole_of;
use std::alloc::{AllocError, Global};

/// A core file of which parts were read, as one list of bytes: what the file holds, if that is known, or else some bytes of
/// which these are parts.
#[derive(Drop)]
pub struct PartialCore {
    pub(crate) core: CoreParts,
    whole: Tag,
    ghost sized: { length whole.numbers ≡ core.file.len },
    ghost slices: { AreParts whole.numbers core.file.parts.items } by { Prim.hlevel props },
}

impl PartialCore {
    ghost use Rattle.core_notes.specs.Checks.{core_check, file_threads};
    ghost use Rattle.core_notes.specs.Listing.{notes_in, whole_notes};
    ghost use Rattle.core_notes.specs.Memory.{file_regions};
    ghost use Rattle.core_notes.specs.Thread.{file_note_in};
    ghost use Rattle.core_notes.specs.MemoryBytes as held;
    ghost use Rattle.core_notes.specs.MemoryBytes.{load_spans};
    ghost use Rattle.core_parts.specs.Heads.{head_span};
    ghost use Rattle.core_parts.specs.Partial.{partial_file, parts_of_core};
    ghost use Rattle.core_parts.specs.Whole.{IsWholeOf};
    ghost use Rattle.elf_read.specs.Header as header;
    ghost use Rattle.std.specs.Prelude.{◌≤◌, Ok, is_some, map, IfOk, IfSome};
    ghost use Rattle.std.specs.Option.{option_map};
    ghost use Rattle.sf_bytes.specs.Cursor.{cursor};

    /// Creates the core file of which these parts were read of the open file.
    pub fn new<F: Files>(files: &F, core: CoreParts) -> PartialCore
        requires { IfSome ((F.seen files.now).contents) (λ _. IsWholeOf core.file (F.whole files.now)) }
        ensures known { IfSome ((F.seen files.now).contents) (λ _. partial_file result ≡ F.whole files.now) }
        ensures len { length (partial_file result) ≡ core.file.len }
        ensures parts { parts_of_core result ≡ core.file.parts.items }
    {
        let whole = whole_of(files, &core.file);
        PartialCore { core, whole }
    }

    /// Says that the file passes every check of a core file.
    pub fn is_checked(&self)
        ensures { core_check (partial_file self.now) ≡ Ok tt }
    {}

    /// Returns how many bytes the file has.
    pub fn len(&self) -> u64
        ensures { result ≡ length (partial_file self.now) }
    {
        self.core.file.len
    }

    /// Returns the machine that the file is for.
    pub fn arch(&self) -> Arch
        ensures { result ≡ header.arch_of (partial_file self.now) }
    {
        self.core.arch()
    }

    /// Returns the threads, in the order of their notes.
    pub fn threads(&self) -> &[Thread]
        ensures are { result.now ≡ file_threads (partial_file self.now) }
        ensures few { length result.now ≤ 4096 }
    {
        self.core.threads()
    }

    /// Returns the descriptor of the first note that lists the mapped files, if there is one.
    pub fn file_note(&self) -> Option<Part<'_>>
        ensures { option_map cursor result ≡ file_note_in (whole_notes (notes_in (partial_file self.now))) }
    {
        self.core.file_note()
    }

    /// Returns the program headers.
    pub fn heads(&self) -> &[SegmentHead]
        ensures are { result.now ≡ self.now.core.head.heads.items }
        ensures spans { load_spans (partial_file self.now) ≡ map head_span result.now }
    {
        &self.core.head.heads
    }

    /// Returns the memory, as far as it was read.
    ///
    /// `AllocError` if out of memory.
    pub fn memory(&self, alloc: Global) -> Result<PartialMemory<'_>, AllocError>
        ensures { IfOk result (λ memory. memory.core.now ≡ self.now) }
    {
        let memory = self.core.memory(alloc)?;
        Ok(PartialMemory { core: self, memory })
    }

    /// Returns whether the whole memory has `len` bytes from an address on in one segment, read or not.
    pub fn holds_bytes(&self, address: u64, len: u64) -> bool
        ensures { result ≡ is_some (held.bytes_at (file_regions (partial_file self.now)) address len) }
    {
        self.core.holds_bytes(address, len)
    }
}

//! The memory of a core file that was read, whole or by parts, put in order to find what is at an address.

ghost use Rattle.std.specs.Prelude.{◌≡◌, map, IfOk};
ghost use Rattle.sf_lookup.specs.Spans.{InOrder};
ghost use Rattle.core_notes.specs.MemoryBytes.{load_spans};
ghost use Rattle.core_parts.specs.Heads as spec;
ghost use Rattle.core_parts.specs.Partial.{partial_file};

use crate::input::CoreInput;
use crate::partial_core::PartialCore;
use crate::partial_memory::PartialMemory;
use crate::segment::{SegmentHead, is_memory};
use crate::unread::Unread;
use core_notes::MemoryMap;
use sf_lookup::{Span, Spans};
use std::alloc::{AllocError, Global};

/// The memory of a core file of which parts were read, in which what is at an address is found by halves.
#[derive(Drop)]
pub struct PartialMap<'a> {
    /// The memory.
    pub memory: PartialMemory<'a>,
    executable: Spans<bool>,
    ghost ordered: { InOrder executable (load_spans (partial_file memory.core.now)) },
}

/// The memory of a core file in which what is at an address is found by halves: any number of bytes, and whether they may be
/// executed.
#[derive(Drop)]
pub enum InputMap<'a> {
    /// The core file was read whole.
    Whole(MemoryMap<'a>),
    /// Parts of it were read.
    Parts(PartialMap<'a>),
}

// Returns the addresses that a segment has in memory, which lead to whether it is executable.
fn head_span(head: &SegmentHead) -> Span<bool>
    ensures { result ≡ spec.head_span head.now }
{
    Span {
        start: head.vaddr,
        size: if is_memory(head) { head.memory_size } else { 0 },
        leads_to: head.executable,
    }
}

// Returns the addresses of all segments.
fn head_spans(alloc: Global, heads: &[SegmentHead]) -> Result<Vec<Span<bool>>, AllocError>
    ensures { IfOk result (λ spans. spans.items ≡ map spec.head_span heads.now) }
{
    let mut spans = Vec::with_capacity(alloc, heads.len())?;
    for head in heads {
        spans.push(head_span(head))?;
    }
    Ok(spans)
}

impl<'a> PartialMap<'a> {
    ghost use Rattle.std.specs.Prelude.{◌≡◌, IfOk};
    ghost use Rattle.std.specs.Option.{option_map};
    ghost use Rattle.core_notes.specs.Memory.{file_regions};
    ghost use Rattle.core_notes.specs.MemoryBytes as held;
    ghost use Rattle.core_parts.specs.Partial.{partial_file};

    // Puts the memory of a core file in order.
    fn new(alloc: Global, core: &'a PartialCore) -> Result<PartialMap<'a>, AllocError>
        ensures { IfOk result (λ map. partial_file map.memory.core.now ≡ partial_file core.now) }
    {
        let memory = core.memory(alloc)?;
        let executable = Spans::new(alloc, &head_spans(alloc, core.heads())?)?;
        Ok(PartialMap { memory, executable })
    }

    // Finds `len` bytes of the whole memory from an address on, by the first segment that holds them all, or says that they
    // weren't read as one part.
    fn bytes_at(&self, address: u64, len: u64) -> Result<Option<&'a [u8]>, Unread>
        ensures { IfOk result (λ found. option_map (λ b. b.now) found ≡ held.bytes_at (file_regions (partial_file self.now.memory.core.now)) address len) }
    {
        if let Some(bytes) = self.memory.memory.bytes_at(address, len) {
            return Ok(Some(bytes));
        }
        if self.memory.holds_bytes(address, len) {
            return Err(Unread(self.memory.memory.first_unread(address)));
        }
        Ok(None)
    }

    // Returns whether the first load segment that has an address is executable, or `None` if no load segment has it.
    fn executable_at(&self, address: u64) -> Option<bool>
        ensures { result ≡ held.executable_at (partial_file self.now.memory.core.now) address }
    {
        self.executable.first_at(address)
    }
}

impl<'a> InputMap<'a> {
    ghost use Rattle.std.specs.Prelude.{◌≡◌, true, IfErr, IfOk};
    ghost use Rattle.std.specs.Option.{option_map};
    ghost use Rattle.core_notes.specs.Memory.{file_regions};
    ghost use Rattle.core_notes.specs.MemoryBytes as held;
    ghost use Rattle.core_parts.specs.Input.{input_file, is_by_parts, is_map_of_parts, map_file};

    /// Puts the memory of a core file in order.
    ///
    /// `AllocError` if out of memory.
    pub fn new(alloc: Global, core: &CoreInput<'a>) -> Result<InputMap<'a>, AllocError>
        ensures file { IfOk result (λ map. map_file map ≡ input_file core.now) }
        ensures parts { IfOk result (λ map. is_map_of_parts map ≡ is_by_parts core.now) }
    {
        match core {
            CoreInput::Whole(core) => Ok(InputMap::Whole(MemoryMap::new(alloc, core)?)),
            CoreInput::Parts(core) => Ok(InputMap::Parts(PartialMap::new(alloc, core)?)),
        }
    }

    /// Finds `len` bytes from an address on, by the first segment that holds them all.
    ///
    /// # Errors
    ///
    /// `Unread` if parts of the core file were read, a segment holds the bytes, and they weren't read as one part.
    pub fn bytes_at(&self, address: u64, len: u64) -> Result<Option<&'a [u8]>, Unread>
        ensures found { IfOk result (λ found. option_map (λ b. b.now) found ≡ held.bytes_at (file_regions (map_file self.now)) address len) }
        ensures unread { IfErr result (λ unread. is_map_of_parts self.now ≡ true) }
    {
        match self {
            InputMap::Whole(memory) => Ok(memory.bytes_at(address, len)),
            InputMap::Parts(map) => map.bytes_at(address, len),
        }
    }

    /// Returns whether the first load segment that has an address is executable, or `None` if no load segment has it.
    pub fn executable_at(&self, address: u64) -> Option<bool>
        ensures { result ≡ held.executable_at (map_file self.now) address }
    {
        match self {
            InputMap::Whole(memory) => memory.executable_at(address),
            InputMap::Parts(map) => map.executable_at(address),
        }
    }
}

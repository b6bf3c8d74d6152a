//! The memory of a core file, put in order to find what is at an address.

ghost use Rattle.std.specs.Prelude.{◌≡◌, IfOk};
ghost use Rattle.elf_read.specs.Views.{file};
ghost use Rattle.sf_lookup.specs.Spans.{InOrder};
ghost use Rattle.core_notes.specs.MemoryBytes as held;

use crate::core_memory::CoreMemory;
use crate::layout::PT_LOAD;
use crate::view::Core;
use elf_read::Elf;
use sf_lookup::{Span, Spans};
use std::alloc::{AllocError, Global};

/// The memory of a core file, in which what is at an address is found by halves: any number of bytes, and whether they may
/// be executed.
#[derive(Drop)]
pub struct MemoryMap<'a> {
    memory: CoreMemory<'a>,
    executable: Spans<bool>,
    ghost ordered: { InOrder executable (held.load_spans (file memory.core.elf)) },
}

// Returns the addresses that a segment has in memory, which lead to whether it is executable.
fn load_span(elf: &Elf<'_>, i: u32) -> Span<bool>
    ensures { result ≡ held.load_span (file elf.now) i }
{
    let segment = elf.segment(i);
    let size = if segment.kind == PT_LOAD {
        elf.memory_size(i)
    } else {
        0
    };
    Span {
        start: segment.vaddr,
        size,
        leads_to: elf.is_executable(i),
    }
}

// Returns the addresses of all segments.
fn load_spans(alloc: Global, elf: &Elf<'_>) -> Result<Vec<Span<bool>>, AllocError>
    ensures { IfOk result (λ spans. spans.items ≡ held.load_spans (file elf.now)) }
{
    let mut spans = Vec::with_capacity(alloc, elf.segments() as usize)?;
    for i in 0..elf.segments() {
        spans.push(load_span(elf, i))?;
    }
    Ok(spans)
}

impl<'a> MemoryMap<'a> {
    ghost use Rattle.std.specs.Option.{option_map};
    ghost use Rattle.core_notes.specs.Memory.{file_regions};
    ghost use Rattle.core_notes.specs.MemoryMap.{core_in};
    ghost use Rattle.core_notes.specs.Views.{core_bytes};

    /// Puts the memory of a core file in order.
    ///
    /// `AllocError` if out of memory.
    pub fn new(alloc: Global, core: &Core<'a>) -> Result<MemoryMap<'a>, AllocError>
        ensures { IfOk result (λ m. core_in m ≡ core_bytes core.now) }
    {
        let memory = CoreMemory::new(alloc, core)?;
        let executable = Spans::new(alloc, &load_spans(alloc, &core.elf)?)?;
        Ok(MemoryMap { memory, executable })
    }

    /// Finds `len` bytes from an address on, by the first segment that holds them all.
    pub fn bytes_at(&self, address: u64, len: u64) -> Option<&'a [u8]>
        ensures { option_map (λ b. b.now) result ≡ held.bytes_at (file_regions (core_in self.now)) address len }
    {
        self.memory.bytes_at(address, len)
    }

    /// Returns whether the first load segment that has an address is executable, or `None` if no load segment has it.
    pub fn executable_at(&self, address: u64) -> Option<bool>
        ensures { result ≡ held.executable_at (core_in self.now) address }
    {
        self.executable.first_at(address)
    }
}

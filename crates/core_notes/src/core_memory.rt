//! The memory of a core file, put in order for many reads.

ghost use Rattle.std.specs.Prelude.{◌≡◌, ℕ, IfOk};
ghost use Rattle.elf_read.specs.Views.{file};
ghost use Rattle.core_notes.specs.Memory.{holding, holdings};
ghost use Rattle.core_notes.specs.Put.{ArePut};
ghost use Rattle.core_notes.specs.Segment.{segment_view, segments};

use crate::layout::PT_LOAD;
use crate::memory::{Order, read_eight};
use crate::memory_bytes::bytes_at;
use crate::segment::segment_at;
use crate::view::Core;
use elf_read::{Elf, Segment};
use sf_lookup::{Span, Spans};
use sf_model::Memory;
use std::alloc::{AllocError, Global};

/// The memory of a core file, in which a read finds its segment by halves: where the segments' addresses don't rise, the
/// PT_LOAD segments are put in order.
#[derive(Drop)]
pub struct CoreMemory<'a> {
    pub(crate) core: Core<'a>,
    spans: Option<Spans<u32>>,
    ghost ordered: { ArePut spans (segments (file core.elf)) },
}

// Returns the number of addresses from which on a segment holds eight bytes.
fn holding_size(segment: &Segment<'_>) -> u64
    ensures { (number : ℕ) → result ≡ (holding number (segment_view segment.now)).size }
{
    if segment.kind == PT_LOAD {
        (segment.bytes.len() as u64).saturating_sub(7)
    } else {
        0
    }
}

// Returns the segments as spans of the addresses from which on they hold eight bytes, each with its number.
fn holdings_of(alloc: Global, elf: &Elf<'_>) -> Result<Vec<Span<u32>>, AllocError>
    ensures { IfOk result (λ spans. spans.items ≡ holdings 0 (segments (file elf.now))) }
{
    let mut spans = Vec::with_capacity(alloc, elf.segments() as usize)?;
    for i in 0..elf.segments() {
        let segment = segment_at(elf, i);
        spans.push(Span {
            start: segment.vaddr,
            size: holding_size(&segment),
            leads_to: i,
        })?;
    }
    Ok(spans)
}

impl<'a> CoreMemory<'a> {
    ghost use Rattle.std.specs.Option.{option_map};
    ghost use Rattle.core_notes.specs.CoreMemory.{bytes_in, memory_in};
    ghost use Rattle.core_notes.specs.MemoryBytes as held;
    ghost use Rattle.core_notes.specs.Views.{core_bytes, memory_of};

    /// Puts the memory of a core file in order. If the segments' addresses rise, as kernels write them, it allocates nothing.
    ///
    /// `AllocError` if out of memory.
    pub fn new(alloc: Global, core: &Core<'a>) -> Result<CoreMemory<'a>, AllocError>
        ensures memory { IfOk result (λ memory. memory_in memory ≡ memory_of core.now) }
        ensures bytes { IfOk result (λ memory. bytes_in memory ≡ core_bytes core.now) }
    {
        if core.rises {
            return Ok(CoreMemory {
                core: *core,
                spans: None,
            });
        }
        let spans = Spans::new(alloc, &holdings_of(alloc, &core.elf)?)?;
        Ok(CoreMemory {
            core: *core,
            spans: Some(spans),
        })
    }

    /// Finds `len` bytes from an address on, by the first segment that holds them all.
    pub fn bytes_at(&self, address: u64, len: u64) -> Option<&'a [u8]>
        ensures { option_map (λ b. b.now) result ≡ held.bytes_at (memory_in self.now) address len }
    {
        match &self.spans {
            Some(spans) => bytes_at(&self.core.elf, Order::Put(spans), address, len),
            None => self.core.bytes_at(address, len),
        }
    }
}

impl<'a> Memory for CoreMemory<'a> {
    ghost use Rattle.core_notes.specs.CoreMemory.{memory_in};

    ghost regions = { memory_in };

    fn read8(&self, address: u64) -> Option<u64> {
        match &self.spans {
            Some(spans) => read_eight(&self.core.elf, Order::Put(spans), address),
            None => self.core.read8(address),
        }
    }
}

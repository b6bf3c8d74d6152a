//! The memory of a core file of which parts were read.

ghost use Rattle.std.specs.Prelude.{◌≡◌, ◌≤◌, ◌+◌, ◌^◌, true, length, map, IfOk, IfSome};
ghost use Rattle.std.specs.Option.{option_map};
ghost use Rattle.sf_lookup.specs.Span.{answer_of};
ghost use Rattle.sf_lookup.specs.Spans.{InOrder};
ghost use Rattle.sf_model.specs.Memory.{read_eight};
ghost use Rattle.core_parts.specs.Heads as head_spec;
ghost use Rattle.core_parts.specs.Heads.{heads_lie, heads_rise, if_holds};
ghost use Rattle.core_parts.specs.Read as spec;
ghost use Rattle.core_parts.specs.Read.{block_cursor, place_of};
ghost use Rattle.core_parts.specs.Whole.{part_cursor};

use crate::segment::{SegmentHead, head_holds, held_spans};
use elf_read::u64_at;
use sf_bytes::FilePart;
use sf_lookup::{Span, Spans};
use sf_model::Memory;
use std::alloc::{AllocError, Global};

/// Bytes that were read of a file, and the place of the first.
#[derive(Clone, Copy)]
pub struct Block<'a> {
    /// The place of the first.
    pub place: u64,
    /// The bytes.
    pub bytes: &'a [u8],
}

/// The memory of a core file, as far as parts of the file were read, put in order for many reads. A read of what wasn't
/// gives none. The segment that has an address is found by halves, and then the part that has its place.
#[derive(Drop)]
pub struct PartMemory<'a> {
    /// The headers of the segments.
    pub heads: &'a [SegmentHead],
    /// What was read of the file.
    pub blocks: Vec<Block<'a>>,
    segments: Spans<SegmentHead>,
    firsts: Spans<Block<'a>>,
    eights: Spans<Block<'a>>,
    ghost rise: { heads_rise 0 heads.now ≡ true },
    ghost lie: { heads_lie (2 ^ 64) heads.now ≡ true },
    ghost segments_ordered: { InOrder segments (map head_spec.held_span heads.now) },
    ghost firsts_ordered: { InOrder firsts (map spec.first_span blocks.items) },
    ghost eights_ordered: { InOrder eights (map spec.eight_span blocks.items) },
}

// Returns the parts of a file as blocks.
fn blocks_of<'a>(alloc: Global, parts: &'a [FilePart]) -> Result<Vec<Block<'a>>, AllocError>
    ensures { IfOk result (λ blocks. map block_cursor blocks.items ≡ map part_cursor parts.now) }
{
    let mut blocks = Vec::with_capacity(alloc, parts.len())?;
    for part in parts {
        blocks.push(Block {
            place: part.place,
            bytes: &part.bytes,
        })?;
    }
    Ok(blocks)
}

// Returns blocks as spans of the places from which on they have a byte.
fn first_spans<'a>(alloc: Global, blocks: &[Block<'a>]) -> Result<Vec<Span<Block<'a>>>, AllocError>
    ensures { IfOk result (λ spans. spans.items ≡ map spec.first_span blocks.now) }
{
    let mut spans = Vec::with_capacity(alloc, blocks.len())?;
    for block in blocks {
        spans.push(Span {
            start: block.place,
            size: block.bytes.len() as u64,
            leads_to: *block,
        })?;
    }
    Ok(spans)
}

// Returns blocks as spans of the places from which on they have eight bytes.
fn eight_spans<'a>(alloc: Global, blocks: &[Block<'a>]) -> Result<Vec<Span<Block<'a>>>, AllocError>
    ensures { IfOk result (λ spans. spans.items ≡ map spec.eight_span blocks.now) }
{
    let mut spans = Vec::with_capacity(alloc, blocks.len())?;
    for block in blocks {
        spans.push(Span {
            start: block.place,
            size: (block.bytes.len() as u64).saturating_sub(7),
            leads_to: *block,
        })?;
    }
    Ok(spans)
}

impl<'a> PartMemory<'a> {
    ghost use Rattle.std.specs.Prelude.{◌<◌};
    ghost use Rattle.core_notes.specs.MemoryBytes as held;
    ghost use Rattle.core_parts.specs.PartMemory.{part_regions};

    /// Puts the memory in order, as far as these parts of a file of this length with these segments have it. The addresses of
    /// the segments rise, and their bytes lie in the file.
    ///
    /// `AllocError` if out of memory.
    pub fn new(
        alloc: Global,
        len: u64,
        heads: &'a [SegmentHead],
        parts: &'a [FilePart],
    ) -> Result<PartMemory<'a>, AllocError>
        requires rise { heads_rise 0 heads.now ≡ true }
        requires lie { heads_lie len heads.now ≡ true }
        ensures regions { IfOk result (λ memory. part_regions memory ≡ spec.regions_read heads.now parts.now) }
        ensures heads { IfOk result (λ memory. memory.heads.now ≡ heads.now) }
    {
        let blocks = blocks_of(alloc, parts)?;
        let segments = Spans::new(alloc, &held_spans(alloc, heads)?)?;
        let firsts = Spans::new(alloc, &first_spans(alloc, &blocks)?)?;
        let eights = Spans::new(alloc, &eight_spans(alloc, &blocks)?)?;
        Ok(PartMemory {
            heads,
            blocks,
            segments,
            firsts,
            eights,
        })
    }

    /// Finds the segment that has the byte at an address, read or not.
    pub fn segment_at(&self, address: u64) -> Option<SegmentHead>
        ensures { result ≡ answer_of (map head_spec.held_span self.now.heads.now) address }
    {
        self.segments.first_at(address)
    }

    // Finds the place in the file of `len` bytes from an address on, read or not, if a segment has them all.
    fn place_at(&self, address: u64, len: u64) -> Option<u64>
        requires { 0 < len }
        ensures { result ≡ option_map (place_of address) (if_holds address len (answer_of (map head_spec.held_span self.now.heads.now) address)) }
    {
        let head = self.segment_at(address)?;
        if !head_holds(&head, address, len) {
            return None;
        }
        Some(head.place + (address - head.vaddr))
    }

    /// Finds `len` bytes from an address on, if one part has them all.
    pub fn bytes_at(&self, address: u64, len: u64) -> Option<&'a [u8]>
        ensures { IfSome result (λ bytes. (0 < len) × (held.bytes_at (part_regions self.now) address len ≡ Some bytes.now)) }
    {
        if len == 0 {
            return None;
        }
        let place = self.place_at(address, len)?;
        let block = self.firsts.first_at(place)?;
        let (_, rest) = block.bytes.split_at((place - block.place) as usize);
        if (rest.len() as u64) < len {
            return None;
        }
        let (found, _) = rest.split_at(len as usize);
        Some(found)
    }

    /// Returns the first address from this one on whose byte wasn't read with those before it. Nothing is stated: it is what
    /// to read for bytes that [`bytes_at`](PartMemory::bytes_at) doesn't find.
    pub fn first_unread(&self, address: u64) -> u64 {
        let Some(place) = self.place_at(address, 1) else {
            return address;
        };
        match self.firsts.first_at(place) {
            Some(block) => {
                let end = block.place.saturating_add(block.bytes.len() as u64);
                address.saturating_add(end.saturating_sub(place))
            }
            None => address,
        }
    }

    // Returns the number in the eight bytes from an address on, if they were read.
    fn read(&self, address: u64) -> Option<u64>
        ensures { result ≡ read_eight (part_regions self.now) address }
    {
        if address > u64::MAX - 7 {
            return None;
        }
        let place = self.place_at(address, 8)?;
        let block = self.eights.first_at(place)?;
        Some(u64_at(block.bytes, place - block.place))
    }
}

impl<'a> Memory for PartMemory<'a> {
    ghost use Rattle.core_parts.specs.PartMemory.{part_regions};

    ghost regions = { part_regions };

    fn read8(&self, address: u64) -> Option<u64> {
        self.read(address)
    }
}

//! The bytes of a core file's memory at an address.

ghost use Rattle.std.specs.Prelude.{◌≡◌, ◌≤◌};
ghost use Rattle.std.specs.List.{find};
ghost use Rattle.std.specs.Option.{option_map};
ghost use Rattle.elf_read.specs.Views.{file};
ghost use Rattle.sf_lookup.specs.Spans.{InOrder};
ghost use Rattle.core_notes.specs.Memory.{file_regions, holdings};
ghost use Rattle.core_notes.specs.MemoryBytes as spec;
ghost use Rattle.core_notes.specs.Order.{IsOrder};
ghost use Rattle.core_notes.specs.Segment.{segment_view, segments};

use crate::memory::{Order, by_halves, by_scan, by_spans, is_holder};
use elf_read::{Elf, Segment};
use sf_lookup::Spans;

// Finds the first segment that holds all of eight bytes or more, by the order in which the segments were put: mostly it is
// the first that holds eight of them.
fn by_eight<'a>(elf: &Elf<'a>, spans: &Spans<u32>, address: u64, len: u64) -> Option<Segment<'a>>
    requires put { InOrder spans.now (holdings 0 (segments (file elf.now))) }
    requires eight { 8 ≤ len }
    ensures { option_map segment_view result ≡ find (spec.is_bytes_holder address len) (segments (file elf.now)) }
{
    let segment = by_spans(elf, spans, address)?;
    if is_holder(&segment, address, len) {
        return Some(segment);
    }
    by_scan(elf, address, len)
}

// Finds the first segment that holds all of `len` bytes from an address on.
fn holder<'a>(elf: &Elf<'a>, order: Order<'_>, address: u64, len: u64) -> Option<Segment<'a>>
    requires { IsOrder order (segments (file elf.now)) }
    ensures { option_map segment_view result ≡ find (spec.is_bytes_holder address len) (segments (file elf.now)) }
{
    match order {
        Order::Rising if len > 0 => by_halves(elf, address, len),
        Order::Put(spans) if len >= 8 => by_eight(elf, spans, address, len),
        _ => by_scan(elf, address, len),
    }
}

/// Finds `len` bytes from an address on, by the first segment that holds them all.
pub fn bytes_at<'a>(elf: &Elf<'a>, order: Order<'_>, address: u64, len: u64) -> Option<&'a [u8]>
    requires { IsOrder order (segments (file elf.now)) }
    ensures { option_map (λ b. b.now) result ≡ spec.bytes_at (file_regions (file elf.now)) address len }
{
    let segment = holder(elf, order, address, len)?;
    let (_, rest) = segment.bytes.split_at((address - segment.vaddr) as usize);
    let (held, _) = rest.split_at(len as usize);
    Some(held)
}

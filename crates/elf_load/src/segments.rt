//! The loaded segments of a file.

ghost use Rattle.std.specs.Prelude.{◌≡◌, ◌<◌, ◌^◌, max};
ghost use Rattle.elf_read.specs.Sections.{segment_total};
ghost use Rattle.elf_read.specs.Views.{file};
ghost use Rattle.elf_load.specs.Segments as spec;

use crate::layout::PT_LOAD;
use crate::mapping::Mapping;
use elf_read::Elf;

/// Returns where the page of a number begins.
pub fn page_floor(page: u64, n: u64) -> u64
    requires { 0 < page }
    ensures { result ≡ spec.page_floor page n }
{
    n - n % page
}

/// Returns the first page that begins at a number or after it.
pub fn page_ceiling(page: u64, n: u128) -> u128
    requires page { 0 < page }
    requires small { n < 2 ^ 66 }
    ensures { result ≡ spec.page_ceiling page n }
{
    let page = u128::from(page);
    let last = n + (page - 1);
    last - last % page
}

// Returns whether a segment is loaded.
fn is_loaded(elf: &Elf<'_>, i: u32) -> bool
    ensures { result ≡ spec.is_loaded (file elf.now) i }
{
    elf.segment(i).kind == PT_LOAD
}

/// Finds the number of the first loaded segment.
pub fn first_loaded(elf: &Elf<'_>, count: u32) -> Option<u32>
    requires { count ≡ segment_total (file elf.now) }
    ensures { result ≡ spec.first_loaded (file elf.now) }
{
    for i in 0..count {
        if is_loaded(elf, i) {
            return Some(i);
        }
    }
    None
}

// Returns the address after a loaded segment's last byte, or 0 for a segment that isn't loaded.
fn segment_end(elf: &Elf<'_>, i: u32) -> u128
    ensures value { result ≡ spec.segment_end (file elf.now) i }
    ensures small { result < 2 ^ 66 }
{
    if is_loaded(elf, i) {
        u128::from(elf.segment(i).vaddr) + u128::from(elf.memory_size(i))
    } else {
        0
    }
}

// Returns the greater of two numbers.
fn greater(a: u128, b: u128) -> u128
    ensures { result ≡ max a b }
{
    if a < b { b } else { a }
}

/// Returns the address after the last byte of all loaded segments.
pub fn memory_end(elf: &Elf<'_>, count: u32) -> u128
    requires { count ≡ segment_total (file elf.now) }
    ensures value { result ≡ spec.loaded_end (file elf.now) }
    ensures small { result < 2 ^ 66 }
{
    let mut end = 0;
    for i in 0..count {
        end = greater(end, segment_end(elf, i));
    }
    end
}

// Returns whether an executable mapping that begins at a place of the file can be of a segment.
fn can_be_of(elf: &Elf<'_>, page: u64, offset: u64, i: u32) -> bool
    requires { 0 < page }
    ensures { result ≡ spec.can_be_of page offset (file elf.now) i }
{
    let place = elf.segment(i).place;
    let end = u128::from(place) + u128::from(elf.file_size(i));
    is_loaded(elf, i)
        && elf.is_executable(i)
        && page_floor(page, place) <= offset
        && u128::from(offset) < page_ceiling(page, end)
}

// Finds the number of the only segment that an executable mapping can be of.
fn mapped_segment(elf: &Elf<'_>, count: u32, page: u64, offset: u64) -> Option<u32>
    requires page { 0 < page }
    requires count { count ≡ segment_total (file elf.now) }
    ensures { result ≡ spec.only_one (spec.mapped_segments page offset (file elf.now)) }
{
    let mut found = None;
    for i in 0..count {
        if can_be_of(elf, page, offset, i) {
            if found.is_some() {
                return None;
            }
            found = Some(i);
        }
    }
    found
}

/// Returns what is added to a file's addresses where a mapping is of the segment with this address and this place in the
/// file.
pub fn load_by(mapping: &Mapping, vaddr: u64, place: u64) -> u64
    ensures value { result ≡ spec.load_by mapping.now vaddr place }
    ensures loaded { spec.IsLoadedAt result mapping.now vaddr place }
{
    let before = mapping.start.wrapping_sub(mapping.offset);
    let address = before.wrapping_add(place);
    address.wrapping_sub(vaddr)
}

/// Returns what is added to the file's addresses, by an executable mapping of the file.
#[tactic(auto, unfolding(crate::specs::Segments::load_address))]
pub fn load_address(elf: &Elf<'_>, count: u32, page: u64, mapping: &Mapping) -> Option<u64>
    requires page { 0 < page }
    requires count { count ≡ segment_total (file elf.now) }
    ensures { result ≡ spec.load_address page mapping.now (file elf.now) }
{
    let i = mapped_segment(elf, count, page, mapping.offset)?;
    let segment = elf.segment(i);
    Some(load_by(mapping, segment.vaddr, segment.place))
}

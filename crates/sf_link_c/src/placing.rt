//! Where a file is loaded.

ghost use Rattle.std.specs.Prelude.{◌≡◌};
ghost use Rattle.elf_load.specs.Loading.{loading_seen, loading_view};
ghost use Rattle.elf_load.specs.Segments.{IsLoadOf};
ghost use Rattle.sf_link_c.specs.Placing as spec;

use crate::answer::{MADE, NOT_LOADED, REFUSED, UNFIT};
use crate::omissions::flag;
use crate::refusals::{KiblawenRefusal, no_refusal, refusal_shown};
use elf_load::{LoadFault, Loading, Mapping, read_loading};
use elf_read::ElfFault;

/// Where a file is loaded, and which build it is; or why it is loaded nowhere.
#[repr(C)]
#[derive(Clone, Copy)]
pub struct KiblawenPlaced {
    /// The page of the first loaded segment, in the file's addresses.
    pub first: u64,
    /// The first page after the last loaded byte, in the file's addresses.
    pub after: u64,
    /// The load address, which is added to the file's addresses, or 0.
    pub load: u64,
    /// 1 if the mapping can be of exactly one segment, else 0.
    pub has_load: u32,
    /// The place of the build identifier in the file, or 0.
    pub build_id: u64,
    /// The length of the build identifier in bytes, or 0.
    pub build_id_len: usize,
    /// The first fault.
    pub why: KiblawenRefusal,
}

// Returns whether a page has bytes, and a file has fewer than 2^32.
fn is_fit(bytes: &[u8], page: u64) -> bool
    ensures { result ≡ spec.is_fit bytes.now page }
{
    0 < page && bytes.len() < 1 << 32
}

// Returns that a file is loaded nowhere, for a reason.
fn no_place(why: KiblawenRefusal) -> KiblawenPlaced
    ensures { result ≡ spec.no_place why }
{
    KiblawenPlaced {
        first: 0,
        after: 0,
        load: 0,
        has_load: 0,
        build_id: 0,
        build_id_len: 0,
        why,
    }
}

// Returns where a file is loaded, as C has it.
fn place_shown(loading: &Loading<'_>) -> KiblawenPlaced
    ensures { result ≡ spec.place_shown (loading_view loading.now) }
{
    let (build_id, build_id_len) = match loading.build_id {
        Some(id) => (id.place, id.bytes.len()),
        None => (0, 0),
    };
    KiblawenPlaced {
        first: loading.first,
        after: loading.after,
        load: loading.load.unwrap_or(0),
        has_load: flag(loading.load.is_some()),
        build_id,
        build_id_len,
        why: no_refusal(),
    }
}

// Returns that a file is refused.
fn refused(fault: ElfFault) -> KiblawenPlaced
    ensures { result ≡ spec.refused_file fault }
{
    no_place(refusal_shown(&fault.notice(Some(0))))
}

// Returns the answer by what was read of a file, and what C has of it.
fn placed(loading: Result<Loading<'_>, LoadFault>) -> (u32, KiblawenPlaced)
    ensures { result ≡ spec.loading_answer (loading_seen loading.entry) }
{
    match loading {
        Ok(loading) => (MADE, place_shown(&loading)),
        Err(LoadFault::NotLoaded) => (NOT_LOADED, no_place(no_refusal())),
        Err(LoadFault::Elf(fault)) => (REFUSED, refused(fault)),
    }
}

// Returns the answer to a file, and what C has of it.
fn place_of(bytes: &[u8], page: u64, mapping: &Mapping) -> (u32, KiblawenPlaced)
    ensures { result ≡ spec.placing_answer bytes.now page mapping.now.start mapping.now.offset }
{
    if is_fit(bytes, page) {
        placed(read_loading(bytes, page, mapping))
    } else {
        (UNFIT, no_place(no_refusal()))
    }
}

/// Reads where a file is loaded, by the size of a page and an executable mapping of the file that begins at the address
/// `start` with the byte at the place `offset`, as `elf_load::read_loading` does. Returns 0; 1 if no segment is loaded or one
/// reaches into the last page; 2 if the file is refused; 6 if a page has no bytes, or the file has 2^32 or more.
#[unsafe(no_mangle)]
pub extern "C" fn kiblawen_place(
    bytes: &[u8],
    page: u64,
    start: u64,
    offset: u64,
    place: &mut KiblawenPlaced,
) -> u32
    ensures exact { (result, place.new) ≡ spec.placing_answer bytes.now page start offset }
    ensures load { result ≡ 0 → IsLoadOf page (record { start = start; offset = offset }) bytes.now (spec.load_in place.new) }
{
    let (answer, found) = place_of(bytes, page, &Mapping { start, offset });
    *place = found;
    answer
}

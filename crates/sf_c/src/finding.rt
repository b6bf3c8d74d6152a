//! The row that holds at an address.

ghost use Rattle.std.specs.Prelude.{◌≡◌, is_some, unwrap_or, pos, zero};
ghost use Rattle.std.specs.Option.{option_map};
ghost use Rattle.sf_model.specs.Lookup.{found_at};
ghost use Rattle.sf_model.specs.RowBytes.{base_number};
ghost use Rattle.sf_decode.specs.Kept.{functions_lent};
ghost use Rattle.sf_lookup.specs.Lookup.{shown};
ghost use Rattle.sample_walk.specs.Step.{saved_return};
ghost use Rattle.sf_c.specs.Row as spec;

use crate::section::row_in;
use sf_decode::LentSection;
use sf_lookup::Found;
use sf_model::{Base, Key, Ra, Shape};

/// A function, and its row that holds at an address (SFrame Version 2, function descriptor entries and frame row
/// entries).
#[repr(C)]
#[derive(Clone, Copy)]
pub struct KiblawenRow {
    /// The function's first address.
    pub function_start: u64,
    /// The function's size in bytes.
    pub function_size: u32,
    /// The number of bytes after which the function's rows repeat, 0 if they don't.
    pub block_size: u32,
    /// The first offset that the row covers, from the start of the function or of a block.
    pub row_start: u32,
    /// The register that the canonical frame address counts from: 0 the frame pointer, 1 the stack pointer.
    pub base: u32,
    /// The canonical frame address's offset from that register, in bytes.
    pub cfa_offset: i32,
    /// 1 if the return address is saved, 0 if it is in the link register.
    pub ra_saved: u32,
    /// The return address's offset from the canonical frame address if it is saved, else 0.
    pub ra_offset: i32,
    /// 1 if the frame pointer is saved, 0 if it still has its value.
    pub fp_saved: u32,
    /// The frame pointer's offset from the canonical frame address if it is saved, else 0.
    pub fp_offset: i32,
    /// 0 if the return address is unsigned, 1 if it is signed by key A, 2 by key B.
    pub key: u32,
}

/// Returns a test as a number.
pub fn flag(is: bool) -> u32
    ensures { result ≡ spec.flag is }
{
    if is { 1 } else { 0 }
}

/// Returns the number of the key of a signed return address.
pub fn key_number(key: Option<Key>) -> u32
    ensures { result ≡ spec.key_code key }
{
    match key {
        None => 0,
        Some(Key::A) => 1,
        Some(Key::B) => 2,
    }
}

/// Returns the number of the base of the canonical frame address.
fn base_number(base: Base) -> u32
    ensures { result ≡ base_number base }
{
    match base {
        Base::Fp => 0,
        Base::Sp => 1,
    }
}

/// Returns the number of bytes after which a function's rows repeat, 0 if they don't.
fn block_size(shape: Shape) -> u32
    ensures { result ≡ spec.block_size shape }
{
    match shape {
        Shape::Plain => 0,
        Shape::Repeat(size) => u32::from(size),
    }
}

/// Returns the offset at which the return address is saved, or `None` if it is in the link register.
fn return_offset(ra: Ra) -> Option<i32>
    ensures { result ≡ saved_return ra }
{
    match ra {
        Ra::Fixed => Some(-8),
        Ra::Link => None,
        Ra::At(offset) => Some(offset),
    }
}

// Returns a function and its row, as C has them.
fn row_shown(found: &Found) -> KiblawenRow
    ensures { result ≡ spec.row_shown found.now }
{
    let content = &found.row.content;
    let ra = return_offset(content.ra);
    KiblawenRow {
        function_start: found.func.start,
        function_size: found.func.size,
        block_size: block_size(found.func.shape),
        row_start: found.row.start,
        base: base_number(content.base),
        cfa_offset: content.cfa,
        ra_saved: flag(ra.is_some()),
        ra_offset: ra.unwrap_or(0),
        fp_saved: flag(content.fp.is_some()),
        fp_offset: content.fp.unwrap_or(0),
        key: key_number(content.signed.then_some(found.func.key)),
    }
}

/// Looks an address up, and returns whether a row holds there. If one does, the function and the row are written to `row`.
/// If none does, as in a closed section, `row` stays as it was.
#[unsafe(no_mangle)]
pub extern "C" fn kiblawen_find(section: &LentSection<'_>, pc: u64, row: &mut KiblawenRow) -> bool
    ensures found { result ≡ is_some (found_at (functions_lent section.now) pc) }
    ensures row { row.new ≡ spec.row_or row.old (option_map shown (found_at (functions_lent section.now) pc)) }
{
    match row_in(section, pc) {
        Some(found) => {
            *row = row_shown(&found);
            true
        }
        None => false,
    }
}

//! The length of a row (SFrame Version 2, frame row entries).

ghost use Rattle.std.specs.Prelude.{◌≡◌, ◌≤◌, ℕ, IsTrue, length, option_to_list};
ghost use Rattle.sf_model.specs.RowBytes.{holds_row_offsets, return_offset, row_offsets, spelled_row};
ghost use Rattle.sf_model.specs.Width.{IsWidth, NoneLess};
ghost use Rattle.sf_sizes.specs.RowLength.{offset_width, row_at, row_len};

use crate::width::{bytes_of, fits_byte, fits_byte_if_any, fits_half, fits_half_if_any};
use sf_model::{Content, Ra};

/// Returns the width of a row's offsets: 0, 1 or 2 for 1, 2 or 4 signed bytes, the least that holds each of
/// them.
#[inline(always)]
pub fn offset_size(content: &Content) -> u8
    ensures value { result ≡ offset_width content.now }
    ensures width { IsWidth (holds_row_offsets content.now) result }
    ensures least { NoneLess (holds_row_offsets content.now) result }
{
    if fit_bytes(content) {
        0
    } else if fit_halves(content) {
        1
    } else {
        2
    }
}

/// Returns how many bytes a row has if its start has the width `kind`: the start, the info byte and the
/// offsets. AMD64 has 1 or 2 offsets, AArch64 has 1 to 3. A row has at most 17 bytes.
#[tactic(auto, using(crate::proofs::Spelled::spelled_is))]
#[inline(always)]
pub fn row_bytes(kind: u8, content: &Content) -> u32
    requires { kind ≤ 2 }
    ensures value { result ≡ row_len kind content.now }
    ensures spelled { (start : ℕ) → result ≡ length (spelled_row kind (offset_width content.now) (row_at start content.now)) }
    ensures most { result ≤ 17 }
{
    bytes_of(kind) + 1 + u32::from(offset_count(content)) * bytes_of(offset_size(content))
}

/// Returns how many offsets a row has: the canonical frame address's, and those of a saved return address
/// and of a saved frame pointer.
#[inline(always)]
pub fn offset_count(content: &Content) -> u8
    ensures value { result ≡ length (row_offsets content.now) }
    ensures most { result ≤ 3 }
{
    let saved = saved_offset(content.ra);
    1 + u8::from(saved.is_some()) + u8::from(content.fp.is_some())
}

/// Returns the return address's offset from the canonical frame address, if the row has one of its own.
#[inline(always)]
pub fn saved_offset(ra: Ra) -> Option<i32>
    ensures { option_to_list result ≡ return_offset ra }
{
    match ra {
        Ra::At(offset) => Some(offset),
        Ra::Fixed | Ra::Link => None,
    }
}

/// Returns whether one byte holds each offset.
#[inline(always)]
fn fit_bytes(content: &Content) -> bool
    ensures { result ≡ holds_row_offsets content.now 0 }
{
    let cfa = fits_byte(content.cfa);
    let saved = fits_byte_if_any(saved_offset(content.ra));
    let fp = fits_byte_if_any(content.fp);
    cfa && saved && fp
}

/// Returns whether two bytes hold each offset; four always do.
#[inline(always)]
fn fit_halves(content: &Content) -> bool
    ensures value { result ≡ holds_row_offsets content.now 1 }
    ensures four { IsTrue (holds_row_offsets content.now 2) }
{
    let cfa = fits_half(content.cfa);
    let saved = fits_half_if_any(saved_offset(content.ra));
    let fp = fits_half_if_any(content.fp);
    cfa && saved && fp
}

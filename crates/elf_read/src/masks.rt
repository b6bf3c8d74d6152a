//! Which pieces of a file have a zero byte: a bit for each, 64 in a mask, from the lowest on.

ghost use Rattle.std.specs.Prelude.{◌<◌, ◌≤◌, ◌≡◌, ◌^◌, ◌+◌, ◌*◌, ℕ, length};
ghost use Rattle.std.specs.Int.{bit_at};
ghost use Rattle.elf_read.specs.Number.{HasNoZero};
ghost use Rattle.elf_read.specs.Masks.{IsClear, HasNoZeroWhereClear};

use crate::first_zero::bytes_before_zero;
use crate::number::bytes_at;

/// The most masks of a file.
pub const MASKS: usize = 1024;

/// How many pieces a mask has.
pub const PIECES: u64 = 64;

// Returns the mask of 64 pieces from this one on.
fn mask_from(file: &[u8], first: u64, piece_len: u64) -> u64
    requires small { (first < 2 ^ 24) × (piece_len ≤ 2 ^ 32) }
    ensures { (k : ℕ) → k < 64 → bit_at result k ≡ 0 → HasNoZero file.now ((first + k) * piece_len) piece_len }
{
    let mut mask = 0;
    for k in 0..PIECES {
        let piece = bytes_at(file, (first + k) * piece_len, piece_len);
        if (bytes_before_zero(piece) as u64) < piece_len {
            mask |= 1u64 << k;
        }
    }
    mask
}

/// Writes the masks of a file's pieces. Each byte of the pieces is looked at once.
pub fn write_masks(file: &[u8], piece_len: u64, masks: &mut [u64])
    requires few { length masks.old ≤ 1024 }
    requires small { piece_len ≤ 2 ^ 32 }
    ensures clear { HasNoZeroWhereClear file.now piece_len masks.new }
    ensures len { length masks.new ≡ length masks.old }
{
    for at in 0..masks.len() {
        masks[at] = mask_from(file, at as u64 * PIECES, piece_len);
    }
}

// Returns the first piece from a mask on whose bit is 1, or else the first one past the masks.
fn first_from_mask(masks: &[u64], first: usize) -> u64
    requires first { first ≤ length masks.now }
    requires few { length masks.now ≤ 1024 }
    ensures clear { (piece : ℕ) → first * 64 ≤ piece → piece < result → IsClear masks.now piece }
    ensures later { first * 64 ≤ result }
    ensures within { result ≤ 65536 }
{
    for at in first..masks.len() {
        if masks[at] != 0 {
            return at as u64 * PIECES + u64::from(masks[at].trailing_zeros());
        }
    }
    masks.len() as u64 * PIECES
}

/// Returns the first piece from this one on whose bit isn't 0, or else the first one past the masks. A piece past the masks is
/// returned itself.
pub fn next_piece(masks: &[u64], piece: u64) -> u64
    requires { length masks.now ≤ 1024 }
    ensures clear { (before : ℕ) → piece ≤ before → before < result → IsClear masks.now before }
    ensures later { piece ≤ result }
    ensures within { result ≤ piece + 65536 }
{
    let at = piece / PIECES;
    if at >= masks.len() as u64 {
        return piece;
    }
    let rest = masks[at as usize] >> (piece % PIECES);
    if rest != 0 {
        return piece + u64::from(rest.trailing_zeros());
    }
    first_from_mask(masks, at as usize + 1)
}

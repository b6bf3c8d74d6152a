//! The first zero byte of bytes.

ghost use Rattle.std.specs.Prelude.{◌≡◌, ◌≤◌, ◌==◌, length};
ghost use Rattle.std.specs.List.{list_any, position_or_len};

use crate::text::text_len;

/// How many bytes are looked at together.
const STRETCH: usize = 64;

// Returns whether one of the bytes is zero. All are looked at, so that the machine can take many at once.
#[inline(always)]
fn has_zero(bytes: &[u8]) -> bool
    ensures { result ≡ list_any (λ b. b == 0) bytes.now }
{
    let mut found = false;
    for byte in bytes {
        found |= *byte == 0;
    }
    found
}

// Returns how many bytes the stretches have that come before the first one with a zero byte.
fn len_without_zero(bytes: &[u8]) -> usize
    ensures { result ≤ position_or_len (λ b. b == 0) bytes.now }
{
    for index in 0..bytes.len() / STRETCH {
        let (_, rest) = bytes.split_at(index * STRETCH);
        if has_zero(rest.split_at(STRETCH).0) {
            return index * STRETCH;
        }
    }
    bytes.len() / STRETCH * STRETCH
}

/// Returns how many bytes come before the first zero byte, or how many there are where none is zero.
pub fn bytes_before_zero(bytes: &[u8]) -> usize
    ensures value { result ≡ position_or_len (λ b. b == 0) bytes.now }
    ensures within { result ≤ length bytes.now }
{
    let len = len_without_zero(bytes);
    let (_, rest) = bytes.split_at(len);
    len + text_len(rest).unwrap_or(rest.len())
}

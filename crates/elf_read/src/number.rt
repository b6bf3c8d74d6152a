//! Numbers and bytes at places. What lies past the end reads as 0 or as no bytes; the checks rule it out.

ghost use Rattle.std.specs.Prelude.{◌≡◌, ◌<◌, ◌≤◌, ◌-◌, drop, length};
ghost use Rattle.elf_read.specs.Number.{front_number, field_at, window, lies_in, has_flag};

use byteorder::{ByteOrder, LittleEndian};

/// Returns the bytes from a place on.
pub fn bytes_from(bytes: &[u8], place: u64) -> &[u8]
    ensures rest { result.now ≡ drop place bytes.now }
    ensures len { length result.now ≡ length bytes.now - place }
{
    match bytes.get(place as usize..) {
        Some(rest) => rest,
        None => &[],
    }
}

/// Returns `size` bytes from a place on.
pub fn bytes_at(bytes: &[u8], place: u64, size: u64) -> &[u8]
    ensures bytes { result.now ≡ window place size bytes.now }
    ensures within { 0 < length result.now → place < length bytes.now }
    ensures small { length result.now ≤ length bytes.now }
{
    let rest = bytes_from(bytes, place);
    match rest.get(..size as usize) {
        Some(front) => front,
        None => rest,
    }
}

/// Returns the byte at a place.
#[tactic(auto, unfolding(crate::specs::Number::front_number))]
pub fn u8_at(bytes: &[u8], place: u64) -> u8
    ensures { result ≡ field_at 1 place bytes.now }
{
    match bytes_from(bytes, place) {
        [byte, ..] => *byte,
        [] => 0,
    }
}

/// Returns the number in two bytes at a place.
#[tactic(auto, unfolding(crate::specs::Number::front_number))]
pub fn u16_at(bytes: &[u8], place: u64) -> u16
    ensures { result ≡ field_at 2 place bytes.now }
{
    let rest = bytes_from(bytes, place);
    if rest.len() < 2 {
        return 0;
    }
    LittleEndian::read_u16(rest)
}

/// Returns the number in four bytes at a place.
#[tactic(auto, unfolding(crate::specs::Number::front_number))]
pub fn u32_at(bytes: &[u8], place: u64) -> u32
    ensures { result ≡ field_at 4 place bytes.now }
{
    let rest = bytes_from(bytes, place);
    if rest.len() < 4 {
        return 0;
    }
    LittleEndian::read_u32(rest)
}

/// Returns the number in eight bytes at a place.
#[tactic(auto, unfolding(crate::specs::Number::front_number))]
pub fn u64_at(bytes: &[u8], place: u64) -> u64
    ensures { result ≡ field_at 8 place bytes.now }
{
    let rest = bytes_from(bytes, place);
    if rest.len() < 8 {
        return 0;
    }
    LittleEndian::read_u64(rest)
}

/// Returns whether `count` entries of a length from a place on lie in `len` bytes.
pub fn lies(len: u64, place: u64, count: u64, entry: u32) -> bool
    ensures { result ≡ lies_in len place count entry }
{
    u128::from(place) + u128::from(entry) * u128::from(count) <= u128::from(len)
}

/// Returns whether a flag that is a power of two is set.
pub fn flag_is_set(flags: u64, flag: u64) -> bool
    requires { 0 < flag }
    ensures { result ≡ has_flag flags flag }
{
    flags / flag % 2 == 1
}

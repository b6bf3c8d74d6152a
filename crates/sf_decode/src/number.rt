//! Numbers at places, little-endian. What lies past the end reads as 0; the checks rule it out.

ghost use Rattle.std.specs.Prelude.{◌≡◌, ◌<◌, ◌≤◌, ◌^◌, slice_index, take, drop};
ghost use Rattle.sf_model.specs.Section.{number_in};
ghost use Rattle.sf_decode.specs.Row as row;

/// Returns the byte at a place.
#[inline(always)]
pub fn byte_at(bytes: &[u8], place: u64) -> u8
    ensures { result ≡ slice_index bytes.now place }
{
    match bytes.get(place as usize) {
        Some(byte) => *byte,
        None => 0,
    }
}

/// Returns the number in two bytes at a place.
#[inline(always)]
pub fn u16_at(bytes: &[u8], place: u64) -> u16
    requires { place < 2 ^ 63 }
    ensures { result ≡ number_in 2 place bytes.now }
{
    if place + 2 > bytes.len() as u64 {
        return u16_at_end(bytes, place);
    }
    let i = place as usize;
    u16::from_le_bytes([bytes[i], bytes[i + 1]])
}

// Returns the number in two bytes at a place, where the bytes may end before.
#[inline(never)]
fn u16_at_end(bytes: &[u8], place: u64) -> u16
    requires { place < 2 ^ 63 }
    ensures { result ≡ number_in 2 place bytes.now }
{
    u16::from_le_bytes([byte_at(bytes, place), byte_at(bytes, place + 1)])
}

/// Returns the number in four bytes at a place: one test of the length, and one read.
#[inline(always)]
pub fn u32_at(bytes: &[u8], place: u64) -> u32
    requires { place < 2 ^ 63 }
    ensures { result ≡ number_in 4 place bytes.now }
{
    if place + 4 > bytes.len() as u64 {
        return u32_at_end(bytes, place);
    }
    let i = place as usize;
    u32::from_le_bytes([bytes[i], bytes[i + 1], bytes[i + 2], bytes[i + 3]])
}

// Returns the number in four bytes at a place, where the bytes may end before.
#[inline(never)]
fn u32_at_end(bytes: &[u8], place: u64) -> u32
    requires { place < 2 ^ 63 }
    ensures { result ≡ number_in 4 place bytes.now }
{
    u32::from_le_bytes([
        byte_at(bytes, place),
        byte_at(bytes, place + 1),
        byte_at(bytes, place + 2),
        byte_at(bytes, place + 3),
    ])
}

/// Returns the unsigned number of a width at a place.
#[tactic(auto, unfolding(crate::specs::Row::unsigned_in))]
#[inline(always)]
pub fn unsigned_at(bytes: &[u8], width: u8, place: u64) -> u32
    requires { place < 2 ^ 63 }
    ensures { result ≡ row.unsigned_in width place bytes.now }
{
    match width {
        0 => u32::from(byte_at(bytes, place)),
        1 => u32::from(u16_at(bytes, place)),
        _ => u32_at(bytes, place),
    }
}

/// Returns the signed number of a width at a place.
#[tactic(auto, unfolding(crate::specs::Row::signed_in))]
#[inline(always)]
pub fn signed_at(bytes: &[u8], width: u8, place: u64) -> i32
    requires { place < 2 ^ 63 }
    ensures { result ≡ row.signed_in width place bytes.now }
{
    match width {
        0 => i32::from(byte_at(bytes, place).cast_signed()),
        1 => i32::from(u16_at(bytes, place).cast_signed()),
        _ => u32_at(bytes, place).cast_signed(),
    }
}

/// Returns how many bytes a number of a width has.
#[inline(always)]
pub fn number_len(width: u8) -> u64
    ensures value { result ≡ row.number_len width }
    ensures some { 1 ≤ result }
    ensures most { result ≤ 4 }
{
    match width {
        0 => 1,
        1 => 2,
        _ => 4,
    }
}

/// Returns `size` bytes from a place on.
pub fn bytes_at(bytes: &[u8], place: u64, size: u64) -> &[u8]
    ensures { result.now ≡ take size (drop place bytes.now) }
{
    let rest = match bytes.get(place as usize..) {
        Some(rest) => rest,
        None => &[],
    };
    match rest.get(..size as usize) {
        Some(front) => front,
        None => rest,
    }
}

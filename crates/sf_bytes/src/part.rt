//! A lent slice with the place of its first byte.

ghost use Rattle.std.specs.Prelude.{◌<◌, ◌+◌, ◌^◌, length};

/// Bytes that are lent from a file or section, and the place of the first of them there, counted in bytes
/// from 0.
#[derive(Clone, Copy)]
pub struct Part<'a> {
    /// The bytes that are left.
    pub bytes: &'a [u8],
    /// The place of the first of the bytes that are left.
    pub place: u64,
    ghost in_range: { place + length bytes.now < 2 ^ 64 },
}

//! A call frame section that is read.

ghost use Rattle.std.specs.Prelude.{◌<◌, ◌^◌, length};

use sf_model::Arch;

/// A call frame section and where it comes from.
#[derive(Clone, Copy)]
pub struct CallFrameSection<'a> {
    /// The machine of its input.
    pub arch: Arch,
    /// The number of its input.
    pub item: u32,
    /// Its number in its file, 0 for a bare one.
    pub number: u32,
    /// Its bytes.
    pub bytes: &'a [u8],
    /// Its address minus the shift, modulo 2^64.
    pub address: u64,
    /// How far the addresses of its file are moved.
    pub shift: u64,
    ghost small: { length bytes.now < 2 ^ 32 },
}

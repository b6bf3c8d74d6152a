//! The content of one row: how the caller's frame is recovered (SFrame Version 2, frame row entries).

ghost use Rattle.std.specs.Prelude.{◌≡◌};
ghost use Rattle.sf_model.specs.Content.{content_fits};

use crate::machine::{Arch, Base};

/// Where the return address is.
#[derive(Clone, Copy, Debug, PartialEq, Eq)]
pub enum Ra {
    /// At the fixed offset -8 from the canonical frame address, on AMD64.
    Fixed,
    /// Still in the link register x30, on AArch64.
    Link,
    /// In the eight bytes at this offset from the canonical frame address, on AArch64.
    At(i32),
}

/// One row's content: the canonical frame address is `base + cfa`, in bytes modulo 2^64.
#[derive(Clone, Copy, Debug, PartialEq, Eq)]
pub struct Content {
    /// The register that the canonical frame address counts from.
    pub base: Base,
    /// The canonical frame address's offset from the base register, in bytes.
    pub cfa: i32,
    /// Where the return address is.
    pub ra: Ra,
    /// The saved frame pointer's offset from the canonical frame address, or none if it isn't saved.
    pub fp: Option<i32>,
    /// Whether the return address is signed, on AArch64.
    pub signed: bool,
}

/// Returns whether a row of this machine can have this content. On AMD64 the return address is fixed and
/// unsigned; on AArch64 it is in the link register or saved, and a saved frame pointer needs a saved return
/// address.
pub fn fits(arch: Arch, content: &Content) -> bool
    ensures { result ≡ content_fits arch content.now }
{
    match (arch, content.ra) {
        (Arch::Amd64, Ra::Fixed) => !content.signed,
        (Arch::Amd64, Ra::Link) => false,
        (Arch::Amd64, Ra::At(_)) => false,
        (Arch::Aarch64, Ra::Fixed) => false,
        (Arch::Aarch64, Ra::Link) => content.fp.is_none(),
        (Arch::Aarch64, Ra::At(_)) => true,
    }
}

//! What differs by machine, each under one name.

/// The machine whose call frames are described. Both are little-endian.
#[derive(Clone, Copy, Debug, PartialEq, Eq)]
pub enum Arch {
    /// AMD64, SFrame's abi and architecture 3.
    Amd64,
    /// AArch64 little-endian, SFrame's abi and architecture 2.
    Aarch64,
}

/// The register that a canonical frame address counts from.
#[derive(Clone, Copy, Debug, PartialEq, Eq)]
pub enum Base {
    /// The frame pointer: rbp, or x29.
    Fp,
    /// The stack pointer: rsp, or sp.
    Sp,
}

/// The key that signs return addresses on AArch64. On AMD64 it is always `A`.
#[derive(Clone, Copy, Debug, PartialEq, Eq)]
pub enum Key {
    /// Pointer authentication by key A.
    A,
    /// Pointer authentication by key B, the augmentation letter `B`.
    B,
}

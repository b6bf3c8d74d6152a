//! The relocation types that call frame information uses, by the standards' names (System V psABI for AMD64,
//! "Relocation Types"; ELF for the Arm 64-bit Architecture, "Relocation types").

/// Nothing is written, on AMD64.
pub const R_X86_64_NONE: u32 = 0;
/// S + A in eight bytes.
pub const R_X86_64_64: u32 = 1;
/// S + A - P in four bytes, a signed number.
pub const R_X86_64_PC32: u32 = 2;
/// S + A in four bytes, a number without sign.
pub const R_X86_64_32: u32 = 10;
/// S + A in four bytes, a signed number.
pub const R_X86_64_32S: u32 = 11;
/// S + A - P in eight bytes.
pub const R_X86_64_PC64: u32 = 24;

/// Nothing is written, on AArch64.
pub const R_AARCH64_NONE: u32 = 0;
/// S + A in eight bytes.
pub const R_AARCH64_ABS64: u32 = 257;
/// S + A in four bytes, a number with or without sign.
pub const R_AARCH64_ABS32: u32 = 258;
/// S + A - P in eight bytes.
pub const R_AARCH64_PREL64: u32 = 260;
/// S + A - P in four bytes, a signed number.
pub const R_AARCH64_PREL32: u32 = 261;

//! The numbers of the formats, by the standards' names (ELF64 gABI, "Program Header"; GNU notes).

/// The type of a segment that is loaded.
pub const PT_LOAD: u32 = 1;

/// The type of a note with a build identifier.
pub const NT_GNU_BUILD_ID: u32 = 3;

/// The name of a note with a build identifier, with its zero byte.
pub const GNU: &[u8] = b"GNU\0";

/// The first number that is no address.
pub const ADDRESS_END: u128 = 1 << 64;

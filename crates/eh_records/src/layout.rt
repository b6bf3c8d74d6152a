//! The numbers of the format, by the standard's names.

/// The length word of a 64-bit length.
pub const EXTENDED_LENGTH: u32 = 0xffff_ffff;
/// The length in bytes of the length word, and of the word after it.
pub const WORD_LEN: u32 = 4;
/// The word after the length of a common information entry.
pub const CIE_ID: u32 = 0;
/// The pointer encoding that means no pointer.
pub const OMIT: u8 = 0xff;
/// The length in bytes of an absolute pointer.
pub const ABSPTR_LEN: u8 = 8;

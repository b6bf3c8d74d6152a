//! The numbers of the formats, by the standards' names (ELF64 gABI).

/// The name of the SFrame section.
pub const SFRAME: &[u8] = b".sframe";

/// The type of a segment of notes.
pub const PT_NOTE: u32 = 4;

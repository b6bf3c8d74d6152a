//! The numbers of the format that are written (SFrame Version 2): those of `sf_decode`, as the writer counts them.

use sf_decode::layout;

/// Functions are sorted by start, and a start counts from the address of its own field.
pub(crate) const FLAGS: u8 = layout::SORTED | layout::COUNTS_FROM_FIELD;
/// The header's length in bytes, without an auxiliary header.
pub(crate) const HEADER_LEN: u32 = layout::HEADER_LEN as u32;
/// The length of a function descriptor entry in bytes.
pub(crate) const FUNCTION_ENTRY_LEN: u32 = layout::FUNCTION_ENTRY_LEN as u32;

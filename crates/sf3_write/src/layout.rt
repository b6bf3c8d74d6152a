//! The numbers of the format that are written (SFrame Version 3). Those that it shares with Version 2 are in `sf_decode`.

use sf_decode::layout;

/// sfp_version: SFRAME_VERSION_3.
pub(crate) const VERSION: u8 = 3;
/// Functions are sorted by start, and a start counts from the address of its own field.
pub(crate) const FLAGS: u8 = layout::SORTED | layout::COUNTS_FROM_FIELD;
/// The header's length in bytes, without an auxiliary header.
pub(crate) const HEADER_LEN: u32 = layout::HEADER_LEN as u32;
/// The length of a function descriptor entry of the index in bytes.
pub(crate) const FUNCTION_ENTRY_LEN: u32 = 16;
/// The length of a function's attributes in bytes.
pub(crate) const ATTRIBUTES_LEN: u32 = 5;
/// sfda_func_info2: SFRAME_FDE_TYPE_DEFAULT.
pub(crate) const DEFAULT_TYPE: u8 = 0;

//! The sizes of an SFrame Version 2 row: how wide its start and its offsets are, and how many bytes it has
//! in all.
//!
//! A width is a number from 0 to 2, for 1, 2 and 4 bytes. Each width that is returned here is the least
//! that holds what it is to hold, and a row's length is that of its bytes: `holds_unsigned`,
//! `holds_row_offsets` and `spelled_row` of `sf_model` define these. No call allocates or fails.
#![tactic(auto)]

mod row_length;
mod width;

pub use row_length::{offset_count, offset_size, row_bytes, saved_offset};
pub use width::row_type;

//! Bytes that carry their place: reads of fixed width, LEB128 numbers and texts, all little-endian.
//!
//! A [`Part`] is a lent slice with the place of its first byte in the file or section that the slice is
//! from. A read takes its field from the front: on `Ok` the part is what is left, and on a fault, which
//! carries the place of the refused field, the part is unchanged.
//!
//! The meaning of a part is a cursor, a place and the bytes left (`specs/Cursor.antt`). Each read has a
//! function on cursors that returns the value and the next cursor or the first fault; its contract says
//! that the read gives the same. Layers above define what they read with the same functions.
//!
//! A [`FilePart`] has bytes that were read of a file, and their place there (`specs/Parts.antt`).
//!
//! The caller owes that a part's place and length together stay below 2^64. Nothing allocates.
#![tactic(auto)]

mod fault;
mod field;
mod file_part;
mod leb;
mod part;
mod reads;
mod text;

pub use fault::ByteFault;
pub use field::{Field, Plain, Values};
pub use file_part::FilePart;
pub use part::Part;

//! A field that a relocation writes.

use crate::table::Range;

/// A field that a relocation writes.
#[derive(Clone, Copy, PartialEq, Eq)]
pub struct RelocatedField {
    /// Its place in the section.
    pub place: u64,
    /// The relocation's number.
    pub index: u32,
    /// How wide it is, and what it can hold.
    pub range: Range,
    /// Its value, if that is known.
    pub value: Option<u64>,
    /// True if the symbol lies in a section that is dropped.
    pub dropped: bool,
}

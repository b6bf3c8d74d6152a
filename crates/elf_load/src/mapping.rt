//! A mapping of a file.

/// An executable mapping of a file in a process.
#[derive(Clone, Copy)]
pub struct Mapping {
    /// Its first address.
    pub start: u64,
    /// The place in the file of the byte at that address.
    pub offset: u64,
}

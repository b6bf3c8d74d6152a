//! The files that a process had mapped.

/// An entry of the note on mapped files: the addresses from `start` up to `end` are those of a file's bytes from `offset`
/// on.
#[derive(Clone, Copy)]
pub struct Entry<'a> {
    /// The first address.
    pub start: u64,
    /// The address after the last.
    pub end: u64,
    /// The place in the file, in bytes.
    pub offset: u64,
    /// The file's pathname, without the ` (deleted)` of a file that was deleted.
    pub name: &'a [u8],
}

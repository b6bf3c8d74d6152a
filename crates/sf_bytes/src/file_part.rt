//! A part of a file that was read.

/// Bytes of a file, and the place of the first of them there, counted from 0.
#[derive(Drop)]
pub struct FilePart {
    /// The place of the first of the bytes.
    pub place: u64,
    /// The bytes.
    pub bytes: Vec<u8>,
}

//! What is read of a frame description entry before its rows.

use crate::machine::Key;

/// A frame description entry's function, without its rows (LSB Core, `.eh_frame`).
#[derive(Clone, Copy, PartialEq, Eq)]
pub struct FdeFacts {
    /// The function's first address.
    pub start: u64,
    /// Its size in bytes.
    pub size: u64,
    /// The return column of its common information entry.
    pub column: u64,
    /// Whether its augmentation has the letter `S`: the frame is a signal frame.
    pub signal: bool,
    /// The key of its signed return addresses.
    pub key: Key,
}

//! Bytes of a core file that were not read, and are needed.

/// A part of a core file's memory is needed that was not read: the one that has this address.
#[derive(Clone, Copy, Debug, PartialEq, Eq)]
pub struct Unread(pub u64);

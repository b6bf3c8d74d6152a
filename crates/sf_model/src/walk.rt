//! What a walk of a thread's stack lists.

/// A frame of a walk.
#[derive(Clone, Copy, PartialEq, Eq)]
pub struct Frame {
    /// Its program counter.
    pub pc: u64,
    /// Its canonical frame address, or none if no row holds at the program counter.
    pub cfa: Option<u64>,
}

/// Why a walk stops.
#[derive(Clone, Copy, Debug, PartialEq, Eq)]
pub enum Stop {
    /// As many frames are listed as were asked for.
    Depth,
    /// No row holds at this address.
    Outside(u64),
    /// The eight bytes from this address on, where a value is saved, can't be read.
    Unreadable(u64),
    /// This return address is signed, and the signature bits of the thread are not known.
    Signed(u64),
}

/// The frames of a walk from the innermost on, and why it stopped.
#[derive(Drop)]
pub struct Walk {
    /// The frames.
    pub frames: Vec<Frame>,
    /// Why no more are listed.
    pub stop: Stop,
}

//! Why a pointer could not be passed.

/// A pointer that can't be passed.
#[derive(Clone, Copy, Debug, PartialEq, Eq)]
pub enum PointerFault {
    /// The format is unknown, or the application is aligned.
    Encoding,
    /// Fewer bytes are left than the pointer has.
    Short,
    /// Its LEB128 number has more than ten bytes or doesn't fit 64 bits.
    Leb,
}

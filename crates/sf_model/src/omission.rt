//! Why a function is omitted from a section, and where a function came from.

/// Why SFrame Version 2 can't express a function, in the order in which the reasons are checked.
#[derive(Clone, Copy, Debug, PartialEq, Eq)]
pub enum Reason {
    /// Its size is 0.
    EmptyRange,
    /// Its size is 2^32 or more.
    SizeTooLarge,
    /// Its return column is not the machine's: 16 on AMD64, 30 on AArch64.
    ReturnColumn,
    /// It is a signal frame.
    SignalFrame,
    /// A row has no rule for the canonical frame address.
    NoCfa,
    /// The canonical frame address is an expression.
    CfaExpression,
    /// The canonical frame address counts from a register that is neither the stack pointer nor the
    /// frame pointer.
    CfaRegister,
    /// The canonical frame address's offset doesn't fit 32 signed bits.
    CfaOffset,
    /// The stack pointer has a rule of its own.
    SpRule,
    /// The return address has a rule that isn't an offset (or, on AArch64, the same value).
    RaRule,
    /// The return address's offset isn't -8 on AMD64, or doesn't fit 32 signed bits on AArch64.
    RaOffset,
    /// The frame pointer has a rule that is neither an offset nor the same value.
    FpRule,
    /// The frame pointer's offset doesn't fit 32 signed bits.
    FpOffset,
    /// On AArch64 the frame pointer is saved and the return address is not.
    FpWithoutRa,
    /// On AArch64 the register of the sign state has a rule of its own.
    SignState,
}

/// A reason, and for a row's reason the first offset at which it holds.
#[derive(Clone, Copy, Debug, PartialEq, Eq)]
pub struct Omission {
    /// Why the function is omitted.
    pub reason: Reason,
    /// The least offset, in bytes from the function's start, at which a row has a reason. None for the four
    /// reasons of the whole function.
    pub offset: Option<u32>,
}

/// Which record a function came from.
#[derive(Clone, Copy, PartialEq, Eq)]
pub struct Origin {
    /// The number of the input among all items.
    pub item: u32,
    /// The number of its `.eh_frame` section, 0 for a bare section.
    pub section: u32,
    /// The record's place in that section.
    pub place: u32,
}

/// An omitted function.
#[derive(Clone, Copy, PartialEq, Eq)]
pub struct Omitted {
    /// Its first address.
    pub start: u64,
    /// Its size in bytes.
    pub size: u64,
    /// The record that it came from.
    pub origin: Origin,
    /// Why and where.
    pub omission: Omission,
}

/// The addresses of a function, kept or omitted.
#[derive(Clone, Copy, PartialEq, Eq)]
pub struct Span {
    /// Its first address.
    pub start: u64,
    /// Its size in bytes.
    pub size: u64,
    /// The record that it came from.
    pub origin: Origin,
}

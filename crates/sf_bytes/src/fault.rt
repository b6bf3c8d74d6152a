//! Why a read was refused.

/// A refused read, with the place of the field's first byte.
#[derive(Clone, Copy, Debug, PartialEq, Eq)]
pub enum ByteFault {
    /// Fewer bytes are left than the field has, or no zero byte ends the text.
    Short(u64),
    /// A LEB128 number (DWARF 5, section 7.6) has more than ten bytes or a value outside 64 bits.
    Leb(u64),
}
